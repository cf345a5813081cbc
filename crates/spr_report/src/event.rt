//! The lines of a file's log.

ghost use Rattle.std.specs.Prelude.{◌≡◌, ◌++◌, ◌∷◌, [], IfSome, OnOk, Some, map};
ghost use Rattle.std.specs.Fmt.{decimal};
ghost use Rattle.hex.specs.Hex.{encode_lower};
ghost use Rattle.hist_plain.specs.Event.{node_of};
ghost use Rattle.text_words.specs.Lines.{line_of, spaced};
ghost use Rattle.script_meaning.specs.Stack.{name_in, node_names};
ghost use Rattle.tower_log.specs.Log.{bytes_with};
ghost use Rattle.spr_report.specs.Heads.{head_bytes};
ghost use Rattle.spr_report.specs.OperationNames.{operation_name};
ghost use Rattle.spr_report.specs.Tracing.{IsNextOf};
ghost use Rattle.spr_report.specs.Traced.{traced_by};
ghost use Rattle.spr_report.specs.Report.{op_words, keep_word, event_words, told_words, heads_line, message_line, entry_line};

use crate::bytes::head_bytes;
use crate::heads::Heads;
use crate::operation_names::operation_name;
use crate::tracing::Tracer;
use hist_plain::{Answer, Event, Keep, Op};
use stack_accept::NodeEntry;
use std::alloc::{AllocError, Global};
use text_words::{put, put_hex, put_number, put_spaced_number, put_word};
use tower_log::Entry;

/// The names of the callers and the nodes, by their numbers.
#[derive(Clone, Copy)]
pub(crate) struct Names<'a> {
    /// The clients in order, and then `mount`.
    pub callers: &'a [&'a [u8]],
    /// The nodes of the tree.
    pub nodes: &'a [NodeEntry],
}

/// The name of a caller; a number that has none has the empty name.
fn caller_name<'a>(callers: &[&'a [u8]], number: u32) -> &'a [u8]
    ensures { result.now ≡ name_in (map (λ n. n.now) callers.now) number }
{
    match callers.get(number as usize) {
        Some(name) => name,
        None => &[],
    }
}

/// The name of a node; a number that has none has the empty name.
fn node_name(nodes: &[NodeEntry], number: u32) -> &[u8]
    ensures { result.now ≡ name_in (node_names nodes.now) number }
{
    match nodes.get(number as usize) {
        Some(node) => node.name.as_str().as_bytes(),
        None => &[],
    }
}

/// Appends words and numbers behind them, each with a space before it.
fn put_numbers(out: &mut Vec<u8>, word: &[u8], numbers: &[u32]) -> Result<(), AllocError>
    ensures { OnOk result (out.new.items ≡ out.old.items ++ spaced (word.now ∷ map (λ n. decimal n) numbers.now)) }
{
    put_word(out, word)?;
    for number in numbers {
        put_spaced_number(out, u64::from(*number))?;
    }
    Ok(())
}

/// Appends the words of an access.
fn put_op(alloc: Global, out: &mut Vec<u8>, op: &Op) -> Result<(), AllocError>
    ensures { OnOk result (out.new.items ≡ out.old.items ++ spaced (op_words op.now)) }
{
    match op {
        Op::Open => put_word(out, b"open"),
        Op::Read { page, off, len } => put_numbers(out, b"read", &[*page, *off, *len]),
        Op::Write { page, off, bytes } => {
            put_numbers(out, b"write", &[*page, *off])?;
            put_hex(alloc, out, bytes.as_slice())
        }
        Op::Clear { page } => put_numbers(out, b"clear", &[*page]),
    }
}

/// Appends who made an event, its number among the caller's, and at which node.
fn put_who(
    out: &mut Vec<u8>,
    names: &Names,
    caller: u32,
    number: u32,
    node: u32,
) -> Result<(), AllocError>
    ensures { OnOk result (out.new.items ≡ out.old.items ++ spaced (name_in (map (λ n. n.now) names.now.callers.now) caller ∷ decimal number ∷ name_in (node_names names.now.nodes.now) node ∷ [])) }
{
    put_word(out, caller_name(names.callers, caller))?;
    put_spaced_number(out, u64::from(number))?;
    put_word(out, node_name(names.nodes, node))
}

/// Appends the words of an event between its place and its answer; a page message has none.
fn put_event(
    alloc: Global,
    out: &mut Vec<u8>,
    names: &Names,
    event: &Event,
) -> Result<(), AllocError>
    ensures { OnOk result (out.new.items ≡ out.old.items ++ spaced (event_words (map (λ n. n.now) names.now.callers.now) (node_names names.now.nodes.now) event.now)) }
{
    match event {
        Event::Access {
            caller,
            number,
            node,
            life,
            op,
        } => {
            put_who(out, names, *caller, *number, *node)?;
            put_spaced_number(out, u64::from(*life))?;
            put_op(alloc, out, op)
        }
        Event::DestroyCache {
            caller,
            number,
            node,
        } => {
            put_who(out, names, *caller, *number, *node)?;
            put_word(out, b"destroy_cache")
        }
        Event::DonePager {
            caller,
            number,
            node,
        } => {
            put_who(out, names, *caller, *number, *node)?;
            put_word(out, b"done_with_pager_object")
        }
        Event::Synced {
            caller,
            number,
            node,
            from,
            keep,
        } => {
            put_who(out, names, *caller, *number, *node)?;
            put_word(out, keep_word(*keep))?;
            put_spaced_number(out, *from)
        }
        _ => Ok(()),
    }
}

/// The word of a sync that leaves such rights.
fn keep_word(keep: Keep) -> &'static [u8]
    ensures { result.now ≡ keep_word keep }
{
    match keep {
        Keep::Write => b"synced",
        Keep::Read => b"cleaned",
    }
}

/// Appends the words of an answer of the file. The bytes that were read are in `bytes`.
fn put_told(
    alloc: Global,
    out: &mut Vec<u8>,
    answer: Answer,
    bytes: &[u8],
) -> Result<(), AllocError>
    ensures { OnOk result (out.new.items ≡ out.old.items ++ spaced (told_words (record { answer = answer; bytes = bytes_with answer bytes.now }))) }
{
    match answer {
        Answer::Bytes => put_hex(alloc, out, bytes),
        Answer::Done => put_word(out, b"done"),
        Answer::Life { life } => put_numbers(out, b"life", &[life]),
        Answer::Revoked { life } => put_numbers(out, b"revoked", &[life]),
    }
}

/// Appends the line of an event at a place, with the file's answer.
fn put_answered(
    alloc: Global,
    out: &mut Vec<u8>,
    names: &Names,
    place: u64,
    event: &Event,
    answer: Answer,
    bytes: &[u8],
) -> Result<(), AllocError>
    ensures { OnOk result (out.new.items ≡ out.old.items ++ line_of (decimal place ∷ (event_words (map (λ n. n.now) names.now.callers.now) (node_names names.now.nodes.now) event.now ++ told_words (record { answer = answer; bytes = bytes_with answer bytes.now })))) }
{
    put_number(out, place)?;
    put_event(alloc, out, names, event)?;
    put_told(alloc, out, answer, bytes)?;
    put(out, b"\n")
}

/// Appends the words of a message behind its node: its operation and its page, and the heads of its two frames.
fn put_two(alloc: Global, out: &mut Vec<u8>, two: &Heads) -> Result<(), AllocError>
    ensures { OnOk result (out.new.items ≡ out.old.items ++ spaced (operation_name two.now.which ∷ decimal two.now.page ∷ encode_lower (head_bytes two.now.first) ∷ encode_lower (head_bytes two.now.second) ∷ [])) }
{
    put_word(out, operation_name(two.which).as_bytes())?;
    put_spaced_number(out, u64::from(two.page))?;
    put_hex(alloc, out, &head_bytes(&two.first))?;
    put_hex(alloc, out, &head_bytes(&two.second))
}

/// Appends the line of a message at a place, of a node.
fn put_heads(
    alloc: Global,
    out: &mut Vec<u8>,
    names: &Names,
    place: u64,
    node: u32,
    two: &Heads,
) -> Result<(), AllocError>
    ensures { OnOk result (out.new.items ≡ out.old.items ++ heads_line (node_names names.now.nodes.now) place node (Some two.now)) }
{
    let name = node_name(names.nodes, node);
    put_number(out, place)?;
    put_word(out, name)?;
    put_two(alloc, out, two)?;
    put(out, b"\n")
}

/// Appends the line of a message at a place, if messages are traced.
fn put_message(
    alloc: Global,
    out: &mut Vec<u8>,
    names: &Names,
    place: u64,
    tracer: &Option<Tracer<'_>>,
    event: &Event,
) -> Result<(), AllocError>
    requires { IfSome (traced_by tracer.now) (λ t. IsNextOf t event.now) }
    ensures { OnOk result (out.new.items ≡ out.old.items ++ message_line (node_names names.now.nodes.now) place (traced_by tracer.now) event.now) }
{
    let Some(tracer) = tracer else {
        return Ok(());
    };
    match tracer.heads_of(event) {
        Some(two) => put_heads(alloc, out, names, place, event.node(), &two),
        None => Ok(()),
    }
}

/// Appends the line of an entry at a place, if it has one.
pub(crate) fn put_entry(
    alloc: Global,
    out: &mut Vec<u8>,
    names: &Names,
    place: u64,
    tracer: &Option<Tracer<'_>>,
    entry: &Entry,
) -> Result<(), AllocError>
    requires { IfSome (traced_by tracer.now) (λ t. IsNextOf t entry.now.event) }
    ensures { OnOk result (out.new.items ≡ out.old.items ++ entry_line (map (λ n. n.now) names.now.callers.now) (node_names names.now.nodes.now) place (traced_by tracer.now) entry.now) }
{
    let event = &entry.event;
    match entry.answer {
        Some(answer) => {
            let bytes = entry.bytes.as_slice();
            put_answered(alloc, out, names, place, event, answer, bytes)
        }
        None => put_message(alloc, out, names, place, tracer, event),
    }
}
