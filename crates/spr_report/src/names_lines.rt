//! The lines of the names' history.

ghost use Rattle.std.specs.Prelude.{◌≡◌, ◌++◌, ◌∷◌, [], OnOk, map, slice_index_or};
ghost use Rattle.std.specs.Option.{option_copied};
ghost use Rattle.text_words.specs.Lines.{spaced};
ghost use Rattle.spr_report.specs.NamesLines.{call_word, named_word, asked_words, told_words, name_line, names_part};

use crate::names_refusal::reply_of;
use hist_lock::Storied;
use name_context::{NameCall, NameEntry, Names};
use script_text::put_reply;
use std::alloc::{AllocError, Global};
use text_words::{put, put_line, put_number, put_path, put_spaced_number, put_word};
use value_types::Path;

/// The name of a caller; a number that has none has the empty name.
fn caller_name<'a>(callers: &[&'a [u8]], number: u32) -> &'a [u8]
    ensures { result.now ≡ slice_index_or (map (λ name. name.now) callers.now) number [] }
{
    match callers.get(number as usize) {
        Some(name) => name,
        None => &[],
    }
}

/// The word of a call.
fn call_word(call: NameCall) -> &'static [u8]
    ensures { result.now ≡ call_word call }
{
    match call {
        NameCall::Context => b"context",
        NameCall::Bind => b"bind",
        NameCall::Resolve => b"resolve",
        NameCall::Unbind => b"unbind",
        NameCall::List => b"list",
    }
}

/// Appends a space and a path; the root, which has no path, is a slash.
fn put_named(out: &mut Vec<u8>, path: Option<&Path>) -> Result<(), AllocError>
    ensures { OnOk result (out.new.items ≡ out.old.items ++ 32 ∷ named_word (option_copied path.entry)) }
{
    match path {
        Some(path) => put_path(out, path),
        None => put_word(out, b"/"),
    }
}

/// Appends who called, the number of the entry among the caller's, and what was called.
fn put_asked(out: &mut Vec<u8>, callers: &[&[u8]], entry: &NameEntry) -> Result<(), AllocError>
    ensures { OnOk result (out.new.items ≡ out.old.items ++ spaced (asked_words (map (λ name. name.now) callers.now) entry.now)) }
{
    put_word(out, caller_name(callers, entry.caller))?;
    put_spaced_number(out, entry.number)?;
    put_word(out, call_word(entry.call))?;
    put_named(out, entry.path.as_ref())
}

/// Appends the words of the answer.
fn put_told(alloc: Global, out: &mut Vec<u8>, entry: &NameEntry) -> Result<(), AllocError>
    ensures { OnOk result (out.new.items ≡ out.old.items ++ spaced (told_words entry.now)) }
{
    let reply = reply_of(alloc, entry.path.as_ref(), entry.refused)?;
    put_reply(alloc, out, &[], &reply)
}

/// Appends the line of an entry at a place.
fn put_entry(
    alloc: Global,
    out: &mut Vec<u8>,
    callers: &[&[u8]],
    place: u64,
    entry: &NameEntry,
) -> Result<(), AllocError>
    ensures { OnOk result (out.new.items ≡ out.old.items ++ name_line (map (λ name. name.now) callers.now) place entry.now) }
{
    put_number(out, place)?;
    put_asked(out, callers, entry)?;
    put_told(alloc, out, entry)?;
    put(out, b"\n")
}

/// Appends the part of the names: the line `names`, and a line for each entry of their history. The callers' names are in the
/// order of their numbers; a caller that has none is written as no bytes.
pub fn put_names(
    alloc: Global,
    out: &mut Vec<u8>,
    callers: &[&[u8]],
    names: &Names,
) -> Result<(), AllocError>
    ensures { OnOk result (out.new.items ≡ out.old.items ++ names_part (map (λ name. name.now) callers.now) names.now.history) }
{
    put_line(out, &[b"names"])?;
    for place in 0..names.len() {
        if let Some(entry) = names.entry(place) {
            put_entry(alloc, out, callers, place, entry)?;
        }
    }
    Ok(())
}
