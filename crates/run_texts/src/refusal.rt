//! Why a command ends before a store is taken, and what it writes then.

ghost use Rattle.std.specs.Prelude.{◌++◌};
ghost use Rattle.spr_report.specs.declared.status.Status.TheVariants.{Refused, ShelfFault};
ghost use Rattle.run_texts.specs.Refusal.{line_text, shelf_text, missing_text, names_of, refusal_text, refusal_status};
ghost use Rattle.spr_report.specs.Writing.{Finishes};

use crate::operation_names::operation_name;
use idl_check::UnfitWhy;
use idl_reader::IdlWhy;
use itoa::Buffer;
use pager_channel::Operation;
use script_text::ScriptWhy;
use spr_io::Sink;
use spr_report::{Status, finish};
use stack_text::StackWhy;

/// Why a command ends before a store is taken. Lines are counted from 1.
#[derive(Clone, Copy, Debug, PartialEq, Eq)]
pub enum Refusal {
    /// The text of the interfaces does not parse.
    Idl {
        /// The place, as its offset in the text in bytes.
        place: u32,
        /// Why the text is refused there.
        why: IdlWhy,
    },
    /// The interfaces do not fit together.
    IdlUnfit {
        /// The place, as its offset in the text in bytes.
        place: u32,
        /// The first reason.
        why: UnfitWhy,
    },
    /// The interfaces lack an operation.
    IdlMissing {
        /// The first that is missing.
        which: Operation,
    },
    /// A line of the stack does not parse.
    Stack {
        /// The number of the line, from 1.
        line: u32,
        /// The first reason on it.
        why: StackWhy,
    },
    /// A line of the stack breaks a rule.
    Unfit {
        /// The line, or one past the last for what the end of the text lacks.
        line: u32,
        /// The number of the lowest rule that it breaks.
        rule: u8,
    },
    /// A line of the script does not parse.
    Script {
        /// The number of the line, from 1.
        line: u32,
        /// The first reason on it.
        why: ScriptWhy,
    },
    /// A line of the script names a machine, a view, a layer or a file that the stack does not have.
    ScriptUnknown {
        /// The number of the line, from 1.
        line: u32,
    },
    /// The stack has no file of the name.
    FileUnknown,
    /// The text of the interfaces could not be read.
    IdlShelf,
    /// The stack text could not be read.
    StackShelf,
    /// The script could not be read.
    ScriptShelf,
    /// Memory ran out.
    Memory,
}

/// Ends a command one of whose texts is refused, at a line or a place and for a reason: a mark and a word.
fn refuse_line<'a, K: Sink>(
    sink: &mut K,
    kind: &'a [u8],
    line: u32,
    mark: &'a [u8],
    word: &'a [u8],
) -> Status
    ensures { Finishes (K.told sink.old) (K.told sink.new) (line_text kind.now line (mark.now ++ word.now)) Refused result }
{
    let mut buffer = Buffer::new();
    let line = buffer.format(line).as_bytes();
    finish(
        sink,
        &[kind, b" ", line, b" ", mark, word, b"\n"],
        Status::Refused,
    )
}

/// Ends a command one of whose texts could not be read.
fn refuse_shelf<K: Sink>(sink: &mut K, name: &str) -> Status
    ensures { Finishes (K.told sink.old) (K.told sink.new) (shelf_text name.now) ShelfFault result }
{
    finish(
        sink,
        &[b"shelf ", name.as_bytes(), b"\n"],
        Status::ShelfFault,
    )
}

/// Ends a command whose interfaces lack an operation of a name.
fn refuse_missing<K: Sink>(sink: &mut K, name: &str) -> Status
    ensures { Finishes (K.told sink.old) (K.told sink.new) (missing_text name.now) Refused result }
{
    finish(
        sink,
        &[b"idl missing ", name.as_bytes(), b"\n"],
        Status::Refused,
    )
}

/// The names of the texts of a command; one that it does not have is empty.
#[derive(Clone, Copy, Debug)]
pub struct TextNames<'a> {
    /// The name of the interfaces.
    pub idl: &'a str,
    /// The name of the stack.
    pub stack: &'a str,
    /// The name of the script.
    pub script: &'a str,
}

/// Ends a command that is refused. The line begins with the text that is refused; one that could not be read has its name.
pub fn refuse<K: Sink>(sink: &mut K, names: &TextNames<'_>, refusal: Refusal) -> Status
    ensures { Finishes (K.told sink.old) (K.told sink.new) (refusal_text (names_of names.now) refusal) (refusal_status refusal) result }
{
    match refusal {
        Refusal::Idl { place, why } => {
            refuse_line(sink, b"idl", place, b"", why.word().as_bytes())
        }
        Refusal::IdlUnfit { place, why } => {
            refuse_line(sink, b"idl", place, b"", why.word().as_bytes())
        }
        Refusal::IdlMissing { which } => refuse_missing(sink, operation_name(which)),
        Refusal::Stack { line, why } => {
            refuse_line(sink, b"stack", line, b"", why.word().as_bytes())
        }
        Refusal::Unfit { line, rule } => {
            let mut buffer = Buffer::new();
            let rule = buffer.format(rule).as_bytes();
            refuse_line(sink, b"stack", line, b"A", rule)
        }
        Refusal::Script { line, why } => {
            refuse_line(sink, b"script", line, b"", why.word().as_bytes())
        }
        Refusal::ScriptUnknown { line } => refuse_line(sink, b"script", line, b"", b"unknown"),
        Refusal::FileUnknown => finish(sink, &[b"file unknown\n"], Status::Refused),
        Refusal::IdlShelf => refuse_shelf(sink, names.idl),
        Refusal::StackShelf => refuse_shelf(sink, names.stack),
        Refusal::ScriptShelf => refuse_shelf(sink, names.script),
        Refusal::Memory => finish(sink, &[], Status::Memory),
    }
}
