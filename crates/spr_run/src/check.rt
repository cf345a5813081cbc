//! The command `check`: the tree of a stack.

ghost use Rattle.std.specs.Prelude.{◌≡◌, [], IfOk, IfErr, OnOk};
ghost use Rattle.file_stores.specs.Written.{Written};
ghost use Rattle.run_texts.specs.Stacks.{IsTreeOf};
ghost use Rattle.run_texts.specs.Refusal.{IsStackCause, names_of};
ghost use Rattle.spr_run.specs.Ways.{only_stack, SaysCheck};

use run_texts::{Refusal, TextNames, read_stack, refuse};
use spr_io::{Shelf, Sink};
use spr_report::{Status, finish};
use stack_accept::put_check;
use std::alloc::{AllocError, Global};
use value_types::Text;

/// The names of a command that has a stack alone.
pub(crate) fn only_stack(name: &Text) -> TextNames<'_>
    ensures { names_of result ≡ only_stack name.now }
{
    TextNames {
        idl: "",
        stack: name.as_str(),
        script: "",
    }
}

/// Reads a stack, and gives the lines of the tree that it makes.
fn tree_text<H: Shelf>(alloc: Global, shelf: &mut H, name: &Text) -> Result<Vec<u8>, Refusal>
    ensures ok { IfOk result (λ text. IsTreeOf (H.told shelf.old) name.now text.items) }
    ensures err { IfErr result (IsStackCause (H.told shelf.old) (H.told shelf.new) name.now) }
    ensures calm { OnOk result ((H.told shelf.new).faults ≡ (H.told shelf.old).faults) }
{
    let mount = read_stack(alloc, shelf, name)?;
    let mut text = Vec::new(alloc);
    match put_check(&mut text, &mount) {
        Ok(()) => Ok(text),
        Err(AllocError) => Err(Refusal::Memory),
    }
}

/// Reads a stack, which may have layers that a run does not build yet, and writes its tree.
pub(crate) fn check_stack<H: Shelf, K: Sink>(
    alloc: Global,
    shelf: &mut H,
    name: &Text,
    sink: &mut K,
) -> Status
    ensures { Written (SaysCheck name.now (H.told shelf.old) (H.told shelf.new)) (K.told sink.old) (K.told sink.new) result }
{
    match tree_text(alloc, shelf, name) {
        Ok(text) => finish(sink, &[&text], Status::Good),
        Err(refusal) => refuse(sink, &only_stack(name), refusal),
    }
}
