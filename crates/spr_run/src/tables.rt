//! The command `idl`: the tables of interfaces.

ghost use Rattle.std.specs.Prelude.{◌≡◌};
ghost use Rattle.file_stores.specs.Written.{Written};
ghost use Rattle.run_texts.specs.Refusal.{names_of};
ghost use Rattle.spr_run.specs.Ways.{only_idl, SaysTables};

use run_texts::{TextNames, read_tables, refuse};
use spr_io::{Shelf, Sink};
use spr_report::{Status, finish};
use std::alloc::Global;
use value_types::Text;

/// The names of a command that has interfaces alone.
fn only_idl(name: &Text) -> TextNames<'_>
    ensures { names_of result ≡ only_idl name.now }
{
    TextNames {
        idl: name.as_str(),
        stack: "",
        script: "",
    }
}

/// Reads a text of interfaces, and writes their tables.
pub(crate) fn put_tables<H: Shelf, K: Sink>(
    alloc: Global,
    shelf: &mut H,
    name: &Text,
    sink: &mut K,
) -> Status
    ensures { Written (SaysTables name.now (H.told shelf.old) (H.told shelf.new)) (K.told sink.old) (K.told sink.new) result }
{
    match read_tables(alloc, shelf, name) {
        Ok(lines) => finish(sink, &[lines.as_slice()], Status::Good),
        Err(refusal) => refuse(sink, &only_idl(name), refusal),
    }
}
