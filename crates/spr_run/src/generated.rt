//! The command `gen`: a script that is made from a number is run over the files of a stack, and summed.

ghost use Rattle.std.specs.Prelude.{◌≡◌, ◌<◌, ◌≤◌};
ghost use Rattle.script_gen.specs.declared.TheConstants.{MAX_CALLS, SEED_LIMIT};
ghost use Rattle.file_stores.specs.Written.{WrittenBeside};
ghost use Rattle.spr_run.specs.Ways.{outside, SaysGenerated};

use run_files::sum_files;
use run_texts::{TextNames, read_generated, refuse};
use spr_client::LineGate;
use spr_io::{Bay, Shelf, Sink};
use spr_report::Status;
use std::alloc::Global;
use std::sync::Wait;
use std::thread::Threads;
use value_types::Text;

/// Reads the interfaces and the stack, makes a script of so many calls from the seed, runs it over the files of the stack, if the
/// interfaces fit together and have each operation, and writes what it came to.
pub(crate) fn run_generated<
    R: Threads + Wait + Sync,
    H: Shelf,
    B: Bay,
    K: Sink,
    N: Sink,
    G: LineGate,
>(
    rt: &R,
    alloc: Global,
    idl: &Text,
    stack: &Text,
    seed: u32,
    calls: u32,
    shelf: &mut H,
    bay: &mut B,
    sink: &mut K,
    notices: &mut N,
    gate: &G,
) -> Status
    requires seed { seed < SEED_LIMIT }
    requires calls { calls ≤ MAX_CALLS }
    ensures ends { WrittenBeside (SaysGenerated (record { idl = idl.now; stack = stack.now; seed = seed; calls = calls }) (outside (H.told shelf.old) (H.told shelf.new) (B.told bay.old) (B.told bay.new))) (K.told sink.old) (K.told sink.new) (N.told notices.old) (N.told notices.new) result }
{
    match read_generated(alloc, shelf, idl, stack, seed, calls) {
        Ok((mount, script, ops)) => sum_files(
            rt, alloc, &mount, &script, &ops, bay, sink, notices, gate,
        ),
        Err(refusal) => {
            let names = TextNames {
                idl: idl.as_str(),
                stack: stack.as_str(),
                script: "",
            };
            refuse(sink, &names, refusal)
        }
    }
}
