//! The program's one call.

ghost use Rattle.std.specs.Prelude.{◌≡◌, None};
ghost use Rattle.std.specs.List.{AllByRecursion};
ghost use Rattle.script_text.specs.Grammar.{IsScript};
ghost use Rattle.file_stores.specs.Written.{WrittenBeside};
ghost use Rattle.spr_run.specs.Ways.{outside, sinks, SaysRan, Ends};

use crate::check::check_stack;
use crate::generated::run_generated;
use crate::images::{dump_named, format_stack, list_named};
use crate::tables::put_tables;
use crate::words::{Asked, WordsErr, read_words};
use run_files::run_files;
use run_texts::{TextNames, read_run, refuse};
use spr_client::LineGate;
use spr_io::{Bay, Shelf, Sink};
use spr_report::{Status, finish};
use std::alloc::Global;
use std::sync::Wait;
use std::thread::Threads;
use value_types::Text;

const USAGE: &[u8] = b"usage: spring run, gen, check, format, dump or idl\n";

/// Reads the three texts, runs the script over the files of the stack, if the interfaces fit together and have each operation, and
/// writes how that ended; with the page messages, if they are asked for. If a number is given, calls to other machines are lost by it.
fn run_named<R: Threads + Wait + Sync, H: Shelf, B: Bay, K: Sink, N: Sink, G: LineGate>(
    rt: &R,
    alloc: Global,
    idl: &Text,
    stack: &Text,
    name: &Text,
    trace: bool,
    loss: Option<u32>,
    shelf: &mut H,
    bay: &mut B,
    sink: &mut K,
    notices: &mut N,
    gate: &G,
) -> Status
    ensures ends { WrittenBeside (SaysRan (record { idl = idl.now; stack = stack.now; script = name.now }) trace loss (outside (H.told shelf.old) (H.told shelf.new) (B.told bay.old) (B.told bay.new))) (K.told sink.old) (K.told sink.new) (N.told notices.old) (N.told notices.new) result }
{
    match read_run(alloc, shelf, idl, stack, name) {
        Ok((mount, script, ops)) => run_files(
            rt, alloc, &mount, &script, &ops, trace, loss, bay, sink, notices, gate,
        ),
        Err(refusal) => {
            let names = TextNames {
                idl: idl.as_str(),
                stack: stack.as_str(),
                script: name.as_str(),
            };
            refuse(sink, &names, refusal)
        }
    }
}

/// Runs the program: a command of these words over the shelf, the bay and the sink. A run and a `dump` tell a second sink what
/// they made of the disks in mirrors, a line for each disk of which something is told; if that sink fails, nothing else changes.
///
/// Headline: for every accepted stack and interleaving, each access within one page, by file call, mapping or any stacked
/// view, unless a store failed in it or memory lacked, answers what one plain file answers at its place in the file's one
/// history, which begins with all its caller had seen and holds its calls once each; after a successful sync every live store
/// holds that history's bytes. What is said of bytes is said where a store tells what it holds; a file of the host does not.
pub fn spring<R: Threads + Wait + Sync, H: Shelf, B: Bay, K: Sink, N: Sink, G: LineGate>(
    rt: &R,
    alloc: Global,
    words: &[Text],
    shelf: &mut H,
    bay: &mut B,
    sink: &mut K,
    notices: &mut N,
    gate: &G,
) -> Status
    ensures ends { Ends words.now (outside (H.told shelf.old) (H.told shelf.new) (B.told bay.old) (B.told bay.new)) (sinks (K.told sink.old) (K.told sink.new) (N.told notices.old) (N.told notices.new)) result }
{
    match read_words(alloc, words) {
        Ok(
            Asked::Run {
                trace,
                loss,
                idl,
                stack,
                script,
            },
        ) => run_named(
            rt, alloc, &idl, &stack, &script, trace, loss, shelf, bay, sink, notices, gate,
        ),
        Ok(
            Asked::Gen {
                idl,
                stack,
                seed,
                calls,
            },
        ) => run_generated(
            rt, alloc, &idl, &stack, seed, calls, shelf, bay, sink, notices, gate,
        ),
        Ok(Asked::Idl { idl }) => put_tables(alloc, shelf, &idl, sink),
        Ok(Asked::Check { stack }) => check_stack(alloc, shelf, &stack, sink),
        Ok(Asked::Format { stack }) => format_stack(alloc, &stack, shelf, bay, sink),
        Ok(Asked::Dump { stack, file }) => {
            dump_named(alloc, &stack, &file, shelf, bay, sink, notices)
        }
        Ok(Asked::Disks { stack }) => list_named(alloc, &stack, shelf, bay, sink),
        Err(WordsErr::Usage) => finish(sink, &[USAGE], Status::Usage),
        Err(WordsErr::Memory) => finish(sink, &[], Status::Memory),
    }
}
