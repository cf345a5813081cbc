//! The commands over a stack's images: `format` makes fresh ones, `dump` prints the pages of one file, and `disks` tells what lies
//! on each disk.

ghost use Rattle.std.specs.Prelude.{◌≡◌, ◌<◌, IfOk, IfErr, OnOk, length};
ghost use Rattle.file_stores.specs.Written.{Written, WrittenBeside};
ghost use Rattle.run_texts.specs.Refusal.{HasFile, IsFileCause};
ghost use Rattle.spr_run.specs.Ways.{outside, SaysFormatted, SaysDumped, SaysListed};

use crate::check::only_stack;
use image_commands::{dump_file, format_files};
use image_looks::list_disks;
use run_texts::{Refusal, read_stack, refuse};
use script_meaning::file_named;
use spr_io::{Bay, Shelf, Sink};
use spr_report::Status;
use stack_accept::Mounted;
use std::alloc::Global;
use value_types::Text;

/// Reads a stack, which may have layers that a run does not build yet, and writes a fresh image on each of its stores: by file,
/// and then by disk.
pub(crate) fn format_stack<H: Shelf, B: Bay, K: Sink>(
    alloc: Global,
    name: &Text,
    shelf: &mut H,
    bay: &mut B,
    sink: &mut K,
) -> Status
    ensures ends { Written (SaysFormatted name.now (outside (H.told shelf.old) (H.told shelf.new) (B.told bay.old) (B.told bay.new))) (K.told sink.old) (K.told sink.new) result }
{
    match read_stack(alloc, shelf, name) {
        Ok(mount) => format_files(alloc, &mount, bay, sink),
        Err(refusal) => refuse(sink, &only_stack(name), refusal),
    }
}

/// Reads a stack, which may have layers that a run does not build yet, and tells what lies on each disk of each of its files. No
/// block is written, and nothing is made.
pub(crate) fn list_named<H: Shelf, B: Bay, K: Sink>(
    alloc: Global,
    name: &Text,
    shelf: &mut H,
    bay: &mut B,
    sink: &mut K,
) -> Status
    ensures ends { Written (SaysListed name.now (outside (H.told shelf.old) (H.told shelf.new) (B.told bay.old) (B.told bay.new))) (K.told sink.old) (K.told sink.new) result }
{
    match read_stack(alloc, shelf, name) {
        Ok(mount) => list_disks(alloc, &mount, bay, sink),
        Err(refusal) => refuse(sink, &only_stack(name), refusal),
    }
}

/// Reads a stack, and finds the file `name` in it.
fn read_file<H: Shelf>(
    alloc: Global,
    shelf: &mut H,
    stack: &Text,
    name: &Text,
) -> Result<(Mounted, u32), Refusal>
    ensures ok { IfOk result (λ found. HasFile (H.told shelf.old) stack.now name.now found.0 found.1) }
    ensures within { IfOk result (λ found. found.1 < length found.0.files) }
    ensures err { IfErr result (IsFileCause (H.told shelf.old) (H.told shelf.new) stack.now name.now) }
    ensures calm { OnOk result ((H.told shelf.new).faults ≡ (H.told shelf.old).faults) }
{
    let mount = read_stack(alloc, shelf, stack)?;
    match file_named(&mount, name) {
        Some(file) => Ok((mount, file)),
        None => Err(Refusal::FileUnknown),
    }
}

/// Prints the pages of the file `name` of a stack.
pub(crate) fn dump_named<H: Shelf, B: Bay, K: Sink, N: Sink>(
    alloc: Global,
    stack: &Text,
    name: &Text,
    shelf: &mut H,
    bay: &mut B,
    sink: &mut K,
    notices: &mut N,
) -> Status
    ensures ends { WrittenBeside (SaysDumped stack.now name.now (outside (H.told shelf.old) (H.told shelf.new) (B.told bay.old) (B.told bay.new))) (K.told sink.old) (K.told sink.new) (N.told notices.old) (N.told notices.new) result }
{
    match read_file(alloc, shelf, stack, name) {
        Ok((mount, file)) => dump_file(alloc, &mount, file, bay, sink, notices),
        Err(refusal) => refuse(sink, &only_stack(stack), refusal),
    }
}
