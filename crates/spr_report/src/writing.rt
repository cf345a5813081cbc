//! Writing a command's text, piece by piece and without memory.

ghost use Rattle.std.specs.Prelude.{◌≡◌, ◌++◌};
ghost use Rattle.std.specs.List.{flat_map};
ghost use Rattle.spr_report.specs.Report.{lost_line};
ghost use Rattle.spr_report.specs.Writing.{Writes, Finishes, status_line};

use crate::status::Status;
use itoa::Buffer;
use script_meaning::{StoreKey, disk_name, file_name};
use spr_io::{Failed, Sink};
use stack_accept::Mounted;

/// Writes all of the bytes.
pub fn write_all<K: Sink>(sink: &mut K, bytes: &[u8]) -> Result<(), Failed>
    ensures { Writes (K.told sink.old) (K.told sink.new) bytes.now result }
{
    let mut rest = bytes;
    while !rest.is_empty() {
        let taken = sink.write(rest)?;
        if taken == 0 {
            return Err(Failed);
        }
        rest = &rest[taken..];
    }
    Ok(())
}

/// Writes the pieces, one after another.
pub fn write_pieces<K: Sink>(sink: &mut K, pieces: &[&[u8]]) -> Result<(), Failed>
    ensures { Writes (K.told sink.old) (K.told sink.new) (flat_map (λ p. p.now) pieces.now) result }
{
    for piece in pieces {
        write_all(sink, piece)?;
    }
    Ok(())
}

/// The line of a store that the bay refused, in pieces.
pub(crate) fn lost_pieces(mount: &Mounted, lost: StoreKey) -> [&[u8]; 5]
    ensures { flat_map (λ p. p.now) result ≡ lost_line mount.now lost }
{
    let disk = disk_name(mount, lost.disk).as_bytes();
    let file = file_name(mount, lost.file).as_bytes();
    [b"bay ", disk, b" ", file, b"\n"]
}

/// Writes a line for each store that the bay refused.
pub fn write_lost<K: Sink>(sink: &mut K, mount: &Mounted, lost: &[StoreKey]) -> Result<(), Failed>
    ensures { Writes (K.told sink.old) (K.told sink.new) (flat_map (lost_line mount.now) lost.now) result }
{
    for one in lost {
        write_pieces(sink, &lost_pieces(mount, *one))?;
    }
    Ok(())
}

/// Writes the line of a status, which ends each command's text.
pub fn write_status<K: Sink>(sink: &mut K, status: Status) -> Result<(), Failed>
    ensures { Writes (K.told sink.old) (K.told sink.new) (status_line status) result }
{
    let mut buffer = Buffer::new();
    let number = buffer.format(status.number()).as_bytes();
    write_pieces(sink, &[b"status ", number, b"\n"])
}

/// Writes a text in pieces, and behind it the line of the status. The command ends with the status,
/// or with the sink's fault.
pub fn finish<K: Sink>(sink: &mut K, pieces: &[&[u8]], status: Status) -> Status
    ensures { Finishes (K.told sink.old) (K.told sink.new) (flat_map (λ p. p.now) pieces.now) status result }
{
    let Ok(()) = write_pieces(sink, pieces) else {
        return Status::SinkFault;
    };
    match write_status(sink, status) {
        Ok(()) => status,
        Err(Failed) => Status::SinkFault,
    }
}
