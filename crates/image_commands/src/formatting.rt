//! The command that writes a fresh image on each store of a stack.

ghost use Rattle.std.specs.Prelude.{◌≡◌, IfOk, length};
ghost use Rattle.spr_io.specs.Berth.{BaySeen};
ghost use Rattle.file_stores.specs.Keys.{EachAt, stores_of, AreStores};
ghost use Rattle.file_stores.specs.State.{RoseBy};
ghost use Rattle.file_stores.specs.Held.{IsRoom, IsFit, keys_of, AreOut};
ghost use Rattle.file_stores.specs.Written.{Written};
ghost use Rattle.image_commands.specs.Says.{SaysFormat};

use crate::fresh::format_stores;
use crate::told::tell;
use file_stores::{Held, Stop, give_back, stopped, stores_of, take_stores};
use script_meaning::StoreKey;
use spr_io::{Bay, Sink, Store};
use spr_report::Status;
use stack_accept::Mounted;
use std::alloc::{AllocError, Global};

/// The stores of a stack, and room for what becomes of them.
#[derive(Drop)]
struct Room<S: Store> {
    /// Which stores there are.
    keys: Vec<StoreKey>,
    /// Those that were taken.
    taken: Vec<Held<S>>,
    /// Those that are to be given back.
    left: Vec<Held<S>>,
    /// Those that are lost.
    lost: Vec<StoreKey>,
}

/// Lists the stores of a stack, and makes the room for them.
fn room_for<S: Store>(alloc: Global, mount: &Mounted) -> Result<Room<S>, AllocError>
    ensures keys { IfOk result (λ room. room.keys.items ≡ stores_of mount.now) }
    ensures stores { IfOk result (λ room. AreStores mount.now room.keys.items) }
    ensures taken { IfOk result (λ room. IsRoom (length room.keys.items) room.taken) }
    ensures left { IfOk result (λ room. IsRoom (length room.keys.items) room.left) }
    ensures lost { IfOk result (λ room. IsRoom (length room.keys.items) room.lost) }
{
    let keys = stores_of(alloc, mount)?;
    let number = keys.len();
    Ok(Room {
        keys,
        taken: Vec::with_capacity(alloc, number)?,
        left: Vec::with_capacity(alloc, number)?,
        lost: Vec::with_capacity(alloc, number)?,
    })
}

/// Formats the stores that were taken, gives them back, and writes how that ended. The room for that is there.
fn format_taken<B: Bay, K: Sink>(
    alloc: Global,
    mount: &Mounted,
    bay: &mut B,
    sink: &mut K,
    room: Room<B::Store>,
) -> Status
    requires keys { keys_of room.taken.items ≡ room.keys.items }
    requires stores { AreStores mount.now (keys_of room.taken.items) }
    requires fit { EachAt (λ at store. IsFit mount.now store) room.taken.items }
    requires left { IsRoom (length room.keys.items) room.left }
    requires lost { IsRoom (length room.keys.items) room.lost }
    ensures ended { (before : BaySeen) → AreOut mount.now before (B.told bay.old) room.taken.items → RoseBy 0 before.faults (B.told bay.old).faults → Written (SaysFormat mount.now before (B.told bay.new) room.keys.items) (K.told sink.old) (K.told sink.new) result }
{
    let Room {
        keys: _,
        taken,
        mut left,
        mut lost,
    } = room;
    let broke = format_stores(alloc, mount, taken, &mut left);
    give_back(mount, bay, left, &mut lost);
    match broke {
        None => tell(sink, mount, b"", &lost),
        Some(stop) => stopped(sink, mount, stop, &lost),
    }
}

/// Takes the stores, formats them, gives them back, and writes how that ended. The room for that is there.
fn format_all<B: Bay, K: Sink>(
    alloc: Global,
    mount: &Mounted,
    bay: &mut B,
    sink: &mut K,
    room: Room<B::Store>,
) -> Status
    requires stores { AreStores mount.now room.keys.items }
    requires taken { IsRoom (length room.keys.items) room.taken }
    requires left { IsRoom (length room.keys.items) room.left }
    requires lost { IsRoom (length room.keys.items) room.lost }
    ensures { Written (SaysFormat mount.now (B.told bay.old) (B.told bay.new) room.keys.items) (K.told sink.old) (K.told sink.new) result }
{
    let mut room = room;
    match take_stores(mount, bay, &room.keys, &mut room.taken) {
        Ok(()) => format_taken(alloc, mount, bay, sink, room),
        Err(stop) => {
            let Room {
                taken,
                mut lost,
                ..
            } = room;
            give_back(mount, bay, taken, &mut lost);
            stopped(sink, mount, stop, &lost)
        }
    }
}

/// Writes a fresh image on each store of a stack: takes all stores, formats them by file and then by disk, gives them back, and
/// writes a line for each store that is lost, and the status.
///
/// The order of the steps and the texts are this project's own.
pub fn format_files<B: Bay, K: Sink>(
    alloc: Global,
    mount: &Mounted,
    bay: &mut B,
    sink: &mut K,
) -> Status
    ensures formats { Written (SaysFormat mount.now (B.told bay.old) (B.told bay.new) (stores_of mount.now)) (K.told sink.old) (K.told sink.new) result }
{
    match room_for(alloc, mount) {
        Ok(room) => format_all(alloc, mount, bay, sink, room),
        Err(AllocError) => stopped(sink, mount, Stop::Memory, &[]),
    }
}
