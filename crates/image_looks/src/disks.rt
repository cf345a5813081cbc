//! The command that tells what lies on each disk of each file of a stack.

ghost use Rattle.std.specs.Prelude.{◌≡◌, IfOk, find, length, option_map};
ghost use Rattle.std.specs.List.{list_any};
ghost use Rattle.file_stores.specs.Keys.{AreStores, stores_of};
ghost use Rattle.file_stores.specs.Held.{IsRoom};
ghost use Rattle.file_stores.specs.Written.{Written};
ghost use Rattle.image_looks.specs.Found.{lacks_memory};
ghost use Rattle.image_looks.specs.Disks.{LacksLooks, SaysDisks, TellsLooks, has_failed, looks_status, lost_at};

use crate::disk_text::text_of;
use crate::found::{Found, Look};
use crate::looking::look_all;
use file_stores::{Stop, stopped, stores_of};
use script_meaning::StoreKey;
use spr_io::{Bay, Sink};
use spr_report::{Status, finish};
use stack_accept::Mounted;
use std::alloc::{AllocError, Global};

/// The stores of a stack, and room for what is found on them.
#[derive(Drop)]
struct LookRoom {
    /// Which stores there are.
    stores: Vec<StoreKey>,
    /// Room for what is found.
    looks: Vec<Look>,
    /// Room for those that are lost.
    lost: Vec<StoreKey>,
}

/// Lists the stores of a stack, and makes the room for a look at each.
fn room_for(alloc: Global, mount: &Mounted) -> Result<LookRoom, AllocError>
    ensures value { IfOk result (λ room. room.stores.items ≡ stores_of mount.now) }
    ensures stores { IfOk result (λ room. AreStores mount.now room.stores.items) }
    ensures looks { IfOk result (λ room. IsRoom (length room.stores.items) room.looks) }
    ensures lost { IfOk result (λ room. IsRoom (length room.stores.items) room.lost) }
{
    let stores = stores_of(alloc, mount)?;
    let number = stores.len();
    Ok(LookRoom {
        stores,
        looks: Vec::with_capacity(alloc, number)?,
        lost: Vec::with_capacity(alloc, number)?,
    })
}

/// Whether a look found a failure.
fn has_failed(look: Look) -> bool
    ensures { result ≡ has_failed look }
{
    matches!(
        look.found,
        Found::NotTaken | Found::Lost | Found::Failed { .. }
    )
}

/// The first look that found a failure.
fn first_failure(looks: &[Look]) -> Option<&Look>
    ensures { option_map (λ look. look.now) result ≡ find has_failed looks.now }
{
    looks.iter().find(|look| has_failed(**look))
}

/// The status, by the first failure that was found.
fn status_of(looks: &[Look]) -> Status
    ensures { result ≡ looks_status looks.now }
{
    match first_failure(looks) {
        None => Status::Good,
        Some(look) => match look.found {
            Found::Failed { .. } => Status::Faulted,
            _ => Status::BayFault,
        },
    }
}

/// Whether memory ran out in a look.
fn lacks_memory(looks: &[Look]) -> bool
    ensures { result ≡ list_any (λ look. lacks_memory look.found) looks.now }
{
    looks.iter().any(|look| look.found.lacks_memory())
}

/// Lists the stores that are lost. The room for that is there.
fn list_lost(looks: &[Look], lost: &mut Vec<StoreKey>)
    requires { IsRoom (length looks.now) lost.old }
    ensures { lost.new.items ≡ lost_at looks.now }
{
    for look in looks {
        if look.found.is_lost() {
            lost.push_reserved(look.store);
        }
    }
}

/// Ends the command where memory ran out. The room for the list is there.
fn tell_lack<K: Sink>(mount: &Mounted, looks: &[Look], lost: Vec<StoreKey>, sink: &mut K) -> Status
    requires { IsRoom (length looks.now) lost }
    ensures { LacksLooks mount.now looks.now (K.told sink.old) (K.told sink.new) result }
{
    let mut lost = lost;
    list_lost(looks, &mut lost);
    stopped(sink, mount, Stop::Memory, &lost)
}

/// Writes what was found, and the status.
fn tell_looks<K: Sink>(
    alloc: Global,
    mount: &Mounted,
    looks: &[Look],
    lost: Vec<StoreKey>,
    sink: &mut K,
) -> Status
    requires { IsRoom (length looks.now) lost }
    ensures { TellsLooks mount.now looks.now (K.told sink.old) (K.told sink.new) result }
{
    if lacks_memory(looks) {
        return tell_lack(mount, looks, lost, sink);
    }
    match text_of(alloc, mount, looks) {
        Ok(text) => finish(sink, &[text.as_slice()], status_of(looks)),
        Err(AllocError) => tell_lack(mount, looks, lost, sink),
    }
}

/// Looks at each store, and writes what was found. The room for that is there.
fn list_all<B: Bay, K: Sink>(
    alloc: Global,
    mount: &Mounted,
    bay: &mut B,
    sink: &mut K,
    room: LookRoom,
) -> Status
    requires value { room.stores.items ≡ stores_of mount.now }
    requires stores { AreStores mount.now room.stores.items }
    requires looks { IsRoom (length room.stores.items) room.looks }
    requires lost { IsRoom (length room.stores.items) room.lost }
    ensures { Written (SaysDisks mount.now (B.told bay.old) (B.told bay.new)) (K.told sink.old) (K.told sink.new) result }
{
    let LookRoom {
        stores,
        mut looks,
        lost,
    } = room;
    look_all(alloc, mount, bay, &stores, &mut looks);
    tell_looks(alloc, mount, &looks, lost, sink)
}

/// Tells what lies on each disk of each file of a stack, by file and then by disk: looks at each store that lies there, one at a
/// time, and writes a line for each disk, and the status. No block is written, and nothing is made.
///
/// The lines are this project's own.
pub fn list_disks<B: Bay, K: Sink>(
    alloc: Global,
    mount: &Mounted,
    bay: &mut B,
    sink: &mut K,
) -> Status
    ensures tells { Written (SaysDisks mount.now (B.told bay.old) (B.told bay.new)) (K.told sink.old) (K.told sink.new) result }
{
    match room_for(alloc, mount) {
        Ok(room) => list_all(alloc, mount, bay, sink, room),
        Err(AllocError) => stopped(sink, mount, Stop::Memory, &[]),
    }
}
