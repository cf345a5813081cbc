//! Writing a fresh image on each of the stores that are out.

ghost use Rattle.std.specs.Prelude.{◌≡◌, IfOk, IfErr, length};
ghost use Rattle.file_stores.specs.Keys.{EachAt, IsStore, AreStores, image_shape};
ghost use Rattle.file_stores.specs.Held.{IsRoom, IsFit, keys_of, BecameOne};
ghost use Rattle.image_commands.specs.Fresh.{IsFresh, IsBreak, GoesOn, Went};

use disk_layer::{Disk, OpenErr};
use file_stores::{Held, Stop, shape_of};
use spr_io::Store;
use stack_accept::Mounted;
use std::alloc::Global;

/// Writes a fresh image on a store. A refusal hands the store back.
fn format_store<S: Store>(
    alloc: Global,
    mount: &Mounted,
    held: Held<S>,
) -> Result<Held<S>, (Stop, Held<S>)>
    requires store { IsStore mount.now held.key }
    requires fit { IsFit mount.now held }
    ensures key { IfOk result (λ new. new.key ≡ held.key) }
    ensures fresh { IfOk result (λ new. BecameOne held.state new.state (IsFresh (image_shape mount.now held.key))) }
    ensures same_key { IfErr result (λ e. e.1.key ≡ held.key) }
    ensures cause { IfErr result (λ e. IsBreak (image_shape mount.now held.key) held e.1 e.0) }
{
    let shape = shape_of(mount, held.key);
    let Held { key, store } = held;
    match Disk::format(alloc, store, key.disk, &shape) {
        Ok(disk) => {
            let store = disk.close();
            Ok(Held { key, store })
        }
        Err(OpenErr { store, why }) => Err((Stop::refused(key, why), Held { key, store })),
    }
}

/// Writes a fresh image on the next store, unless one before it could not be formatted.
fn format_next<S: Store>(
    alloc: Global,
    mount: &Mounted,
    held: Held<S>,
    stopped: Option<Stop>,
) -> (Held<S>, Option<Stop>)
    requires store { IsStore mount.now held.key }
    requires fit { IsFit mount.now held }
    ensures key { result.0.key ≡ held.key }
    ensures goes { GoesOn mount.now stopped held result.0 result.1 }
{
    if stopped.is_some() {
        return (held, stopped);
    }
    match format_store(alloc, mount, held) {
        Ok(store) => (store, None),
        Err((stop, store)) => (store, Some(stop)),
    }
}

/// Writes a fresh image on each store, in order until one fails, and answers why it stopped. The room for the stores is there.
pub(crate) fn format_stores<S: Store>(
    alloc: Global,
    mount: &Mounted,
    stores: Vec<Held<S>>,
    left: &mut Vec<Held<S>>,
) -> Option<Stop>
    requires stores { AreStores mount.now (keys_of stores.items) }
    requires fit { EachAt (λ at store. IsFit mount.now store) stores.items }
    requires room { IsRoom (length stores.items) left.old }
    ensures { Went mount.now stores.items left.new.items result }
{
    let mut stopped = None;
    for held in stores {
        let (store, after) = format_next(alloc, mount, held, stopped);
        left.push_reserved(store);
        stopped = after;
    }
    stopped
}
