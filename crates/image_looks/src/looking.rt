//! How a store is looked at: taken, if something lies there, opened, closed and given back.

ghost use Rattle.std.specs.Prelude.{◌≡◌, ◌≤◌, length, true, if◌then◌else◌};
ghost use Rattle.spr_io.specs.Berth.{Lies, SameElsewhere};
ghost use Rattle.disk_format.specs.Shape.{IsShape};
ghost use Rattle.disk_layer.specs.Disk.{Suits};
ghost use Rattle.script_meaning.specs.Stack.{disk_name, file_name};
ghost use Rattle.file_stores.specs.Keys.{AreStores, IsStore, berth_of, image_shape};
ghost use Rattle.file_stores.specs.State.{RoseBy};
ghost use Rattle.file_stores.specs.Held.{IsFit, IsRoom};
ghost use Rattle.image_looks.specs.Found.{AreLooks, CameBack, Finds, Looked, found_on, is_refused, stores_at};

use crate::found::{Found, Look};
use disk_format::{BadImage, ImageShape};
use disk_layer::{Disk, Generations, OpenErr, OpenWhy};
use file_stores::{Held, Stop, shape_of, take_store};
use script_meaning::{StoreKey, disk_name, file_name};
use spr_io::{Bay, BayErr, Failed, Store};
use stack_accept::Mounted;
use std::alloc::Global;

/// What lies on a store, which is handed back. No block is written.
fn find<S: Store>(alloc: Global, store: S, disk: u32, shape: &ImageShape) -> (S, Found)
    requires shape { IsShape shape.now }
    requires suits { Suits shape.now (S.size store) (S.number store) }
    ensures finds { Finds (found_on shape.now) (record { content = S.content store; faults = S.faults store }) (record { content = S.content result.0; faults = S.faults result.0 }) result.1 }
    ensures later { S.faults store ≤ S.faults result.0 }
{
    match Disk::open(alloc, store, disk, shape) {
        Ok(disk) => {
            let generation = disk.generation();
            (disk.close(), Found::Image { generation })
        }
        Err(OpenErr { store, why }) => match why {
            OpenWhy::BadImage { blank: true, .. } => (store, Found::Blank),
            OpenWhy::BadImage { bad, blank: false } => {
                let BadImage { place, why } = bad;
                (store, Found::NoImage { place, why })
            }
            OpenWhy::StoreFault { fault } => (store, Found::Failed { count: fault.count }),
            OpenWhy::Memory => (store, Found::Memory),
        },
    }
}

/// Looks at a store that was taken, and gives it back.
fn look_taken<B: Bay>(alloc: Global, mount: &Mounted, bay: &mut B, held: Held<B::Store>) -> Found
    requires store { IsStore mount.now held.key }
    requires fit { IsFit mount.now held }
    ensures back { CameBack (image_shape mount.now held.key) held.state (berth_of mount.now held.key (B.told bay.old).berths) (berth_of mount.now held.key (B.told bay.new).berths) result }
    ensures paid { RoseBy (if is_refused result then 1 else 0) (B.told bay.old).faults (B.told bay.new).faults }
    ensures others { SameElsewhere (disk_name mount.now held.key.disk) (file_name mount.now held.key.file) (B.told bay.old).berths (B.told bay.new).berths }
{
    let Held { key, store } = held;
    let shape = shape_of(mount, key);
    let (store, found) = find(alloc, store, key.disk, &shape);
    let disk = disk_name(mount, key.disk);
    let file = file_name(mount, key.file);
    match bay.give(disk, file, store) {
        Ok(()) => found,
        Err(Failed) => Found::Lost,
    }
}

/// Takes a store that lies there, looks at it, and gives it back.
fn look_there<B: Bay>(alloc: Global, mount: &Mounted, bay: &mut B, store: StoreKey) -> Look
    requires store { IsStore mount.now store }
    requires lies { Lies (berth_of mount.now store (B.told bay.old).berths).holds true }
    ensures store { result.store ≡ store }
    ensures looked { Looked mount.now (B.told bay.old) (B.told bay.new) result }
{
    match take_store(mount, bay, store) {
        Ok(held) => {
            let found = look_taken(alloc, mount, bay, held);
            Look { store, found }
        }
        Err(Stop::Bay { .. }) => Look {
            store,
            found: Found::NotTaken,
        },
        Err(_) => Look {
            store,
            found: Found::Memory,
        },
    }
}

/// Looks at a store. Where nothing lies nothing is taken, and nothing made.
fn look<B: Bay>(alloc: Global, mount: &Mounted, bay: &mut B, store: StoreKey) -> Look
    requires store { IsStore mount.now store }
    ensures store { result.store ≡ store }
    ensures looked { Looked mount.now (B.told bay.old) (B.told bay.new) result }
{
    let disk = disk_name(mount, store.disk);
    let file = file_name(mount, store.file);
    let found = match bay.has(disk, file) {
        Ok(true) => return look_there(alloc, mount, bay, store),
        Ok(false) => Found::Missing,
        Err(BayErr::Failed) => Found::NotTaken,
        Err(BayErr::Memory) => Found::Memory,
    };
    Look { store, found }
}

/// Looks at stores, one after another. The room for that is there.
pub(crate) fn look_all<B: Bay>(
    alloc: Global,
    mount: &Mounted,
    bay: &mut B,
    stores: &[StoreKey],
    looks: &mut Vec<Look>,
)
    requires stores { AreStores mount.now stores.now }
    requires room { IsRoom (length stores.now) looks.old }
    ensures stores { stores_at looks.new.items ≡ stores.now }
    ensures looked { AreLooks mount.now (B.told bay.old) (B.told bay.new) looks.new.items }
{
    for store in stores {
        looks.push_reserved(look(alloc, mount, bay, *store));
    }
}
