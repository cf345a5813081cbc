//! Stores that are out of the bay: how they are taken and given back.

ghost use Rattle.std.specs.Prelude.{◌≡◌, ◌++◌, ◌∷◌, ◌+◌, ◌<◌, ◌≤◌, [], IfOk, IfErr, OnOk, OnErr, length, take, vec_capacity};
ghost use Rattle.stack_accept.specs.Sound.{IsMount};
ghost use Rattle.spr_io.specs.Berth.{SameBerths};
ghost use Rattle.file_stores.specs.Keys.{AreStores, IsStore};
ghost use Rattle.file_stores.specs.Held.{IsRoom, keys_of, Took, AreOut, IsUntaken, Gave, AreGiven};

use crate::keys::shape_of;
use crate::stop::Stop;
use script_meaning::{StoreKey, disk_name, file_name};
use spr_io::{Bay, BayErr, Store};
use stack_accept::Mounted;
use std::marker::Model;

/// A store that is out of the bay, and which one it is.
#[derive(Drop)]
pub struct Held<S: Store> {
    /// Which one it is.
    pub key: StoreKey,
    /// The store, given back as it is.
    pub store: S,
}

impl<S: Store> Model for Held<S> {
    ghost use Rattle.file_stores.specs.Held.{StoreSeen};

    ghost Value = { StoreSeen };

    ghost view = { λ h. record { key = h.key; size = S.size h.store; number = S.number h.store; state = record { content = S.content h.store; faults = S.faults h.store } } };
}

/// Takes a store, which has a block for each of its image.
pub fn take_store<B: Bay>(
    mount: &Mounted,
    bay: &mut B,
    key: StoreKey,
) -> Result<Held<B::Store>, Stop>
    requires { IsStore mount.now key }
    ensures sound { IsMount mount.now }
    ensures key { IfOk result (λ held. held.key ≡ key) }
    ensures took { IfOk result (Took mount.now (B.told bay.old) (B.told bay.new)) }
    ensures refused { OnErr result (SameBerths (B.told bay.old).berths (B.told bay.new).berths) }
    ensures cause { IfErr result (IsUntaken (key ∷ []) 0 (B.told bay.old) (B.told bay.new)) }
{
    let shape = shape_of(mount, key);
    let disk = disk_name(mount, key.disk);
    let file = file_name(mount, key.file);
    match bay.take(disk, file, shape.page_size, shape.blocks()) {
        Ok(store) => Ok(Held { key, store }),
        Err(BayErr::Failed) => Err(Stop::Bay { store: key }),
        Err(BayErr::Memory) => Err(Stop::Memory),
    }
}

/// Takes these stores, in order, as far as the bay gives them. The room for them is there.
pub fn take_stores<B: Bay>(
    mount: &Mounted,
    bay: &mut B,
    keys: &[StoreKey],
    stores: &mut Vec<Held<B::Store>>,
) -> Result<(), Stop>
    requires keys { AreStores mount.now keys.now }
    requires room { IsRoom (length keys.now) stores.old }
    ensures out { AreOut mount.now (B.told bay.old) (B.told bay.new) stores.new.items }
    ensures stores { AreStores mount.now (keys_of stores.new.items) }
    ensures first { keys_of stores.new.items ≡ take (length stores.new.items) keys.now }
    ensures all { OnOk result (keys_of stores.new.items ≡ keys.now) }
    ensures calm { OnOk result ((B.told bay.new).faults ≡ (B.told bay.old).faults) }
    ensures cause { IfErr result (IsUntaken keys.now (length stores.new.items) (B.told bay.old) (B.told bay.new)) }
{
    for key in keys {
        match take_store(mount, bay, *key) {
            Ok(held) => stores.push_reserved(held),
            Err(stop) => return Err(stop),
        }
    }
    Ok(())
}

/// Gives a store back; one that the bay refuses is lost. The room for that is there.
pub fn give<B: Bay>(mount: &Mounted, bay: &mut B, held: Held<B::Store>, lost: &mut Vec<StoreKey>)
    requires { length lost.old.items < vec_capacity lost.old }
    ensures gave { Gave mount.now (B.told bay.old) (B.told bay.new) lost.old.items lost.new.items held }
    ensures room { vec_capacity lost.new ≡ vec_capacity lost.old }
{
    let Held { key, store } = held;
    let disk = disk_name(mount, key.disk);
    let file = file_name(mount, key.file);
    if bay.give(disk, file, store).is_err() {
        lost.push_reserved(key);
    }
}

/// Gives stores back, in order, and lists those that the bay refuses, which are lost. The room for the list is there.
pub fn give_back<B: Bay>(
    mount: &Mounted,
    bay: &mut B,
    stores: Vec<Held<B::Store>>,
    lost: &mut Vec<StoreKey>,
)
    requires keys { AreStores mount.now (keys_of stores.items) }
    requires room { IsRoom (length stores.items) lost.old }
    ensures { AreGiven mount.now (B.told bay.old) (B.told bay.new) stores.items lost.new.items }
{
    for held in stores {
        give(mount, bay, held, lost);
    }
}
