//! A bay of stores in memory.

ghost use Rattle.std.specs.Prelude.{◌≡◌, ◌≢◌, ◌↔◌, ◌∷◌, ◌++◌, ◌&&◌, [], ℕ, List, IsTrue, IfOk, OnOk, OnErr, IfErr, IsErr, IsSome, IfSome, IfNone, length, position, not, is_none, is_some, true, false, Some, None, if◌then◌else◌};
ghost use Rattle.std.specs.Option.{option_copied};
ghost use Rattle.spr_io.specs.Causes.{HasCause};
ghost use Rattle.spr_io.specs.Calls.{is_next_to_fail, one_more, no_calls, one_fault};
ghost use Rattle.spr_io.specs.Content.{HasShape, KeepsShape, HasNothingPending};
ghost use Rattle.spr_io.specs.Berth.{Lies, Opens, taken, given, lost, SameElsewhere, SameBerths};
ghost use Rattle.spr_io.specs.Memory.{fits_shape};
ghost use Rattle.spr_io.specs.MemoryBay.{is_slot, slot_of, stored, in_slot, berth_of, SetsSlot, is_out, refuses_shape, take_fails, give_fails, taken_store};

use crate::memory::MemStore;
use crate::ordinals::{Calls, count_fault};
use crate::outside::{Bay, BayErr, Failed, Store};
use std::alloc::{AllocError, Global};
use std::marker::Model;

/// A place for a store; it is empty while the store is out.
#[derive(Debug, Drop)]
struct Slot {
    disk: String,
    file: String,
    store: Option<MemStore>,
    /// The store's count of faults when it was put, taken, given back or lost last.
    count: u64,
}

impl Model for Slot {
    ghost use Rattle.std.specs.Prelude.{string_bytes};
    ghost use Rattle.spr_io.specs.MemoryBay as bay;

    ghost Value = { bay.Slot };

    ghost view = { λ s. record { disk = string_bytes s.disk; file = string_bytes s.file; store = s.store; count = s.count } };
}

impl Slot {
    /// An empty slot of a disk and a file.
    fn new(alloc: Global, disk: &str, file: &str) -> Result<Slot, AllocError>
        ensures { IfOk result (λ slot. slot ≡ record { disk = disk.now; file = file.now; store = None; count = 0 }) }
    {
        Ok(Slot {
            disk: String::from_str(alloc, disk)?,
            file: String::from_str(alloc, file)?,
            store: None,
            count: 0,
        })
    }

    fn is_of(&self, disk: &str, file: &str) -> bool
        ensures { result ≡ is_slot disk.now file.now self.now }
    {
        self.disk.as_str() == disk && self.file.as_str() == file
    }

    fn store(&self) -> Option<&MemStore>
        ensures { option_copied result ≡ self.now.store }
    {
        self.store.as_ref()
    }

    /// Takes the store out, if it is there and has this shape.
    fn take(&mut self, size: u32, blocks: u32) -> Option<MemStore>
        ensures some { IfSome result (λ store. (self.old.store ≡ Some store) × (fits_shape size blocks store ≡ true) × (self.new ≡ record self.old { store = None; count = store.count })) }
        ensures shape { IfSome result (λ store. HasShape store.size (length store.content.blocks) store.content) }
        ensures none { IfNone result ((self.new ≡ self.old) × (refuses_shape size blocks (Some self.old) ≡ true)) }
    {
        match &self.store {
            Some(store) if store.has_shape(size, blocks) => {
                self.count = store.count();
                self.store.take()
            }
            _ => None,
        }
    }

    /// Puts a store in, whatever was there.
    fn put(&mut self, store: MemStore)
        ensures { self.new ≡ record self.old { store = Some store; count = store.count } }
    {
        self.count = store.count();
        self.store = Some(store);
    }

    /// Puts a store in, if the slot is empty and the store is not refused; a refused one is lost.
    fn give(&mut self, store: MemStore, refused: bool) -> bool
        ensures answer { result ≡ (is_none self.old.store && not refused) }
        ensures given { result ≡ true → self.new ≡ record self.old { store = Some store; count = store.count } }
        ensures lost { self.old.store ≡ None → result ≡ false → self.new ≡ record self.old { count = store.count } }
        ensures same { IfSome self.old.store (λ _. self.new ≡ self.old) }
    {
        if self.store.is_some() {
            return false;
        }
        self.count = store.count();
        if !refused {
            self.store = Some(store);
        }
        !refused
    }
}

/// Where the slot of a disk and a file stands.
fn place_of(slots: &[Slot], disk: &str, file: &str) -> Option<usize>
    ensures { result ≡ position (is_slot disk.now file.now) slots.now }
{
    slots.iter().position(|s| s.is_of(disk, file))
}

/// Adds an empty slot, and answers its place.
fn add(alloc: Global, slots: &mut Vec<Slot>, disk: &str, file: &str) -> Result<usize, AllocError>
    requires { position (is_slot disk.now file.now) slots.old.items ≡ None }
    ensures place { IfOk result (λ at. position (is_slot disk.now file.now) slots.new.items ≡ Some at) }
    ensures slots { OnOk result (SetsSlot disk.now file.now None 0 slots.old.items slots.new.items) }
    ensures err { OnErr result (slots.new.items ≡ slots.old.items) }
{
    let at = slots.len();
    slots.push(Slot::new(alloc, disk, file)?)?;
    Ok(at)
}

/// Sets the store of a disk and a file.
fn put(
    alloc: Global,
    slots: &mut Vec<Slot>,
    disk: &str,
    file: &str,
    store: MemStore,
) -> Result<(), (AllocError, MemStore)>
    ensures ok { OnOk result (SetsSlot disk.now file.now (Some store) store.count slots.old.items slots.new.items) }
    ensures err { IfErr result (λ e. (e.1 ≡ store) × (slots.new.items ≡ slots.old.items)) }
{
    match place_of(slots, disk, file) {
        Some(at) => {
            let slot = &mut slots[at];
            slot.put(store);
            Ok(())
        }
        None => match add(alloc, slots, disk, file) {
            Ok(at) => {
                let slot = &mut slots[at];
                slot.put(store);
                Ok(())
            }
            Err(AllocError) => Err((AllocError, store)),
        },
    }
}

/// Makes a store of zeros, and room for it when it is given back.
fn make(
    alloc: Global,
    slots: &mut Vec<Slot>,
    disk: &str,
    file: &str,
    size: u32,
    blocks: u32,
) -> Result<MemStore, AllocError>
    requires { position (is_slot disk.now file.now) slots.old.items ≡ None }
    ensures store { IfOk result (λ store. store ≡ taken_store size blocks None) }
    ensures shape { IfOk result (λ store. HasShape size blocks store.content) }
    ensures slots { OnOk result (SetsSlot disk.now file.now None 0 slots.old.items slots.new.items) }
    ensures err { OnErr result (slots.new.items ≡ slots.old.items) }
{
    let store = MemStore::new(alloc, size, blocks, &[], &[], &[])?;
    add(alloc, slots, disk, file)?;
    Ok(store)
}

/// Takes the store of a disk and a file, or one of zeros if there is none.
fn take(
    alloc: Global,
    slots: &mut Vec<Slot>,
    disk: &str,
    file: &str,
    size: u32,
    blocks: u32,
) -> Result<MemStore, BayErr>
    ensures fits { OnOk result (refuses_shape size blocks (slot_of slots.old.items disk.now file.now) ≡ false) }
    ensures failed { result ≡ Err BayErr.Failed → refuses_shape size blocks (slot_of slots.old.items disk.now file.now) ≡ true }
    ensures memory { result ≡ Err BayErr.Memory → slot_of slots.old.items disk.now file.now ≡ None }
    ensures store { IfOk result (λ store. store ≡ taken_store size blocks (in_slot (slot_of slots.old.items disk.now file.now))) }
    ensures shape { IfOk result (λ store. (store.size ≡ size) × HasShape size blocks store.content) }
    ensures slots { IfOk result (λ store. SetsSlot disk.now file.now None store.count slots.old.items slots.new.items) }
    ensures err { OnErr result (slots.new.items ≡ slots.old.items) }
{
    match place_of(slots, disk, file) {
        Some(at) => {
            let slot = &mut slots[at];
            match slot.take(size, blocks) {
                Some(mut store) => {
                    store.settle();
                    Ok(store)
                }
                None => Err(BayErr::Failed),
            }
        }
        None => match make(alloc, slots, disk, file, size, blocks) {
            Ok(store) => Ok(store),
            Err(AllocError) => Err(BayErr::Memory),
        },
    }
}

/// Puts a store back, if one of this name is out and it is not refused.
fn give(slots: &mut Vec<Slot>, disk: &str, file: &str, store: MemStore, refused: bool) -> bool
    ensures answer { result ≡ (is_out (slot_of slots.old.items disk.now file.now) && not refused) }
    ensures given { result ≡ true → SetsSlot disk.now file.now (Some store) store.count slots.old.items slots.new.items }
    ensures lost { result ≡ false → is_out (slot_of slots.old.items disk.now file.now) ≡ true → SetsSlot disk.now file.now None store.count slots.old.items slots.new.items }
    ensures same { is_out (slot_of slots.old.items disk.now file.now) ≡ false → slots.new.items ≡ slots.old.items }
{
    match place_of(slots, disk, file) {
        Some(at) => {
            let slot = &mut slots[at];
            slot.give(store, refused)
        }
        None => false,
    }
}

/// Stores in memory by disk and file.
#[derive(Debug, Drop)]
pub struct MemBay {
    alloc: Global,
    slots: Vec<Slot>,
    takes: Calls,
    gives: Calls,
    faults: u64,
}

impl Model for MemBay {
    ghost use Rattle.spr_io.specs.MemoryBay as bay;

    ghost Value = { bay.Bay };

    ghost view = { λ b. record { slots = b.slots.items; takes = b.takes; gives = b.gives; faults = b.faults } };
}

impl MemBay {
    /// A bay with no store; the lists are the ordinals of the calls that are to fail, counted from 1.
    pub fn new(alloc: Global, takes: &[u64], gives: &[u64]) -> Result<MemBay, AllocError>
        ensures { IfOk result (λ bay. bay ≡ record { slots = []; takes = no_calls takes.now; gives = no_calls gives.now; faults = 0 }) }
    {
        Ok(MemBay {
            alloc,
            slots: Vec::new(alloc),
            takes: Calls::new(alloc, takes)?,
            gives: Calls::new(alloc, gives)?,
            faults: 0,
        })
    }

    /// Sets the store of a disk and a file; if memory runs out it gives the store back.
    pub fn put(
        &mut self,
        alloc: Global,
        disk: &str,
        file: &str,
        store: MemStore,
    ) -> Result<(), (AllocError, MemStore)>
        ensures ok { OnOk result (SetsSlot disk.now file.now (Some store) store.count self.old.slots self.new.slots) }
        ensures same { (self.new.takes ≡ self.old.takes) × (self.new.gives ≡ self.old.gives) × (self.new.faults ≡ self.old.faults) }
        ensures err { IfErr result (λ e. (e.1 ≡ store) × (self.new ≡ self.old)) }
    {
        put(alloc, &mut self.slots, disk, file, store)
    }

    /// The store that lies under a disk and a file, if there is one.
    pub fn look(&self, disk: &str, file: &str) -> Option<&MemStore>
        ensures { option_copied result ≡ stored self.now disk.now file.now }
    {
        match place_of(&self.slots, disk, file) {
            Some(at) => self.slots[at].store(),
            None => None,
        }
    }
}

impl Bay for MemBay {
    type Store = MemStore;

    ghost told = { λ b. record { berths = berth_of b; faults = b.faults } };

    /// It never fails.
    fn has(&mut self, disk: &str, file: &str) -> Result<bool, BayErr>
        ensures value { result ≡ Ok (is_some (stored self.old disk.now file.now)) }
        ensures unchanged { self.new ≡ self.old }
        ensures told { IfOk result (Lies (berth_of self.old disk.now file.now).holds) }
        ensures same { SameBerths (berth_of self.old) (berth_of self.new) }
        ensures cause { HasCause self.old.faults self.new.faults (result ≡ Err BayErr.Failed) }
        ensures calm { OnOk result (self.new.faults ≡ self.old.faults) }
        ensures memory { result ≡ Err BayErr.Memory → self.new.faults ≡ self.old.faults }
    {
        Ok(self.look(disk, file).is_some())
    }

    fn take(&mut self, disk: &str, file: &str, size: u32, blocks: u32) -> Result<MemStore, BayErr>
        ensures failed { result ≡ Err BayErr.Failed ↔ IsTrue (take_fails self.old disk.now file.now size blocks) }
        ensures store { IfOk result (λ store. store ≡ taken_store size blocks (stored self.old disk.now file.now)) }
        ensures slots { IfOk result (λ store. SetsSlot disk.now file.now None store.count self.old.slots self.new.slots) }
        ensures err { OnErr result (self.new.slots ≡ self.old.slots) }
        ensures calls { (self.new.takes ≡ one_more self.old.takes) × (self.new.gives ≡ self.old.gives) }
        ensures faults { self.new.faults ≡ (if take_fails self.old disk.now file.now size blocks then one_fault self.old.faults else self.old.faults) }
        ensures shape { IfOk result (λ store. KeepsShape size blocks store.size (length store.content.blocks) (Some store.content)) }
        ensures content { IfOk result (λ store. Opens size blocks (berth_of self.old disk.now file.now).holds (Some store.content)) }
        ensures settled { IfOk result (λ store. HasNothingPending (Some store.content)) }
        ensures count { IfOk result (λ store. store.count ≡ (berth_of self.old disk.now file.now).faults) }
        ensures was_in { OnOk result ((berth_of self.old disk.now file.now).out ≡ false) }
        ensures taken { OnOk result (berth_of self.new disk.now file.now ≡ taken (berth_of self.old disk.now file.now)) }
        ensures others { OnOk result (SameElsewhere disk.now file.now (berth_of self.old) (berth_of self.new)) }
        ensures refused { OnErr result (SameBerths (berth_of self.old) (berth_of self.new)) }
        ensures cause { HasCause self.old.faults self.new.faults (result ≡ Err BayErr.Failed) }
        ensures calm { OnOk result (self.new.faults ≡ self.old.faults) }
        ensures memory { result ≡ Err BayErr.Memory → (stored self.old disk.now file.now ≡ None) × (self.new.faults ≡ self.old.faults) }
    {
        if self.takes.next_fails() {
            count_fault(&mut self.faults);
            return Err(BayErr::Failed);
        }
        match take(self.alloc, &mut self.slots, disk, file, size, blocks) {
            Ok(store) => Ok(store),
            Err(BayErr::Failed) => {
                count_fault(&mut self.faults);
                Err(BayErr::Failed)
            }
            Err(BayErr::Memory) => Err(BayErr::Memory),
        }
    }

    fn give(&mut self, disk: &str, file: &str, store: MemStore) -> Result<(), Failed>
        ensures failed { IsErr result ↔ IsTrue (give_fails self.old disk.now file.now) }
        ensures slots { OnOk result (SetsSlot disk.now file.now (Some store) store.count self.old.slots self.new.slots) }
        ensures lost { OnErr result (is_out (slot_of self.old.slots disk.now file.now) ≡ true → SetsSlot disk.now file.now None store.count self.old.slots self.new.slots) }
        ensures same { is_out (slot_of self.old.slots disk.now file.now) ≡ false → self.new.slots ≡ self.old.slots }
        ensures calls { (self.new.gives ≡ one_more self.old.gives) × (self.new.takes ≡ self.old.takes) }
        ensures faults { self.new.faults ≡ (if give_fails self.old disk.now file.now then one_fault self.old.faults else self.old.faults) }
        ensures was_out { OnOk result ((berth_of self.old disk.now file.now).out ≡ true) }
        ensures given { OnOk result (berth_of self.new disk.now file.now ≡ given (Some store.content) store.count (berth_of self.old disk.now file.now)) }
        ensures refused { OnErr result (berth_of self.new disk.now file.now ≡ lost store.count (berth_of self.old disk.now file.now)) }
        ensures others { SameElsewhere disk.now file.now (berth_of self.old) (berth_of self.new) }
        ensures cause { HasCause self.old.faults self.new.faults (IsErr result) }
        ensures calm { OnOk result (self.new.faults ≡ self.old.faults) }
    {
        let refused = self.gives.next_fails();
        if give(&mut self.slots, disk, file, store, refused) {
            return Ok(());
        }
        count_fault(&mut self.faults);
        Err(Failed)
    }
}
