//! The one disk under a file, which tells contracts all that its store holds.

ghost use Rattle.std.specs.Prelude.{◌≡◌, ◌<◌, ◌≤◌, ◌*◌, ◌^◌, ◌∷◌, [], OnOk, IfOk, IfErr, length, true, vec_capacity};
ghost use Rattle.disk_format.specs.Shape.{IsShape};
ghost use Rattle.disk_layer.specs.Disk.{HasImage, Suits, kept_on, pages_on};
ghost use Rattle.mirror_rules.specs.Claims.{Every};
ghost use Rattle.file_stores.specs.Opening.{OpenedAlone, RefusedAlone};
ghost use Rattle.page_ground.specs.Seen.{IsFault, Keeps, KeptAt};
ghost use Rattle.file_stores.specs.WholeDisk.{Alone, IsAlone, IsRaised, seen_whole};
ghost use Rattle.file_stores.specs.Under.{One};
ghost use Rattle.file_stores.specs.Reading.{Fails, ReadsAll};

use disk_format::ImageShape;
use disk_layer::{Disk, Generations, ONLY_DISK, OpenWhy, read_pages};
use mirror_layer::next_generation;
use page_ground::{Ground, StoreFault};
use spr_io::Store;
use std::alloc::Global;
use std::marker::Model;

/// A disk that tells contracts its store's blocks too. So it is known of a file that is opened and closed again, and of which
/// no page was asked, that its store is as it was.
#[derive(Drop)]
pub(crate) struct WholeDisk<S: Store> {
    disk: Disk<S>,
    /// A raise is owed: the next flush pays it. A disk above generation 1 may be one side of a mirror that is run alone.
    owed: bool,
    /// The generation of the ground: that of the disk when it was opened, and then that of the last raise that was taken.
    level: u64,
    /// The list in which the store came, emptied. So the store goes back in it, and no memory is taken for that.
    emptied: Vec<S>,
}

impl<S: Store> Model for WholeDisk<S> {
    ghost use Rattle.std.specs.Prelude.{◌≡◌, ◌≤◌, [], vec_capacity};
    ghost use Rattle.file_stores.specs.WholeDisk.{Alone, IsAlone};

    ghost Value = { Alone };

    ghost view = { λ w. record { disk = w.disk; owed = w.owed; generation = w.level } };

    ghost invariant = { λ w. (w.emptied.items ≡ []) × (1 ≤ vec_capacity w.emptied) × IsAlone (record { disk = w.disk; owed = w.owed; generation = w.level }) };
}

/// A disk that is not opened: its store, which is handed back, and the reason.
#[derive(Drop)]
pub(crate) struct OpenAlone<S> {
    /// The stores, given back as they are.
    pub(crate) stores: Vec<S>,
    /// Why it was not opened.
    pub(crate) why: OpenWhy,
}

impl<S: Store> WholeDisk<S> {
    /// Opens the image on a file's one store.
    pub(crate) fn open(
        alloc: Global,
        stores: Vec<S>,
        shape: &ImageShape,
    ) -> Result<WholeDisk<S>, OpenAlone<S>>
        requires shape { IsShape shape.now }
        requires one { length stores.items ≡ 1 }
        requires suits { Every (λ s. Suits shape.now (S.size s) (S.number s)) stores.items }
        ensures opened { IfOk result (OpenedAlone (λ s. S.content s) (λ s. S.faults s) shape.now stores.items) }
        ensures refused { IfErr result (λ e. RefusedAlone (λ s. S.content s) (λ s. S.faults s) shape.now stores.items e.why e.stores.items) }
    {
        let mut stores = stores;
        let Some(store) = stores.pop() else {
            unreachable!();
        };
        match Disk::open(alloc, store, ONLY_DISK, shape) {
            Ok(disk) => {
                let level = disk.generation();
                Ok(WholeDisk {
                    disk,
                    owed: level > 1,
                    level,
                    emptied: stores,
                })
            }
            Err(refused) => {
                stores.push_reserved(refused.store);
                Err(OpenAlone {
                    stores,
                    why: refused.why,
                })
            }
        }
    }

    /// Gives the store back. It asks no store, and takes no memory.
    pub(crate) fn close(self) -> Vec<S>
        ensures { (s : S) × (result.items ≡ s ∷ []) × (S.content s ≡ self.disk.content) × (S.faults s ≡ self.disk.faults) }
    {
        let mut stores = self.emptied;
        stores.push_reserved(self.disk.close());
        stores
    }

    /// Reads all pages, one after another from the lowest.
    pub(crate) fn read_all(&mut self, out: &mut [u8]) -> Result<(), StoreFault>
        requires { length out.old ≡ self.old.disk.shape.pages * self.old.disk.shape.page_size }
        ensures read { OnOk result (ReadsAll (One self.old) (One self.new) out.new) }
        ensures fault { IfErr result (Fails (One self.old) (One self.new)) }
    {
        read_pages(&mut self.disk, out)
    }

    /// What holds of every disk, for proofs alone.
    pub(crate) fn sound(&self)
        ensures image { HasImage self.now.disk }
        ensures since { self.now.disk.opened ≤ self.now.disk.faults }
        ensures near { IsAlone self.now }
    {
        self.disk.sound();
    }
}

/// A disk alone that is raised. The kit covers no call of a method of `WholeDisk` itself where that is a `Ground`, which goes to
/// another thread; but that of a trait's.
trait Raises {
    /// The disk.
    ghost alone: { Self → Alone };

    /// Raises the disk once. A raise that was taken gives the ground its number; a refused one leaves it, whatever stands on the
    /// disk.
    fn raise(&mut self) -> Result<(), StoreFault>
        requires owed { (alone self.old).owed ≡ true }
        ensures raises { IsRaised (alone self.old) result (alone self.new) }
        ensures pages { pages_on (alone self.new).disk ≡ pages_on (alone self.old).disk }
        ensures count { OnOk result ((alone self.new).disk.faults ≡ (alone self.old).disk.faults) }
        ensures kept { OnOk result (KeptAt (kept_on (alone self.new).disk) (pages_on (alone self.new).disk)) }
        ensures keeps { Keeps (seen_whole (alone self.old)) (seen_whole (alone self.new)) }
        ensures fault { IfErr result (IsFault (seen_whole (alone self.old)) (seen_whole (alone self.new))) };
}

impl<S: Store> Raises for WholeDisk<S> {
    ghost alone = { λ w. w };

    fn raise(&mut self) -> Result<(), StoreFault> {
        let generation = next_generation(self.level);
        Generations::raise(&mut self.disk, generation)?;
        self.level = generation;
        Ok(())
    }
}

impl<S: Store> Ground for WholeDisk<S> {
    ghost use Rattle.file_stores.specs.WholeDisk.{seen_whole};

    ghost seen = { seen_whole };

    fn read(&mut self, page: u32, out: &mut [u8]) -> Result<(), StoreFault> {
        self.disk.read(page, out)
    }

    fn write(&mut self, page: u32, bytes: &[u8]) -> Result<(), StoreFault> {
        self.disk.write(page, bytes)
    }

    /// Keeps every page; and pays the raise that is owed, by raising twice. After one raise a side that was not asked before the
    /// program was stopped may have the same number; after two it is below. A raise flushes.
    fn flush(&mut self) -> Result<(), StoreFault> {
        if !self.owed {
            return self.disk.flush();
        }
        Raises::raise(self)?;
        Raises::raise(self)?;
        self.owed = false;
        Ok(())
    }
}
