//! A disk in the making: pages on a store that has no header yet.

ghost use Rattle.std.specs.Prelude.{◌≡◌, ◌⊎◌, ◌<◌, ◌≤◌, ◌^◌, IfOk, IfErr, IsErr, OnOk, OnErr, is_some, length};
ghost use Rattle.spr_io.specs.Causes.{Counts};
ghost use Rattle.spr_io.specs.Content.{HasNothingPending, KeepsShape, flushed, written};
ghost use Rattle.page_ground.specs.Seen.{with_page};
ghost use Rattle.disk_format.specs.Shape.{IsShape};
ghost use Rattle.disk_layer.specs.declared.refused.OpenWhy.TheVariants as whys;
ghost use Rattle.disk_layer.specs.Front.{entries_on};
ghost use Rattle.disk_layer.specs.Disk.{Suits, IsMapped, HasImage, IsBlank, Placed, pages_on, pages_named, first_in, kept_in};
ghost use Rattle.disk_layer.specs.Calls.{Stored, IsNone};
ghost use Rattle.disk_layer.specs.Making.{Making, Began, Unbegun, StaysBlank, SameMaking, IsUnended, IsBlankOrMade, pages_made, made_disk};

use crate::blocks::Front;
use crate::fresh::{FreshImage, write_holes};
use crate::layer::{Disk, over};
use crate::load::Loaded;
use crate::refused::{OpenErr, OpenWhy};
use disk_format::ImageShape;
use page_ground::{StoreFault, fault_of};
use spr_io::{Failed, Store};
use std::marker::Model;

/// A disk in the making: a map and pages on a store, to which the header comes last.
///
/// So a store whose block 0 is zeros shows no image before it shows the whole one. No call takes memory.
#[derive(Drop)]
pub struct Making<S: Store> {
    store: S,
    disk: u32,
    front: Front,
}

impl<S: Store> Model for Making<S> {
    ghost use Rattle.disk_layer.specs.Front.{entries_on};
    ghost use Rattle.disk_layer.specs.Disk.{IsMapped};
    ghost use Rattle.disk_layer.specs.Making.{Making};

    ghost Value = { Making };

    ghost view = { λ m. record {
      disk = m.disk;
      shape = m.front.shape;
      entries = entries_on m.front;
      content = S.content m.store;
      faults = S.faults m.store;
    } };

    ghost invariant = { λ m. IsMapped m.front (S.size m.store) (S.number m.store) (S.content m.store) };
}

/// Writes a page: its block; or if it was a hole the lowest free block, and then the map's block that names it.
///
/// An error leaves every page as it was. (A disk writes a page so too. Its own call cannot use this one, since what is under a
/// file may go to another thread.)
fn write_page<S: Store>(
    store: &mut S,
    front: &mut Front,
    page: u32,
    bytes: &[u8],
) -> Result<(), Failed>
    requires page { page < front.old.shape.pages }
    requires size { length bytes.now ≡ front.old.shape.page_size }
    requires mapped { IsMapped front.old (S.size store.old) (S.number store.old) (S.content store.old) }
    ensures ok { OnOk result (pages_named front.new (S.content store.new) ≡ with_page page bytes.now (pages_named front.old (S.content store.old))) }
    ensures err { OnErr result (pages_named front.new (S.content store.new) ≡ pages_named front.old (S.content store.old)) }
    ensures placed { OnOk result (Placed front.old.shape (entries_on front.old) page (entries_on front.new)) }
    ensures unplaced { OnErr result (entries_on front.new ≡ entries_on front.old) }
    ensures shape { front.new.shape ≡ front.old.shape }
    ensures mapped { IsMapped front.new (S.size store.new) (S.number store.new) (S.content store.new) }
    ensures told { is_some (S.content store.new) ≡ is_some (S.content store.old) }
    ensures first { first_in (S.content store.new) ≡ first_in (S.content store.old) }
    ensures kept { kept_in (S.content store.new) ≡ kept_in (S.content store.old) }
    ensures cause { Counts (S.faults store.old) (S.faults store.new) (IsErr result) }
    ensures calm { OnOk result (S.faults store.new ≡ S.faults store.old) }
{
    let entry = front.entry(page);
    if entry != 0 {
        store.write(entry, bytes)?;
        return Ok(());
    }
    let block = front.free_block();
    store.write(block, bytes)?;
    front.draft_part(page, block);
    store.write(front.part_of(page), front.draft())?;
    front.name(page, block);
    Ok(())
}

/// Flushes, writes the header, and flushes.
fn write_last<S: Store>(store: &mut S, header: &[u8]) -> Result<(), Failed>
    requires some { 0 < S.number store.old }
    requires size { length header.now ≡ S.size store.old }
    ensures ok { OnOk result (S.content store.new ≡ flushed (written 0 header.now (S.content store.old))) }
    ensures err { OnErr result ((S.content store.new ≡ S.content store.old) ⊎ ((S.content store.new ≡ flushed (S.content store.old)) ⊎ (S.content store.new ≡ written 0 header.now (flushed (S.content store.old))))) }
    ensures shape { KeepsShape (S.size store.old) (S.number store.old) (S.size store.new) (S.number store.new) (S.content store.new) }
    ensures cause { Counts (S.faults store.old) (S.faults store.new) (IsErr result) }
    ensures calm { OnOk result (S.faults store.new ≡ S.faults store.old) }
{
    store.flush()?;
    store.write(0, header)?;
    store.flush()
}

impl<S: Store> Making<S> {
    /// Begins a disk on a store of its block size and number of blocks: writes the map's blocks, all holes, from the lowest.
    /// Block 0 stays as it is.
    ///
    /// A store that fails is handed back.
    pub fn begin(fresh: FreshImage, store: S, disk: u32) -> Result<Making<S>, OpenErr<S>>
        requires { Suits fresh (S.size store) (S.number store) }
        ensures ok { IfOk result (Began (record { disk = disk; shape = fresh; content = S.content store; faults = S.faults store })) }
        ensures blank { IfOk result (λ m. StaysBlank fresh (S.content store) m.content) }
        ensures err { IfErr result (λ e. (S.faults store < S.faults e.store) × (e.why ≡ whys.StoreFault (record { disk = disk; count = S.faults e.store }))) }
        ensures begun { IfErr result (λ e. Unbegun (record { disk = disk; shape = fresh; content = S.content store; faults = S.faults store }) (S.content e.store)) }
        ensures still { IfErr result (λ e. StaysBlank fresh (S.content store) (S.content e.store)) }
        ensures told { IfErr result (λ e. is_some (S.content e.store) ≡ is_some (S.content store)) }
        ensures suits { IfErr result (λ e. Suits fresh (S.size e.store) (S.number e.store)) }
    {
        let mut store = store;
        match write_holes(&mut store, disk, fresh) {
            Ok(front) => Ok(Making { store, disk, front }),
            Err(fault) => Err(OpenErr {
                store,
                why: OpenWhy::StoreFault { fault },
            }),
        }
    }

    /// The shape of the disk's image.
    pub fn shape(&self) -> ImageShape
        ensures shape { result ≡ self.now.shape }
        ensures within { IsShape result }
    {
        self.front.shape()
    }

    /// Writes a page, as a disk does. A page that was not written is zeros. An error leaves every page as it was.
    pub fn write(&mut self, page: u32, bytes: &[u8]) -> Result<(), StoreFault>
        requires page { page < self.old.shape.pages }
        requires size { length bytes.now ≡ self.old.shape.page_size }
        ensures ok { OnOk result (pages_made self.new ≡ with_page page bytes.now (pages_made self.old)) }
        ensures err { OnErr result (pages_made self.new ≡ pages_made self.old) }
        ensures placed { OnOk result (Placed self.old.shape self.old.entries page self.new.entries) }
        ensures unplaced { OnErr result (self.new.entries ≡ self.old.entries) }
        ensures rest { SameMaking self.old self.new }
        ensures blank { StaysBlank self.old.shape self.old.content self.new.content }
        ensures count { OnOk result (self.new.faults ≡ self.old.faults) }
        ensures fault { IfErr result (λ f. (self.old.faults < self.new.faults) × (f ≡ record { disk = self.old.disk; count = self.new.faults })) }
    {
        if let Err(Failed) = write_page(&mut self.store, &mut self.front, page, bytes) {
            return Err(fault_of(self.disk, self.store.count()));
        }
        Ok(())
    }

    /// Ends the making: flushes, writes the header with a generation, and flushes. Every block of the disk is then kept.
    ///
    /// A store that fails is handed back. If its block 0 was zeros it is so still and shows no image; or, if the last flush
    /// failed, it shows the whole one.
    pub fn end(self, generation: u64) -> Result<Disk<S>, OpenErr<S>>
        requires low { 1 ≤ generation }
        requires high { generation < 2 ^ 63 }
        ensures ok { IfOk result (λ d. d ≡ made_disk generation self) }
        ensures pages { IfOk result (λ d. pages_on d ≡ pages_made self) }
        ensures image { IfOk result HasImage }
        ensures kept { IfOk result (λ d. HasNothingPending d.content) }
        ensures err { IfErr result (λ e. (self.faults < S.faults e.store) × (e.why ≡ whys.StoreFault (record { disk = self.disk; count = S.faults e.store }))) }
        ensures unended { IfErr result (λ e. IsUnended generation self (S.content e.store)) }
        ensures whole { IfErr result (λ e. IsBlank self.content → IsBlankOrMade generation self (S.content e.store)) }
        ensures told { IfErr result (λ e. is_some (S.content e.store) ≡ is_some self.content) }
        ensures suits { IfErr result (λ e. Suits self.shape (S.size e.store) (S.number e.store)) }
    {
        let Making {
            mut store,
            disk,
            mut front,
        } = self;
        front.draft_header(generation);
        match write_last(&mut store, front.draft()) {
            Ok(()) => Ok(over(store, disk, Loaded { generation, front })),
            Err(Failed) => {
                let fault = fault_of(disk, store.count());
                Err(OpenErr {
                    store,
                    why: OpenWhy::StoreFault { fault },
                })
            }
        }
    }

    /// Gives the store back, without a header.
    pub fn leave(self) -> S
        ensures content { S.content result ≡ self.content }
        ensures faults { S.faults result ≡ self.faults }
        ensures suits { Suits self.shape (S.size result) (S.number result) }
        ensures none { IsBlank self.content → IsNone self.shape self.content }
    {
        self.store
    }
}
