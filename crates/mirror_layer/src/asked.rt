//! One disk that is asked.

ghost use Rattle.std.specs.Prelude.{◌≡◌, ◌<◌, ◌≤◌, ◌^◌, ℕ, List, Result, Ok, Err, OnOk, IfErr, length, nat_lt, true, false};
ghost use Rattle.disk_layer.specs.Disk.{Disk};
ghost use Rattle.mirror_rules.specs.Steps as steps;
ghost use Rattle.mirror_layer.specs.View.{beside_of, leaf_of};
ghost use Rattle.mirror_layer.specs.Calls.{Suits, act_of, said, ReadsLeaf};

use disk_layer::{Disk, Generations};
use page_ground::{Ground, StoreFault};
use spr_io::Store;
use std::marker::Model;

/// A call to each live disk.
#[derive(Clone, Copy)]
pub enum Call<'a> {
    /// Writes a page.
    Write {
        /// The page, counted from 0.
        page: u32,
        /// Its bytes.
        bytes: &'a [u8],
    },
    /// Writes a generation and flushes.
    Raise {
        /// The generation: it rises at each raise of the image.
        generation: u64,
    },
    /// Flushes.
    Flush,
}

/// A disk, as mirrors ask it. It need not go to another thread.
pub trait Side: Drop {
    /// The disk.
    ghost disk: { Self → Disk };

    /// Asks it, and answers that no side became stale.
    fn ask(&mut self, call: Call) -> Result<bool, StoreFault>
        requires { Suits call (disk self.old) }
        ensures passes { steps.Passes (act_of call.entry) (leaf_of (disk self.old)) (said result) (leaf_of (disk self.new)) }
        ensures beside { beside_of (disk self.new) ≡ beside_of (disk self.old) };

    /// Reads a page of it.
    fn look(&mut self, page: u32, out: &mut [u8]) -> Result<(), StoreFault>
        requires page { page < (disk self.old).shape.pages }
        requires size { length out.old ≡ (disk self.old).shape.page_size }
        ensures taken { OnOk result (ReadsLeaf page out.new (disk self.old) (disk self.new)) }
        ensures refused { IfErr result (λ e. (x : List ℕ) → steps.Reads page x (leaf_of (disk self.old)) (steps.Fault e.disk e.count) (leaf_of (disk self.new))) }
        ensures beside { beside_of (disk self.new) ≡ beside_of (disk self.old) };

    /// Its generation.
    fn level(&self) -> u64
        ensures level { result ≡ (disk self.now).generation }
        ensures low { 1 ≤ result }
        ensures high { result < 2 ^ 63 };

    /// Whether a call to it has failed since it was opened.
    fn failed(&self) -> bool
        ensures { result ≡ nat_lt (disk self.now).opened (disk self.now).faults };
}

impl<S: Store> Side for Disk<S> {
    ghost disk = { λ d. d };

    fn ask(&mut self, call: Call) -> Result<bool, StoreFault> {
        match call {
            Call::Write { page, bytes } => match self.write(page, bytes) {
                Ok(()) => Ok(true),
                Err(fault) => Err(fault),
            },
            Call::Raise { generation } => match Generations::raise(self, generation) {
                Ok(()) => Ok(true),
                Err(fault) => Err(fault),
            },
            Call::Flush => match self.flush() {
                Ok(()) => Ok(true),
                Err(fault) => Err(fault),
            },
        }
    }

    fn look(&mut self, page: u32, out: &mut [u8]) -> Result<(), StoreFault> {
        match self.read(page, out) {
            Ok(()) => Ok(()),
            Err(fault) => Err(fault),
        }
    }

    fn level(&self) -> u64 {
        Generations::generation(self)
    }

    fn failed(&self) -> bool {
        self.has_failed()
    }
}

/// A disk that contracts see as one.
#[derive(Drop)]
pub struct Held<D: Side> {
    pub(crate) disk: D,
}

impl<D: Side> Model for Held<D> {
    ghost use Rattle.disk_layer.specs.Disk.{Disk};

    ghost Value = { Disk };

    ghost view = { λ h. D.disk h.disk };
}

/// Holds a disk.
pub fn hold<D: Side>(disk: D) -> Held<D>
    ensures { result ≡ D.disk disk }
{
    Held { disk }
}

/// Asks it.
pub fn ask<D: Side>(held: &mut Held<D>, call: Call) -> Result<bool, StoreFault>
    requires { Suits call held.old }
    ensures passes { steps.Passes (act_of call.entry) (leaf_of held.old) (said result) (leaf_of held.new) }
    ensures beside { beside_of held.new ≡ beside_of held.old }
{
    held.disk.ask(call)
}

/// Reads a page of it.
pub fn read_disk<D: Side>(disk: &mut Held<D>, page: u32, out: &mut [u8]) -> Result<(), StoreFault>
    requires page { page < disk.old.shape.pages }
    requires size { length out.old ≡ disk.old.shape.page_size }
    ensures taken { OnOk result (ReadsLeaf page out.new disk.old disk.new) }
    ensures refused { IfErr result (λ e. (x : List ℕ) → steps.Reads page x (leaf_of disk.old) (steps.Fault e.disk e.count) (leaf_of disk.new)) }
    ensures beside { beside_of disk.new ≡ beside_of disk.old }
{
    disk.disk.look(page, out)
}

/// Its generation.
pub fn level<D: Side>(held: &Held<D>) -> u64
    ensures level { result ≡ held.now.generation }
    ensures low { 1 ≤ result }
    ensures high { result < 2 ^ 63 }
{
    held.disk.level()
}

/// Whether a call to it has failed since it was opened.
pub fn has_failed<D: Side>(held: &Held<D>) -> bool
    ensures failed { result ≡ true → held.now.opened < held.now.faults }
    ensures calm { result ≡ false → held.now.faults ≤ held.now.opened }
{
    held.disk.failed()
}
