//! A store in memory.

ghost use Rattle.std.specs.Prelude.{◌≡◌, ◌<◌, IsTrue, IfOk, OnOk, OnErr, IsErr, is_err, length, slice_get, Some};
ghost use Rattle.spr_io.specs.Causes.{Counts};
ghost use Rattle.spr_io.specs.Calls.{fails, one_more, count_after};
ghost use Rattle.spr_io.specs.Content.{HasShape, KeepsShape, all_kept};
ghost use Rattle.spr_io.specs.Memory.{new_store, after_read, after_write, after_flush, fits_shape};

use crate::blocks::Blocks;
use crate::ordinals::Calls;
use crate::outside::{Failed, Store};
use std::alloc::{AllocError, Global};
use std::marker::Model;

/// A store in memory.
#[derive(Debug, Drop)]
pub struct MemStore {
    held: Blocks,
    reads: Calls,
    writes: Calls,
    flushes: Calls,
    count: u64,
}

impl Model for MemStore {
    ghost use Rattle.std.specs.Prelude.{length};
    ghost use Rattle.spr_io.specs.Content.{HasShape};
    ghost use Rattle.spr_io.specs.Memory.{Mem};

    ghost Value = { Mem };

    ghost view = { λ s. record { size = s.held.size; content = s.held.content; reads = s.reads; writes = s.writes; flushes = s.flushes; count = s.count } };

    ghost invariant = { λ s. HasShape s.held.size (length s.held.content.blocks) s.held.content };
}

impl MemStore {
    /// A store of zeros, of `size` bytes a block; the lists are the ordinals of the calls that are to fail.
    pub fn new(
        alloc: Global,
        size: u32,
        blocks: u32,
        reads: &[u64],
        writes: &[u64],
        flushes: &[u64],
    ) -> Result<MemStore, AllocError>
        ensures new { IfOk result (λ store. store ≡ new_store size blocks reads.now writes.now flushes.now) }
        ensures shape { IfOk result (λ store. HasShape store.size (length store.content.blocks) store.content) }
    {
        Ok(MemStore {
            held: Blocks::new(alloc, size, blocks)?,
            reads: Calls::new(alloc, reads)?,
            writes: Calls::new(alloc, writes)?,
            flushes: Calls::new(alloc, flushes)?,
            count: 0,
        })
    }

    /// Whether it has this size and number of blocks.
    pub fn has_shape(&self, size: u32, blocks: u32) -> bool
        ensures answer { result ≡ fits_shape size blocks self.now }
        ensures shape { HasShape self.now.size (length self.now.content.blocks) self.now.content }
    {
        self.held.size() == size && self.held.number() == blocks
    }

    /// A block as it is read.
    pub fn block(&self, block: u32) -> &[u8]
        requires { block < length self.now.content.blocks }
        ensures { slice_get self.now.content.blocks block ≡ Some result.now }
    {
        self.held.block(block)
    }

    /// A block as it was kept at the last flush that succeeded.
    pub fn kept(&self, block: u32) -> &[u8]
        requires { block < length self.now.content.kept }
        ensures { slice_get self.now.content.kept block ≡ Some result.now }
    {
        self.held.kept(block)
    }

    /// Keeps every block as it is read; this is no call of the store, so it cannot fail and is not counted.
    pub(crate) fn settle(&mut self)
        ensures { self.new ≡ record self.old { content = all_kept self.old.content } }
    {
        self.held.flush();
    }
}

/// Whether a call fails, which is then counted.
fn refuses(calls: &mut Calls, count: &mut u64) -> bool
    ensures answer { result ≡ fails calls.old count.old }
    ensures calls { calls.new ≡ one_more calls.old }
    ensures count { count.new ≡ count_after calls.old count.old }
    ensures counts { Counts count.old count.new (IsTrue result) }
{
    let before = *count;
    let fails = calls.next_fails() && before < u64::MAX;
    if fails {
        *count = before + 1;
    }
    fails
}

impl Store for MemStore {
    ghost content = { λ s. Some s.content };

    ghost size = { λ s. s.size };

    ghost number = { λ s. length s.content.blocks };

    ghost faults = { λ s. s.count };

    fn read(&mut self, block: u32, out: &mut [u8]) -> Result<(), Failed>
        requires block { block < length self.old.content.blocks }
        requires size { length out.old ≡ self.old.size }
        ensures answer { is_err result ≡ fails self.old.reads self.old.count }
        ensures after { self.new ≡ after_read self.old }
        ensures bytes { OnOk result (slice_get self.old.content.blocks block ≡ Some out.new) }
        ensures out { OnErr result (out.new ≡ out.old) }
        ensures shape { KeepsShape self.old.size (length self.old.content.blocks) self.new.size (length self.new.content.blocks) (Some self.new.content) }
        ensures cause { Counts self.old.count self.new.count (IsErr result) }
        ensures calm { OnOk result (self.new.count ≡ self.old.count) }
    {
        if refuses(&mut self.reads, &mut self.count) {
            return Err(Failed);
        }
        out.copy_from_slice(self.held.block(block));
        Ok(())
    }

    fn write(&mut self, block: u32, bytes: &[u8]) -> Result<(), Failed>
        requires block { block < length self.old.content.blocks }
        requires size { length bytes.now ≡ self.old.size }
        ensures answer { is_err result ≡ fails self.old.writes self.old.count }
        ensures after { self.new ≡ after_write block bytes.now self.old }
        ensures shape { KeepsShape self.old.size (length self.old.content.blocks) self.new.size (length self.new.content.blocks) (Some self.new.content) }
        ensures cause { Counts self.old.count self.new.count (IsErr result) }
        ensures calm { OnOk result (self.new.count ≡ self.old.count) }
    {
        if refuses(&mut self.writes, &mut self.count) {
            return Err(Failed);
        }
        self.held.write(block, bytes);
        Ok(())
    }

    fn flush(&mut self) -> Result<(), Failed>
        ensures answer { is_err result ≡ fails self.old.flushes self.old.count }
        ensures after { self.new ≡ after_flush self.old }
        ensures shape { KeepsShape self.old.size (length self.old.content.blocks) self.new.size (length self.new.content.blocks) (Some self.new.content) }
        ensures cause { Counts self.old.count self.new.count (IsErr result) }
        ensures calm { OnOk result (self.new.count ≡ self.old.count) }
    {
        if refuses(&mut self.flushes, &mut self.count) {
            return Err(Failed);
        }
        self.settle();
        Ok(())
    }

    fn count(&self) -> u64 {
        self.count
    }

    fn blocks(&self) -> u32 {
        self.held.number()
    }
}
