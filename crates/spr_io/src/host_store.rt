//! A store in a file, its blocks one after another.

ghost use Rattle.std.specs.Prelude.{◌≡◌, ◌+◌, ◌-◌, ◌*◌, ◌^◌, ◌<◌, OnOk, OnErr, IsErr, length, true, false};
ghost use Rattle.spr_io.specs.Causes.{Counts};
ghost use Rattle.spr_io.specs.Content.{ReadsBlock, IsShaped, KeepsShape, written, flushed};
ghost use Rattle.spr_io.specs.Raw.{ReadsWhole, HasBytes, is_sure};
ghost use Rattle.spr_io.specs.Host.{FileFits, held, image_content};

use crate::outside::{Failed, Store};
use crate::raw::RawFile;
use std::marker::Model;

/// A store in a file, its blocks one after another.
///
/// After a sync that was refused nothing is known of what the file keeps, and on some hosts the next sync answers Ok all
/// the same. Such a store is spoiled for its life: each flush is refused and counted, and its file is synced no more.
#[derive(Drop)]
pub struct HostStore<F: RawFile> {
    file: F,
    size: u32,
    blocks: u32,
    count: u64,
    /// Whether a sync was refused.
    spoiled: bool,
}

impl<F: RawFile> Model for HostStore<F> {
    ghost use Rattle.std.specs.Prelude.{◌*◌};
    ghost use Rattle.spr_io.specs.Host.{Image, FileFits};

    ghost Value = { Image };

    ghost view = { λ s. record { size = s.size; blocks = s.blocks; count = s.count; spoiled = s.spoiled; file = F.seen s.file } };

    ghost invariant = { λ s. FileFits (s.blocks * s.size) s.spoiled (F.seen s.file) };
}

/// Where a block starts, in bytes.
fn start_of(size: u32, block: u32) -> u64
    ensures { result ≡ block * size }
{
    u64::from(block) * u64::from(size)
}

/// Reads from an offset on until `out` is full; a read that gives nothing is a failure.
fn read_whole<F: RawFile>(file: &mut F, start: u64, out: &mut [u8]) -> Result<(), Failed>
    requires { start + length out.old < 2 ^ 64 }
    ensures bytes { OnOk result (ReadsWhole (F.seen file.old) start out.new) }
    ensures same { F.seen file.new ≡ F.seen file.old }
    ensures sure { IsErr result → HasBytes start (length out.new) (F.seen file.old) → is_sure (F.seen file.old) ≡ false }
{
    let mut done = 0;
    while done < out.len() {
        let count = file.read_at(start + done as u64, &mut out[done..])?;
        if count == 0 {
            return Err(Failed);
        }
        done += count;
    }
    Ok(())
}

impl<F: RawFile> HostStore<F> {
    /// The store in a file of as many bytes, all of them synced, with the count of faults that it had.
    pub fn new(file: F, size: u32, blocks: u32, count: u64) -> HostStore<F>
        requires { FileFits (blocks * size) false (F.seen file) }
        ensures { result ≡ record { size = size; blocks = blocks; count = count; spoiled = false; file = F.seen file } }
    {
        HostStore {
            file,
            size,
            blocks,
            count,
            spoiled: false,
        }
    }

    /// Whether a sync of it was refused.
    pub fn is_spoiled(&self) -> bool
        ensures { result ≡ self.now.spoiled }
    {
        self.spoiled
    }

    fn read_block(&mut self, block: u32, out: &mut [u8]) -> Result<(), Failed>
        requires block { block < self.old.blocks }
        requires size { length out.old ≡ self.old.size }
        ensures bytes { OnOk result (ReadsBlock (held self.old) block out.new) }
        ensures told { ReadsBlock (image_content self.old) block out.new }
        ensures same { self.new ≡ self.old }
    {
        read_whole(&mut self.file, start_of(self.size, block), out)
    }

    fn write_block(&mut self, block: u32, bytes: &[u8]) -> Result<(), Failed>
        requires block { block < self.old.blocks }
        requires size { length bytes.now ≡ self.old.size }
        ensures ok { OnOk result (held self.new ≡ written block bytes.now (held self.old)) }
        ensures err { OnErr result (self.new ≡ self.old) }
        ensures told { image_content self.new ≡ written block bytes.now (image_content self.old) }
        ensures same { self.new ≡ record self.old { file = self.new.file } }
    {
        self.file.write_at(start_of(self.size, block), bytes)
    }

    /// Has the file keep what was written; a refusal spoils the store, and a spoiled one is refused.
    fn sync(&mut self) -> Result<(), Failed>
        ensures ok { OnOk result (held self.new ≡ flushed (held self.old)) }
        ensures err { OnErr result (held self.new ≡ held self.old) }
        ensures told { image_content self.new ≡ flushed (image_content self.old) }
        ensures told_err { OnErr result (image_content self.new ≡ image_content self.old) }
        ensures same { self.new ≡ record self.old { spoiled = self.new.spoiled; file = self.new.file } }
        ensures spoils { OnErr result (self.new.spoiled ≡ true) }
        ensures spoiled { self.old.spoiled ≡ true → IsErr result }
    {
        if self.spoiled {
            return Err(Failed);
        }
        let outcome = self.file.sync();
        self.spoiled = outcome.is_err();
        outcome
    }

    /// Answers what the file did, and counts a fault.
    ///
    /// A store fails only if its count rises, so that each failure has a count of its own. A count that stands at its
    /// end cannot rise: such a store answers as if the file had done what it was asked.
    fn answer(&mut self, outcome: Result<(), Failed>) -> Result<(), Failed>
        ensures counted { Counts self.old.count self.new.count (IsErr result) }
        ensures calm { OnOk result (self.new.count ≡ self.old.count) }
        ensures failed { IsErr result → IsErr outcome }
        ensures refused { self.old.count < u64.MAX → IsErr outcome → IsErr result }
        ensures same { self.new ≡ record self.old { count = self.new.count } }
        ensures shape { IsShaped self.new.size self.new.blocks (image_content self.new) }
    {
        let count = self.count;
        if outcome.is_ok() || count == u64::MAX {
            return Ok(());
        }
        self.count = count + 1;
        Err(Failed)
    }
}

/// It tells its blocks to a caller of any store where its file is told to refuse nothing, and by clauses of its own
/// where its file is told at all.
impl<F: RawFile + Drop + Send> Store for HostStore<F> {
    ghost content = { image_content };

    ghost size = { λ s. s.size };

    ghost number = { λ s. s.blocks };

    ghost faults = { λ s. s.count };

    fn read(&mut self, block: u32, out: &mut [u8]) -> Result<(), Failed>
        requires block { block < self.old.blocks }
        requires size { length out.old ≡ self.old.size }
        ensures held { OnOk result (self.old.count < u64.MAX → ReadsBlock (held self.old) block out.new) }
        ensures after { self.new ≡ record self.old { count = self.new.count } }
        ensures bytes { OnOk result (ReadsBlock (image_content self.old) block out.new) }
        ensures same { image_content self.new ≡ image_content self.old }
        ensures shape { KeepsShape self.old.size self.old.blocks self.new.size self.new.blocks (image_content self.new) }
        ensures cause { Counts self.old.count self.new.count (IsErr result) }
        ensures calm { OnOk result (self.new.count ≡ self.old.count) }
    {
        let outcome = self.read_block(block, out);
        self.answer(outcome)
    }

    fn write(&mut self, block: u32, bytes: &[u8]) -> Result<(), Failed>
        requires block { block < self.old.blocks }
        requires size { length bytes.now ≡ self.old.size }
        ensures held { OnOk result (self.old.count < u64.MAX → held self.new ≡ written block bytes.now (held self.old)) }
        ensures refused { OnErr result (held self.new ≡ held self.old) }
        ensures after { self.new ≡ record self.old { count = self.new.count; file = self.new.file } }
        ensures ok { OnOk result (image_content self.new ≡ written block bytes.now (image_content self.old)) }
        ensures err { OnErr result (image_content self.new ≡ image_content self.old) }
        ensures shape { KeepsShape self.old.size self.old.blocks self.new.size self.new.blocks (image_content self.new) }
        ensures cause { Counts self.old.count self.new.count (IsErr result) }
        ensures calm { OnOk result (self.new.count ≡ self.old.count) }
    {
        let outcome = self.write_block(block, bytes);
        self.answer(outcome)
    }

    /// Keeps every block as it is read; a refused flush spoils the store, and a spoiled one is refused each flush.
    fn flush(&mut self) -> Result<(), Failed>
        ensures held { OnOk result (self.old.count < u64.MAX → held self.new ≡ flushed (held self.old)) }
        ensures unkept { OnErr result (held self.new ≡ held self.old) }
        ensures spoils { OnErr result (self.new.spoiled ≡ true) }
        ensures stays { self.old.spoiled ≡ true → self.new.spoiled ≡ true }
        ensures refused { self.old.spoiled ≡ true → self.old.count < u64.MAX → IsErr result }
        ensures ok { OnOk result (image_content self.new ≡ flushed (image_content self.old)) }
        ensures err { OnErr result (image_content self.new ≡ image_content self.old) }
        ensures shape { KeepsShape self.old.size self.old.blocks self.new.size self.new.blocks (image_content self.new) }
        ensures cause { Counts self.old.count self.new.count (IsErr result) }
        ensures calm { OnOk result (self.new.count ≡ self.old.count) }
    {
        let outcome = self.sync();
        self.answer(outcome)
    }

    fn count(&self) -> u64 {
        self.count
    }

    fn blocks(&self) -> u32 {
        self.blocks
    }
}
