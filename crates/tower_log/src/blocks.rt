//! Entries in blocks. A full block is never touched again, so an entry that is added moves no older one.

ghost use Rattle.std.specs.Prelude.{◌≡◌, ◌<◌, ◌≤◌, ◌+◌, ◌%◌, ◌++◌, ◌∷◌, [], length, slice_get, IfOk, OnOk, OnErr, Some};
ghost use Rattle.std.specs.Option.{option_copied};
ghost use Rattle.hist_plain.specs.declared.TheConstants.{MAX_EVENTS};

use crate::logged::Entry;
use std::alloc::{AllocError, Global};
use std::marker::Model;

/// How many entries a block holds.
pub const BLOCK_LEN: usize = 256;

/// A block, seen as its entries.
#[derive(Debug, Drop)]
pub struct Block {
    entries: Vec<Entry>,
}

impl Model for Block {
    ghost use Rattle.std.specs.Prelude.{List, ◌≤◌, vec_capacity};
    ghost use Rattle.tower_log.specs.declared.logged.Entry.{Entry as AnEntry};
    ghost use Rattle.tower_log.specs.declared.blocks.TheConstants.{BLOCK_LEN};

    ghost Value = { List AnEntry };

    ghost view = { λ b. b.entries.items };

    ghost invariant = { λ b. BLOCK_LEN ≤ vec_capacity b.entries };
}

impl Block {
    /// A block without entries. An error is want of memory.
    pub fn new(alloc: Global) -> Result<Block, AllocError>
        ensures { IfOk result (λ b. b ≡ []) }
    {
        Ok(Block {
            entries: Vec::with_capacity(alloc, BLOCK_LEN)?,
        })
    }

    /// Adds an entry. It moves none.
    pub fn push(&mut self, entry: Entry)
        requires { length self.old < BLOCK_LEN }
        ensures { self.new ≡ self.old ++ entry ∷ [] }
    {
        self.entries.push_reserved(entry);
    }

    /// The entry at a place in the block.
    pub fn entry(&self, place: usize) -> &Entry
        requires { place < length self.now }
        ensures { slice_get self.now place ≡ Some result.now }
    {
        &self.entries[place]
    }
}

/// The entries of a log in their blocks, and blocks in reserve.
#[derive(Debug, Drop)]
pub struct Blocks {
    alloc: Global,
    len: usize,
    blocks: Vec<Block>,
    fresh: Vec<Block>,
}

impl Model for Blocks {
    ghost use Rattle.tower_log.specs.Blocks.{BlocksSeen};

    ghost Value = { BlocksSeen };

    ghost use Rattle.tower_log.specs.BlocksView.{blocks_seen, AreBlocks};

    ghost view = { blocks_seen };

    ghost invariant = { AreBlocks };
}

impl Blocks {
    /// No entries and no blocks. It takes no memory.
    pub fn new(alloc: Global) -> Blocks
        ensures { result ≡ record { entries = []; room = 0 } }
    {
        Blocks {
            alloc,
            len: 0,
            blocks: Vec::new(alloc),
            fresh: Vec::new(alloc),
        }
    }

    /// How many entries there are.
    pub fn len(&self) -> usize
        ensures { result ≡ length self.now.entries }
    {
        self.len
    }

    /// The entry at a place. None exactly if the place is not below the length.
    pub fn entry(&self, place: usize) -> Option<&Entry>
        ensures { option_copied result ≡ slice_get self.now.entries place }
    {
        if place >= self.len {
            return None;
        }
        let block = &self.blocks[place / BLOCK_LEN];
        Some(block.entry(place % BLOCK_LEN))
    }

    /// Makes room for so many entries. If it fails, there is as much room as before, or more.
    pub fn reserve(&mut self, n: usize) -> Result<(), AllocError>
        ensures ok { OnOk result (n ≤ self.new.room) }
        ensures kept { self.old.room ≤ self.new.room }
        ensures same { self.new.entries ≡ self.old.entries }
    {
        let free = (BLOCK_LEN - self.len % BLOCK_LEN) % BLOCK_LEN;
        let needed = n.saturating_sub(free).div_ceil(BLOCK_LEN);
        for _fresh in self.fresh.len()..needed {
            self.add_block()?;
        }
        Ok(())
    }

    /// One more block in reserve.
    fn add_block(&mut self) -> Result<(), AllocError>
        ensures ok { OnOk result (self.new.room ≡ self.old.room + BLOCK_LEN) }
        ensures err { OnErr result (self.new.room ≡ self.old.room) }
        ensures same { self.new.entries ≡ self.old.entries }
    {
        self.blocks.reserve(self.fresh.len() + 1)?;
        let block = Block::new(self.alloc)?;
        self.fresh.push(block)?;
        Ok(())
    }

    /// Adds an entry. It moves none.
    pub fn push(&mut self, entry: Entry)
        requires room { 0 < self.old.room }
        requires few { length self.old.entries < MAX_EVENTS }
        ensures entries { self.new.entries ≡ self.old.entries ++ entry ∷ [] }
        ensures room { self.new.room + 1 ≡ self.old.room }
    {
        if self.len % BLOCK_LEN == 0 {
            self.begin_block(entry);
        } else {
            self.extend_block(entry);
        }
    }

    /// Adds an entry as the first one of a block that was in reserve.
    fn begin_block(&mut self, entry: Entry)
        requires room { 0 < self.old.room }
        requires few { length self.old.entries < MAX_EVENTS }
        requires full { length self.old.entries % BLOCK_LEN ≡ 0 }
        ensures entries { self.new.entries ≡ self.old.entries ++ entry ∷ [] }
        ensures room { self.new.room + 1 ≡ self.old.room }
    {
        let mut block = self.fresh.take_last();
        block.push(entry);
        self.blocks.push_reserved(block);
        self.len += 1;
    }

    /// Adds an entry to the last block.
    fn extend_block(&mut self, entry: Entry)
        requires few { length self.old.entries < MAX_EVENTS }
        requires begun { 0 < length self.old.entries % BLOCK_LEN }
        ensures entries { self.new.entries ≡ self.old.entries ++ entry ∷ [] }
        ensures room { self.new.room + 1 ≡ self.old.room }
    {
        let last = self.blocks.len() - 1;
        let block = &mut self.blocks[last];
        block.push(entry);
        self.len += 1;
    }
}
