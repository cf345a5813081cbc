//! Blocks in memory, as they are read and as they were kept.

ghost use Rattle.std.specs.Prelude.{◌≡◌, ◌<◌, ◌≤◌, IfOk, length, map, replicate, slice_get, slice_set, All, Some, false, vec_capacity};
ghost use Rattle.spr_io.specs.Content.{HasShape, zeros};
ghost use Rattle.spr_io.specs.Blocks.{kept_block, written_block, zero_block, listed_after, IsSound, ListsDirty};

use std::alloc::{AllocError, Global};
use std::marker::Model;

/// A block as read and as kept.
#[derive(Debug, Drop)]
pub struct Block {
    bytes: Vec<u8>,
    kept: Vec<u8>,
    dirty: bool,
}

impl Model for Block {
    ghost use Rattle.spr_io.specs.Blocks.{StoredBlock};

    ghost Value = { StoredBlock };

    ghost view = { λ b. record { bytes = b.bytes.items; kept = b.kept.items; dirty = b.dirty } };
}

impl Block {
    /// A block of zeros.
    fn new(alloc: Global, size: u32) -> Result<Block, AllocError>
        ensures { IfOk result (λ block. block ≡ zero_block size) }
    {
        Ok(Block {
            bytes: vec![in alloc; 0u8; size as usize]?,
            kept: vec![in alloc; 0u8; size as usize]?,
            dirty: false,
        })
    }

    fn bytes(&self) -> &[u8]
        ensures { result.now ≡ self.now.bytes }
    {
        &self.bytes
    }

    fn kept(&self) -> &[u8]
        ensures { result.now ≡ self.now.kept }
    {
        &self.kept
    }

    /// Writes over the block, and answers whether it was dirty before.
    fn write(&mut self, bytes: &[u8]) -> bool
        requires { length bytes.now ≡ length self.old.bytes }
        ensures answer { result ≡ self.old.dirty }
        ensures written { self.new ≡ written_block bytes.now self.old }
    {
        let dirty = self.dirty;
        self.bytes.copy_from_slice(bytes);
        self.dirty = true;
        dirty
    }

    /// Keeps the block as it is read.
    fn keep(&mut self)
        requires { length self.old.kept ≡ length self.old.bytes }
        ensures { self.new ≡ kept_block self.old }
    {
        self.kept.copy_from_slice(&self.bytes);
        self.dirty = false;
    }
}

/// Blocks of zeros.
fn zero_blocks(alloc: Global, size: u32, number: u32) -> Result<Vec<Block>, AllocError>
    ensures { IfOk result (λ blocks. blocks.items ≡ replicate number (zero_block size)) }
{
    let mut blocks = Vec::new(alloc);
    for _ in 0..number {
        blocks.push(Block::new(alloc, size)?)?;
    }
    Ok(blocks)
}

/// Lists a block, unless it was dirty before or the list is as long as the store.
fn list(listed: &mut Vec<u32>, was_dirty: bool, block: u32, number: usize)
    requires { number ≤ vec_capacity listed.old }
    ensures list { listed.new.items ≡ listed_after number was_dirty block listed.old.items }
    ensures room { number ≤ vec_capacity listed.new }
{
    if !was_dirty && listed.len() < number {
        listed.push_reserved(block);
    }
}

/// Keeps the listed blocks as they are read.
fn keep_listed(blocks: &mut [Block], listed: &[u32])
    requires sizes { All (λ b. length b.kept ≡ length b.bytes) blocks.old }
    requires clean { All (λ b. b.dirty ≡ false → b.kept ≡ b.bytes) blocks.old }
    requires inside { All (λ n. n < length blocks.old) listed.now }
    requires lists { ListsDirty blocks.old listed.now }
    ensures { blocks.new ≡ map kept_block blocks.old }
{
    for at in listed {
        let block = &mut blocks[*at as usize];
        block.keep();
    }
}

/// Keeps each block as it is read.
fn keep_all(blocks: &mut [Block])
    requires { All (λ b. length b.kept ≡ length b.bytes) blocks.old }
    ensures { blocks.new ≡ map kept_block blocks.old }
{
    for block in blocks.iter_mut() {
        block.keep();
    }
}

/// Keeps each dirty block as it is read.
fn keep_dirty(blocks: &mut [Block], listed: &[u32])
    requires sizes { All (λ b. length b.kept ≡ length b.bytes) blocks.old }
    requires clean { All (λ b. b.dirty ≡ false → b.kept ≡ b.bytes) blocks.old }
    requires inside { All (λ n. n < length blocks.old) listed.now }
    requires lists { length listed.now < length blocks.old → ListsDirty blocks.old listed.now }
    ensures { blocks.new ≡ map kept_block blocks.old }
{
    if listed.len() < blocks.len() {
        keep_listed(blocks, listed);
    } else {
        keep_all(blocks);
    }
}

/// Blocks of one size; a flush costs the dirty blocks alone.
#[derive(Debug, Drop)]
pub struct Blocks {
    size: u32,
    blocks: Vec<Block>,
    /// The dirty blocks, while they are fewer than the blocks.
    listed: Vec<u32>,
}

impl Model for Blocks {
    ghost use Rattle.std.specs.Prelude.{◌≤◌, length, vec_capacity};
    ghost use Rattle.spr_io.specs.Blocks.{Held, IsSound, content_of};

    ghost Value = { Held };

    ghost view = { λ s. record { size = s.size; content = content_of s.blocks.items } };

    ghost invariant = { λ s. IsSound s.size s.blocks.items s.listed.items × (length s.blocks.items ≤ vec_capacity s.listed) };
}

impl Blocks {
    /// Blocks of zeros.
    pub fn new(alloc: Global, size: u32, number: u32) -> Result<Blocks, AllocError>
        ensures zeros { IfOk result (λ held. held ≡ record { size = size; content = zeros size number }) }
        ensures shape { IfOk result (λ held. HasShape held.size (length held.content.blocks) held.content) }
    {
        Ok(Blocks {
            size,
            blocks: zero_blocks(alloc, size, number)?,
            listed: Vec::with_capacity(alloc, number as usize)?,
        })
    }

    /// The bytes of a block.
    pub fn size(&self) -> u32
        ensures { result ≡ self.now.size }
    {
        self.size
    }

    /// How many blocks there are.
    pub fn number(&self) -> u32
        ensures { result ≡ length self.now.content.blocks }
    {
        self.blocks.len() as u32
    }

    /// A block as it is read.
    pub fn block(&self, block: u32) -> &[u8]
        requires { block < length self.now.content.blocks }
        ensures bytes { slice_get self.now.content.blocks block ≡ Some result.now }
        ensures size { length result.now ≡ self.now.size }
    {
        self.blocks[block as usize].bytes()
    }

    /// A block as it was kept.
    pub fn kept(&self, block: u32) -> &[u8]
        requires { block < length self.now.content.kept }
        ensures { slice_get self.now.content.kept block ≡ Some result.now }
    {
        self.blocks[block as usize].kept()
    }

    /// Writes a block.
    pub fn write(&mut self, block: u32, bytes: &[u8])
        requires block { block < length self.old.content.blocks }
        requires size { length bytes.now ≡ self.old.size }
        ensures written { self.new ≡ record { size = self.old.size; content = record self.old.content { blocks = slice_set self.old.content.blocks block bytes.now } } }
        ensures shape { HasShape self.new.size (length self.new.content.blocks) self.new.content }
    {
        let place = &mut self.blocks[block as usize];
        let was_dirty = place.write(bytes);
        list(&mut self.listed, was_dirty, block, self.blocks.len());
    }

    /// Keeps each block as it is read.
    pub fn flush(&mut self)
        ensures kept { self.new ≡ record { size = self.old.size; content = record self.old.content { kept = self.old.content.blocks } } }
        ensures shape { HasShape self.new.size (length self.new.content.blocks) self.new.content }
    {
        keep_dirty(&mut self.blocks, &self.listed);
        self.listed.clear();
    }
}
