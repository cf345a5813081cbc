//! A store in memory.

ghost use Rattle.std.specs.Prelude.{◌≡◌, length, IfOk, IfSome};

use crate::say::{say_bytes, say_done};
use spr_io::{MemStore, Store};
use std::alloc::Global;
use trial_words::{Failing, Halt, byte, bytes, number};

/// A store of zeros of which some calls are to fail: `read N .. write N .. flush N ..`.
pub fn new_store(alloc: Global, size: u32, blocks: u32, fails: &[&str]) -> Result<MemStore, Halt> {
    let failing = Failing::of(fails, &["read", "write", "flush"])?;
    let reads = failing.ordinals(alloc, "read")?;
    let writes = failing.ordinals(alloc, "write")?;
    let flushes = failing.ordinals(alloc, "flush")?;
    Ok(MemStore::new(alloc, size, blocks, &reads, &writes, &flushes)?)
}

/// A block as it is read, if there is one of this number.
pub fn block_of(store: &MemStore, block: u32) -> Option<&[u8]>
    ensures { IfSome result (λ bytes. length bytes.now ≡ store.now.size) }
{
    if block < store.blocks() {
        Some(store.block(block))
    } else {
        None
    }
}

/// A block as it was kept, if there is one of this number.
pub fn kept_of(store: &MemStore, block: u32) -> Option<&[u8]> {
    if block < store.blocks() {
        Some(store.kept(block))
    } else {
        None
    }
}

/// A copy of a block.
fn copy_of(alloc: Global, store: &MemStore, block: u32) -> Result<Vec<u8>, Halt>
    ensures { IfOk result (λ bytes. length bytes.items ≡ store.now.size) }
{
    match block_of(store, block) {
        Some(bytes) => Ok(Vec::from_slice(alloc, bytes)?),
        None => Err(Halt::Impossible),
    }
}

/// Reads a block, and appends it.
fn read(alloc: Global, store: &mut MemStore, block: u32, answer: &mut String) -> Result<(), Halt> {
    let mut out = copy_of(alloc, store, block)?;
    if block >= store.blocks() {
        return Err(Halt::Impossible);
    }
    out.fill(0xff);
    match store.read(block, &mut out) {
        Ok(()) => Ok(say_bytes(answer, &out)?),
        Err(_) => Ok(say_done(answer, false)?),
    }
}

/// Writes a block that begins with some bytes, and goes on with zeros.
fn write(alloc: Global, store: &mut MemStore, block: u32, begins: &[u8]) -> Result<bool, Halt> {
    let mut whole = copy_of(alloc, store, block)?;
    if begins.len() > whole.len() || block >= store.blocks() {
        return Err(Halt::Impossible);
    }
    whole.fill(0);
    whole[..begins.len()].copy_from_slice(begins);
    Ok(store.write(block, &whole).is_ok())
}

/// Writes a block with another byte at a place of it.
fn damage(
    alloc: Global,
    store: &mut MemStore,
    block: u32,
    place: u32,
    other: u8,
) -> Result<bool, Halt> {
    let mut whole = copy_of(alloc, store, block)?;
    let place = place as usize;
    if place >= whole.len() || block >= store.blocks() {
        return Err(Halt::Impossible);
    }
    whole[place] = other;
    Ok(store.write(block, &whole).is_ok())
}

/// Appends a block, if there is one.
pub fn say_block(answer: &mut String, block: Option<&[u8]>) -> Result<(), Halt> {
    match block {
        Some(bytes) => Ok(say_bytes(answer, bytes)?),
        None => Err(Halt::Impossible),
    }
}

/// A call of a store, or a look at it.
fn store_call(
    alloc: Global,
    store: &mut MemStore,
    words: &[&str],
    answer: &mut String,
) -> Result<(), Halt> {
    match words {
        ["read", block] => read(alloc, store, number(block)?, answer),
        ["write", block, begins] => {
            let begins = bytes(alloc, begins)?;
            let is_done = write(alloc, store, number(block)?, &begins)?;
            Ok(say_done(answer, is_done)?)
        }
        ["damage", block, place, other] => {
            let is_done = damage(alloc, store, number(block)?, number(place)?, byte(other)?)?;
            Ok(say_done(answer, is_done)?)
        }
        ["flush"] => Ok(say_done(answer, store.flush().is_ok())?),
        ["shows", block] => say_block(answer, block_of(store, number(block)?)),
        ["keeps", block] => say_block(answer, kept_of(store, number(block)?)),
        ["count"] => {
            let count = store.count();
            Ok(writeln!(answer, "{count}")?)
        }
        _ => Err(Halt::Unread),
    }
}

/// `store new SIZE BLOCKS ..`, or a call of the store in hand.
pub fn step(
    alloc: Global,
    held: &mut Option<MemStore>,
    words: &[&str],
    answer: &mut String,
) -> Result<(), Halt> {
    if let ["new", size, blocks, fails @ ..] = words {
        *held = Some(new_store(alloc, number(size)?, number(blocks)?, fails)?);
        return Ok(());
    }
    match held {
        Some(store) => store_call(alloc, store, words, answer),
        None => Err(Halt::Impossible),
    }
}
