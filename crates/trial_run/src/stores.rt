//! Stores of four blocks of 64 bytes, in memory.

use spr_io::{MemBay, MemStore, Store};
use std::alloc::Global;
use trial_words::{Failing, Halt, bytes, number, put_hex, without_zeros};

/// The size of each block.
const SIZE: u32 = 64;

/// How many blocks a store has: those of an image of two pages.
const BLOCKS: u32 = 4;

/// Writes a block that begins with some bytes and goes on with zeros.
fn write_block(store: &mut MemStore, block: u32, bytes: &[u8]) -> Result<(), Halt> {
    let mut whole = [0u8; 64];
    if bytes.len() > 64 || block >= BLOCKS || !store.has_shape(SIZE, BLOCKS) {
        return Err(Halt::Impossible);
    }
    for (place, byte) in bytes.iter().enumerate() {
        whole[place] = *byte;
    }
    store.write(block, &whole).map_err(|_| Halt::Impossible)
}

/// Writes the blocks that the lines of a text name, each with the bytes that it begins with in hex, and then flushes.
fn fill(alloc: Global, store: &mut MemStore, text: &str) -> Result<(), Halt> {
    for line in text.lines() {
        let Some((block, begins)) = line.split_once(' ') else {
            return Err(Halt::Unread);
        };
        write_block(store, number(block)?, &bytes(alloc, begins)?)?;
    }
    store.flush().map_err(|_| Halt::Impossible)
}

/// Puts a store into a bay: `DISK FILE`, and which of its `reads`, `writes` and `flushes` fail, counted from 1. If there is a
/// text, the store is filled before.
pub fn put_store(alloc: Global, bay: &mut MemBay, words: &[&str], body: &[u8]) -> Result<(), Halt> {
    let [disk, file, fails @ ..] = words else {
        return Err(Halt::Unread);
    };
    let failing = Failing::of(fails, &["reads", "writes", "flushes"])?;
    let reads = failing.ordinals(alloc, "reads")?;
    let writes = failing.ordinals(alloc, "writes")?;
    let flushes = failing.ordinals(alloc, "flushes")?;
    let mut store = MemStore::new(alloc, SIZE, BLOCKS, &reads, &writes, &flushes)?;
    if !body.is_empty() {
        let text = String::from_utf8_lossy(alloc, body)?;
        fill(alloc, &mut store, text.as_str())?;
    }
    bay.put(alloc, disk, file, store).map_err(|_| Halt::Memory)
}

/// Appends what a store keeps of a block, in hex, without the zeros at its end.
fn say_kept(alloc: Global, store: &MemStore, block: u32, answer: &mut String) -> Result<(), Halt> {
    if !store.has_shape(SIZE, BLOCKS) || block >= BLOCKS {
        return Err(Halt::Impossible);
    }
    let kept = without_zeros(store.kept(block));
    if kept.is_empty() {
        answer.push_str("zeros\n")?;
        return Ok(());
    }
    put_hex(alloc, kept, answer)?;
    Ok(answer.push('\n')?)
}

/// Appends what the store of a disk and a file keeps of a block, or that it does not lie in the bay: `DISK FILE BLOCK`.
pub fn look(alloc: Global, bay: &MemBay, words: &[&str], answer: &mut String) -> Result<(), Halt> {
    let [disk, file, block] = words else {
        return Err(Halt::Unread);
    };
    match bay.look(disk, file) {
        Some(store) => say_kept(alloc, store, number(block)?, answer),
        None => Ok(answer.push_str("no store\n")?),
    }
}

/// Appends how many calls the store of a disk and a file refused: `DISK FILE`.
pub fn count_faults(bay: &MemBay, words: &[&str], answer: &mut String) -> Result<(), Halt> {
    let [disk, file] = words else {
        return Err(Halt::Unread);
    };
    match bay.look(disk, file) {
        Some(store) => writeln!(answer, "{}", store.count())?,
        None => answer.push_str("no store\n")?,
    }
    Ok(())
}
