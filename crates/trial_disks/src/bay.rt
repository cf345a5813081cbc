//! A bay of stores in memory.

use crate::say::say_done;
use crate::store::{block_of, kept_of, say_block};
use spr_io::{Bay, BayErr, MemBay, MemStore, Store};
use std::alloc::Global;
use trial_words::{Failing, Halt, number, say};

/// A bay with no store: `take N ..` and `give N ..` are the calls that are to fail.
fn new_bay(alloc: Global, fails: &[&str]) -> Result<MemBay, Halt> {
    let failing = Failing::of(fails, &["take", "give"])?;
    let takes = failing.ordinals(alloc, "take")?;
    let gives = failing.ordinals(alloc, "give")?;
    Ok(MemBay::new(alloc, &takes, &gives)?)
}

/// Takes a store into the hand, or says that the bay failed.
fn take(
    bay: &mut MemBay,
    held: &mut Option<MemStore>,
    names: [&str; 2],
    shape: [u32; 2],
    answer: &mut String,
) -> Result<(), Halt> {
    match bay.take(names[0], names[1], shape[0], shape[1]) {
        Ok(store) => {
            *held = Some(store);
            Ok(say_done(answer, true)?)
        }
        Err(BayErr::Failed) => Ok(say_done(answer, false)?),
        Err(BayErr::Memory) => Err(Halt::Memory),
    }
}

/// The store in hand, which is taken out of it.
pub fn taken(held: &mut Option<MemStore>) -> Result<MemStore, Halt> {
    match held.take() {
        Some(store) => Ok(store),
        None => Err(Halt::Impossible),
    }
}

/// A call of a bay, or a look at it.
fn bay_call(
    alloc: Global,
    bay: &mut MemBay,
    held: &mut Option<MemStore>,
    words: &[&str],
    answer: &mut String,
) -> Result<(), Halt> {
    match words {
        ["take", disk, file, size, blocks] => {
            let shape = [number(size)?, number(blocks)?];
            take(bay, held, [disk, file], shape, answer)
        }
        ["give", disk, file] => {
            let store = taken(held)?;
            Ok(say_done(answer, bay.give(disk, file, store).is_ok())?)
        }
        ["put", disk, file] => {
            let store = taken(held)?;
            bay.put(alloc, disk, file, store).map_err(|_| Halt::Memory)
        }
        _ => look(bay, words, answer),
    }
}

/// Appends what lies under a disk and a file: the number of blocks, if they have this size, or one block.
fn look(bay: &MemBay, words: &[&str], answer: &mut String) -> Result<(), Halt> {
    let [call, disk, file, number_of] = words else {
        return Err(Halt::Unread);
    };
    let at = number(number_of)?;
    let Some(store) = bay.look(disk, file) else {
        return Ok(say(answer, "none")?);
    };
    match *call {
        "has" => say_blocks(store, at, answer),
        "shows" => say_block(answer, block_of(store, at)),
        "keeps" => say_block(answer, kept_of(store, at)),
        _ => Err(Halt::Unread),
    }
}

/// Appends how many blocks a store has, if they are of this size.
fn say_blocks(store: &MemStore, size: u32, answer: &mut String) -> Result<(), Halt> {
    let blocks = store.blocks();
    if !store.has_shape(size, blocks) {
        return Ok(say(answer, "another size")?);
    }
    Ok(writeln!(answer, "{blocks} blocks")?)
}

/// `bay new ..`, or a call of the bay.
pub fn step(
    alloc: Global,
    bay: &mut Option<MemBay>,
    held: &mut Option<MemStore>,
    words: &[&str],
    answer: &mut String,
) -> Result<(), Halt> {
    if let ["new", fails @ ..] = words {
        *bay = Some(new_bay(alloc, fails)?);
        return Ok(());
    }
    match bay {
        Some(bay) => bay_call(alloc, bay, held, words, answer),
        None => Err(Halt::Impossible),
    }
}
