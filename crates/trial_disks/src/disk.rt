//! A disk, of number 7, on a store in memory.

ghost use Rattle.std.specs.Prelude.{◌≡◌, IfOk, length};
ghost use Rattle.disk_layer.specs.Disk.{Suits};

use crate::bay::taken;
use crate::say::{say_bad, say_bytes, say_called};
use crate::shape::{fits, shape};
use disk_layer::{Disk, FreshImage, OpenErr, OpenWhy, read_pages};
use page_ground::{Ground, is_zero_page};
use spr_io::MemStore;
use std::alloc::Global;
use trial_words::{Halt, byte, long, number, say};

/// A disk on a store in memory.
pub type Ram = Disk<MemStore>;

/// The number of the disk.
pub const NUMBER: u32 = 7;

/// The store in hand, which is taken out of it, if it has the blocks of a disk.
pub fn suitable(held: &mut Option<MemStore>) -> Result<MemStore, Halt>
    ensures { IfOk result (λ store. Suits (record { page_size = 64; pages = 2 }) store.size (length store.content.blocks)) }
{
    let store = taken(held)?;
    if fits(&store) {
        Ok(store)
    } else {
        Err(Halt::Impossible)
    }
}

/// Appends why a disk was not opened, and that it is blank, if it is.
pub fn say_why(answer: &mut String, why: OpenWhy) -> Result<(), Halt> {
    match why {
        OpenWhy::BadImage { bad, blank } => {
            say_bad(answer, &bad)?;
            if blank {
                say(answer, "blank")?;
            }
            Ok(())
        }
        OpenWhy::StoreFault { fault } => Ok(say_called(answer, Err(fault))?),
        OpenWhy::Memory => Err(Halt::Memory),
    }
}

/// Keeps a disk that was opened. If it was refused the store goes back to the hand, and the reason is appended.
fn keep(
    disk: &mut Option<Ram>,
    held: &mut Option<MemStore>,
    opened: Result<Ram, OpenErr<MemStore>>,
    answer: &mut String,
) -> Result<(), Halt> {
    match opened {
        Ok(opened) => {
            *disk = Some(opened);
            Ok(say(answer, "done")?)
        }
        Err(refused) => {
            say_why(answer, refused.why)?;
            *held = Some(refused.store);
            Ok(())
        }
    }
}

/// Opens a disk over the store in hand: the image on it, a fresh one, or a fresh one over another.
fn open(
    alloc: Global,
    call: &str,
    held: &mut Option<MemStore>,
) -> Result<Result<Ram, OpenErr<MemStore>>, Halt> {
    let store = suitable(held)?;
    let shape = shape();
    match call {
        "open" => Ok(Disk::open(alloc, store, NUMBER, &shape)),
        "format" => Ok(Disk::format(alloc, store, NUMBER, &shape)),
        "renew" => {
            let fresh = FreshImage::new(alloc, &shape)?;
            Ok(Disk::renew(fresh, store, NUMBER))
        }
        _ => Err(Halt::Unread),
    }
}

/// Reads a page, and appends it.
fn read(disk: &mut Ram, page: u32, answer: &mut String) -> Result<(), Halt> {
    let shape = disk.shape();
    if shape.page_size != 64 || page >= shape.pages {
        return Err(Halt::Impossible);
    }
    let mut out = [0xffu8; 64];
    match disk.read(page, &mut out) {
        Ok(()) => Ok(say_bytes(answer, &out)?),
        Err(fault) => Ok(say_called(answer, Err(fault))?),
    }
}

/// Writes a page that has one byte in each place.
fn write(disk: &mut Ram, page: u32, byte: u8, answer: &mut String) -> Result<(), Halt> {
    let shape = disk.shape();
    if shape.page_size != 64 || page >= shape.pages {
        return Err(Halt::Impossible);
    }
    Ok(say_called(answer, disk.write(page, &[byte; 64]))?)
}

/// Appends a page, or that it is zeros.
fn say_page(answer: &mut String, page: &[u8]) -> Result<(), Halt> {
    if is_zero_page(page) {
        return Ok(say(answer, "a page of zeros")?);
    }
    Ok(say_bytes(answer, page)?)
}

/// Gives the disk another generation.
fn raise(disk: &mut Ram, generation: u64, answer: &mut String) -> Result<(), Halt> {
    if generation == 0 || generation > 9_223_372_036_854_775_807 {
        return Err(Halt::Impossible);
    }
    Ok(say_called(answer, disk.raise(generation))?)
}

/// Reads all pages, and appends them.
fn pages(disk: &mut Ram, answer: &mut String) -> Result<(), Halt> {
    let shape = disk.shape();
    if shape.page_size != 64 || shape.pages != 2 {
        return Err(Halt::Impossible);
    }
    let mut out = [0xffu8; 128];
    if let Err(fault) = read_pages(disk, &mut out) {
        return Ok(say_called(answer, Err(fault))?);
    }
    let (first, second) = out.split_at(64);
    say_page(answer, first)?;
    say_page(answer, second)
}

/// A call of the disk.
fn disk_call(disk: &mut Ram, words: &[&str], answer: &mut String) -> Result<(), Halt> {
    match words {
        ["read", page] => read(disk, number(page)?, answer),
        ["write", page, filled] => write(disk, number(page)?, byte(filled)?, answer),
        ["flush"] => Ok(say_called(answer, disk.flush())?),
        ["raise", generation] => raise(disk, long(generation)?, answer),
        ["pages"] => pages(disk, answer),
        ["generation"] => {
            let generation = disk.generation();
            Ok(writeln!(answer, "{generation}")?)
        }
        _ => Err(Halt::Unread),
    }
}

/// `disk open`, `disk format`, `disk renew`, `disk close`, or a call of the disk.
pub fn step(
    alloc: Global,
    disk: &mut Option<Ram>,
    held: &mut Option<MemStore>,
    words: &[&str],
    answer: &mut String,
) -> Result<(), Halt> {
    match words {
        [call @ ("open" | "format" | "renew")] => {
            let opened = open(alloc, call, held)?;
            keep(disk, held, opened, answer)
        }
        ["close"] => match disk.take() {
            Some(disk) => {
                *held = Some(disk.close());
                Ok(())
            }
            None => Err(Halt::Impossible),
        },
        _ => match disk {
            Some(disk) => disk_call(disk, words, answer),
            None => Err(Halt::Impossible),
        },
    }
}
