//! The stores of a stack: which there are, and how they are taken of a bay, parted by their files, and given back.

use crate::say::say_done;
use crate::stack::{say_key, say_keys};
use crate::stop::say_stop;
use file_stores::{
    FileStores, Held, by_file, give_back, put_files, rooms_of, shape_of, stores_of, take_stores,
};
use script_meaning::StoreKey;
use spr_io::{MemBay, MemStore, Store};
use stack_accept::Mounted;
use std::alloc::Global;
use trial_words::{Halt, number, say};

/// Takes the stores of a bay and gives them back; appends how many were taken, why no more, and which were lost.
fn borrow(
    alloc: Global,
    mount: &Mounted,
    bay: &mut MemBay,
    answer: &mut String,
) -> Result<(), Halt> {
    let keys = stores_of(alloc, mount)?;
    let mut stores = Vec::with_capacity(alloc, keys.len())?;
    let mut lost = Vec::with_capacity(alloc, keys.len())?;
    let done = take_stores(mount, bay, &keys, &mut stores);
    let taken = stores.len();
    give_back(mount, bay, stores, &mut lost);
    writeln!(answer, "{taken} taken")?;
    match done {
        Ok(()) => say_done(answer, true)?,
        Err(stop) => say_stop(answer, stop)?,
    }
    answer.push_str("lost: ")?;
    Ok(say_keys(answer, &lost)?)
}

/// Appends the shape of a store's image.
fn say_shape(mount: &Mounted, file: u32, answer: &mut String) -> Result<(), Halt> {
    if file as usize >= mount.files().len() {
        return Err(Halt::Impossible);
    }
    let shape = shape_of(mount, StoreKey { file, disk: 0 });
    let (size, pages) = (shape.page_size, shape.pages);
    Ok(writeln!(answer, "{pages} pages of {size} bytes")?)
}

/// Appends the counts of the faults of a file's stores.
fn say_file(file: &FileStores<MemStore>, answer: &mut String) -> Result<(), Halt> {
    let number = file.file;
    write!(answer, "file {number}:")?;
    for store in file.stores.iter() {
        let count = store.count();
        write!(answer, " {count}")?;
    }
    Ok(say(answer, "")?)
}

/// Appends the same of each file.
fn say_files(files: &[FileStores<MemStore>], answer: &mut String) -> Result<(), Halt> {
    for file in files {
        say_file(file, answer)?;
    }
    Ok(())
}

/// Appends which stores these are, in order, and their counts.
fn say_held(stores: &[Held<MemStore>], answer: &mut String) -> Result<(), Halt> {
    for held in stores {
        let count = held.store.count();
        say_key(answer, held.key)?;
        writeln!(answer, ": {count}")?;
    }
    Ok(())
}

/// Parts the stores of a bay by their files, and puts them together again. What they are is told of both.
fn part(alloc: Global, mount: &Mounted, bay: &mut MemBay, answer: &mut String) -> Result<(), Halt> {
    let keys = stores_of(alloc, mount)?;
    let mut stores = Vec::with_capacity(alloc, keys.len())?;
    if take_stores(mount, bay, &keys, &mut stores).is_err() {
        return Err(Halt::Impossible);
    }
    let rooms = rooms_of(alloc, mount)?;
    let mut files = Vec::with_capacity(alloc, mount.files().len())?;
    by_file(mount, stores, rooms, &mut files);
    say_files(&files, answer)?;
    let mut back = Vec::with_capacity(alloc, keys.len())?;
    put_files(files, &mut back);
    say_held(&back, answer)
}

/// `stores ..`: what is told of the stores of a stack, or done with those of a bay.
pub fn step(
    alloc: Global,
    mount: &Mounted,
    bay: &mut Option<MemBay>,
    words: &[&str],
    answer: &mut String,
) -> Result<(), Halt> {
    match (words, bay) {
        (["list"], _) => Ok(say_keys(answer, &stores_of(alloc, mount)?)?),
        (["shape", file], _) => say_shape(mount, number(file)?, answer),
        (["borrow"], Some(bay)) => borrow(alloc, mount, bay, answer),
        (["part"], Some(bay)) => part(alloc, mount, bay, answer),
        (_, Some(_)) => Err(Halt::Unread),
        (_, None) => Err(Halt::Impossible),
    }
}
