//! The stack of a case.

use script_meaning::StoreKey;
use stack_accept::{Mounted, accept};
use stack_text::parse_stack;
use std::alloc::{AllocError, Global};
use trial_words::{Halt, number, say};

/// Mounts the stack of a text.
pub fn mounted(alloc: Global, text: &[u8]) -> Result<Mounted, Halt> {
    match parse_stack(alloc, text) {
        Ok(stack) => accept(alloc, &stack).map_err(|_| Halt::Impossible),
        Err(_) => Err(Halt::Impossible),
    }
}

/// The store of a file on a disk, of their numbers.
pub fn key_of(file: &str, disk: &str) -> Result<StoreKey, Halt> {
    Ok(StoreKey {
        file: number(file)?,
        disk: number(disk)?,
    })
}

/// Appends the numbers of a store's file and disk.
pub fn say_key(answer: &mut String, key: StoreKey) -> Result<(), AllocError> {
    let (file, disk) = (key.file, key.disk);
    write!(answer, "file {file} on disk {disk}")
}

/// Appends a line for each of some stores, or `none`.
pub fn say_keys(answer: &mut String, keys: &[StoreKey]) -> Result<(), AllocError> {
    if keys.is_empty() {
        return say(answer, "none");
    }
    for key in keys {
        say_key(answer, *key)?;
        say(answer, "")?;
    }
    Ok(())
}
