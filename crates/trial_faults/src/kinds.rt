//! The calls of the outside, and which of them are refused.

use crate::setting::Setting;
use std::alloc::{AllocError, Global};

/// A call of the outside.
#[derive(Clone, Copy, Debug, PartialEq, Eq)]
pub enum Call {
    /// A read of a store.
    Read,
    /// A write of a store.
    Write,
    /// A flush of a store.
    Flush,
    /// A take of the bay.
    Take,
    /// A give of the bay.
    Give,
    /// A read of the shelf.
    Shelf,
    /// A write of the sink.
    Sink,
}

/// A kind of calls: of a store those of a disk and a file.
#[derive(Clone, Copy, Debug, Drop)]
pub struct Kind<'a> {
    /// Which call.
    pub call: Call,
    /// The disk, or nothing.
    pub disk: &'a str,
    /// The file, or nothing.
    pub file: &'a str,
}

/// A call that is refused.
#[derive(Clone, Copy, Debug, Drop)]
pub struct Refusal<'a> {
    /// Its kind.
    pub kind: Kind<'a>,
    /// Which call of the kind, counted from 1.
    pub ordinal: u64,
}

/// Which calls of a kind are refused.
pub fn ordinals(
    alloc: Global,
    refused: &[Refusal<'_>],
    call: Call,
    disk: &str,
    file: &str,
) -> Result<Vec<u64>, AllocError> {
    let mut ordinals = Vec::new(alloc);
    for one in refused {
        if one.kind.call == call && one.kind.disk == disk && one.kind.file == file {
            ordinals.push(one.ordinal)?;
        }
    }
    Ok(ordinals)
}

/// The calls of the store of a disk and a file.
fn put_store<'a>(
    kinds: &mut Vec<Kind<'a>>,
    disk: &'a str,
    file: &'a str,
) -> Result<(), AllocError> {
    for call in &[Call::Read, Call::Write, Call::Flush] {
        kinds.push(Kind {
            call: *call,
            disk,
            file,
        })?;
    }
    Ok(())
}

/// The calls of the stores of a file.
fn put_file<'a>(
    kinds: &mut Vec<Kind<'a>>,
    setting: &Setting<'a>,
    file: &'a str,
) -> Result<(), AllocError> {
    for disk in &setting.disks {
        put_store(kinds, *disk, file)?;
    }
    Ok(())
}

/// The calls of all stores of a stack.
fn put_stores<'a>(kinds: &mut Vec<Kind<'a>>, setting: &Setting<'a>) -> Result<(), AllocError> {
    for file in &setting.files {
        put_file(kinds, setting, file.name)?;
    }
    Ok(())
}

/// All calls of the outside that a stack's run makes: three of each store, and four others, of which the sink's are the last.
pub fn kinds_of<'a>(alloc: Global, setting: &Setting<'a>) -> Result<Vec<Kind<'a>>, AllocError> {
    let mut kinds = Vec::new(alloc);
    put_stores(&mut kinds, setting)?;
    for call in &[Call::Take, Call::Give, Call::Shelf, Call::Sink] {
        kinds.push(Kind {
            call: *call,
            disk: "",
            file: "",
        })?;
    }
    Ok(kinds)
}
