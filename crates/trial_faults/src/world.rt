//! A format and a run over stores in memory, of whose calls some are refused.

use crate::kinds::{Call, Refusal, ordinals};
use crate::outcome::{Outcome, Told};
use crate::setting::{FileShape, Setting};
use crate::wrong::Wrong;
use hist_plain::OpenGate;
use spr_io::{MemBay, MemShelf, MemSink, MemStore};
use spr_run::spring;
use std::alloc::{AllocError, Global};
use std::sync::Wait;
use std::thread::Threads;
use value_types::Text;

/// The most bytes that a sink takes at once.
const WIDTH: u32 = 64;

/// The interfaces of every run.
const INTERFACES: &[u8] =
    b"interface pager { void page_in(); void page_out(); void write_out(); void sync(); void done_with_pager_object(); };\ninterface cache { void flush_back(); void deny_writes(); void write_back(); void delete_range(); void zero_fill(); void destroy_cache(); };\ninterface memory_object { void get_length(); void set_length(); void bind(); };\ninterface file : memory_object { void read(); void write(); void clear(); void sync(); };\n";

/// The texts of a run.
#[derive(Clone, Copy, Debug, Drop)]
pub struct Texts<'a> {
    /// That of the stack.
    pub stack: &'a str,
    /// That of the script.
    pub script: &'a str,
}

/// Puts a blank store for a disk and a file into a bay.
fn put_store(
    alloc: Global,
    bay: &mut MemBay,
    setting: &Setting<'_>,
    disk: &str,
    file: &FileShape<'_>,
    refused: &[Refusal<'_>],
) -> Result<(), AllocError> {
    let reads = ordinals(alloc, refused, Call::Read, disk, file.name)?;
    let writes = ordinals(alloc, refused, Call::Write, disk, file.name)?;
    let flushes = ordinals(alloc, refused, Call::Flush, disk, file.name)?;
    let (size, blocks) = (setting.page_size, setting.blocks(file));
    let store = MemStore::new(alloc, size, blocks, &reads, &writes, &flushes)?;
    bay.put(alloc, disk, file.name, store)
        .map_err(|_| AllocError)
}

/// Puts a blank store for each disk and a file into a bay.
fn put_file(
    alloc: Global,
    bay: &mut MemBay,
    setting: &Setting<'_>,
    file: &FileShape<'_>,
    refused: &[Refusal<'_>],
) -> Result<(), AllocError> {
    for disk in &setting.disks {
        put_store(alloc, bay, setting, *disk, file, refused)?;
    }
    Ok(())
}

/// A bay with a blank store for each disk and file.
fn bay_of(
    alloc: Global,
    setting: &Setting<'_>,
    refused: &[Refusal<'_>],
) -> Result<MemBay, AllocError> {
    let takes = ordinals(alloc, refused, Call::Take, "", "")?;
    let gives = ordinals(alloc, refused, Call::Give, "", "")?;
    let mut bay = MemBay::new(alloc, &takes, &gives)?;
    for file in &setting.files {
        put_file(alloc, &mut bay, setting, file, refused)?;
    }
    Ok(bay)
}

/// A shelf with the texts.
fn shelf_of(alloc: Global, texts: &Texts<'_>, reads: &[u64]) -> Result<MemShelf, AllocError> {
    let mut shelf = MemShelf::new(alloc, reads)?;
    shelf.put(alloc, "I", INTERFACES)?;
    shelf.put(alloc, "S", texts.stack.as_bytes())?;
    shelf.put(alloc, "T", texts.script.as_bytes())?;
    Ok(shelf)
}

/// Does a command of these words.
fn command<R: Threads + Wait + Sync>(
    rt: &R,
    alloc: Global,
    words: &str,
    shelf: &mut MemShelf,
    bay: &mut MemBay,
    writes: &[u64],
) -> Result<Told, AllocError> {
    let words = words_of(alloc, words)?;
    let mut sink = MemSink::new(alloc, WIDTH, writes)?;
    let mut notices = MemSink::new(alloc, WIDTH, &[])?;
    let status = spring(
        rt,
        alloc,
        &words,
        shelf,
        bay,
        &mut sink,
        &mut notices,
        &OpenGate,
    );
    Ok(Told {
        text: Vec::from_slice(alloc, sink.bytes())?,
        status: status.number(),
        notices: Vec::from_slice(alloc, notices.bytes())?,
    })
}

/// The words of a command.
fn words_of(alloc: Global, line: &str) -> Result<Vec<Text>, AllocError> {
    let mut words = Vec::new(alloc);
    for word in line.split(' ') {
        words.push(Text::of(alloc, word)?)?;
    }
    Ok(words)
}

/// Formats blank stores and runs the script over them, while these calls are refused; those of the shelf and of the sink are
/// calls of the run.
pub fn format_and_run<R: Threads + Wait + Sync>(
    rt: &R,
    alloc: Global,
    texts: &Texts<'_>,
    setting: &Setting<'_>,
    refused: &[Refusal<'_>],
) -> Result<Outcome, Wrong> {
    let mut bay = bay_of(alloc, setting, refused)?;
    let mut shelf = shelf_of(alloc, texts, &[])?;
    let format = command(rt, alloc, "format S", &mut shelf, &mut bay, &[])?;
    let reads = ordinals(alloc, refused, Call::Shelf, "", "")?;
    let writes = ordinals(alloc, refused, Call::Sink, "", "")?;
    let mut shelf = shelf_of(alloc, texts, &reads)?;
    let run = command(rt, alloc, "run I S T", &mut shelf, &mut bay, &writes)?;
    Ok(Outcome { format, run, bay })
}
