//! A shelf and a sink in memory.

use crate::say::say_done;
use spr_io::{MemShelf, MemSink, Shelf, ShelfErr, Sink};
use std::alloc::Global;
use trial_words::{Failing, Halt, number, say, say_text};

/// A shelf, and what was read of it.
#[derive(Drop)]
pub struct ShelfCase {
    alloc: Global,
    shelf: MemShelf,
    read: Vec<u8>,
}

impl ShelfCase {
    /// A shelf with no text: `read N ..` are the reads that are to fail.
    pub fn new(alloc: Global, fails: &[&str]) -> Result<ShelfCase, Halt> {
        let reads = Failing::of(fails, &["read"])?.ordinals(alloc, "read")?;
        Ok(ShelfCase {
            alloc,
            shelf: MemShelf::new(alloc, &reads)?,
            read: Vec::new(alloc),
        })
    }

    /// Does a step of the shelf: a text is put on it, or read, or what was read is told.
    pub fn step(&mut self, words: &[&str], body: &[u8], answer: &mut String) -> Result<(), Halt> {
        match words {
            ["put", name] => Ok(self.shelf.put(self.alloc, name, body)?),
            ["read", name, limit] => match self.shelf.read(name, number(limit)?, &mut self.read) {
                Ok(()) => Ok(say_done(answer, true)?),
                Err(ShelfErr::Failed) => Ok(say_done(answer, false)?),
                Err(ShelfErr::Memory) => Err(Halt::Memory),
            },
            ["text"] => Ok(say_text(self.alloc, answer, &self.read)?),
            _ => Err(Halt::Unread),
        }
    }
}

/// An empty sink that takes so many bytes at a write: `write N ..` are the writes that are to fail.
pub fn new_sink(alloc: Global, most: u32, fails: &[&str]) -> Result<MemSink, Halt> {
    let writes = Failing::of(fails, &["write"])?.ordinals(alloc, "write")?;
    if most == 0 {
        return Err(Halt::Impossible);
    }
    Ok(MemSink::new(alloc, most, &writes)?)
}

/// Writes a word to a sink; `''` is the empty one.
fn write(sink: &mut MemSink, word: &str, answer: &mut String) -> Result<(), Halt> {
    let text = if word == "''" { "" } else { word };
    match sink.write(text.as_bytes()) {
        Ok(taken) => Ok(writeln!(answer, "took {taken}")?),
        Err(_) => Ok(say(answer, "failed")?),
    }
}

/// `sink new MOST ..`, a write, or what the sink has taken.
pub fn sink_step(
    alloc: Global,
    sink: &mut Option<MemSink>,
    words: &[&str],
    answer: &mut String,
) -> Result<(), Halt> {
    if let ["new", most, fails @ ..] = words {
        *sink = Some(new_sink(alloc, number(most)?, fails)?);
        return Ok(());
    }
    let Some(sink) = sink else {
        return Err(Halt::Impossible);
    };
    match words {
        ["write", word] => write(sink, word, answer),
        ["text"] => Ok(say_text(alloc, answer, sink.bytes())?),
        _ => Err(Halt::Unread),
    }
}
