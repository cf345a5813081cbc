//! The sinks of a command: how much each takes at once, and which of its writes fail.

use spr_io::MemSink;
use std::alloc::Global;
use trial_words::{Failing, Halt, number};

/// The most bytes that a sink takes at once, if a case says nothing else.
const WIDTH: u32 = 7;

/// How a sink of each command behaves.
#[derive(Drop)]
pub struct SinkCase {
    /// The most bytes that it takes at once.
    width: u32,
    /// Its writes that fail, counted from 1.
    writes: Vec<u64>,
}

impl SinkCase {
    /// One whose writes do not fail.
    pub fn new(alloc: Global) -> SinkCase {
        SinkCase {
            width: WIDTH,
            writes: Vec::new(alloc),
        }
    }

    /// `width N writes N ..`: how it behaves from here on.
    pub fn set(&mut self, alloc: Global, words: &[&str]) -> Result<(), Halt> {
        let failing = Failing::of(words, &["width", "writes"])?;
        self.width = match words {
            ["width", width, ..] => number(width)?,
            _ => WIDTH,
        };
        self.writes = failing.ordinals(alloc, "writes")?;
        Ok(())
    }

    /// A sink for a command.
    pub fn sink(&self, alloc: Global) -> Result<MemSink, Halt> {
        if self.width == 0 {
            return Err(Halt::Impossible);
        }
        Ok(MemSink::new(alloc, self.width, &self.writes)?)
    }
}
