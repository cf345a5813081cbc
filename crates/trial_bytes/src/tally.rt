//! What came of the inputs of a seed.

use crate::laws::{Found, Law};
use std::alloc::{AllocError, Global};
use trial_words::{Halt, put_hex, say};

/// What came of the inputs so far.
#[derive(Drop)]
pub struct Tally {
    alloc: Global,
    read: u32,
    refused: u32,
    unlike: u32,
    /// The first input of which something else came.
    first: Vec<u8>,
}

impl Tally {
    /// No input so far.
    pub fn new(alloc: Global) -> Tally {
        Tally {
            alloc,
            read: 0,
            refused: 0,
            unlike: 0,
            first: Vec::new(alloc),
        }
    }

    /// Reads an input, and counts what comes of it.
    pub fn take<L: Law>(&mut self, law: &L, bytes: &[u8]) -> Result<(), AllocError> {
        match law.judge(self.alloc, bytes)? {
            Found::Read => self.read = self.read.saturating_add(1),
            Found::Refused => self.refused = self.refused.saturating_add(1),
            Found::Unlike => {
                if self.unlike == 0 {
                    self.first = Vec::from_slice(self.alloc, bytes)?;
                }
                self.unlike = self.unlike.saturating_add(1);
            }
        }
        Ok(())
    }

    /// Appends how many inputs there were, whether some were read and some refused, and of how many something else came.
    pub fn say(&self, answer: &mut String) -> Result<(), Halt> {
        let unlike = self.unlike;
        let inputs = self
            .read
            .saturating_add(self.refused)
            .saturating_add(unlike);
        writeln!(answer, "{inputs} inputs")?;
        say(
            answer,
            if self.read > 0 {
                "some are read"
            } else {
                "none is read"
            },
        )?;
        say(
            answer,
            if self.refused > 0 {
                "some are refused"
            } else {
                "none is refused"
            },
        )?;
        writeln!(answer, "{unlike} unlike")?;
        if unlike > 0 {
            put_hex(self.alloc, &self.first, answer)?;
            say(answer, "")?;
        }
        Ok(())
    }
}
