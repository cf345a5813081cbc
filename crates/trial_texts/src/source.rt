//! The text that a step is over.

use crate::say::count_of;
use std::alloc::{AllocError, Global};

/// The text of a case. A step's text is what the `text` steps right before it built, followed by its own body; a step that has
/// neither takes the text of the step before it.
#[derive(Drop)]
pub struct Source {
    alloc: Global,
    text: Vec<u8>,
    /// Whether a `text` step was the last one.
    is_open: bool,
}

impl Source {
    /// No text.
    pub fn new(alloc: Global) -> Self {
        Source {
            alloc,
            text: Vec::new(alloc),
            is_open: false,
        }
    }

    /// Forgets the text, unless it is being built.
    fn open(&mut self) {
        if !self.is_open {
            self.text = Vec::new(self.alloc);
        }
    }

    /// `text TIMES`: the body so many times is the next part of the text.
    pub fn add(&mut self, words: &[&str], body: &[u8]) -> Result<(), AllocError> {
        self.open();
        self.is_open = true;
        let times = match words {
            [times] => count_of(times),
            _ => 1,
        };
        for _ in 0..times {
            self.text.extend_from_slice(body)?;
        }
        Ok(())
    }

    /// Ends the text with a step's body.
    pub fn take(&mut self, body: &[u8]) -> Result<(), AllocError> {
        if !body.is_empty() {
            self.open();
            self.text.extend_from_slice(body)?;
        }
        self.is_open = false;
        Ok(())
    }

    /// Lends the text.
    pub fn text(&self) -> &[u8] {
        &self.text
    }
}
