//! The texts of a case, by their names.

use spr_io::MemShelf;
use std::alloc::{AllocError, Global};

/// A text and its name.
#[derive(Drop)]
struct Named {
    name: String,
    text: Vec<u8>,
}

/// The texts of a case, by their names.
#[derive(Drop)]
pub struct Texts {
    alloc: Global,
    texts: Vec<Named>,
}

impl Texts {
    /// No text.
    pub fn new(alloc: Global) -> Texts {
        Texts {
            alloc,
            texts: Vec::new(alloc),
        }
    }

    /// Appends bytes to the text of a name, so many times; there need not be one before.
    pub fn add(&mut self, name: &str, bytes: &[u8], times: u32) -> Result<(), AllocError> {
        let mut text = Vec::from_slice(self.alloc, self.text(name).unwrap_or(&[]))?;
        for _ in 0..times {
            text.extend_from_slice(bytes)?;
        }
        self.set(name, text)
    }

    /// Sets the text of a name.
    pub fn set(&mut self, name: &str, text: Vec<u8>) -> Result<(), AllocError> {
        self.texts.retain(|named| named.name.as_str() != name);
        let name = String::from_str(self.alloc, name)?;
        self.texts.push(Named { name, text })?;
        Ok(())
    }

    /// The text of a name.
    pub fn text(&self, name: &str) -> Option<&[u8]> {
        let named = self.texts.iter().find(|named| named.name.as_str() == name)?;
        Some(&named.text)
    }

    /// A shelf with the texts, of which these reads are to fail, counted from 1.
    pub fn shelf(&self, fails: &[u64]) -> Result<MemShelf, AllocError> {
        let mut shelf = MemShelf::new(self.alloc, fails)?;
        for named in &self.texts {
            shelf.put(self.alloc, named.name.as_str(), &named.text)?;
        }
        Ok(shelf)
    }
}
