//! What the header and the map of an image say.

ghost use Rattle.std.specs.Prelude.{◌≡◌, ◌++◌, ◌∷◌, [], IfOk, OnOk};

use std::alloc::{AllocError, Global};
use std::marker::Model;

/// What a header says beyond the shape.
#[derive(Clone, Copy, Debug, PartialEq, Eq)]
pub struct Header {
    /// The image's generation: from 1 to 9,223,372,036,854,775,807.
    pub generation: u64,
}

/// The entries of a map in the order of the pages, each 0 for a hole or the number of a data block.
#[derive(Debug, Drop)]
pub struct Entries {
    inner: Vec<u32>,
}

impl Model for Entries {
    ghost use Rattle.std.specs.Prelude.{List, ℕ};

    ghost Value = { List ℕ };

    ghost view = { λ e. e.inner.items };
}

impl Entries {
    /// Takes a `Vec`, without memory.
    pub fn from_vec(entries: Vec<u32>) -> Entries
        ensures { result ≡ entries.items }
    {
        Entries { inner: entries }
    }

    /// Lends the entries.
    pub fn as_slice(&self) -> &[u32]
        ensures { result.now ≡ self.now }
    {
        &self.inner
    }
}

/// What a header and a map say: the generation, and the entry of each page.
#[derive(Debug, Drop)]
pub struct Image {
    /// The image's generation: from 1 to 9,223,372,036,854,775,807.
    pub generation: u64,
    /// The entry of each page; no two name one block.
    pub entries: Entries,
}
