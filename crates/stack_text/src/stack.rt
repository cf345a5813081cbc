//! A stack text as values.

use value_types::{Items, Text};

/// The most lines that a stack text has.
pub const MAX_LINES: usize = 128;

/// A stack of file system layers, as its text says it.
#[derive(Debug, Drop)]
pub struct StackText {
    /// The lines, in the order of the text.
    pub lines: Items<StackLine>,
}

/// One line of a stack text. A layer's name and its machine's are names; what it stands on is
/// named too. Whether the lines fit together is for `accept` to say.
#[derive(Debug, Drop)]
pub enum StackLine {
    /// The size of a page.
    Page {
        /// Bytes.
        size: u32,
    },
    /// A file.
    File {
        /// The name that stands in the stack text.
        name: Text,
        /// How many pages it has.
        pages: u32,
    },
    /// A layer.
    Layer {
        /// The name that stands in the stack text.
        name: Text,
        /// The machine that it is at.
        machine: Text,
        /// What it is, and what it stands on.
        kind: LayerKind,
    },
}

/// What a layer is, and what it stands on.
#[derive(Debug, Drop)]
pub enum LayerKind {
    /// A disk. It stands on no layer.
    Disk,
    /// A mirror over two layers.
    Mirror {
        /// Its left side.
        left: Text,
        /// Its right side.
        right: Text,
    },
    /// An upper layer, which stands on one layer.
    Upper {
        /// Which kind of layer it is.
        kind: UpperKind,
        /// What it stands on.
        below: Text,
    },
}

/// What an upper layer is.
#[derive(Clone, Copy, Debug, PartialEq, Eq)]
pub enum UpperKind {
    /// A coherency layer.
    Coherency,
    /// A distributed layer.
    Dfs,
    /// A virtual memory manager.
    Vmm {
        /// How many pages of a file it may hold.
        frames: u32,
    },
}
