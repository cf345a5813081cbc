//! What a generated script is made for.

use value_types::{Items, Text};

/// What a generator sees of a mounted stack.
#[derive(Debug, Drop)]
pub struct Shape {
    /// The size of a page, in bytes: a power of two from 64 to 4,096.
    pub page_size: u32,
    /// The files, by their numbers: 1 to 16.
    pub files: Items<ShapeFile>,
    /// Where clients may sit, the first client at the first seat: at least one.
    pub seats: Items<ShapeSeat>,
}

/// A file, as a generator sees it.
#[derive(Debug, Drop)]
pub struct ShapeFile {
    /// The name that stands in the stack text.
    pub name: Text,
    /// How many pages it has, from 1 to 1,024.
    pub pages: u32,
}

/// A seat: the view that a client opens files at, and the machine that it runs on.
#[derive(Debug, Drop)]
pub struct ShapeSeat {
    /// The name of the view.
    pub view: Text,
    /// The name of the machine.
    pub machine: Text,
    /// Whether the client maps the files, as it does at a memory manager; else it calls them.
    pub maps: bool,
}
