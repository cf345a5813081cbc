//! What a mounted stack consists of.

use std::boxed::Box;
use value_types::Text;

/// What a node is.
#[derive(Clone, Copy, Debug, PartialEq, Eq)]
pub enum Kind {
    /// A disk. Only the ground is one.
    Disk,
    /// A mirror. Only the ground is one.
    Mirror,
    /// A coherency layer.
    Coherency,
    /// A distributed layer.
    Dfs,
    /// A virtual memory manager.
    Vmm,
}

impl Kind {
    ghost use Rattle.std.specs.Prelude.{◌≡◌};
    ghost use Rattle.stack_accept.specs.Mount.{is_view};

    /// Whether a node of the kind has a view: a coherency or a distributed layer has one.
    pub fn is_view(self) -> bool
        ensures { result ≡ is_view self }
    {
        matches!(self, Kind::Coherency | Kind::Dfs)
    }
}

/// A file of the stack.
#[derive(Clone, Debug, Drop)]
pub struct FileEntry {
    /// The name that stands in the stack text.
    pub name: Text,
    /// How many pages it has, from 1 to 1,024.
    pub pages: u32,
}

/// A node of the tree.
#[derive(Clone, Debug, Drop)]
pub struct NodeEntry {
    /// The layer's name.
    pub name: Text,
    /// Which kind of layer it is.
    pub kind: Kind,
    /// The number of its machine.
    pub machine: u32,
    /// The node that it stands on by the text; 0 for the ground.
    pub below: u32,
    /// How many pages of a file a memory manager holds; 0 for any other node.
    pub frames: u32,
}

/// What the ground is made of.
#[derive(Clone, Debug, Drop)]
pub enum GroundPlan {
    /// A disk, by its number.
    Disk {
        /// The disk's number, in the order of the text.
        disk: u32,
    },
    /// A mirror.
    Mirror {
        /// Its left side.
        left: Box<GroundPlan>,
        /// Its right side.
        right: Box<GroundPlan>,
    },
    /// A coherency layer that is a mirror's side, and writes through.
    Coherency {
        /// What it stands on.
        below: Box<GroundPlan>,
    },
}
