//! The tree of nodes over a file.

ghost use Rattle.std.specs.Prelude.{◌≡◌, ◌<◌, ◌≤◌, IfOk, length};
ghost use Rattle.hist_plain.specs.declared.TheConstants.{MAX_NODES};
ghost use Rattle.tower_core.specs.TreeShape.{IsTree, frames_of, is_within, nodes, parent};

use hist_plain::MAX_NODES;
use std::alloc::{AllocError, Global};
use std::marker::Model;

/// The nodes that share a file: node 0, which is the ground, and the layers that stand on it. Seen
/// as the list of parents and the list of frames.
#[derive(Debug, Drop)]
pub struct Tree {
    parents: Vec<u32>,
    frames: Vec<u32>,
}

impl Model for Tree {
    ghost use Rattle.std.specs.Prelude.{◌≤◌, length};
    ghost use Rattle.hist_plain.specs.declared.TheConstants.{MAX_NODES};
    ghost use Rattle.tower_core.specs.TreeShape.{TreeShape, IsTree, nodes};

    ghost Value = { TreeShape };

    ghost view = { λ t. record { parents = t.parents.items; frames = t.frames.items } };

    ghost invariant = { λ t.
        IsTree (record { parents = t.parents.items; frames = t.frames.items })
        × (length t.parents.items ≤ MAX_NODES) };
}

impl Tree {
    /// The tree of these parents and frames, by node. A node whose frames are not 0 is a leaf, which
    /// holds rights on at most that many pages of a file. It fails only if memory runs out.
    pub fn new(alloc: Global, parents: &[u32], frames: &[u32]) -> Result<Tree, AllocError>
        requires tree { IsTree (record { parents = parents.now; frames = frames.now }) }
        requires few { length parents.now ≤ MAX_NODES }
        ensures { IfOk result (λ t. t ≡ record { parents = parents.now; frames = frames.now }) }
    {
        Ok(Tree {
            parents: parents.to_vec(alloc)?,
            frames: frames.to_vec(alloc)?,
        })
    }

    /// How many nodes there are, the ground included.
    pub fn nodes(&self) -> u32
        ensures count { result ≡ nodes self.now }
        ensures tree { IsTree self.now }
        ensures few { result ≤ MAX_NODES }
    {
        self.parents.len() as u32
    }

    /// The parent of a node, which comes before it. The ground is its own.
    pub fn parent(&self, node: u32) -> u32
        requires { node < nodes self.now }
        ensures value { result ≡ parent self.now node }
        ensures below { 0 < node → result < node }
        ensures tree { IsTree self.now }
    {
        self.parents[node as usize]
    }

    /// How many frames a leaf has, and 0 for any other node.
    pub fn frames(&self, node: u32) -> u32
        requires { node < nodes self.now }
        ensures { result ≡ frames_of self.now node }
    {
        self.frames[node as usize]
    }

    /// Whether the top is on the node's path to the ground.
    pub fn within(&self, node: u32, top: u32) -> bool
        requires { node < nodes self.now }
        ensures { result ≡ is_within self.now node top }
    {
        let mut at = node;
        while at != top {
            if at == 0 {
                return false;
            }
            at = self.parent(at);
        }
        true
    }
}
