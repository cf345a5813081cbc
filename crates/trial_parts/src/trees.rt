//! The trees of nodes in words: `0 0 1 frames 0 0 2` has the parents of the nodes first, and then their frames.

ghost use Rattle.std.specs.Prelude.{IfOk, IsTrue, ◌<◌, ◌≤◌, ◌≡◌, ℕ, length};
ghost use Rattle.hist_plain.specs.declared.TheConstants.{MAX_NODES};
ghost use Rattle.tower_core.specs.TreeShape.{IsTree, frames_of};
ghost use Rattle.trial_parts.specs.Trees.{Hangs};

use hist_plain::MAX_NODES;
use std::alloc::{AllocError, Global};
use tower_core::Tree;
use trial_words::{Halt, numbers};

/// Whether a node above the ground comes after its parent, which is no leaf.
fn hangs_well(parents: &[u32], frames: &[u32], node: usize) -> bool
    requires node { node < length parents.now }
    requires same { length frames.now ≡ length parents.now }
    ensures { IsTrue result → Hangs parents.now frames.now node }
{
    let above = parents[node] as usize;
    above < node && frames[above] == 0
}

/// Whether these are the parents and the frames of a tree.
fn is_tree(parents: &[u32], frames: &[u32]) -> bool
    ensures tree { IsTrue result → IsTree (record { parents = parents.now; frames = frames.now }) }
    ensures few { IsTrue result → length parents.now ≤ MAX_NODES }
{
    let len = parents.len();
    if len == 0 || len > MAX_NODES || frames.len() != len || parents[0] != 0 {
        return false;
    }
    for node in 1..len {
        if !hangs_well(parents, frames, node) {
            return false;
        }
    }
    true
}

/// The tree of some words.
pub fn tree_of(alloc: Global, words: &[&str]) -> Result<Tree, Halt> {
    let Some(at) = words.iter().position(|word| *word == "frames") else {
        return Err(Halt::Unread);
    };
    let parents = numbers(alloc, &words[..at])?;
    let frames = numbers(alloc, &words[at + 1..])?;
    if !is_tree(&parents, &frames) {
        return Err(Halt::Impossible);
    }
    Ok(Tree::new(alloc, &parents, &frames)?)
}

/// The same tree again.
pub fn copy_tree(alloc: Global, tree: &Tree) -> Result<Tree, AllocError>
    ensures { IfOk result (λ copy. copy ≡ tree.now) }
{
    let (mut parents, mut frames) = (Vec::new(alloc), Vec::new(alloc));
    let nodes = tree.nodes();
    for node in 0..nodes {
        parents.push(tree.parent(node))?;
        frames.push(tree.frames(node))?;
    }
    Tree::new(alloc, &parents, &frames)
}

/// Whether each leaf has at most 1024 frames.
pub fn has_small_frames(tree: &Tree) -> bool
    ensures { IsTrue result → (node : ℕ) → frames_of tree.now node ≤ 1024 }
{
    for node in 0..tree.nodes() {
        if tree.frames(node) > 1024 {
            return false;
        }
    }
    true
}
