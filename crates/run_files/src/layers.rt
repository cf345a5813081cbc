//! The layers of a stack, once more for each file.

ghost use Rattle.std.specs.Prelude.{◌≡◌, IfOk};
ghost use Rattle.run_files.specs.Held.{machines_by_node};

use stack_accept::Mounted;
use std::alloc::{AllocError, Global};
use tower_core::Tree;

/// The parent of each node.
pub(crate) fn parents_of(alloc: Global, tree: &Tree) -> Result<Vec<u32>, AllocError>
    ensures { IfOk result (λ parents. parents.items ≡ tree.now.parents) }
{
    let mut parents = Vec::new(alloc);
    for node in 0..tree.nodes() {
        parents.push(tree.parent(node))?;
    }
    Ok(parents)
}

/// How many frames each node has.
fn frames_of(alloc: Global, tree: &Tree) -> Result<Vec<u32>, AllocError>
    ensures { IfOk result (λ frames. frames.items ≡ tree.now.frames) }
{
    let mut frames = Vec::new(alloc);
    for node in 0..tree.nodes() {
        frames.push(tree.frames(node))?;
    }
    Ok(frames)
}

/// The same tree again.
pub(crate) fn copy_tree(alloc: Global, tree: &Tree) -> Result<Tree, AllocError>
    ensures { IfOk result (λ copy. copy ≡ tree.now) }
{
    // The proof reads here that this is a tree.
    let _nodes = tree.nodes();
    let parents = parents_of(alloc, tree)?;
    let frames = frames_of(alloc, tree)?;
    Tree::new(alloc, &parents, &frames)
}

/// The number of each node's machine, that of the ground first.
pub(crate) fn machines_of(alloc: Global, mount: &Mounted) -> Result<Vec<u32>, AllocError>
    ensures { IfOk result (λ machines. machines.items ≡ machines_by_node mount.now) }
{
    let nodes = mount.nodes();
    let mut machines = Vec::new(alloc);
    for node in nodes {
        machines.push(node.machine)?;
    }
    Ok(machines)
}
