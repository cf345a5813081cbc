//! The tables of which nobody has anything.

ghost use Rattle.std.specs.Prelude.{◌≡◌, ◌<◌, ◌≤◌, ◌↔◌, ℕ, All, Contains, IfOk, OnOk};
ghost use Rattle.tower_core.specs.TreeShape.{IsChild, frames_of, nodes};
ghost use Rattle.page_messages.specs.Paged.{IsPagedFile};
ghost use Rattle.page_exchange.specs.Listed.{AreTablesOf, IsFresh, IsTableOf};

use crate::table::Table;
use coherency_layer::{Node, PagedFile};
use std::alloc::{AllocError, Global};
use tower_core::Tree;
use vmm_cache::Leaf;

/// The children of a node, in the place of what the list had. An error is want of memory.
fn children_of(tree: &Tree, node: u32, children: &mut Vec<u32>) -> Result<(), AllocError>
    ensures are { OnOk result ((child : ℕ) → Contains children.new.items child ↔ IsChild tree.now child node) }
    ensures few { OnOk result (All (λ child. child < 32) children.new.items) }
{
    children.clear();
    for child in 1..tree.nodes() {
        if tree.parent(child) == node {
            children.push(child)?;
        }
    }
    Ok(())
}

/// The table of a node with these children, of which nobody has anything: a leaf's if the node has frames. An error is want of memory.
fn fresh_table(
    alloc: Global,
    tree: &Tree,
    file: PagedFile,
    node: u32,
    children: &[u32],
) -> Result<Table, AllocError>
    requires paged { IsPagedFile file }
    requires inside { node < nodes tree.now }
    requires frames { frames_of tree.now node ≤ 1024 }
    requires few { All (λ child. child < 32) children.now }
    requires are { (child : ℕ) → Contains children.now child ↔ IsChild tree.now child node }
    ensures table { IfOk result (IsTableOf tree.now file node) }
    ensures fresh { IfOk result IsFresh }
{
    // Only the proof needs this: that nothing stands on a leaf.
    let _nodes = tree.nodes();
    let frames = tree.frames(node);
    if frames == 0 {
        let layer = Node::new(alloc, file.page_size, file.pages, children, file.number)?;
        Ok(Table::Layer { node: layer })
    } else {
        let leaf = Leaf::new(alloc, file.page_size, file.pages, frames, file.number)?;
        Ok(Table::Leaf { leaf })
    }
}

/// A table for each node of the tree, of which nobody has anything. An error is want of memory.
pub(crate) fn fresh_nodes(
    alloc: Global,
    tree: &Tree,
    file: PagedFile,
) -> Result<Vec<Table>, AllocError>
    requires paged { IsPagedFile file }
    requires frames { (node : ℕ) → frames_of tree.now node ≤ 1024 }
    ensures tables { IfOk result (λ list. AreTablesOf tree.now file list.items) }
    ensures fresh { IfOk result (λ list. All IsFresh list.items) }
{
    let mut list = Vec::new(alloc);
    let mut children = Vec::new(alloc);
    for node in 0..tree.nodes() {
        children_of(tree, node, &mut children)?;
        list.push(fresh_table(alloc, tree, file, node, &children)?)?;
    }
    Ok(list)
}
