//! One page's table: a cell for each node.

ghost use Rattle.std.specs.Prelude.{◌≡◌, ◌<◌, ◌+◌, ◌≤◌, ◌↔◌, IfOk, IsTrue, vec_len, ℕ};
ghost use Rattle.hist_plain.specs.declared.TheConstants.{MAX_EVENTS};
ghost use Rattle.tower_core.specs.TreeShape.{nodes, IsUpper};
ghost use Rattle.tower_core.specs.Column.{at_after, newest_after, right_after, used_after, given, updated, MayStep, NoChildHolds, NoChildWrites, NoSiblingHolds, IsStepOf, column_after};
ghost use Rattle.tower_core.specs.Trail.{holds};
ghost use Rattle.tower_core.specs.declared.step.Step.TheVariants.{Grants};
ghost use Rattle.tower_core.specs.Page.{IsFresh, cell_of, page_column, page_used};

use crate::{Right, Step, Tree};
use std::alloc::{AllocError, Global};

/// What one node may do with a page, and what its copy shows.
#[derive(Clone, Copy)]
pub struct Cell {
    /// What the node may do with the page.
    pub right: Right,
    /// The place whose bytes its copy shows; 0 if it has no copy.
    pub at: u64,
    /// The place after its last use of the page.
    pub used: u64,
}

/// One page's rights and places, by node.
#[derive(Drop)]
pub struct Page {
    /// A cell for each node.
    pub cells: Vec<Cell>,
    /// The place after the page's last effective write or clear.
    pub newest: u64,
}

impl Page {
    /// A page on which the ground alone has a right.
    pub fn new(alloc: Global, nodes: usize) -> Result<Page, AllocError>
        requires { 0 < nodes }
        ensures fresh { IfOk result IsFresh }
        ensures cells { IfOk result (λ page. vec_len page.cells ≡ nodes) }
    {
        let empty = Cell {
            right: Right::Nothing,
            at: 0,
            used: 0,
        };
        let mut cells = vec![in alloc; empty; nodes]?;
        let ground = &mut cells[0];
        ground.right = Right::Write;
        Ok(Page { cells, newest: 0 })
    }

    /// Whether the node has a right.
    pub fn holds(&self, node: u32) -> bool
        requires { node < vec_len self.now.cells }
        ensures { result ≡ holds ((page_column self.now).right node) }
    {
        match self.cells[node as usize].right {
            Right::Nothing => false,
            Right::Read | Right::Write => true,
        }
    }

    /// Whether no child of the node has Write.
    fn no_child_writes(&self, tree: &Tree, node: u32) -> bool
        requires { nodes tree.now ≡ vec_len self.now.cells }
        ensures { IsTrue result ↔ NoChildWrites tree.now (page_column self.now) node }
    {
        for child in 1..tree.nodes() {
            if tree.parent(child) == node && self.cells[child as usize].right == Right::Write {
                return false;
            }
        }
        true
    }

    /// Whether no child of the node has a right.
    fn no_child_holds(&self, tree: &Tree, node: u32) -> bool
        requires { nodes tree.now ≡ vec_len self.now.cells }
        ensures { IsTrue result ↔ NoChildHolds tree.now (page_column self.now) node }
    {
        for child in 1..tree.nodes() {
            if tree.parent(child) == node && self.cells[child as usize].right != Right::Nothing {
                return false;
            }
        }
        true
    }

    /// Whether no other child of the node's parent has a right.
    fn no_sibling_holds(&self, tree: &Tree, node: u32) -> bool
        requires cells { nodes tree.now ≡ vec_len self.now.cells }
        requires upper { IsUpper tree.now node }
        ensures { IsTrue result ↔ NoSiblingHolds tree.now (page_column self.now) node }
    {
        let parent = tree.parent(node);
        for child in 1..tree.nodes() {
            if child != node
                && tree.parent(child) == parent
                && self.cells[child as usize].right != Right::Nothing
            {
                return false;
            }
        }
        true
    }

    /// Whether the table of events allows a grant to the node.
    fn may_grant(&self, tree: &Tree, node: u32, write: bool) -> bool
        requires cells { nodes tree.now ≡ vec_len self.now.cells }
        requires upper { IsUpper tree.now node }
        ensures { IsTrue result ↔ MayStep tree.now (page_column self.now) (Grants node write) }
    {
        let parent = tree.parent(node);
        let right = self.cells[node as usize].right;
        let above = self.cells[parent as usize].right;
        if write {
            right != Right::Write && above == Right::Write && self.no_sibling_holds(tree, node)
        } else {
            right == Right::Nothing && above != Right::Nothing && self.no_child_writes(tree, parent)
        }
    }

    /// Whether the table of events allows the step.
    pub fn may(&self, tree: &Tree, step: Step) -> bool
        requires cells { nodes tree.now ≡ vec_len self.now.cells }
        requires upper { IsStepOf tree.now step }
        ensures { IsTrue result ↔ MayStep tree.now (page_column self.now) step }
    {
        match step {
            Step::Untouched => true,
            Step::Reads { node } => {
                self.cells[node as usize].right != Right::Nothing
                    && self.no_child_writes(tree, node)
            }
            Step::Writes { node } | Step::Flushes { node } => {
                self.cells[node as usize].right == Right::Write && self.no_child_holds(tree, node)
            }
            Step::Grants { node, write } => self.may_grant(tree, node, write),
            Step::PagesOut { node } => {
                self.cells[node as usize].right != Right::Nothing && self.no_child_holds(tree, node)
            }
            Step::Denies { node } => {
                self.cells[node as usize].right == Right::Write && self.no_child_writes(tree, node)
            }
            Step::Pushes { node } => self.cells[node as usize].right == Right::Write,
            Step::Deletes { node } => {
                self.cells[node as usize].right == Right::Read && self.no_child_holds(tree, node)
            }
        }
    }

    /// The parent's copy shows from now on what the node's does.
    fn push(&mut self, tree: &Tree, node: u32)
        requires cells { nodes tree.now ≡ vec_len self.old.cells }
        requires upper { IsUpper tree.now node }
        ensures right { (n : ℕ) → (cell_of self.new n).right ≡ (cell_of self.old n).right }
        ensures at { (n : ℕ) → (cell_of self.new n).at ≡ given tree.now (page_column self.old) node n }
        ensures used { (n : ℕ) → (cell_of self.new n).used ≡ (cell_of self.old n).used }
        ensures newest { self.new.newest ≡ self.old.newest }
        ensures cells { vec_len self.new.cells ≡ vec_len self.old.cells }
    {
        let at = self.cells[node as usize].at;
        self.cells[tree.parent(node) as usize].at = at;
    }

    /// The node has no copy from now on.
    fn drop_copy(&mut self, node: u32)
        requires { node < vec_len self.old.cells }
        ensures right { (n : ℕ) →
            (cell_of self.new n).right ≡ updated (page_column self.old).right node Right.Nothing n }
        ensures at { (n : ℕ) → (cell_of self.new n).at ≡ updated (page_column self.old).at node 0 n }
        ensures used { (n : ℕ) → (cell_of self.new n).used ≡ (cell_of self.old n).used }
        ensures newest { self.new.newest ≡ self.old.newest }
        ensures cells { vec_len self.new.cells ≡ vec_len self.old.cells }
    {
        let cell = &mut self.cells[node as usize];
        cell.right = Right::Nothing;
        cell.at = 0;
    }

    /// The node shows its own bytes from the place after the event on.
    fn write(&mut self, node: u32, len: u64)
        requires node_in { node < vec_len self.old.cells }
        requires room { len < MAX_EVENTS }
        ensures right { (n : ℕ) → (cell_of self.new n).right ≡ (cell_of self.old n).right }
        ensures at { (n : ℕ) → (cell_of self.new n).at ≡ updated (page_column self.old).at node (len + 1) n }
        ensures used { (n : ℕ) → (cell_of self.new n).used ≡ updated (page_used self.old) node (len + 1) n }
        ensures newest { self.new.newest ≡ len + 1 }
        ensures cells { vec_len self.new.cells ≡ vec_len self.old.cells }
    {
        let cell = &mut self.cells[node as usize];
        cell.at = len + 1;
        cell.used = len + 1;
        self.newest = len + 1;
    }

    /// The node has Write or Read from now on; if it had Nothing, it shows what its parent does.
    fn grant(&mut self, tree: &Tree, node: u32, write: bool, len: u64)
        requires cells { nodes tree.now ≡ vec_len self.old.cells }
        requires upper { IsUpper tree.now node }
        requires room { len < MAX_EVENTS }
        ensures right { (n : ℕ) → (cell_of self.new n).right ≡
            right_after (page_column self.old).right (Grants node write) n }
        ensures at { (n : ℕ) → (cell_of self.new n).at ≡
            at_after tree.now len (page_column self.old) (Grants node write) n }
        ensures used { (n : ℕ) → (cell_of self.new n).used ≡ updated (page_used self.old) node (len + 1) n }
        ensures newest { self.new.newest ≡ self.old.newest }
        ensures cells { vec_len self.new.cells ≡ vec_len self.old.cells }
    {
        let above = self.cells[tree.parent(node) as usize].at;
        let cell = &mut self.cells[node as usize];
        if cell.right == Right::Nothing {
            cell.at = above;
        }
        cell.right = if write { Right::Write } else { Right::Read };
        cell.used = len + 1;
    }

    /// Takes a step of the table of events, the trail having `len` events so far.
    pub fn take(&mut self, tree: &Tree, step: Step, len: u64)
        requires cells { nodes tree.now ≡ vec_len self.old.cells }
        requires upper { IsStepOf tree.now step }
        requires room { len < MAX_EVENTS }
        ensures right { (n : ℕ) → (cell_of self.new n).right ≡ right_after (page_column self.old).right step n }
        ensures at { (n : ℕ) →
            (cell_of self.new n).at ≡ at_after tree.now len (page_column self.old) step n }
        ensures used { (n : ℕ) → (cell_of self.new n).used ≡ used_after len (page_used self.old) step n }
        ensures newest { self.new.newest ≡ newest_after len self.old.newest step }
        ensures cells { vec_len self.new.cells ≡ vec_len self.old.cells }
    {
        match step {
            Step::Untouched => {}
            Step::Reads { node } => {
                self.cells[node as usize].used = len + 1;
            }
            Step::Writes { node } => self.write(node, len),
            Step::Grants { node, write } => self.grant(tree, node, write, len),
            Step::PagesOut { node } | Step::Flushes { node } => {
                self.push(tree, node);
                self.drop_copy(node);
            }
            Step::Denies { node } => {
                self.push(tree, node);
                self.cells[node as usize].right = Right::Read;
            }
            Step::Pushes { node } => self.push(tree, node),
            Step::Deletes { node } => self.drop_copy(node),
        }
    }
}
