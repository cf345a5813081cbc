//! A mounted stack, and the one way to make one.

ghost use Rattle.std.specs.Prelude.{◌≡◌, ◌≤◌, IfOk, IfErr, length, true};
ghost use Rattle.stack_accept.specs.Plan.{plan_of};
ghost use Rattle.stack_accept.specs.Rules.{first_breach, IsAccepted};
ghost use Rattle.stack_accept.specs.Sound.{IsMount, Serves};
ghost use Rattle.stack_accept.specs.Unfit.{IsUnfit};
ghost use Rattle.tower_core.specs.TreeShape.{IsTree};
ghost use Rattle.stack_accept.specs.Mount.{mounted, machines_of, nodes_of, tree_of, is_view_in, via};
ghost use Rattle.hist_plain.specs.declared.TheConstants.{MAX_NODES};

use crate::entries::{FileEntry, GroundPlan, NodeEntry};
use crate::mount::{
    disks_of, files_of, frames_of, ground_name, machines_of, node_lines, nodes_of, page_size_of,
    parents_of, plan, via,
};
use crate::rule::{Unfit, check};
use stack_text::{MAX_LINES, StackLine, StackText};
use std::alloc::{AllocError, Global};
use std::marker::Model;
use tower_core::Tree;
use value_types::Text;

/// A mounted stack. It does not change.
#[derive(Drop)]
pub struct Mounted {
    page_size: u32,
    files: Vec<FileEntry>,
    tree: Tree,
    nodes: Vec<NodeEntry>,
    ground: GroundPlan,
    disks: Vec<Text>,
    machines: Vec<Text>,
}

impl Model for Mounted {
    ghost use Rattle.std.specs.Coded.{codes};
    ghost use Rattle.stack_accept.specs.Mount.{Mount};
    ghost use Rattle.stack_accept.specs.Plan.{plan_of, plan_code};
    ghost use Rattle.stack_accept.specs.Sound.{IsMount};

    ghost Value = { Mount };

    ghost coded = { Prim.hlevel (codes, plan_code) };

    ghost view = { λ m. record { page_size = m.page_size; files = m.files.items; tree = m.tree; nodes = m.nodes.items; ground = plan_of m.ground; disks = m.disks.items; machines = m.machines.items } };

    ghost invariant = { λ m. IsMount (record { page_size = m.page_size; files = m.files.items; tree = m.tree; nodes = m.nodes.items; ground = plan_of m.ground; disks = m.disks.items; machines = m.machines.items }) };
}

impl Mounted {
    /// The size of a page, in bytes: a power of two from 64 to 4,096.
    pub fn page_size(&self) -> u32
        ensures value { result ≡ self.now.page_size }
        ensures sound { IsMount self.now }
    {
        self.page_size
    }

    /// The files, in the order of the text: 1 to 16.
    pub fn files(&self) -> &[FileEntry]
        ensures value { result.now ≡ self.now.files }
        ensures sound { IsMount self.now }
    {
        &self.files
    }

    /// The tree of the nodes.
    pub fn tree(&self) -> &Tree
        ensures value { result.now ≡ self.now.tree }
        ensures sound { IsMount self.now }
    {
        &self.tree
    }

    /// The nodes: the ground, and then the other layers in the order of the text.
    pub fn nodes(&self) -> &[NodeEntry]
        ensures value { result.now ≡ self.now.nodes }
        ensures sound { IsMount self.now }
    {
        &self.nodes
    }

    /// What the ground is made of.
    pub fn ground(&self) -> &GroundPlan
        ensures value { plan_of result.now ≡ self.now.ground }
        ensures sound { IsMount self.now }
    {
        &self.ground
    }

    /// The names of the disks, by their numbers: 1 to 4.
    pub fn disks(&self) -> &[Text]
        ensures value { result.now ≡ self.now.disks }
        ensures sound { IsMount self.now }
    {
        &self.disks
    }

    /// The names of the machines, by their numbers.
    pub fn machines(&self) -> &[Text]
        ensures value { result.now ≡ self.now.machines }
        ensures sound { IsMount self.now }
    {
        &self.machines
    }

    /// The node that serves a view's pages on a machine: the view, unless it is a distributed layer
    /// of this machine; then the node that serves what it stands on. A layer's parent is the node
    /// that serves on its machine what it stands on.
    pub fn via(&self, view: u32, machine: u32) -> u32
        ensures value { result ≡ via self.now.nodes view machine }
        ensures serves { is_view_in self.now.nodes view ≡ true → Serves self.now.nodes view machine result }
        ensures sound { IsMount self.now }
    {
        via(&self.nodes, view, machine)
    }
}

/// The nodes of the lines.
fn build_nodes(
    alloc: Global,
    lines: &[StackLine],
    machines: &[Text],
) -> Result<Vec<NodeEntry>, AllocError>
    requires few { length lines.now ≤ MAX_LINES }
    requires machines { machines.now ≡ machines_of lines.now }
    requires few_machines { length machines.now ≤ MAX_LINES }
    ensures { IfOk result (λ nodes. nodes.items ≡ nodes_of lines.now) }
{
    let node_lines = node_lines(alloc, lines)?;
    nodes_of(alloc, machines, &node_lines)
}

/// The tree of the nodes.
fn build_tree(alloc: Global, nodes: &[NodeEntry]) -> Result<Tree, AllocError>
    requires tree { IsTree (tree_of nodes.now) }
    requires few { length nodes.now ≤ MAX_NODES }
    ensures { IfOk result (λ tree. tree ≡ tree_of nodes.now) }
{
    let parents = parents_of(alloc, nodes)?;
    let frames = frames_of(alloc, nodes)?;
    Tree::new(alloc, &parents, &frames)
}

/// The mounted stack of lines that keep every rule.
fn mount(alloc: Global, lines: &[StackLine]) -> Result<Mounted, AllocError>
    requires few { length lines.now ≤ MAX_LINES }
    requires accepted { IsAccepted lines.now }
    ensures { IfOk result (λ m. m ≡ mounted lines.now) }
{
    let files = files_of(alloc, lines)?;
    let disks = disks_of(alloc, lines)?;
    let machines = machines_of(alloc, lines)?;
    let nodes = build_nodes(alloc, lines, &machines)?;
    let tree = build_tree(alloc, &nodes)?;
    let ground = plan(alloc, lines, ground_name(lines))?;
    Ok(Mounted {
        page_size: page_size_of(lines),
        files,
        tree,
        nodes,
        ground,
        disks,
        machines,
    })
}

/// The mounted stack of a text. It fails exactly if the text breaks a rule, with the first line that
/// breaks one and the lowest rule that this line breaks, or if memory runs out.
pub fn accept(alloc: Global, text: &StackText) -> Result<Mounted, Unfit>
    requires { length text.now.lines ≤ MAX_LINES }
    ensures accepted { IfOk result (λ _. IsAccepted text.now.lines) }
    ensures mounted { IfOk result (λ m. m ≡ mounted text.now.lines) }
    ensures unfit { IfErr result (IsUnfit (first_breach text.now.lines)) }
{
    let lines = text.lines.as_slice();
    check(lines)?;
    Ok(mount(alloc, lines)?)
}
