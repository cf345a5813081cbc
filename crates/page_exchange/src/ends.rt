//! The end of a channel: a message about no page, which moves no table.

ghost use Rattle.std.specs.Prelude.{◌≡◌, ◌<◌, [], OnOk};
ghost use Rattle.page_messages.specs.declared.paged.PagedFile.{PagedFile};
ghost use Rattle.tower_core.specs.TreeShape.{IsUpper, parent};
ghost use Rattle.page_exchange.specs.Ends.{AllowEnd, letters_destroyed, letters_done};
ghost use Rattle.page_exchange.specs.Listed.{AreSameTables, AreTablesOf, AreTablesWith, StayTables, sides_in, uses_in};
ghost use Rattle.page_exchange.specs.Tables.{AreLeft, CarriesDown, CarriesUp, IsSameFile, IsUnderFile, paged_of, sides, tree_of, uses, wire_of};
ghost use Rattle.page_exchange.specs.Wire.{CarriedOver, WentOver};

use crate::ground::GroundErr;
use crate::table::Table;
use crate::tables::Tables;
use crate::wire::{Ends, Wire};
use coherency_layer::{Asked, Called};
use page_ground::Ground;
use std::alloc::AllocError;
use tower_core::Tree;

/// A node tells its parent, which is a layer, that it is done with its pages, and takes the answer. An error is want of
/// memory.
fn done_in(
    wire: &mut Wire,
    nodes: &mut [Table],
    tree: &Tree,
    ends: Ends,
    node: u32,
    pages: u32,
) -> Result<(), AllocError>
    requires tables { AreTablesWith tree.now pages 0 nodes.old }
    requires upper { IsUpper tree.now node }
    requires above { IsUpper tree.now (parent tree.now node) }
    requires may { AllowEnd tree.now (sides_in nodes.old) node pages }
    requires unused { uses_in nodes.old node ≡ [] }
    ensures went { (file : PagedFile) → AreTablesOf tree.now file nodes.old → WentOver wire.new file letters_done }
    ensures carried { CarriedOver wire.new ends.node ends.parent }
    ensures ops { wire.new.ops ≡ wire.old.ops }
    ensures left { AreSameTables nodes.old nodes.new }
    ensures tables { StayTables tree.now nodes.old nodes.new }
{
    let above = tree.parent(node);
    let (low, high) = nodes.split_at_mut(node as usize);
    let own = &mut high[0];
    match &mut low[above as usize] {
        Table::Layer { node: upper } => wire.ask_knowing(own, upper, ends, node, Asked::Done, 0),
        Table::Leaf { .. } => unreachable!(),
    }
}

/// A node's parent, which is a layer, destroys the node's cache, and takes the answer.
fn destroy_in(wire: &mut Wire, nodes: &mut [Table], tree: &Tree, ends: Ends, node: u32, pages: u32)
    requires tables { AreTablesWith tree.now pages 0 nodes.old }
    requires upper { IsUpper tree.now node }
    requires above { IsUpper tree.now (parent tree.now node) }
    requires may { AllowEnd tree.now (sides_in nodes.old) node pages }
    requires unused { uses_in nodes.old node ≡ [] }
    ensures went { (file : PagedFile) → AreTablesOf tree.now file nodes.old → WentOver wire.new file letters_destroyed }
    ensures carried { CarriedOver wire.new ends.parent ends.node }
    ensures ops { wire.new.ops ≡ wire.old.ops }
    ensures left { AreSameTables nodes.old nodes.new }
    ensures tables { StayTables tree.now nodes.old nodes.new }
{
    let above = tree.parent(node);
    let (low, high) = nodes.split_at_mut(node as usize);
    let own = &mut high[0];
    match &mut low[above as usize] {
        Table::Layer { node: upper } => wire.call_below(own, upper, ends, node, Called::Destroy, 0),
        Table::Leaf { .. } => unreachable!(),
    }
}

impl Tables {
    /// A node whose parent is the ground tells that it is done.
    fn done_at_ground<G: Ground>(&mut self, ground: &mut G, node: u32) -> Result<(), AllocError>
        requires under { IsUnderFile (G.seen ground.old) (paged_of self.old) }
        requires upper { IsUpper (tree_of self.old) node }
        requires may { AllowEnd (tree_of self.old) (sides self.old) node (paged_of self.old).pages }
        requires unused { uses self.old node ≡ [] }
        ensures went { OnOk result (WentOver (wire_of self.new) (paged_of self.old) letters_done) }
        ensures carried { OnOk result (CarriesUp self.old (wire_of self.new) node) }
        ensures left { AreLeft self.old self.new }
        ensures same { IsSameFile self.old self.new }
        ensures ground { G.seen ground.new ≡ G.seen ground.old }
    {
        let ends = self.ends(node);
        let own = &mut self.nodes[node as usize];
        match self
            .wire
            .ask_ground(own, ground, ends, Asked::Done, 0, &mut self.scratch)
        {
            Ok(()) => Ok(()),
            Err(GroundErr::Memory) => Err(AllocError),
            Err(GroundErr::Store(_)) => unreachable!(),
        }
    }

    /// The ground destroys the cache of a node whose parent it is.
    fn destroy_by_ground<G: Ground>(&mut self, ground: &mut G, node: u32)
        requires under { IsUnderFile (G.seen ground.old) (paged_of self.old) }
        requires upper { IsUpper (tree_of self.old) node }
        requires may { AllowEnd (tree_of self.old) (sides self.old) node (paged_of self.old).pages }
        requires unused { uses self.old node ≡ [] }
        ensures went { WentOver (wire_of self.new) (paged_of self.old) letters_destroyed }
        ensures carried { CarriesDown self.old (wire_of self.new) node }
        ensures left { AreLeft self.old self.new }
        ensures same { IsSameFile self.old self.new }
        ensures ground { G.seen ground.new ≡ G.seen ground.old }
    {
        let ends = self.ends(node);
        let own = &mut self.nodes[node as usize];
        match self
            .wire
            .order_by_ground(own, ground, ends, Called::Destroy, 0)
        {
            Ok(()) => {}
            Err(_) => unreachable!(),
        }
    }

    /// A node whose parent is a node tells that it is done.
    fn done_at_node(&mut self, node: u32) -> Result<(), AllocError>
        requires upper { IsUpper (tree_of self.old) node }
        requires above { IsUpper (tree_of self.old) (parent (tree_of self.old) node) }
        requires may { AllowEnd (tree_of self.old) (sides self.old) node (paged_of self.old).pages }
        requires unused { uses self.old node ≡ [] }
        ensures went { WentOver (wire_of self.new) (paged_of self.old) letters_done }
        ensures carried { CarriesUp self.old (wire_of self.new) node }
        ensures left { AreLeft self.old self.new }
        ensures same { IsSameFile self.old self.new }
    {
        let ends = self.ends(node);
        done_in(
            &mut self.wire,
            &mut self.nodes,
            &self.tree,
            ends,
            node,
            self.file.pages,
        )
    }

    /// A node destroys the cache of another whose parent it is.
    fn destroy_by_node(&mut self, node: u32)
        requires upper { IsUpper (tree_of self.old) node }
        requires above { IsUpper (tree_of self.old) (parent (tree_of self.old) node) }
        requires may { AllowEnd (tree_of self.old) (sides self.old) node (paged_of self.old).pages }
        requires unused { uses self.old node ≡ [] }
        ensures went { WentOver (wire_of self.new) (paged_of self.old) letters_destroyed }
        ensures carried { CarriesDown self.old (wire_of self.new) node }
        ensures left { AreLeft self.old self.new }
        ensures same { IsSameFile self.old self.new }
    {
        let ends = self.ends(node);
        destroy_in(
            &mut self.wire,
            &mut self.nodes,
            &self.tree,
            ends,
            node,
            self.file.pages,
        )
    }

    /// A node tells its parent, which is a node or the ground, that it is done with its pages, and takes the answer. No
    /// table changes, and the ground is not called. An error is want of memory.
    pub fn done<G: Ground>(&mut self, ground: &mut G, node: u32) -> Result<(), AllocError>
        requires under { IsUnderFile (G.seen ground.old) (paged_of self.old) }
        requires upper { IsUpper (tree_of self.old) node }
        requires may { AllowEnd (tree_of self.old) (sides self.old) node (paged_of self.old).pages }
        requires unused { uses self.old node ≡ [] }
        ensures went { OnOk result (WentOver (wire_of self.new) (paged_of self.old) letters_done) }
        ensures carried { OnOk result (CarriesUp self.old (wire_of self.new) node) }
        ensures left { AreLeft self.old self.new }
        ensures same { IsSameFile self.old self.new }
        ensures ground { G.seen ground.new ≡ G.seen ground.old }
    {
        if self.tree.parent(node) == 0 {
            self.done_at_ground(ground, node)
        } else {
            self.done_at_node(node)
        }
    }

    /// A node's parent, which is a node or the ground, destroys the node's cache, and takes the answer. No table changes,
    /// and the ground is not called.
    pub fn destroy<G: Ground>(&mut self, ground: &mut G, node: u32)
        requires under { IsUnderFile (G.seen ground.old) (paged_of self.old) }
        requires upper { IsUpper (tree_of self.old) node }
        requires may { AllowEnd (tree_of self.old) (sides self.old) node (paged_of self.old).pages }
        requires unused { uses self.old node ≡ [] }
        ensures went { WentOver (wire_of self.new) (paged_of self.old) letters_destroyed }
        ensures carried { CarriesDown self.old (wire_of self.new) node }
        ensures left { AreLeft self.old self.new }
        ensures same { IsSameFile self.old self.new }
        ensures ground { G.seen ground.new ≡ G.seen ground.old }
    {
        if self.tree.parent(node) == 0 {
            self.destroy_by_ground(ground, node);
        } else {
            self.destroy_by_node(node);
        }
    }
}
