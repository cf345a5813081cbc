//! The tables of all nodes of a file.

ghost use Rattle.std.specs.Prelude.{◌≡◌, vec_len};
ghost use Rattle.std.proofs.Props.{props};
ghost use Rattle.page_messages.specs.Paged.{IsPagedFile};
ghost use Rattle.page_exchange.specs.Listed.{AreTablesOf};
ghost use Rattle.tower_core.specs.TreeShape.{nodes as nodes_in};

use crate::ground::GroundErr;
use crate::pair::{ask_in, call_in};
use crate::starting::fresh_nodes;
use crate::table::Table;
use crate::wire::{Ends, Wire};
use coherency_layer::{Asked, Called, Node, PagedFile};
use page_ground::{Ground, StoreFault};
use pager_channel::Ops;
use std::alloc::{AllocError, Global};
use tower_core::{Right, Tree};
use vmm_cache::Leaf;

/// The tables of a file's nodes, by the nodes' numbers, over the tree; the machines of the nodes; and the room for the frames
/// between them. The first is the ground's: its table is empty, and nobody reads it.
#[derive(Drop)]
pub struct Tables {
    pub(crate) tree: Tree,
    pub(crate) file: PagedFile,
    pub(crate) machines: Vec<u32>,
    pub(crate) nodes: Vec<Table>,
    pub(crate) wire: Wire,
    pub(crate) scratch: Vec<u8>,
    ghost paged: { IsPagedFile file },
    ghost scratched: { vec_len scratch ≡ file.page_size },
    ghost placed: { vec_len machines ≡ nodes_in tree },
    ghost tables: { AreTablesOf tree file nodes.items } by { Prim.hlevel props },
}

impl Tables {
    ghost use Rattle.std.specs.Prelude.{◌≡◌, ◌≢◌, ◌+◌, ◌<◌, ◌≤◌, ℕ, [], IfErr, IfOk, List, OnErr, OnOk, Option, drop, length, replicate, take, true};
    ghost use Rattle.hist_plain.specs.Plain.{overwritten};
    ghost use Rattle.page_ground.specs.Seen.{IsFault};
    ghost use Rattle.tower_core.specs.TreeShape.{IsTree, IsUpper, frames_of, nodes as nodes_in, parent};
    ghost use Rattle.tower_core.specs.declared.step.Step.TheVariants.{Writes};
    ghost use Rattle.layer_laws.specs.Tables.{AreBare};
    ghost use Rattle.page_exchange.specs.declared.ground.GroundErr.{GroundErr as AnErr};
    ghost use Rattle.page_messages.specs.declared.kinds.Asked.{Asked as AQuestion};
    ghost use Rattle.page_messages.specs.declared.kinds.Called.{Called as AnOrder};
    ghost use Rattle.coherency_layer.specs.Node as layers;
    ghost use Rattle.vmm_cache.specs.Leaf as leaves;
    ghost use Rattle.vmm_cache.specs.Uses.{oldest};
    ghost use Rattle.page_exchange.specs.Table.{side, file_of, uses_of};
    ghost use Rattle.page_exchange.specs.Exchange.{may_be_full};
    ghost use Rattle.tower_core.specs.declared.step.Step.TheVariants.{Reads};
    ghost use Rattle.page_exchange.specs.Allowed.{AllowAsking, AllowCalling, AllowsReading, AllowsWriting};
    ghost use Rattle.page_exchange.specs.Ground.{IsCalmCall, IsOneCall, UnlessFault, pages_given};
    ghost use Rattle.page_exchange.specs.Steps.{AreSentAt, IsSent, NeedsGround, given_up, step_asked, step_called};
    ghost use Rattle.page_exchange.specs.Listed.{LacksRoom};
    ghost use Rattle.page_messages.specs.Written.{called_of};
    ghost use Rattle.page_exchange.specs.Moved.{AreAskedAt};
    ghost use Rattle.page_exchange.specs.Wire.{WentOver};
    ghost use Rattle.page_exchange.specs.Tables.{tree_of, paged_of, sides, uses, machine_of, machines_of, wire_of, AreLeft, CarriesDown, CarriesUp, Follow, IsCause, IsSameFile, IsUnderFile, MayAskFrames};

    /// The tables of the nodes of a tree, which are on these machines, for a file, of which nobody has anything. An error is
    /// want of memory.
    pub fn new(
        alloc: Global,
        tree: Tree,
        file: PagedFile,
        machines: Vec<u32>,
        ops: Ops,
    ) -> Result<Tables, AllocError>
        requires paged { IsPagedFile file }
        requires frames { (node : ℕ) → frames_of tree node ≤ 1024 }
        requires machines { length machines.items ≡ nodes_in tree }
        ensures tree { IfOk result (λ t. tree_of t ≡ tree) }
        ensures file { IfOk result (λ t. paged_of t ≡ file) }
        ensures machines { IfOk result (λ t. machines_of t ≡ machines.items) }
        ensures wire { IfOk result (λ t. wire_of t ≡ record { ops = ops; first = []; second = []; first_packet = []; second_packet = [] }) }
        ensures bare { IfOk result (λ t. AreBare (sides t)) }
        ensures unused { IfOk result (λ t. (node : ℕ) → uses t node ≡ []) }
    {
        let nodes = fresh_nodes(alloc, &tree, file)?;
        let wire = Wire::new(alloc, ops)?;
        let scratch = vec![in alloc; 0u8; file.page_size as usize]?;
        Ok(Tables {
            tree,
            file,
            machines,
            nodes,
            wire,
            scratch,
        })
    }

    /// The tree of the nodes.
    pub fn tree(&self) -> &Tree
        ensures value { result.now ≡ tree_of self.now }
        ensures tree { IsTree result.now }
    {
        // Only the proof needs this: that the value is a tree.
        let _nodes = self.tree.nodes();
        &self.tree
    }

    /// The file: its number, its pages and their size.
    pub fn file(&self) -> PagedFile
        ensures value { result ≡ paged_of self.now }
        ensures paged { IsPagedFile result }
    {
        self.file
    }

    /// Lends the two frames that went last between two nodes, or between a node and the ground: a question or an order,
    /// and its answer. Both are empty before the first.
    pub fn frames(&self) -> (&[u8], &[u8])
        ensures first { result.0.now ≡ (wire_of self.now).first }
        ensures second { result.1.now ≡ (wire_of self.now).second }
    {
        self.wire.frames()
    }

    /// Lends the packets of these two frames, which are empty if they went on one machine.
    pub fn packets(&self) -> (&[u8], &[u8])
        ensures first { result.0.now ≡ (wire_of self.now).first_packet }
        ensures second { result.1.now ≡ (wire_of self.now).second_packet }
    {
        self.wire.packets()
    }

    /// The number of a node's machine; node 0 is the ground.
    pub fn machine(&self, node: u32) -> u32
        requires { node < nodes_in (tree_of self.now) }
        ensures { result ≡ machine_of self.now node }
    {
        self.machines[node as usize]
    }

    /// The machines of a node and of its parent.
    pub(crate) fn ends(&self, node: u32) -> Ends
        requires { IsUpper (tree_of self.now) node }
        ensures node { result.node ≡ machine_of self.now node }
        ensures parent { result.parent ≡ machine_of self.now (parent (tree_of self.now) node) }
    {
        Ends {
            node: self.machine(node),
            parent: self.machine(self.tree.parent(node)),
        }
    }

    /// A node's own table.
    pub fn table(&self, node: u32) -> &Table
        requires { IsUpper (tree_of self.now) node }
        ensures file { file_of result.now ≡ paged_of self.now }
        ensures sides { (page : ℕ) → side result.now page ≡ sides self.now page node }
        ensures uses { uses_of result.now ≡ uses self.now node }
    {
        &self.nodes[node as usize]
    }

    /// A layer's own table.
    pub fn node(&self, node: u32) -> &Node
        requires upper { IsUpper (tree_of self.now) node }
        requires layer { frames_of (tree_of self.now) node ≡ 0 }
        ensures file { layers.file_of result.now ≡ paged_of self.now }
        ensures sides { (page : ℕ) → layers.side result.now page ≡ sides self.now page node }
    {
        match &self.nodes[node as usize] {
            Table::Layer { node } => node,
            Table::Leaf { .. } => unreachable!(),
        }
    }

    /// A leaf's own table.
    pub fn leaf(&self, node: u32) -> &Leaf
        requires upper { IsUpper (tree_of self.now) node }
        requires leaf { frames_of (tree_of self.now) node ≢ 0 }
        ensures file { leaves.file_of result.now ≡ paged_of self.now }
        ensures sides { (page : ℕ) → leaves.side result.now page ≡ sides self.now page node }
        ensures uses { leaves.uses_of result.now ≡ uses self.now node }
    {
        match &self.nodes[node as usize] {
            Table::Leaf { leaf } => leaf,
            Table::Layer { .. } => unreachable!(),
        }
    }

    /// The page that goes out of a leaf first, by its own table. None if it holds none, or if the node is a layer.
    pub fn victim(&self, node: u32) -> Option<u32>
        requires { IsUpper (tree_of self.now) node }
        ensures { result ≡ oldest (uses self.now node) }
    {
        self.table(node).victim()
    }

    /// What a node may do with a page.
    pub fn right(&self, node: u32, page: u32) -> Right
        requires upper { IsUpper (tree_of self.now) node }
        requires page { page < (paged_of self.now).pages }
        ensures { result ≡ (sides self.now page node).right }
    {
        self.table(node).right(page)
    }

    /// A node whose parent is the ground asks.
    fn ask_ground<G: Ground>(
        &mut self,
        ground: &mut G,
        node: u32,
        what: Asked,
        page: u32,
    ) -> Result<(), GroundErr>
        requires under { IsUnderFile (G.seen ground.old) (paged_of self.old) }
        requires upper { IsUpper (tree_of self.old) node }
        requires on_ground { parent (tree_of self.old) node ≡ 0 }
        requires page { page < (paged_of self.old).pages }
        requires about_page { what ≢ AQuestion.Done }
        requires may { AllowAsking (tree_of self.old) (sides self.old page) node (may_be_full (sides self.old page node) what) what }
        requires frames { MayAskFrames self.old node what page }
        ensures sent { OnOk result (IsSent (tree_of self.old) (G.seen ground.old).pages page (step_asked what node) (sides self.old) (sides self.new)) }
        ensures follows { OnOk result (Follow page (step_asked what node) self.old self.new) }
        ensures went { OnOk result (AreAskedAt (tree_of self.old) (wire_of self.new) (paged_of self.old) node page what (sides self.old) (sides self.new)) }
        ensures carried { OnOk result (CarriesUp self.old (wire_of self.new) node) }
        ensures ground { OnOk result ((G.seen ground.new).pages ≡
            pages_given page (given_up (tree_of self.old) (step_asked what node) (sides self.old page)) (G.seen ground.old).pages) }
        ensures cause { IfErr result (IsCause (G.seen ground.old) (G.seen ground.new) (sides self.old page node)) }
        ensures left { OnErr result (AreLeft self.old self.new) }
        ensures pages { OnErr result ((G.seen ground.new).pages ≡ (G.seen ground.old).pages) }
        ensures call { IsOneCall (G.seen ground.old) (G.seen ground.new) }
        ensures calm { UnlessFault result (IsCalmCall (G.seen ground.old) (G.seen ground.new)) }
        ensures same { IsSameFile self.old self.new }
        ensures idle { (NeedsGround (tree_of self.old) (step_asked what node) (sides self.old page) → ⊥) → G.seen ground.new ≡ G.seen ground.old }
    {
        let ends = self.ends(node);
        let own = &mut self.nodes[node as usize];
        self.wire
            .ask_ground(own, ground, ends, what, page, &mut self.scratch)
    }

    /// A node whose parent is a node asks. Whatever the ground tells, this is the step.
    fn ask_node(&mut self, node: u32, what: Asked, page: u32) -> Result<(), GroundErr>
        requires upper { IsUpper (tree_of self.old) node }
        requires above { IsUpper (tree_of self.old) (parent (tree_of self.old) node) }
        requires page { page < (paged_of self.old).pages }
        requires about_page { what ≢ AQuestion.Done }
        requires may { AllowAsking (tree_of self.old) (sides self.old page) node (may_be_full (sides self.old page node) what) what }
        requires frames { MayAskFrames self.old node what page }
        requires known { (sides self.old page (parent (tree_of self.old) node)).kids node ≡ (sides self.old page node).right }
        ensures sent { (told : Option (List (List ℕ))) → OnOk result (IsSent (tree_of self.old) told page (step_asked what node) (sides self.old) (sides self.new)) }
        ensures follows { OnOk result (Follow page (step_asked what node) self.old self.new) }
        ensures went { OnOk result (AreAskedAt (tree_of self.old) (wire_of self.new) (paged_of self.old) node page what (sides self.old) (sides self.new)) }
        ensures carried { OnOk result (CarriesUp self.old (wire_of self.new) node) }
        ensures ground { given_up (tree_of self.old) (step_asked what node) (sides self.old page) ≡ None }
        ensures memory { IfErr result (λ e. e ≡ AnErr.Memory) }
        ensures cause { OnErr result (LacksRoom (sides self.old page node)) }
        ensures left { OnErr result (AreLeft self.old self.new) }
        ensures same { IsSameFile self.old self.new }
    {
        let ends = self.ends(node);
        match ask_in(
            &mut self.wire,
            &mut self.nodes,
            &self.tree,
            ends,
            node,
            what,
            page,
            self.file.pages,
        ) {
            Ok(()) => Ok(()),
            Err(AllocError) => Err(GroundErr::Memory),
        }
    }

    /// A node asks its parent, which is a node or the ground, and takes the answer. The ground is read before it answers a
    /// node that has nothing of the page, it is written once both frames were read, and for nothing else it is called. An
    /// error leaves every table and the ground's pages. Memory may lack only for a page of which the node has nothing.
    pub fn ask<G: Ground>(
        &mut self,
        ground: &mut G,
        node: u32,
        what: Asked,
        page: u32,
    ) -> Result<(), GroundErr>
        requires under { IsUnderFile (G.seen ground.old) (paged_of self.old) }
        requires upper { IsUpper (tree_of self.old) node }
        requires page { page < (paged_of self.old).pages }
        requires about_page { what ≢ AQuestion.Done }
        requires may { AllowAsking (tree_of self.old) (sides self.old page) node (may_be_full (sides self.old page node) what) what }
        requires frames { MayAskFrames self.old node what page }
        requires known { IsUpper (tree_of self.old) (parent (tree_of self.old) node) →
            (sides self.old page (parent (tree_of self.old) node)).kids node ≡ (sides self.old page node).right }
        ensures sent { OnOk result (IsSent (tree_of self.old) (G.seen ground.old).pages page (step_asked what node) (sides self.old) (sides self.new)) }
        ensures follows { OnOk result (Follow page (step_asked what node) self.old self.new) }
        ensures went { OnOk result (AreAskedAt (tree_of self.old) (wire_of self.new) (paged_of self.old) node page what (sides self.old) (sides self.new)) }
        ensures carried { OnOk result (CarriesUp self.old (wire_of self.new) node) }
        ensures ground { OnOk result ((G.seen ground.new).pages ≡
            pages_given page (given_up (tree_of self.old) (step_asked what node) (sides self.old page)) (G.seen ground.old).pages) }
        ensures cause { IfErr result (IsCause (G.seen ground.old) (G.seen ground.new) (sides self.old page node)) }
        ensures left { OnErr result (AreLeft self.old self.new) }
        ensures pages { OnErr result ((G.seen ground.new).pages ≡ (G.seen ground.old).pages) }
        ensures call { IsOneCall (G.seen ground.old) (G.seen ground.new) }
        ensures calm { UnlessFault result (IsCalmCall (G.seen ground.old) (G.seen ground.new)) }
        ensures same { IsSameFile self.old self.new }
        ensures idle { (NeedsGround (tree_of self.old) (step_asked what node) (sides self.old page) → ⊥) → G.seen ground.new ≡ G.seen ground.old }
    {
        if self.tree.parent(node) == 0 {
            self.ask_ground(ground, node, what, page)
        } else {
            self.ask_node(node, what, page)
        }
    }

    /// The ground orders a node whose parent it is.
    fn order_by_ground<G: Ground>(
        &mut self,
        ground: &mut G,
        node: u32,
        what: Called,
        page: u32,
    ) -> Result<(), StoreFault>
        requires under { IsUnderFile (G.seen ground.old) (paged_of self.old) }
        requires upper { IsUpper (tree_of self.old) node }
        requires on_ground { parent (tree_of self.old) node ≡ 0 }
        requires page { page < (paged_of self.old).pages }
        requires about_page { what ≢ AnOrder.Destroy }
        requires may { AllowCalling (tree_of self.old) (sides self.old page) node what }
        ensures sent { OnOk result (IsSent (tree_of self.old) (G.seen ground.old).pages page (step_called what node) (sides self.old) (sides self.new)) }
        ensures follows { OnOk result (Follow page (step_called what node) self.old self.new) }
        ensures went { OnOk result (WentOver (wire_of self.new) (paged_of self.old) (called_of (sides self.old page node) page what)) }
        ensures carried { OnOk result (CarriesDown self.old (wire_of self.new) node) }
        ensures ground { OnOk result ((G.seen ground.new).pages ≡
            pages_given page (given_up (tree_of self.old) (step_called what node) (sides self.old page)) (G.seen ground.old).pages) }
        ensures fault { IfErr result (IsFault (G.seen ground.old) (G.seen ground.new)) }
        ensures left { OnErr result (AreLeft self.old self.new) }
        ensures pages { OnErr result ((G.seen ground.new).pages ≡ (G.seen ground.old).pages) }
        ensures call { IsOneCall (G.seen ground.old) (G.seen ground.new) }
        ensures calm { OnOk result (IsCalmCall (G.seen ground.old) (G.seen ground.new)) }
        ensures same { IsSameFile self.old self.new }
        ensures idle { (NeedsGround (tree_of self.old) (step_called what node) (sides self.old page) → ⊥) → G.seen ground.new ≡ G.seen ground.old }
    {
        let ends = self.ends(node);
        let own = &mut self.nodes[node as usize];
        self.wire.order_by_ground(own, ground, ends, what, page)
    }

    /// A node orders another whose parent it is. Whatever the ground tells, this is the step.
    fn order_by_node(&mut self, node: u32, what: Called, page: u32)
        requires upper { IsUpper (tree_of self.old) node }
        requires above { IsUpper (tree_of self.old) (parent (tree_of self.old) node) }
        requires page { page < (paged_of self.old).pages }
        requires about_page { what ≢ AnOrder.Destroy }
        requires may { AllowCalling (tree_of self.old) (sides self.old page) node what }
        ensures sent { (told : Option (List (List ℕ))) → IsSent (tree_of self.old) told page (step_called what node) (sides self.old) (sides self.new) }
        ensures follows { Follow page (step_called what node) self.old self.new }
        ensures went { WentOver (wire_of self.new) (paged_of self.old) (called_of (sides self.old page node) page what) }
        ensures carried { CarriesDown self.old (wire_of self.new) node }
        ensures ground { given_up (tree_of self.old) (step_called what node) (sides self.old page) ≡ None }
        ensures same { IsSameFile self.old self.new }
    {
        let ends = self.ends(node);
        call_in(
            &mut self.wire,
            &mut self.nodes,
            &self.tree,
            ends,
            node,
            what,
            page,
            self.file.pages,
        )
    }

    /// A node's parent, which is a node or the ground, gives it an order, and takes its answer. The ground is written once
    /// both frames were read, if bytes came up to it, and else it is not called. An error leaves every table and the
    /// ground's pages.
    pub fn order<G: Ground>(
        &mut self,
        ground: &mut G,
        node: u32,
        what: Called,
        page: u32,
    ) -> Result<(), StoreFault>
        requires under { IsUnderFile (G.seen ground.old) (paged_of self.old) }
        requires upper { IsUpper (tree_of self.old) node }
        requires page { page < (paged_of self.old).pages }
        requires about_page { what ≢ AnOrder.Destroy }
        requires may { AllowCalling (tree_of self.old) (sides self.old page) node what }
        ensures sent { OnOk result (IsSent (tree_of self.old) (G.seen ground.old).pages page (step_called what node) (sides self.old) (sides self.new)) }
        ensures follows { OnOk result (Follow page (step_called what node) self.old self.new) }
        ensures went { OnOk result (WentOver (wire_of self.new) (paged_of self.old) (called_of (sides self.old page node) page what)) }
        ensures carried { OnOk result (CarriesDown self.old (wire_of self.new) node) }
        ensures ground { OnOk result ((G.seen ground.new).pages ≡
            pages_given page (given_up (tree_of self.old) (step_called what node) (sides self.old page)) (G.seen ground.old).pages) }
        ensures fault { IfErr result (IsFault (G.seen ground.old) (G.seen ground.new)) }
        ensures left { OnErr result (AreLeft self.old self.new) }
        ensures pages { OnErr result ((G.seen ground.new).pages ≡ (G.seen ground.old).pages) }
        ensures call { IsOneCall (G.seen ground.old) (G.seen ground.new) }
        ensures calm { OnOk result (IsCalmCall (G.seen ground.old) (G.seen ground.new)) }
        ensures same { IsSameFile self.old self.new }
        ensures idle { (NeedsGround (tree_of self.old) (step_called what node) (sides self.old page) → ⊥) → G.seen ground.new ≡ G.seen ground.old }
    {
        if self.tree.parent(node) == 0 {
            self.order_by_ground(ground, node, what, page)
        } else {
            self.order_by_node(node, what, page);
            Ok(())
        }
    }

    /// Lends bytes of a node's copy of a page.
    pub fn lend(&self, node: u32, page: u32, off: u32, len: u32) -> &[u8]
        requires upper { IsUpper (tree_of self.now) node }
        requires page { page < (paged_of self.now).pages }
        requires may { AllowsReading (sides self.now page node) }
        requires range { off + len ≤ (paged_of self.now).page_size }
        ensures bytes { result.now ≡ take len (drop off (sides self.now page node).copy) }
        ensures len { length result.now ≡ len }
    {
        self.table(node).lend(page, off, len)
    }

    /// Lends a node's whole copy of a page.
    pub fn copy(&self, node: u32, page: u32) -> &[u8]
        requires upper { IsUpper (tree_of self.now) node }
        requires page { page < (paged_of self.now).pages }
        requires may { AllowsReading (sides self.now page node) }
        ensures bytes { result.now ≡ (sides self.now page node).copy }
        ensures len { length result.now ≡ (paged_of self.now).page_size }
    {
        self.lend(node, page, 0, self.file.page_size)
    }

    /// A leaf that read a page used it. It takes no memory.
    pub fn touch(&mut self, node: u32, page: u32)
        requires upper { IsUpper (tree_of self.old) node }
        requires page { page < (paged_of self.old).pages }
        requires may { AllowsReading (sides self.old page node) }
        ensures sides { (p m : ℕ) → sides self.new p m ≡ sides self.old p m }
        ensures follows { Follow page (Reads node) self.old self.new }
        ensures wire { wire_of self.new ≡ wire_of self.old }
        ensures same { IsSameFile self.old self.new }
    {
        let own = &mut self.nodes[node as usize];
        own.touch(page);
    }

    /// A node writes bytes to its copy of a page. It is a use of the page by a leaf.
    pub fn change(&mut self, node: u32, page: u32, off: u32, bytes: &[u8])
        requires upper { IsUpper (tree_of self.old) node }
        requires page { page < (paged_of self.old).pages }
        requires may { AllowsWriting (sides self.old page node) }
        requires range { off + length bytes.now ≤ (paged_of self.old).page_size }
        ensures written { AreSentAt (tree_of self.old) page (Some (overwritten (sides self.old page node).copy off bytes.now)) (Writes node) (sides self.old) (sides self.new) }
        ensures follows { Follow page (Writes node) self.old self.new }
        ensures wire { wire_of self.new ≡ wire_of self.old }
        ensures same { IsSameFile self.old self.new }
    {
        let own = &mut self.nodes[node as usize];
        own.change(page, off, bytes);
    }

    /// A node makes its copy of a page zeros. It is a use of the page by a leaf.
    pub fn blank(&mut self, node: u32, page: u32)
        requires upper { IsUpper (tree_of self.old) node }
        requires page { page < (paged_of self.old).pages }
        requires may { AllowsWriting (sides self.old page node) }
        ensures written { AreSentAt (tree_of self.old) page (Some (replicate (paged_of self.old).page_size 0)) (Writes node) (sides self.old) (sides self.new) }
        ensures follows { Follow page (Writes node) self.old self.new }
        ensures wire { wire_of self.new ≡ wire_of self.old }
        ensures same { IsSameFile self.old self.new }
    {
        let own = &mut self.nodes[node as usize];
        own.blank(page);
    }
}
