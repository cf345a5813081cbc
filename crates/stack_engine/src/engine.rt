//! A file's engine: its ground, the tables of the layers above it, and its book.

ghost use Rattle.std.specs.Prelude.{◌≡◌, ◌≢◌, ◌<◌, ◌≤◌, ◌↔◌, ℕ, [], IfErr, IfOk, IsTrue, List, OnErr, OnOk, length};
ghost use Rattle.hist_plain.specs.History.{mine};
ghost use Rattle.hist_plain.specs.declared.TheConstants.{MAX_EVENTS};
ghost use Rattle.page_ground.specs.Seen.{faults_in, opened_in};
ghost use Rattle.page_messages.specs.Paged.{IsPagedFile};
ghost use Rattle.tower_core.specs.TreeShape.{IsUpper, frames_of, nodes};
ghost use Rattle.tower_log.specs.Log.{place_of};
ghost use Rattle.page_exchange.specs.Tables.{IsUnderFile, machines_of, wire_of};
ghost use Rattle.stack_engine.specs.Engine.{EngineSeen, IsSound, events_in, file_in, log_in, machines_in, sides_in, state_in, tree_in, uses_in, wire_in};
ghost use Rattle.stack_engine.specs.Opened.{IsOf};
ghost use Rattle.coherency_layer.specs.Node as layers;
ghost use Rattle.vmm_cache.specs.Leaf as leaves;
ghost use Rattle.stack_engine.specs.Start.{IsFullOrNoMemory, Opens, Starts};

use crate::book::Book;
use crate::refusal::StepErr;
use coherency_layer::{Node, PagedFile};
use hist_plain::MAX_EVENTS;
use page_exchange::Tables;
use page_ground::Ground;
use pager_channel::Ops;
use std::alloc::{AllocError, Global};
use std::marker::Model;
use tower_core::{Sheet, Tree};
use tower_log::Trail;
use vmm_cache::Leaf;

/// A file's ground, the tables of the layers above it, and what is written down of it.
#[derive(Drop)]
pub(crate) struct Engine<G: Ground> {
    pub(crate) alloc: Global,
    pub(crate) ground: G,
    pub(crate) tables: Tables,
    pub(crate) book: Book,
}

impl<G: Ground> Model for Engine<G> {
    ghost use Rattle.stack_engine.specs.Engine.{EngineSeen, IsEngine};

    ghost Value = { EngineSeen };

    ghost view = { λ e. record { ground = G.seen e.ground; tables = e.tables; trail = e.book.trail } };

    ghost invariant = { λ e. IsEngine (record { ground = G.seen e.ground; tables = e.tables; trail = e.book.trail }) e.book.sheet };
}

/// The tables and the book of a file without events.
fn start(
    alloc: Global,
    tree: Tree,
    file: PagedFile,
    machines: Vec<u32>,
    ops: Ops,
) -> Result<(Tables, Book), AllocError>
    requires paged { IsPagedFile file }
    requires frames { (node : ℕ) → frames_of tree node ≤ 1024 }
    requires machines { length machines.items ≡ nodes tree }
    ensures starts { IfOk result (λ parts. Starts tree file parts.0 parts.1) }
    ensures machines { IfOk result (λ parts. machines_of parts.0 ≡ machines.items) }
    ensures wire { IfOk result (λ parts. wire_of parts.0 ≡ record { ops = ops; first = []; second = []; first_packet = []; second_packet = [] }) }
{
    let sheet = Sheet::new(alloc, &tree, file.pages)?;
    let trail = Trail::new(alloc, file.page_size);
    let tables = Tables::new(alloc, tree, file, machines, ops)?;
    Ok((tables, Book { sheet, trail }))
}

impl<G: Ground> Engine<G> {
    /// An engine without events, over a ground that has the file's pages; no node has anything, and no page is read. For
    /// want of memory the ground is handed back.
    pub(crate) fn new(
        alloc: Global,
        tree: Tree,
        file: PagedFile,
        machines: Vec<u32>,
        ground: G,
        ops: Ops,
    ) -> Result<Engine<G>, G>
        requires paged { IsPagedFile file }
        requires frames { (node : ℕ) → frames_of tree node ≤ 1024 }
        requires machines { length machines.items ≡ nodes tree }
        requires under { IsUnderFile (G.seen ground) file }
        requires counts { (disk : ℕ) → opened_in (G.seen ground).disks disk ≤ faults_in (G.seen ground).disks disk }
        ensures opened { IfOk result (Opens tree file (G.seen ground)) }
        ensures machines { IfOk result (λ e. machines_in e ≡ machines.items) }
        ensures wire { IfOk result (λ e. wire_in e ≡ record { ops = ops; first = []; second = []; first_packet = []; second_packet = [] }) }
        ensures back { IfErr result (λ g. g ≡ ground) }
    {
        match start(alloc, tree, file, machines, ops) {
            Ok((tables, book)) => Ok(Engine {
                alloc,
                ground,
                tables,
                book,
            }),
            Err(AllocError) => Err(ground),
        }
    }

    /// What holds of every engine, for proofs alone.
    pub(crate) fn sound(&self)
        ensures { IsSound self.now }
    {
        // The proof reads here what every engine keeps.
        let _kept = &self.alloc;
    }

    /// How many events there are.
    pub(crate) fn len(&self) -> u64
        ensures { result ≡ place_of (log_in self.now) }
    {
        self.book.trail.len()
    }

    /// How many things the log has: events and notes.
    pub(crate) fn log_len(&self) -> u64
        ensures { result ≡ length (log_in self.now) }
    {
        self.book.trail.log_len()
    }

    /// The number of a caller's next event.
    pub(crate) fn number(&self, caller: u32) -> u32
        ensures { result ≡ length (mine (events_in self.now) caller) }
    {
        self.book.trail.number(caller)
    }

    /// Lends the two frames of the last page message.
    pub(crate) fn frames(&self) -> (&[u8], &[u8])
        ensures first { result.0.now ≡ (wire_in self.now).first }
        ensures second { result.1.now ≡ (wire_in self.now).second }
    {
        self.tables.frames()
    }

    /// Lends the packets of these two frames.
    pub(crate) fn packets(&self) -> (&[u8], &[u8])
        ensures first { result.0.now ≡ (wire_in self.now).first_packet }
        ensures second { result.1.now ≡ (wire_in self.now).second_packet }
    {
        self.tables.packets()
    }

    /// A layer's own table.
    pub(crate) fn node(&self, node: u32) -> &Node
        requires upper { IsUpper (tree_in self.now) node }
        requires layer { frames_of (tree_in self.now) node ≡ 0 }
        ensures file { layers.file_of result.now ≡ file_in self.now }
        ensures sides { (page : ℕ) → layers.side result.now page ≡ sides_in self.now page node }
    {
        self.tables.node(node)
    }

    /// A leaf's own table.
    pub(crate) fn leaf(&self, node: u32) -> &Leaf
        requires upper { IsUpper (tree_in self.now) node }
        requires leaf { frames_of (tree_in self.now) node ≢ 0 }
        ensures file { leaves.file_of result.now ≡ file_in self.now }
        ensures sides { (page : ℕ) → leaves.side result.now page ≡ sides_in self.now page node }
        ensures uses { leaves.uses_of result.now ≡ uses_in self.now node }
    {
        self.tables.leaf(node)
    }

    /// The life of a layer.
    pub(crate) fn life(&self, node: u32) -> u32
        requires { IsUpper (tree_in self.now) node }
        ensures { result ≡ (state_in self.now).life node }
    {
        self.book.sheet.life(node)
    }

    /// Makes room for so many reads.
    pub(crate) fn reserve(&mut self, n: u32) -> Result<(), AllocError>
        ensures ok { OnOk result (n ≤ self.new.trail.spare) }
        ensures kept { self.old.trail.spare ≤ self.new.trail.spare }
        ensures same { self.new ≡ record self.old { trail = record self.old.trail { spare = self.new.trail.spare; room = self.new.trail.room } } }
        ensures of { (opening : List ℕ) → IsOf opening self.old → IsOf opening self.new }
    {
        self.book.trail.reserve(n)
    }

    /// Makes room for one entry, if the trail is not full.
    pub(crate) fn make_room(&mut self) -> Result<(), StepErr>
        ensures room { OnOk result (0 < self.new.trail.room) }
        ensures few { OnOk result (place_of (log_in self.old) < MAX_EVENTS) }
        ensures same { self.new ≡ record self.old { trail = record self.old.trail { room = self.new.trail.room } } }
        ensures err { IfErr result (IsFullOrNoMemory self.old) }
    {
        if self.book.trail.len() >= MAX_EVENTS {
            return Err(StepErr::TrailFull);
        }
        self.book.trail.make_room()?;
        Ok(())
    }

    /// Ends the engine's use: its ground, and its log.
    pub(crate) fn close(self) -> (G, Trail)
        ensures ground { G.seen result.0 ≡ self.ground }
        ensures trail { result.1 ≡ self.trail }
    {
        let Engine {
            alloc: _alloc,
            ground,
            tables: _tables,
            book,
        } = self;
        (ground, book.trail)
    }
}
