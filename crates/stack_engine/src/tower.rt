//! One file over its ground, driven by tries.

ghost use Rattle.std.specs.Prelude.{◌≡◌, ◌≢◌, ◌≤◌, ◌<◌, ◌*◌, [], ℕ, IfErr, IfOk, IsTrue, List, OnOk, OnErr, None, Some, length};
ghost use Rattle.hist_plain.specs.declared.event.Answer.TheVariants.{Bytes as ABytes};
ghost use Rattle.hist_plain.specs.Event.{fits_page};
ghost use Rattle.hist_plain.specs.History.{mine};
ghost use Rattle.hist_plain.specs.Plain.{asked_by};
ghost use Rattle.page_ground.specs.Seen.{faults_in, opened_in};
ghost use Rattle.coherency_layer.specs.Node as layers;
ghost use Rattle.vmm_cache.specs.Leaf as leaves;
ghost use Rattle.page_messages.specs.Paged.{IsPagedFile};
ghost use Rattle.tower_core.specs.TreeShape.{IsTree, IsUpper, frames_of, nodes};
ghost use Rattle.tower_log.specs.Log.{place_of};
ghost use Rattle.tower_shows.specs.Began.{ArePagesOf};
ghost use Rattle.page_exchange.specs.Tables.{IsUnderFile};
ghost use Rattle.tower_core.specs.Trail.{IsSettled};
ghost use Rattle.stack_engine.specs.Accesses.{SparesRead, SparesTry};
ghost use Rattle.stack_engine.specs.Beside.{ReadsGround};
ghost use Rattle.stack_engine.specs.Engine.{IsNext, IsSound, column_in, events_in, file_in, log_in, machines_in, sides_in, state_in, tree_in, uses_in, wire_in};
ghost use Rattle.stack_engine.specs.Messages.{NeedsDisks};
ghost use Rattle.stack_engine.specs.Moves.{IsRefused, bytes_to};
ghost use Rattle.stack_engine.specs.Opened.{IsOf};
ghost use Rattle.stack_engine.specs.Plans.{AccessNeedsDisks, IsLowestUnsettled, IsMissed, PushNeedsDisks, SyncNeedsDisks};
ghost use Rattle.stack_engine.specs.Start.{Opens};
ghost use Rattle.stack_engine.specs.Tower.{Advances, AdvancesSync, Fails, IsDone, IsStepOf, SparesStep, StepNeedsDisks, TakesStep};
ghost use Rattle.stack_engine.specs.Turns.{blocker, leaf_at, pushed_as, without_turns};

use crate::accesses::Place;
use crate::engine::Engine;
use crate::moved::Moved;
use crate::plans::Missed;
use crate::refusal::StepErr;
use crate::turns::{Turn, blocker, give_up_turns, pushed_as, take_turns};
use coherency_layer::{Node, PagedFile};
use hist_plain::{Event, Keep, Op};
use page_ground::Ground;
use pager_channel::Ops;
use std::alloc::{AllocError, Global};
use std::marker::Model;
use tower_core::Tree;
use tower_log::Trail;
use vmm_cache::Leaf;

/// A file over its ground: the layers above it, each with a table and copies of its own, the log of all that happened, and
/// whose turn it is. Calls try an access, a sync or an end of channels, and enter one event at most, so that other callers
/// may act between two tries.
#[derive(Drop)]
pub struct Tower<G: Ground> {
    pub(crate) engine: Engine<G>,
    pub(crate) turns: Vec<Turn>,
}

impl<G: Ground> Model for Tower<G> {
    ghost use Rattle.stack_engine.specs.Tower.{TowerSeen};

    ghost Value = { TowerSeen };

    ghost view = { λ t. record { engine = t.engine; turns = t.turns.items } };
}

impl<G: Ground> Tower<G> {
    /// A file without events, over a ground that has its pages. No layer has anything yet, and no page is read. For want of
    /// memory the ground is handed back. A leaf has at most 1024 frames. `machines` has the number of each node's machine, that of
    /// the ground first.
    pub fn open(
        alloc: Global,
        tree: Tree,
        file: PagedFile,
        machines: Vec<u32>,
        ground: G,
        ops: Ops,
    ) -> Result<Tower<G>, G>
        requires paged { IsPagedFile file }
        requires frames { (node : ℕ) → frames_of tree node ≤ 1024 }
        requires machines { length machines.items ≡ nodes tree }
        requires under { IsUnderFile (G.seen ground) file }
        requires counts { (disk : ℕ) → opened_in (G.seen ground).disks disk ≤ faults_in (G.seen ground).disks disk }
        ensures opened { IfOk result (λ t. Opens tree file (G.seen ground) t.engine) }
        ensures free { IfOk result (λ t. t.turns ≡ []) }
        ensures machines { IfOk result (λ t. machines_in t.engine ≡ machines.items) }
        ensures wire { IfOk result (λ t. wire_in t.engine ≡ record { ops = ops; first = []; second = []; first_packet = []; second_packet = [] }) }
        ensures began { IfOk result (λ t. (opening : List ℕ) (told : List (List ℕ)) → (G.seen ground).pages ≡ Some told →
            length opening ≡ file.pages * file.page_size → ArePagesOf file.page_size file.pages opening told → IsOf opening t.engine) }
        ensures back { IfErr result (λ g. g ≡ ground) }
    {
        // The proof reads here that this is a tree.
        let _nodes = tree.nodes();
        match Engine::new(alloc, tree, file, machines, ground, ops) {
            Ok(engine) => Ok(Tower {
                engine,
                turns: Vec::new(alloc),
            }),
            Err(ground) => Err(ground),
        }
    }

    /// What holds of every tower, whatever its stores tell.
    pub fn sound(&self)
        ensures { IsSound self.now.engine }
    {
        self.engine.sound();
    }

    /// The tree of the layers.
    pub fn tree(&self) -> &Tree
        ensures value { result.now ≡ tree_in self.now.engine }
        ensures tree { IsTree result.now }
    {
        self.engine.tables.tree()
    }

    /// The file: its number, the size of a page in bytes, and how many pages there are.
    pub fn file(&self) -> PagedFile
        ensures value { result ≡ file_in self.now.engine }
        ensures paged { IsPagedFile result }
    {
        self.engine.tables.file()
    }

    /// Lends the two frames of the page message that was sent last: a question or an order, and its answer. Both are
    /// empty before the first. A message that a try could not send may have left its question or order there.
    pub fn frames(&self) -> (&[u8], &[u8])
        ensures first { result.0.now ≡ (wire_in self.now.engine).first }
        ensures second { result.1.now ≡ (wire_in self.now.engine).second }
    {
        self.engine.frames()
    }

    /// Lends the packets in which these two frames went from one machine to another. Both are empty if they went on one machine.
    pub fn packets(&self) -> (&[u8], &[u8])
        ensures first { result.0.now ≡ (wire_in self.now.engine).first_packet }
        ensures second { result.1.now ≡ (wire_in self.now.engine).second_packet }
    {
        self.engine.packets()
    }

    /// How many events there are.
    pub fn len(&self) -> u64
        ensures { result ≡ place_of (log_in self.now.engine) }
    {
        self.engine.len()
    }

    /// How many things its log has: events and notes.
    pub fn log_len(&self) -> u64
        ensures { result ≡ length (log_in self.now.engine) }
    {
        self.engine.log_len()
    }

    /// How many events of the trail a caller made: the number of its next one.
    pub fn number(&self, caller: u32) -> u32
        ensures { result ≡ length (mine (events_in self.now.engine) caller) }
    {
        self.engine.number(caller)
    }

    /// The life of a layer.
    pub fn life(&self, node: u32) -> u32
        requires { IsUpper (tree_in self.now.engine) node }
        ensures { result ≡ (state_in self.now.engine).life node }
    {
        self.engine.life(node)
    }

    /// A layer's own table.
    pub fn node(&self, node: u32) -> &Node
        requires upper { IsUpper (tree_in self.now.engine) node }
        requires layer { frames_of (tree_in self.now.engine) node ≡ 0 }
        ensures file { layers.file_of result.now ≡ file_in self.now.engine }
        ensures sides { (page : ℕ) → layers.side result.now page ≡ sides_in self.now.engine page node }
    {
        self.engine.node(node)
    }

    /// A leaf's own table: that of a virtual memory manager.
    pub fn leaf(&self, node: u32) -> &Leaf
        requires upper { IsUpper (tree_in self.now.engine) node }
        requires leaf { frames_of (tree_in self.now.engine) node ≢ 0 }
        ensures file { leaves.file_of result.now ≡ file_in self.now.engine }
        ensures sides { (page : ℕ) → leaves.side result.now page ≡ sides_in self.now.engine page node }
        ensures uses { leaves.uses_of result.now ≡ uses_in self.now.engine node }
    {
        self.engine.leaf(node)
    }

    /// Makes room for so many reads that are allowed, so that they can be made without memory.
    pub fn reserve(&mut self, n: u32) -> Result<(), AllocError>
        ensures ok { OnOk result (n ≤ self.new.engine.trail.spare) }
        ensures kept { self.old.engine.trail.spare ≤ self.new.engine.trail.spare }
        ensures same { self.new ≡ record self.old { engine = record self.old.engine { trail = record self.old.engine.trail { spare = self.new.engine.trail.spare; room = self.new.engine.trail.room } } } }
        ensures of { (opening : List ℕ) → IsOf opening self.old.engine → IsOf opening self.new.engine }
    {
        self.engine.reserve(n)
    }

    /// Gives up all turns of a caller.
    pub fn give_up(&mut self, caller: u32)
        ensures { self.new ≡ record self.old { turns = without_turns caller self.old.turns } }
    {
        give_up_turns(caller, &mut self.turns);
    }

    /// Reads a page from the ground for a caller: the page as the ground has it, whatever the layers have of it. Nothing is
    /// entered. A store's failure is noted, and gives up the caller's turns, as in each call.
    pub fn read_ground(&mut self, caller: u32, page: u32, out: &mut [u8]) -> Result<(), StepErr>
        requires page { page < (file_in self.old.engine).pages }
        requires size { length out.old ≡ (file_in self.old.engine).page_size }
        ensures reads { OnOk result (ReadsGround page out.new self.old.engine self.new.engine) }
        ensures turns { OnOk result (self.new.turns ≡ self.old.turns) }
        ensures fails { IfErr result (Fails caller self.old self.new) }
    {
        let result = self.engine.read_ground(caller, page, out);
        if result.is_err() {
            give_up_turns(caller, &mut self.turns);
        }
        result
    }

    /// Enters one event that is allowed, for a caller: a page message, an access, the end of a sync, or the end of channels.
    /// A grant of zeros to a layer that had nothing stands in the log as a ZeroFill.
    pub fn step(&mut self, caller: u32, event: Event) -> Result<(), StepErr>
        requires next { IsNext self.old.engine event }
        requires kind { IsStepOf self.old.engine caller event }
        ensures takes { OnOk result (TakesStep self.old.engine self.new.engine event) }
        ensures turns { OnOk result (self.new.turns ≡ self.old.turns) }
        ensures fails { IfErr result (Fails caller self.old self.new) }
        ensures idle { (StepNeedsDisks self.old.engine event → ⊥) → self.new.engine.ground ≡ self.old.engine.ground }
        ensures spare { SparesStep self.old.engine self.new.engine event result }
    {
        let result = self.engine.step(caller, event);
        if result.is_err() {
            give_up_turns(caller, &mut self.turns);
        }
        result
    }

    /// Tries an access of a caller at a layer, of a life of it. If it is allowed it is made, and the bytes that it reads are
    /// then in `out`: the ground is not called, and a read takes no memory while there is room of `reserve`. If not, the
    /// message is sent that comes next for it, unless another caller is before this one.
    pub fn advance(
        &mut self,
        caller: u32,
        number: u32,
        node: u32,
        life: u32,
        op: &Op,
        out: &mut [u8],
    ) -> Result<Moved, StepErr>
        requires upper { IsUpper (tree_in self.old.engine) node }
        requires number { number ≡ length (mine (events_in self.old.engine) caller) }
        requires fits { IsTrue (fits_page (file_in self.old.engine).page_size (file_in self.old.engine).pages op.now) }
        requires out { length out.old ≡ asked_by op.now }
        ensures advances { IfOk result (Advances caller number node life op.now self.old self.new) }
        ensures bytes { IfOk result (λ moved. IsDone ABytes moved → out.new ≡ bytes_to self.old.engine node life op.now) }
        ensures fails { IfErr result (Fails caller self.old self.new) }
        ensures idle { (AccessNeedsDisks self.old.engine node life op.now → ⊥) → self.new.engine.ground ≡ self.old.engine.ground }
        ensures spare { SparesTry caller number node life op.now self.old.engine self.new.engine result }
    {
        let at = Place {
            caller,
            number,
            node,
            life,
        };
        match self.engine.next_access(node, life, op) {
            None => self.hit(at, op, out),
            Some(missed) => self.miss(at, op, missed),
        }
    }

    /// Makes an access that is allowed.
    fn hit(&mut self, at: Place, op: &Op, out: &mut [u8]) -> Result<Moved, StepErr>
        requires next { IsNext self.old.engine (Event.Access at.caller at.number at.node at.life op.now) }
        requires number { at.number ≡ length (mine (events_in self.old.engine) at.caller) }
        requires out { length out.old ≡ asked_by op.now }
        ensures advances { IfOk result (Advances at.caller at.number at.node at.life op.now self.old self.new) }
        ensures bytes { IfOk result (λ moved. IsDone ABytes moved → out.new ≡ bytes_to self.old.engine at.node at.life op.now) }
        ensures fails { IfErr result (Fails at.caller self.old self.new) }
        ensures ground { self.new.engine.ground ≡ self.old.engine.ground }
        ensures spare { SparesRead at.node at.life op.now self.old.engine self.new.engine result }
    {
        let result = self.engine.access(at, op, out);
        give_up_turns(at.caller, &mut self.turns);
        match result {
            Ok(answer) => Ok(Moved::Done { answer }),
            Err(err) => Err(err),
        }
    }

    /// Who is before a caller that misses a page.
    fn before(&self, at: Place, page: u32) -> Option<u32>
        requires { IsUpper (tree_in self.now.engine) at.node }
        ensures { result ≡ blocker at.caller page (leaf_at (tree_in self.now.engine) at.node) self.now.turns }
    {
        blocker(at.caller, page, self.engine.leaf_at(at.node), &self.turns)
    }

    /// Goes on with an access that is not allowed yet, unless another caller is before this one.
    fn miss(&mut self, at: Place, op: &Op, missed: Missed) -> Result<Moved, StepErr>
        requires upper { IsUpper (tree_in self.old.engine) at.node }
        requires missed { IsMissed self.old.engine at.node at.life op.now missed }
        ensures advances { IfOk result (Advances at.caller at.number at.node at.life op.now self.old self.new) }
        ensures open { IfOk result (λ moved. IsDone ABytes moved → ⊥) }
        ensures fails { IfErr result (Fails at.caller self.old self.new) }
        ensures idle { (NeedsDisks self.old.engine missed.event → ⊥) → self.new.engine.ground ≡ self.old.engine.ground }
        ensures spare { self.new.engine.trail.spare ≡ self.old.engine.trail.spare }
    {
        if let Some(holder) = self.before(at, missed.page) {
            return Ok(Moved::Busy { holder });
        }
        let result = self.move_on(at, op, missed);
        if result.is_err() {
            give_up_turns(at.caller, &mut self.turns);
        }
        result
    }

    /// Takes the turn of the page, and that of a leaf of which a page goes out, and sends the message that comes next.
    fn move_on(&mut self, at: Place, op: &Op, missed: Missed) -> Result<Moved, StepErr>
        requires missed { IsMissed self.old.engine at.node at.life op.now missed }
        requires free { blocker at.caller missed.page (leaf_at (tree_in self.old.engine) at.node) self.old.turns ≡ None }
        ensures advances { IfOk result (Advances at.caller at.number at.node at.life op.now self.old self.new) }
        ensures open { IfOk result (λ moved. IsDone ABytes moved → ⊥) }
        ensures refused { IfErr result (IsRefused at.caller self.old.engine self.new.engine) }
        ensures idle { (NeedsDisks self.old.engine missed.event → ⊥) → self.new.engine.ground ≡ self.old.engine.ground }
        ensures spare { self.new.engine.trail.spare ≡ self.old.engine.trail.spare }
        ensures turns { OnErr result (without_turns at.caller self.new.turns ≡ without_turns at.caller self.old.turns) }
    {
        let Missed { page, event } = missed;
        self.engine.make_room()?;
        take_turns(at.caller, page, &event, &mut self.turns)?;
        let event = self.engine.message(at.caller, event)?;
        Ok(Moved::Stepped { event })
    }

    /// Tries a sync of a caller at a layer, from a place of the trail on. If every page is settled from there, the ground is
    /// made to keep its pages and the sync is done. If not, the lowest that is not is pushed one layer further. It waits
    /// for nobody, and lowers no right on a page whose turn another caller has.
    pub fn advance_sync(
        &mut self,
        caller: u32,
        number: u32,
        node: u32,
        from: u64,
        keep: Keep,
    ) -> Result<Moved, StepErr>
        requires upper { IsUpper (tree_in self.old.engine) node }
        requires number { number ≡ length (mine (events_in self.old.engine) caller) }
        requires from { from ≤ place_of (log_in self.old.engine) }
        ensures advances { IfOk result (AdvancesSync caller number node from keep self.old self.new) }
        ensures fails { IfErr result (Fails caller self.old self.new) }
        ensures idle { (SyncNeedsDisks self.old.engine node from (λ page. pushed_as caller page keep self.old.turns) → ⊥) → self.new.engine.ground ≡ self.old.engine.ground }
        ensures spare { self.new.engine.trail.spare ≡ self.old.engine.trail.spare }
    {
        match self.engine.lowest_unsettled(from) {
            None => self.complete(caller, number, node, from, keep),
            Some(page) => self.settle(caller, page, node, from, keep),
        }
    }

    /// Completes a sync of which every page is settled.
    fn complete(
        &mut self,
        caller: u32,
        number: u32,
        node: u32,
        from: u64,
        keep: Keep,
    ) -> Result<Moved, StepErr>
        requires upper { IsUpper (tree_in self.old.engine) node }
        requires number { number ≡ length (mine (events_in self.old.engine) caller) }
        requires from { from ≤ place_of (log_in self.old.engine) }
        requires settled { (page : ℕ) → page < (file_in self.old.engine).pages → IsSettled from (column_in self.old.engine page) }
        ensures advances { IfOk result (AdvancesSync caller number node from keep self.old self.new) }
        ensures fails { IfErr result (Fails caller self.old self.new) }
        ensures spare { self.new.engine.trail.spare ≡ self.old.engine.trail.spare }
    {
        let result = self.engine.synced(caller, number, node, from, keep);
        give_up_turns(caller, &mut self.turns);
        match result {
            Ok(answer) => Ok(Moved::Done { answer }),
            Err(err) => Err(err),
        }
    }

    /// Pushes the lowest page that is not settled one layer further.
    fn settle(
        &mut self,
        caller: u32,
        page: u32,
        node: u32,
        from: u64,
        keep: Keep,
    ) -> Result<Moved, StepErr>
        requires upper { IsUpper (tree_in self.old.engine) node }
        requires from { from ≤ place_of (log_in self.old.engine) }
        requires lowest { IsLowestUnsettled self.old.engine from page }
        ensures advances { IfOk result (λ moved. (number : ℕ) → AdvancesSync caller number node from keep self.old self.new moved) }
        ensures fails { IfErr result (Fails caller self.old self.new) }
        ensures idle { (PushNeedsDisks self.old.engine node from (λ p. pushed_as caller p keep self.old.turns) → ⊥) → self.new.engine.ground ≡ self.old.engine.ground }
        ensures spare { self.new.engine.trail.spare ≡ self.old.engine.trail.spare }
    {
        let pushed = pushed_as(caller, page, keep, &self.turns);
        let event = self.engine.next_push(page, node, from, pushed);
        match self.engine.message(caller, event) {
            Ok(event) => Ok(Moved::Stepped { event }),
            Err(err) => {
                give_up_turns(caller, &mut self.turns);
                Err(err)
            }
        }
    }

    /// Ends the file's use: its ground, and its log.
    pub fn close(self) -> (G, Trail)
        ensures ground { G.seen result.0 ≡ self.engine.ground }
        ensures trail { result.1 ≡ self.engine.trail }
        ensures sound { IsSound self.engine }
    {
        self.engine.sound();
        let Tower {
            engine,
            turns: _turns,
        } = self;
        engine.close()
    }
}
