//! A ground: disks in mirrors, as what lies under a file.

ghost use Rattle.std.specs.Prelude.{◌≡◌, ◌<◌, ◌≤◌, ◌^◌, ℕ, List, [], ◌∷◌, Bool, Some, OnOk, OnErr, IfErr, length, true};
ghost use Rattle.page_ground.specs.Seen.{Keeps, IsCalm, IsFault, ReadsPage, AllKept, with_page};
ghost use Rattle.mirror_rules.specs.Tree as machine;
ghost use Rattle.mirror_rules.specs.Claims.{Every};
ghost use Rattle.mirror_rules.specs.Guards.{Medium, Guarding, Within, IsIn, live_at};
ghost use Rattle.mirror_rules.specs.History.{Since_then};
ghost use Rattle.mirror_rules.specs.Levels.{Near, Even, Lower};
ghost use Rattle.mirror_rules.specs.Steps.{Says, Look, Puts, Flushes};
ghost use Rattle.mirror_layer.specs.View.{tree_of, beside_in};
ghost use Rattle.mirror_layer.specs.Calls.{HasPages, answered};
ghost use Rattle.mirror_layer.specs.Ground.{IsGround, PutsPage, outcome, seen_of};

use crate::asked::{Call, Side};
use crate::flush::flush;
use crate::node::{Node, Unopened};
use crate::round::{pass, read};
use disk_format::ImageShape;
use page_ground::{Ground, StoreFault};
use std::marker::Model;

/// The disks under a file, in mirrors. Its pages are those of each live disk.
///
/// No call takes memory.
#[derive(Drop)]
pub struct MirrorGround<D: Side + Send, H: Unopened + Send> {
    node: Node<D, H>,
    shape: ImageShape,
    /// A raise is owed: a later flush pays it.
    owed: bool,
    /// The ground's generation: that of the disk that won its opening, and then that of the last round of raises that was taken.
    level: u64,
}

impl<D: Side + Send, H: Unopened + Send> Model for MirrorGround<D, H> {
    ghost use Rattle.mirror_rules.specs.Tree.{seats};
    ghost use Rattle.mirror_layer.specs.View.{tree_of, beside_in};
    ghost use Rattle.mirror_layer.specs.Ground.{Ground, IsGround};

    ghost Value = { Ground };

    ghost view = { λ g. record { shape = g.shape; owed = g.owed; generation = g.level; row = seats (tree_of g.node); beside = beside_in g.node } };

    ghost invariant = { λ g. IsGround (record { shape = g.shape; owed = g.owed; generation = g.level; row = seats (tree_of g.node); beside = beside_in g.node }) };
}

/// Writes a page in one round. If it made a side stale, a raise is owed.
pub fn put<D: Side, H: Unopened>(
    node: &mut Node<D, H>,
    owed: &mut bool,
    page: u32,
    bytes: &[u8],
) -> Result<(), StoreFault>
    requires live { machine.is_live (tree_of node.old) ≡ true }
    requires suits { HasPages page (length bytes.now) node.old }
    ensures puts { (s : Says) × (outcome s ≡ answered result) × Puts page bytes.now owed.old (machine.seats (tree_of node.old)) s owed.new (machine.seats (tree_of node.new)) }
    ensures beside { beside_in node.new ≡ beside_in node.old }
{
    match pass(node, Call::Write { page, bytes }) {
        Ok(true) => Ok(()),
        Ok(false) => {
            *owed = true;
            Ok(())
        }
        Err(fault) => Err(fault),
    }
}

impl<D: Side + Send, H: Unopened + Send> MirrorGround<D, H> {
    /// A ground of these disks, of images of the shape.
    pub fn new(
        node: Node<D, H>,
        shape: ImageShape,
        owed: bool,
        generation: u64,
    ) -> MirrorGround<D, H>
        requires { IsGround (record { shape = shape; owed = owed; generation = generation; row = machine.seats (tree_of node); beside = beside_in node }) }
        ensures { result ≡ record { shape = shape; owed = owed; generation = generation; row = machine.seats (tree_of node); beside = beside_in node } }
    {
        MirrorGround {
            node,
            shape,
            owed,
            level: generation,
        }
    }

    /// Its generation.
    pub fn generation(&self) -> u64
        ensures level { result ≡ self.now.generation }
        ensures high { result < 2 ^ 63 }
    {
        self.level
    }

    /// What it is made of, to be looked at.
    pub(crate) fn node(&self) -> &Node<D, H>
        ensures { machine.seats (tree_of result.now) ≡ self.now.row }
    {
        &self.node
    }

    /// What it is made of.
    pub fn into_node(self) -> Node<D, H>
        ensures row { machine.seats (tree_of result) ≡ self.row }
        ensures beside { beside_in result ≡ self.beside }
        ensures ground { IsGround self }
    {
        self.node
    }

    /// What holds of every ground, for proofs alone.
    pub fn sound(&self)
        ensures { IsGround self.now }
    {
        let _ = &self.node;
    }
}

impl<D: Side + Send, H: Unopened + Send> Ground for MirrorGround<D, H> {
    ghost seen = { seen_of };

    fn read(&mut self, page: u32, out: &mut [u8]) -> Result<(), StoreFault>
        requires page { page < self.old.shape.pages }
        requires size { length out.old ≡ self.old.shape.page_size }
        ensures bytes { OnOk result (ReadsPage (seen_of self.old).pages page out.new) }
        ensures same { (seen_of self.new).pages ≡ (seen_of self.old).pages }
        ensures keeps { Keeps (seen_of self.old) (seen_of self.new) }
        ensures calm { OnOk result (IsCalm (seen_of self.old) (seen_of self.new)) }
        ensures fault { IfErr result (IsFault (seen_of self.old) (seen_of self.new)) }
        ensures look { (x : List ℕ) × Look page x self.old.row (answered result) self.new.row }
        ensures rest { self.new ≡ record self.old { row = self.new.row } }
        ensures guards { (v : Medium) (F : List (List ℕ)) (ws : List (ℕ × List ℕ)) (L : ℕ → Bool) (past : List machine.Image) → Guarding v (Since_then F ws) L past self.old.row → Guarding v (Since_then F ws) L past self.new.row }
    {
        read(&mut self.node, page, out)
    }

    fn write(&mut self, page: u32, bytes: &[u8]) -> Result<(), StoreFault>
        requires page { page < self.old.shape.pages }
        requires size { length bytes.now ≡ self.old.shape.page_size }
        ensures ok { OnOk result ((seen_of self.new).pages ≡ with_page page bytes.now (seen_of self.old).pages) }
        ensures err { OnErr result ((seen_of self.new).pages ≡ (seen_of self.old).pages) }
        ensures keeps { Keeps (seen_of self.old) (seen_of self.new) }
        ensures calm { OnOk result (IsCalm (seen_of self.old) (seen_of self.new)) }
        ensures fault { IfErr result (IsFault (seen_of self.old) (seen_of self.new)) }
        ensures puts { PutsPage page bytes.now self.old result self.new }
        ensures rest { self.new ≡ record self.old { owed = self.new.owed; row = self.new.row } }
        ensures guards { (v : Medium) (F : List (List ℕ)) (ws : List (ℕ × List ℕ)) (L : ℕ → Bool) (past : List machine.Image) → Guarding v (Since_then F ws) L past self.old.row → Guarding v (Since_then F ((page, bytes.now) ∷ ws)) L past self.new.row }
    {
        put(&mut self.node, &mut self.owed, page, bytes)
    }

    fn flush(&mut self) -> Result<(), StoreFault>
        ensures same { (seen_of self.new).pages ≡ (seen_of self.old).pages }
        ensures ok { OnOk result (AllKept (seen_of self.new) (seen_of self.new).pages) }
        ensures keeps { Keeps (seen_of self.old) (seen_of self.new) }
        ensures calm { OnOk result (IsCalm (seen_of self.old) (seen_of self.new)) }
        ensures fault { IfErr result (IsFault (seen_of self.old) (seen_of self.new)) }
        ensures flushes { Flushes self.old.owed self.old.generation self.old.row (answered result) self.new.owed self.new.generation self.new.row }
        ensures rest { self.new ≡ record self.old { owed = self.new.owed; generation = self.new.generation; row = self.new.row } }
        ensures guards { (v : Medium) (F : List (List ℕ)) (ws : List (ℕ × List ℕ)) (L : ℕ → Bool) (past : List machine.Image) (G : List (List ℕ)) → (seen_of self.old).pages ≡ Some G → Within (Since_then F ws) G → Every (Near v self.old.generation) self.old.row → Guarding v (Since_then F ws) L past self.old.row → Guarding v (Since_then F ws) L past self.new.row }
        ensures begins { OnOk result ((v : Medium) (past : List machine.Image) (G : List (List ℕ)) → (seen_of self.old).pages ≡ Some G → Every (Near v self.old.generation) self.old.row → Even v self.old.owed self.old.generation self.old.row → self.new.generation < machine.limit → Every (Lower self.new.generation) self.new.row → ((i : machine.Image) → IsIn past i → i.generation < self.new.generation) → Guarding v (Since_then G []) (live_at self.new.row) past self.new.row) }
    {
        flush(&mut self.node, &mut self.owed, &mut self.level)
    }
}
