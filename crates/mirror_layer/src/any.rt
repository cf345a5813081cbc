//! A ground as a stack asks for it.

ghost use Rattle.std.specs.Prelude.{◌≡◌, ◌<◌, ◌≤◌, ◌^◌, ℕ, List, [], ◌∷◌, Bool, Some, OnOk, OnErr, IfOk, IfErr, length, true};
ghost use Rattle.page_ground.specs.Seen.{Keeps, IsCalm, IsFault, ReadsPage, AllKept, with_page};
ghost use Rattle.mirror_rules.specs.Tree as machine;
ghost use Rattle.mirror_rules.specs.Claims.{Every};
ghost use Rattle.mirror_rules.specs.Guards.{Medium, Guarding, Within, IsIn, live_at};
ghost use Rattle.mirror_rules.specs.History.{Since_then};
ghost use Rattle.mirror_rules.specs.Levels.{Near, Even, Lower};
ghost use Rattle.mirror_rules.specs.Steps.{Says, Look, Puts, Flushes};
ghost use Rattle.mirror_layer.specs.Calls.{answered};
ghost use Rattle.mirror_layer.specs.Ground.{IsGround, PutsPage, outcome, seen_of};
ghost use Rattle.mirror_layer.specs.Stores.{GivesBack, Numbered};
ghost use Rattle.mirror_layer.specs.Bringing.{RefusedOver};
ghost use Rattle.mirror_layer.specs.Came.{OpenedWith, is_live_in};
ghost use Rattle.std.specs.List.Sorted.{IsPermutation};
ghost use Rattle.disk_format.specs.Shape.{IsShape};
ghost use Rattle.disk_layer.specs.Disk.{Suits};
ghost use Rattle.stack_accept.specs.Plan.{disks_in, numbers_below, plan_of};

use crate::came::{Notice, lives, tell};
use crate::close::give_back;
use crate::ground::MirrorGround;
use crate::node::Shut;
use crate::open::open_over;
use crate::refuse::OpenAll;
use disk_format::ImageShape;
use disk_layer::Disk;
use page_ground::{Ground, StoreFault};
use spr_io::Store;
use stack_accept::GroundPlan;
use std::alloc::Global;
use std::marker::Model;

/// The disks under a file, in mirrors.
#[derive(Drop)]
pub struct AnyGround<S: Store> {
    ground: MirrorGround<Disk<S>, Shut<S>>,
    /// A place for the store of each disk, by its number.
    places: Vec<Option<S>>,
    /// The list in which the stores came, emptied.
    emptied: Vec<S>,
}

impl<S: Store> Model for AnyGround<S> {
    ghost use Rattle.std.specs.Prelude.{vec_capacity};
    ghost use Rattle.mirror_layer.specs.Ground.{Ground};
    ghost use Rattle.mirror_layer.specs.Stores.{HasRoom};

    ghost Value = { Ground };

    ghost view = { λ a. a.ground };

    ghost invariant = { λ a. HasRoom a.ground.beside a.places.items a.emptied.items (vec_capacity a.emptied) };
}

impl<S: Store> AnyGround<S> {
    /// Opens the disks of a plan over their stores, which stand in the order of the disks' numbers, as one ground.
    ///
    /// It is refused if no disk has an image, if the ground refused a read, or if memory ran out, which comes before any
    /// store is written. The stores go back then.
    ///
    /// `came` gets, by the disks' numbers, what the opening made of each.
    pub fn open(
        alloc: Global,
        plan: &GroundPlan,
        stores: Vec<S>,
        shape: &ImageShape,
        came: &mut [Option<Notice>],
    ) -> Result<AnyGround<S>, OpenAll<S>>
        requires shape { IsShape shape.now }
        requires plan { IsPermutation (disks_in (plan_of plan.now)) (numbers_below (length stores.items)) }
        requires suits { Every (λ s. Suits shape.now (S.size s) (S.number s)) stores.items }
        requires came { length came.old ≡ length stores.items }
        ensures opened { IfOk result (OpenedWith (λ s. S.content s) (λ s. S.faults s) shape.now stores.items (plan_of plan.now) came.new) }
        ensures came { length came.new ≡ length came.old }
        ensures refused { IfErr result (λ e. RefusedOver (λ s. S.content s) (λ s. S.faults s) shape.now stores.items (plan_of plan.now) e.why e.stores.items) }
    {
        match open_over(alloc, plan, stores, shape) {
            Ok(room) => {
                tell(&room.node, 0, &room.words, came);
                Ok(AnyGround {
                    ground: MirrorGround::new(room.node, *shape, room.owed, room.generation),
                    places: room.places,
                    emptied: room.emptied,
                })
            }
            Err(refused) => Err(refused),
        }
    }

    /// What holds of every ground, for proofs alone.
    pub fn sound(&self)
        ensures is { IsGround self.now }
        ensures numbered { Numbered self.now.beside }
    {
        self.ground.sound();
    }

    /// Its generation.
    pub fn generation(&self) -> u64
        ensures { result ≡ self.now.generation }
    {
        self.ground.generation()
    }

    /// Whether the disk of this number is live.
    pub fn is_live(&self, disk: usize) -> bool
        ensures { result ≡ is_live_in self.now.row disk }
    {
        lives(self.ground.node(), disk)
    }

    /// Gives the stores back, in the order of the disks. It asks no store, and takes no memory.
    pub fn close(self) -> Vec<S>
        ensures { GivesBack (λ s. S.content s) (λ s. S.faults s) self.beside self.row result.items }
    {
        let mut places = self.places;
        give_back(self.ground.into_node(), &mut places, self.emptied)
    }
}

impl<S: Store> Ground for AnyGround<S> {
    ghost seen = { seen_of };

    fn read(&mut self, page: u32, out: &mut [u8]) -> Result<(), StoreFault>
        requires page { page < self.old.shape.pages }
        requires size { length out.old ≡ self.old.shape.page_size }
        ensures bytes { OnOk result (ReadsPage (seen_of self.old).pages page out.new) }
        ensures same { (seen_of self.new).pages ≡ (seen_of self.old).pages }
        ensures keeps { Keeps (seen_of self.old) (seen_of self.new) }
        ensures calm { OnOk result (IsCalm (seen_of self.old) (seen_of self.new)) }
        ensures fault { IfErr result (IsFault (seen_of self.old) (seen_of self.new)) }
        ensures look { (x : List ℕ) × Look page x self.old.row (answered result) self.new.row }
        ensures rest { self.new ≡ record self.old { row = self.new.row } }
        ensures guards { (v : Medium) (F : List (List ℕ)) (ws : List (ℕ × List ℕ)) (L : ℕ → Bool) (past : List machine.Image) → Guarding v (Since_then F ws) L past self.old.row → Guarding v (Since_then F ws) L past self.new.row }
    {
        Ground::read(&mut self.ground, page, out)
    }

    fn write(&mut self, page: u32, bytes: &[u8]) -> Result<(), StoreFault>
        requires page { page < self.old.shape.pages }
        requires size { length bytes.now ≡ self.old.shape.page_size }
        ensures ok { OnOk result ((seen_of self.new).pages ≡ with_page page bytes.now (seen_of self.old).pages) }
        ensures err { OnErr result ((seen_of self.new).pages ≡ (seen_of self.old).pages) }
        ensures keeps { Keeps (seen_of self.old) (seen_of self.new) }
        ensures calm { OnOk result (IsCalm (seen_of self.old) (seen_of self.new)) }
        ensures fault { IfErr result (IsFault (seen_of self.old) (seen_of self.new)) }
        ensures puts { PutsPage page bytes.now self.old result self.new }
        ensures rest { self.new ≡ record self.old { owed = self.new.owed; row = self.new.row } }
        ensures guards { (v : Medium) (F : List (List ℕ)) (ws : List (ℕ × List ℕ)) (L : ℕ → Bool) (past : List machine.Image) → Guarding v (Since_then F ws) L past self.old.row → Guarding v (Since_then F ((page, bytes.now) ∷ ws)) L past self.new.row }
    {
        Ground::write(&mut self.ground, page, bytes)
    }

    fn flush(&mut self) -> Result<(), StoreFault>
        ensures same { (seen_of self.new).pages ≡ (seen_of self.old).pages }
        ensures ok { OnOk result (AllKept (seen_of self.new) (seen_of self.new).pages) }
        ensures keeps { Keeps (seen_of self.old) (seen_of self.new) }
        ensures calm { OnOk result (IsCalm (seen_of self.old) (seen_of self.new)) }
        ensures fault { IfErr result (IsFault (seen_of self.old) (seen_of self.new)) }
        ensures flushes { Flushes self.old.owed self.old.generation self.old.row (answered result) self.new.owed self.new.generation self.new.row }
        ensures rest { self.new ≡ record self.old { owed = self.new.owed; generation = self.new.generation; row = self.new.row } }
        ensures guards { (v : Medium) (F : List (List ℕ)) (ws : List (ℕ × List ℕ)) (L : ℕ → Bool) (past : List machine.Image) (G : List (List ℕ)) → (seen_of self.old).pages ≡ Some G → Within (Since_then F ws) G → Every (Near v self.old.generation) self.old.row → Guarding v (Since_then F ws) L past self.old.row → Guarding v (Since_then F ws) L past self.new.row }
        ensures begins { OnOk result ((v : Medium) (past : List machine.Image) (G : List (List ℕ)) → (seen_of self.old).pages ≡ Some G → Every (Near v self.old.generation) self.old.row → Even v self.old.owed self.old.generation self.old.row → self.new.generation < machine.limit → Every (Lower self.new.generation) self.new.row → ((i : machine.Image) → IsIn past i → i.generation < self.new.generation) → Guarding v (Since_then G []) (live_at self.new.row) past self.new.row) }
    {
        Ground::flush(&mut self.ground)
    }
}
