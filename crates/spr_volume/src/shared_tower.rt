//! A tower as its callers share it.

ghost use Rattle.std.specs.Prelude.{◌≡◌, ◌≤◌, [], IfErr, IfOk, IsTrue, length};
ghost use Rattle.hist_plain.specs.declared.event.Answer.TheVariants.{Done as ADone};
ghost use Rattle.hist_plain.specs.Event.{fits_page};
ghost use Rattle.hist_plain.specs.History.{mine};
ghost use Rattle.hist_plain.specs.Plain.{asked_by};
ghost use Rattle.tower_core.specs.TreeShape.{IsUpper};
ghost use Rattle.tower_log.specs.Log.{place_of};
ghost use Rattle.stack_engine.specs.Engine.{IsSound, events_in, file_in, tree_in};
ghost use Rattle.stack_engine.specs.Ended.{EndNeedsDisks};
ghost use Rattle.stack_engine.specs.Ends.{AdvancesEnd};
ghost use Rattle.stack_engine.specs.Plans.{AccessNeedsDisks, SyncNeedsDisks};
ghost use Rattle.stack_engine.specs.Tower.{Advances, AdvancesSync, Fails, IsDone};
ghost use Rattle.stack_engine.specs.Turns.{pushed_as};
ghost use Rattle.spr_volume.specs.TowerCalls.{Tries, access_of, end_of, sync_of};
ghost use Rattle.spr_volume.specs.Later.{IsLater};
ghost use Rattle.spr_volume.specs.TowerShared.{IsNeeded, IsPlain, log_of, shared};

use hist_lock::Storied;
use hist_plain::{Keep, Op};
use page_ground::Ground;
use stack_engine::{End, Logged, Moved, StepErr, Tower};
use std::alloc::Global;
use std::marker::Model;
use std::snapshot::Snapshot;

/// A tower as its callers share it: it is the tower that was handed in, later on. What it was then stays known. It stands on the
/// heap, so that a lock which hands it on moves none of it.
pub struct SharedTower<G: Ground> {
    tower: Box<Tower<G>>,
    began: Snapshot<Tower<G>>,
    /// How many things the tower's log has.
    logged: u64,
}

impl<G: Ground> Model for SharedTower<G> {
    ghost use Rattle.spr_volume.specs.TowerShared.{IsShared, SharedSeen};

    ghost Value = { SharedSeen };

    ghost view = { λ s. record { began = s.began.value; tower = s.tower.value } };

    ghost invariant = { λ s. IsShared s.began.value.engine s.tower.value.engine s.logged };
}

impl<G: Ground> Storied for SharedTower<G> {
    ghost use Rattle.spr_volume.specs.TowerShared.{by, log_of};

    type Entry = Logged;

    type Fixed = Tower<G>;

    ghost entries = { log_of };

    ghost caller = { by };

    ghost fixed = { λ s. s.began };

    fn len(&self) -> u64 {
        self.logged
    }
}

impl<G: Ground> SharedTower<G> {
    /// The tower, from now on shared; or the tower back, if memory ran out.
    pub fn new(alloc: Global, tower: Tower<G>) -> Result<SharedTower<G>, Tower<G>>
        ensures ok { IfOk result (λ s. s ≡ shared tower) }
        ensures err { IfErr result (λ back. back ≡ tower) }
    {
        let began = Snapshot::of(&tower);
        let logged = tower.log_len();
        match Box::new(alloc, tower) {
            Ok(tower) => Ok(SharedTower {
                tower,
                began,
                logged,
            }),
            Err(failed) => Err(failed.value),
        }
    }

    /// The tower, which is shared no more.
    pub fn into_tower(self) -> Tower<G>
        ensures value { result ≡ self.tower }
        ensures later { IsLater self.began.engine self.tower.engine }
        ensures sound { IsSound self.tower.engine }
    {
        let SharedTower {
            tower,
            began: _began,
            logged: _logged,
        } = self;
        tower.sound();
        Box::into_inner(tower)
    }

    /// What holds of every shared tower: it is the one that was handed in, later on, its answers are the plain file's, and each page
    /// message came next for a call.
    pub fn sound(&self)
        ensures later { IsLater self.now.began.engine self.now.tower.engine }
        ensures plain { IsPlain self.now.began.engine (log_of self.now) }
        ensures needed { IsNeeded self.now.began.engine (log_of self.now) }
    {
        self.tower.sound();
    }

    /// How many events there are: the place of the next one.
    pub fn place(&self) -> u64
        ensures { result ≡ place_of (log_of self.now) }
    {
        self.tower.len()
    }

    /// Tries an access of a caller at a layer, of a life of it, with the caller's next number. If it is allowed it is made, and
    /// the bytes that it reads are then in `out`. If not, the message is sent that comes next for it, unless another caller is
    /// before this one.
    pub fn try_access(
        &mut self,
        caller: u32,
        node: u32,
        life: u32,
        op: &Op,
        out: &mut [u8],
    ) -> Result<Moved, StepErr>
        requires upper { IsUpper (tree_in self.old.began.engine) node }
        requires fits { IsTrue (fits_page (file_in self.old.began.engine).page_size (file_in self.old.began.engine).pages op.now) }
        requires out { length out.old ≡ asked_by op.now }
        ensures began { self.new.began ≡ self.old.began }
        ensures tries { Tries caller (access_of caller node life op.now) (log_of self.old) (log_of self.new) out.new result }
        ensures advances { IfOk result (Advances caller (length (mine (events_in self.old.tower.engine) caller)) node life op.now self.old.tower self.new.tower) }
        ensures fails { IfErr result (Fails caller self.old.tower self.new.tower) }
        ensures idle { (AccessNeedsDisks self.old.tower.engine node life op.now → ⊥) → self.new.tower.engine.ground ≡ self.old.tower.engine.ground }
    {
        let tower = &mut *self.tower;
        let number = tower.number(caller);
        tower.sound();
        let result = tower.advance(caller, number, node, life, op, out);
        tower.sound();
        self.logged = tower.log_len();
        result
    }

    /// Tries a sync of a caller at a layer, from a place of the trail on, with the caller's next number. If every page is settled
    /// from there, the ground is made to keep its pages and the sync is done. If not, the lowest that is not is pushed one layer
    /// further.
    pub fn try_sync(
        &mut self,
        caller: u32,
        node: u32,
        from: u64,
        keep: Keep,
    ) -> Result<Moved, StepErr>
        requires upper { IsUpper (tree_in self.old.began.engine) node }
        requires from { from ≤ place_of (log_of self.old) }
        ensures began { self.new.began ≡ self.old.began }
        ensures tries { Tries caller (sync_of caller node from keep) (log_of self.old) (log_of self.new) [] result }
        ensures done { IfOk result (λ moved. (answer : _) → IsDone answer moved → answer ≡ ADone) }
        ensures advances { IfOk result (AdvancesSync caller (length (mine (events_in self.old.tower.engine) caller)) node from keep self.old.tower self.new.tower) }
        ensures fails { IfErr result (Fails caller self.old.tower self.new.tower) }
        ensures idle { (SyncNeedsDisks self.old.tower.engine node from (λ page. pushed_as caller page keep self.old.tower.turns) → ⊥) → self.new.tower.engine.ground ≡ self.old.tower.engine.ground }
    {
        let tower = &mut *self.tower;
        let number = tower.number(caller);
        tower.sound();
        let result = tower.advance_sync(caller, number, node, from, keep);
        tower.sound();
        self.logged = tower.log_len();
        result
    }

    /// Tries the end of a layer's channels for a caller, with the caller's next number. If no node of the layer's subtree has a right
    /// any more, the end is entered. If not, the message is sent that takes the next right. Another caller that has the file's turn
    /// is before this one.
    pub fn try_end(&mut self, caller: u32, node: u32, end: End) -> Result<Moved, StepErr>
        requires upper { IsUpper (tree_in self.old.began.engine) node }
        ensures began { self.new.began ≡ self.old.began }
        ensures tries { Tries caller (end_of caller node end) (log_of self.old) (log_of self.new) [] result }
        ensures done { IfOk result (λ moved. (answer : _) → IsDone answer moved → answer ≡ ADone) }
        ensures advances { IfOk result (AdvancesEnd caller (length (mine (events_in self.old.tower.engine) caller)) node end self.old.tower self.new.tower) }
        ensures fails { IfErr result (Fails caller self.old.tower self.new.tower) }
        ensures idle { (EndNeedsDisks self.old.tower.engine node → ⊥) → self.new.tower.engine.ground ≡ self.old.tower.engine.ground }
    {
        let tower = &mut *self.tower;
        let number = tower.number(caller);
        tower.sound();
        let result = tower.advance_end(caller, number, node, end);
        tower.sound();
        self.logged = tower.log_len();
        result
    }
}
