//! Volumes and passes.

ghost use Rattle.std.specs.Prelude.{◌≡◌, ◌<◌, ◌≤◌, [], IfErr, IfOk, IsTrue, OnErr, OnOk, Some, length, slice_get};
ghost use Rattle.hist_plain.specs.declared.event.Answer.TheVariants.{Done as ADone};
ghost use Rattle.hist_plain.specs.declared.event.Op.{Op};
ghost use Rattle.hist_plain.specs.declared.event.Op.TheVariants.{Open as AOpen};
ghost use Rattle.hist_plain.specs.Event.{fits_page};
ghost use Rattle.hist_plain.specs.Plain.{asked_by};
ghost use Rattle.tower_core.specs.TreeShape.{IsUpper};
ghost use Rattle.tower_log.specs.Log.{place_of};
ghost use Rattle.stack_engine.specs.Engine.{file_in, tree_in};
ghost use Rattle.stack_engine.specs.Tower.{TowerSeen};
ghost use Rattle.spr_volume.specs.FileCalls.{CalledAt, IsAccess, IsEnd, IsSync};
ghost use Rattle.spr_volume.specs.FilePasses.{AllQuietly, AreBack, IsMounted, IsOf, FilesKnown, KnowsNeeded, KnowsPlain, known, logs, whole, with_logs, with_range};

use crate::answered::Answered;
use crate::file_calls;
use crate::rows::{Rows, close_all, lock_all, meet_all, split_all};
use crate::shared_tower::SharedTower;
use hist_lock::{HistLock, Seat};
use hist_plain::{Gate, Keep, Op};
use page_ground::Ground;
use stack_engine::{End, StepErr, Tower};
use std::alloc::{AllocError, Global};
use std::marker::Model;
use std::sync::Wait;

/// The files of a stack, each with its tower under a lock of its own, for callers numbered from 0. It ends by `unmount`.
pub struct SharedFiles<G: Ground> {
    end: u32,
    locks: Vec<HistLock<SharedTower<G>>>,
}

impl<G: Ground> Model for SharedFiles<G> {
    ghost use Rattle.std.specs.Prelude.{map};
    ghost use Rattle.std.specs.List.{AllByRecursion};
    ghost use Rattle.spr_volume.specs.FilePasses.{FilesSeen, IsLock, owner};

    ghost Value = { FilesSeen };

    ghost view = { λ v. record { owners = map owner v.locks.items; towers = map (λ l. l.part) v.locks.items; end = v.end } };

    ghost invariant = { λ v. AllByRecursion (IsLock v.end) v.locks.items };
}

/// What some callers know of the files of a volume: a beginning of each file's log, after which it has no entry of theirs. Each call
/// of one of them needs it. It is no `Drop`: a volume ends with all its passes met.
pub struct FilesPass<G: Ground> {
    first: u32,
    end: u32,
    seats: Vec<Seat<SharedTower<G>>>,
    /// Room for the towers when the volume ends. The pass with the first caller has it.
    room: Vec<Tower<G>>,
}

impl<G: Ground> Model for FilesPass<G> {
    ghost use Rattle.std.specs.Prelude.{map, vec_capacity};
    ghost use Rattle.spr_volume.specs.FilePasses.{IsPass, FilesKnown, owner_of};

    ghost Value = { FilesKnown };

    ghost view = { λ p. record { owners = map owner_of p.seats.items; first = p.first; end = p.end; logs = map (λ s. s.seen) p.seats.items } };

    ghost invariant = { λ p. IsPass p.first p.end p.seats.items p.room.items (vec_capacity p.room) };
}

impl<G: Ground> SharedFiles<G> {
    /// A volume of these towers, for the callers from 0 up to `callers`, which is not among them, and the pass of all of them. For want
    /// of memory all towers are handed back.
    pub fn mount(
        alloc: Global,
        towers: Vec<Tower<G>>,
        callers: u32,
    ) -> Result<(SharedFiles<G>, FilesPass<G>), Vec<Tower<G>>>
        requires { 0 < callers }
        ensures volume { IfOk result (λ r. IsMounted towers.items callers r.0) }
        ensures pass { IfOk result (λ r. r.1 ≡ whole r.0) }
        ensures err { IfErr result (λ back. back.items ≡ towers.items) }
    {
        let Ok(rows) = Rows::new(alloc, towers.len()) else {
            return Err(towers);
        };
        let Rows {
            mut locks,
            mut seats,
        } = rows;
        let mut left = towers;
        left.reverse();
        if lock_all(alloc, &mut left, &mut locks, &mut seats, callers).is_err() {
            return Err(close_all(locks, seats, left));
        }
        let volume = SharedFiles {
            end: callers,
            locks,
        };
        let pass = FilesPass {
            first: 0,
            end: callers,
            seats,
            room: left,
        };
        Ok((volume, pass))
    }

    /// Makes an access of a caller at a layer of a file, of a life of the layer, in as many holds of the file's lock as it needs. The
    /// bytes that it reads are then in `out`. The gate is called after each hold that entered a page message, while no lock is held.
    pub fn access<R: Wait, T: Gate>(
        &self,
        rt: &R,
        pass: &mut FilesPass<G>,
        caller: u32,
        file: u32,
        node: u32,
        life: u32,
        op: &Op,
        out: &mut [u8],
        gate: &T,
    ) -> Result<Answered, StepErr>
        requires pass { IsOf self.now pass.old }
        requires caller { (pass.old.first ≤ caller) × (caller < pass.old.end) }
        requires file { file < length self.now.towers }
        requires call { (t : TowerSeen) → slice_get self.now.towers file ≡ Some t →
            IsUpper (tree_in t.engine) node × IsTrue (fits_page (file_in t.engine).page_size (file_in t.engine).pages op.now) }
        requires out { length out.old ≡ asked_by op.now }
        ensures called { CalledAt file caller (IsAccess caller node life op.now) pass.old pass.new out.new result }
        ensures plain { KnowsPlain self.now pass.new file }
        ensures needed { KnowsNeeded self.now pass.new file }
    {
        let index = file as usize;
        let lock = &self.locks[index];
        file_calls::access(
            rt,
            lock,
            &mut pass.seats[index],
            caller,
            file,
            node,
            life,
            op,
            out,
            gate,
        )
    }

    /// Opens a layer of a file for a caller: an access that answers the layer's life.
    pub fn open<R: Wait, T: Gate>(
        &self,
        rt: &R,
        pass: &mut FilesPass<G>,
        caller: u32,
        file: u32,
        node: u32,
        gate: &T,
    ) -> Result<Answered, StepErr>
        requires pass { IsOf self.now pass.old }
        requires caller { (pass.old.first ≤ caller) × (caller < pass.old.end) }
        requires file { file < length self.now.towers }
        requires upper { (t : TowerSeen) → slice_get self.now.towers file ≡ Some t → IsUpper (tree_in t.engine) node }
        ensures called { CalledAt file caller (IsAccess caller node 0 AOpen) pass.old pass.new [] result }
        ensures plain { KnowsPlain self.now pass.new file }
        ensures needed { KnowsNeeded self.now pass.new file }
    {
        self.access(rt, pass, caller, file, node, 0, &Op::Open, &mut [], gate)
    }

    /// Syncs a file for a caller at a layer, from a place on that is not before what the pass knew, in as many holds of the file's lock
    /// as it needs. The gate is called after each hold that entered a page message, while no lock is held.
    pub fn sync<R: Wait, T: Gate>(
        &self,
        rt: &R,
        pass: &mut FilesPass<G>,
        caller: u32,
        file: u32,
        node: u32,
        keep: Keep,
        gate: &T,
    ) -> Result<Answered, StepErr>
        requires pass { IsOf self.now pass.old }
        requires caller { (pass.old.first ≤ caller) × (caller < pass.old.end) }
        requires file { file < length self.now.towers }
        requires upper { (t : TowerSeen) → slice_get self.now.towers file ≡ Some t → IsUpper (tree_in t.engine) node }
        ensures called { CalledAt file caller (IsSync caller node keep (place_of (known pass.old file))) pass.old pass.new [] result }
        ensures done { IfOk result (λ answered. answered.answer ≡ ADone) }
        ensures plain { KnowsPlain self.now pass.new file }
        ensures needed { KnowsNeeded self.now pass.new file }
    {
        let index = file as usize;
        let lock = &self.locks[index];
        file_calls::sync(
            rt,
            lock,
            &mut pass.seats[index],
            caller,
            file,
            node,
            keep,
            gate,
        )
    }

    /// Ends the channels of a layer of a file for a caller: a revoke raises the lives of the layer's subtree, a release leaves them.
    /// Each right in the subtree is taken first, in as many holds of the file's lock as that needs. The gate is called after each hold
    /// that entered a page message, while no lock is held.
    pub fn end<R: Wait, T: Gate>(
        &self,
        rt: &R,
        pass: &mut FilesPass<G>,
        caller: u32,
        file: u32,
        node: u32,
        end: End,
        gate: &T,
    ) -> Result<Answered, StepErr>
        requires pass { IsOf self.now pass.old }
        requires caller { (pass.old.first ≤ caller) × (caller < pass.old.end) }
        requires file { file < length self.now.towers }
        requires upper { (t : TowerSeen) → slice_get self.now.towers file ≡ Some t → IsUpper (tree_in t.engine) node }
        ensures called { CalledAt file caller (IsEnd caller node end) pass.old pass.new [] result }
        ensures done { IfOk result (λ answered. answered.answer ≡ ADone) }
        ensures plain { KnowsPlain self.now pass.new file }
        ensures needed { KnowsNeeded self.now pass.new file }
    {
        let index = file as usize;
        let lock = &self.locks[index];
        file_calls::end(
            rt,
            lock,
            &mut pass.seats[index],
            caller,
            file,
            node,
            end,
            gate,
        )
    }

    /// Cuts the callers of a pass in two: the pass keeps those below `at`, and the new pass has the others. Both know what the pass
    /// knew. If memory runs out, the pass stays as it was.
    pub fn split(
        &self,
        alloc: Global,
        pass: &mut FilesPass<G>,
        at: u32,
    ) -> Result<FilesPass<G>, AllocError>
        requires pass { IsOf self.now pass.old }
        requires at { (pass.old.first < at) × (at < pass.old.end) }
        ensures low { OnOk result (pass.new ≡ with_range pass.old pass.old.first at) }
        ensures high { IfOk result (λ p. p ≡ with_range pass.old at pass.old.end) }
        ensures err { OnErr result (pass.new ≡ pass.old) }
    {
        let mut seats = Vec::with_capacity(alloc, pass.seats.len())?;
        split_all(&self.locks, &mut pass.seats, &mut seats, at);
        let end = pass.end;
        pass.end = at;
        Ok(FilesPass {
            first: at,
            end,
            seats,
            room: Vec::new(alloc),
        })
    }

    /// Takes in the pass of the neighbouring callers above. The one pass has all their callers, and knows of each file the longer of the
    /// two beginnings of the log, in which each of the two goes on without an entry of its own callers.
    pub fn meet(&self, pass: &mut FilesPass<G>, other: FilesPass<G>)
        requires pass { IsOf self.now pass.old }
        requires other { IsOf self.now other }
        requires neighbours { pass.old.end ≡ other.first }
        ensures pass { pass.new ≡ record (with_logs pass.old pass.new.logs) { end = other.end } }
        ensures this { AllQuietly pass.old.first pass.old.end pass.old pass.new }
        ensures that { AllQuietly other.first other.end other pass.new }
    {
        let FilesPass {
            first: _,
            end,
            seats,
            room,
        } = other;
        room.destroy_empty();
        meet_all(&self.locks, &mut pass.seats, seats);
        pass.end = end;
    }

    /// Ends the volume, with the pass of all its callers, and gives the towers in their order. Their logs are just what the pass knows;
    /// each tower is the one that was handed in, later on; and what was added to its log is by callers of the volume, or by none. It
    /// takes no memory.
    pub fn unmount(self, pass: FilesPass<G>) -> Vec<Tower<G>>
        requires pass { IsOf self pass }
        requires all { (pass.first ≡ 0) × (pass.end ≡ self.end) }
        ensures back { AreBack self.end self.towers result.items }
        ensures logs { logs result.items ≡ pass.logs }
    {
        let SharedFiles { end: _, locks } = self;
        let FilesPass {
            first: _,
            end: _,
            seats,
            room,
        } = pass;
        close_all(locks, seats, room)
    }
}
