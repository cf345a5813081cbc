//! Calls at a file of a volume.

ghost use Rattle.std.specs.Prelude.{◌≡◌, ◌<◌, ◌≤◌, [], IfOk, IsTrue, Some, length, slice_get};
ghost use Rattle.hist_plain.specs.declared.event.Answer.TheVariants.{Done as ADone};
ghost use Rattle.hist_plain.specs.declared.event.Op.TheVariants.{Open as AOpen};
ghost use Rattle.hist_plain.specs.Event.{fits_page};
ghost use Rattle.hist_plain.specs.Plain.{asked_by};
ghost use Rattle.tower_core.specs.TreeShape.{IsUpper};
ghost use Rattle.tower_log.specs.Log.{place_of};
ghost use Rattle.stack_engine.specs.Engine.{file_in, tree_in};
ghost use Rattle.stack_engine.specs.Tower.{TowerSeen};
ghost use Rattle.spr_volume.specs.Calls.{CalledAt, IsAccess, IsEnd, IsSync};
ghost use Rattle.spr_volume.specs.Passes.{IsOf, KnowsNeeded, KnowsPlain, known};

use crate::answered::Answered;
use crate::mounted::{Pass, Volume};
use hist_plain::{Gate, Keep, Op};
use page_ground::Ground;
use stack_engine::{End, StepErr as CallErr};
use std::sync::Wait;

impl<G: Ground> Volume<G> {
    /// Makes an access of a caller at a layer of a file, of a life of the layer, in as many holds of the file's lock as it needs. The
    /// bytes that it reads are then in `out`. The gate is called after each hold that entered a page message, while no lock is held.
    pub fn access<R: Wait, T: Gate>(
        &self,
        rt: &R,
        pass: &mut Pass<G>,
        caller: u32,
        file: u32,
        node: u32,
        life: u32,
        op: &Op,
        out: &mut [u8],
        gate: &T,
    ) -> Result<Answered, CallErr>
        requires pass { IsOf self.now pass.old }
        requires caller { (pass.old.first ≤ caller) × (caller < pass.old.end) }
        requires file { file < length self.now.towers }
        requires call { (t : TowerSeen) → slice_get self.now.towers file ≡ Some t →
            IsUpper (tree_in t.engine) node × IsTrue (fits_page (file_in t.engine).page_size (file_in t.engine).pages op.now) }
        requires out { length out.old ≡ asked_by op.now }
        ensures called { CalledAt file caller (IsAccess caller node life op.now) pass.old pass.new out.new result }
        ensures plain { KnowsPlain self.now pass.new file }
        ensures needed { KnowsNeeded self.now pass.new file }
    {
        let files = &mut pass.files;
        self.files
            .access(rt, files, caller, file, node, life, op, out, gate)
    }

    /// Opens a layer of a file for a caller: an access that answers the layer's life.
    pub fn open<R: Wait, T: Gate>(
        &self,
        rt: &R,
        pass: &mut Pass<G>,
        caller: u32,
        file: u32,
        node: u32,
        gate: &T,
    ) -> Result<Answered, CallErr>
        requires pass { IsOf self.now pass.old }
        requires caller { (pass.old.first ≤ caller) × (caller < pass.old.end) }
        requires file { file < length self.now.towers }
        requires upper { (t : TowerSeen) → slice_get self.now.towers file ≡ Some t → IsUpper (tree_in t.engine) node }
        ensures called { CalledAt file caller (IsAccess caller node 0 AOpen) pass.old pass.new [] result }
        ensures plain { KnowsPlain self.now pass.new file }
        ensures needed { KnowsNeeded self.now pass.new file }
    {
        self.files
            .open(rt, &mut pass.files, caller, file, node, gate)
    }

    /// Syncs a file for a caller at a layer, from a place on that is not before what the pass knew, in as many holds of the file's lock
    /// as it needs. The gate is called after each hold that entered a page message, while no lock is held.
    pub fn sync<R: Wait, T: Gate>(
        &self,
        rt: &R,
        pass: &mut Pass<G>,
        caller: u32,
        file: u32,
        node: u32,
        keep: Keep,
        gate: &T,
    ) -> Result<Answered, CallErr>
        requires pass { IsOf self.now pass.old }
        requires caller { (pass.old.first ≤ caller) × (caller < pass.old.end) }
        requires file { file < length self.now.towers }
        requires upper { (t : TowerSeen) → slice_get self.now.towers file ≡ Some t → IsUpper (tree_in t.engine) node }
        ensures called { CalledAt file caller (IsSync caller node keep (place_of (known pass.old file))) pass.old pass.new [] result }
        ensures done { IfOk result (λ answered. answered.answer ≡ ADone) }
        ensures plain { KnowsPlain self.now pass.new file }
        ensures needed { KnowsNeeded self.now pass.new file }
    {
        self.files
            .sync(rt, &mut pass.files, caller, file, node, keep, gate)
    }

    /// Ends the channels of a layer of a file for a caller: a revoke raises the lives of the layer's subtree, a release leaves them.
    /// Each right in the subtree is taken first, in as many holds of the file's lock as that needs. The gate is called after each hold
    /// that entered a page message, while no lock is held.
    pub fn end<R: Wait, T: Gate>(
        &self,
        rt: &R,
        pass: &mut Pass<G>,
        caller: u32,
        file: u32,
        node: u32,
        end: End,
        gate: &T,
    ) -> Result<Answered, CallErr>
        requires pass { IsOf self.now pass.old }
        requires caller { (pass.old.first ≤ caller) × (caller < pass.old.end) }
        requires file { file < length self.now.towers }
        requires upper { (t : TowerSeen) → slice_get self.now.towers file ≡ Some t → IsUpper (tree_in t.engine) node }
        ensures called { CalledAt file caller (IsEnd caller node end) pass.old pass.new [] result }
        ensures done { IfOk result (λ answered. answered.answer ≡ ADone) }
        ensures plain { KnowsPlain self.now pass.new file }
        ensures needed { KnowsNeeded self.now pass.new file }
    {
        self.files
            .end(rt, &mut pass.files, caller, file, node, end, gate)
    }
}
