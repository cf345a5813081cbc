//! Whole calls at one file: holds, one after another, until the call ends. Between two holds others may act.

ghost use Rattle.std.specs.Prelude.{◌≡◌, ◌<◌, ◌≤◌, [], IfOk, IsTrue, length};
ghost use Rattle.hist_lock.specs.Known.{IsFree};
ghost use Rattle.hist_plain.specs.declared.event.Answer.TheVariants.{Done as ADone};
ghost use Rattle.hist_plain.specs.Event.{fits_page};
ghost use Rattle.hist_plain.specs.Plain.{asked_by};
ghost use Rattle.tower_core.specs.TreeShape.{IsUpper};
ghost use Rattle.tower_log.specs.Log.{place_of};
ghost use Rattle.stack_engine.specs.Engine.{file_in, tree_in};
ghost use Rattle.spr_volume.specs.TowerShared.{IsNeeded, IsPlain};
ghost use Rattle.spr_volume.specs.FileCalls.{Called, IsAccess, IsEnd, IsSync};
ghost use Rattle.spr_volume.specs.Holds.{IsSame};

use crate::answered::Answered;
use crate::holds::{hold_access, hold_end, hold_place, hold_sync};
use crate::patience::Patience;
use crate::shared_tower::SharedTower;
use hist_lock::{HistLock, Seat};
use hist_plain::{Gate, Keep, Op};
use page_ground::Ground;
use stack_engine::{End, Moved, StepErr};
use std::sync::Wait;

/// An access of a caller at a file.
pub(crate) fn access<G: Ground, R: Wait, T: Gate>(
    rt: &R,
    lock: &HistLock<SharedTower<G>>,
    seat: &mut Seat<SharedTower<G>>,
    caller: u32,
    file: u32,
    node: u32,
    life: u32,
    op: &Op,
    out: &mut [u8],
    gate: &T,
) -> Result<Answered, StepErr>
    requires seat { IsFree lock.now seat.old }
    requires caller { (seat.old.first ≤ caller) × (caller < seat.old.end) }
    requires upper { IsUpper (tree_in lock.now.part.engine) node }
    requires fits { IsTrue (fits_page (file_in lock.now.part.engine).page_size (file_in lock.now.part.engine).pages op.now) }
    requires out { length out.old ≡ asked_by op.now }
    ensures seat { IsSame seat.old seat.new }
    ensures called { Called seat.old.first seat.old.end caller (IsAccess caller node life op.now) seat.old.seen seat.new.seen out.new result }
    ensures plain { IsPlain lock.now.part.engine seat.new.seen }
    ensures needed { IsNeeded lock.now.part.engine seat.new.seen }
{
    let mut patience = Patience::new(caller);
    for _ in rt.forever() {
        let hold = hold_access(rt, lock, seat, caller, node, life, op, out);
        match hold.moved? {
            Moved::Done { answer } => {
                let place = hold.place;
                return Ok(Answered { answer, place });
            }
            Moved::Stepped { event } => gate.between(caller, file, &event),
            Moved::Busy { .. } => patience.pause(),
        }
    }
    unreachable!()
}

/// A sync of a caller at a file, from the place at which it begins on.
pub(crate) fn sync<G: Ground, R: Wait, T: Gate>(
    rt: &R,
    lock: &HistLock<SharedTower<G>>,
    seat: &mut Seat<SharedTower<G>>,
    caller: u32,
    file: u32,
    node: u32,
    keep: Keep,
    gate: &T,
) -> Result<Answered, StepErr>
    requires seat { IsFree lock.now seat.old }
    requires caller { (seat.old.first ≤ caller) × (caller < seat.old.end) }
    requires upper { IsUpper (tree_in lock.now.part.engine) node }
    ensures seat { IsSame seat.old seat.new }
    ensures called { Called seat.old.first seat.old.end caller (IsSync caller node keep (place_of seat.old.seen)) seat.old.seen seat.new.seen [] result }
    ensures done { IfOk result (λ answered. answered.answer ≡ ADone) }
    ensures plain { IsPlain lock.now.part.engine seat.new.seen }
    ensures needed { IsNeeded lock.now.part.engine seat.new.seen }
{
    let from = hold_place(rt, lock, seat);
    let mut patience = Patience::new(caller);
    for _ in rt.forever() {
        let hold = hold_sync(rt, lock, seat, caller, node, from, keep);
        match hold.moved? {
            Moved::Done { answer } => {
                let place = hold.place;
                return Ok(Answered { answer, place });
            }
            Moved::Stepped { event } => gate.between(caller, file, &event),
            Moved::Busy { .. } => patience.pause(),
        }
    }
    unreachable!()
}

/// The end of a layer's channels of a file, for a caller.
pub(crate) fn end<G: Ground, R: Wait, T: Gate>(
    rt: &R,
    lock: &HistLock<SharedTower<G>>,
    seat: &mut Seat<SharedTower<G>>,
    caller: u32,
    file: u32,
    node: u32,
    end: End,
    gate: &T,
) -> Result<Answered, StepErr>
    requires seat { IsFree lock.now seat.old }
    requires caller { (seat.old.first ≤ caller) × (caller < seat.old.end) }
    requires upper { IsUpper (tree_in lock.now.part.engine) node }
    ensures seat { IsSame seat.old seat.new }
    ensures called { Called seat.old.first seat.old.end caller (IsEnd caller node end) seat.old.seen seat.new.seen [] result }
    ensures done { IfOk result (λ answered. answered.answer ≡ ADone) }
    ensures plain { IsPlain lock.now.part.engine seat.new.seen }
    ensures needed { IsNeeded lock.now.part.engine seat.new.seen }
{
    let mut patience = Patience::new(caller);
    for _ in rt.forever() {
        let hold = hold_end(rt, lock, seat, caller, node, end);
        match hold.moved? {
            Moved::Done { answer } => {
                let place = hold.place;
                return Ok(Answered { answer, place });
            }
            Moved::Stepped { event } => gate.between(caller, file, &event),
            Moved::Busy { .. } => patience.pause(),
        }
    }
    unreachable!()
}
