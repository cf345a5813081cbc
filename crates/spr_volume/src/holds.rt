//! Single holds of a file's lock. Each is one step of a call, and enters one event at most.

ghost use Rattle.std.specs.Prelude.{◌≡◌, ◌<◌, ◌≤◌, [], IfOk, IsTrue, length};
ghost use Rattle.hist_lock.specs.Known.{IsFree};
ghost use Rattle.hist_plain.specs.declared.event.Answer.TheVariants.{Done as ADone};
ghost use Rattle.hist_plain.specs.Event.{fits_page};
ghost use Rattle.hist_plain.specs.Plain.{asked_by};
ghost use Rattle.tower_core.specs.TreeShape.{IsUpper};
ghost use Rattle.tower_log.specs.Log.{place_of};
ghost use Rattle.stack_engine.specs.Engine.{file_in, tree_in};
ghost use Rattle.stack_engine.specs.Tower.{IsDone};
ghost use Rattle.spr_volume.specs.TowerCalls.{access_of, end_of, sync_of};
ghost use Rattle.spr_volume.specs.TowerShared.{IsNeeded, IsPlain};
ghost use Rattle.spr_volume.specs.Holds.{Held, IsSame};
ghost use Rattle.spr_volume.specs.FilePasses.{Quietly};

use crate::shared_tower::SharedTower;
use hist_lock::{HistLock, Seat};
use hist_plain::{Keep, Op};
use page_ground::Ground;
use stack_engine::{End, Moved, StepErr};
use std::sync::Wait;

/// How a hold ended.
#[derive(Debug, Drop)]
pub(crate) struct Hold {
    /// How many events there were when the hold began.
    pub(crate) place: u64,
    /// How far the call got.
    pub(crate) moved: Result<Moved, StepErr>,
}

/// Tries an access of a caller, in one hold.
pub(crate) fn hold_access<G: Ground, R: Wait>(
    rt: &R,
    lock: &HistLock<SharedTower<G>>,
    seat: &mut Seat<SharedTower<G>>,
    caller: u32,
    node: u32,
    life: u32,
    op: &Op,
    out: &mut [u8],
) -> Hold
    requires seat { IsFree lock.now seat.old }
    requires caller { (seat.old.first ≤ caller) × (caller < seat.old.end) }
    requires upper { IsUpper (tree_in lock.now.part.engine) node }
    requires fits { IsTrue (fits_page (file_in lock.now.part.engine).page_size (file_in lock.now.part.engine).pages op.now) }
    requires out { length out.old ≡ asked_by op.now }
    ensures seat { IsSame seat.old seat.new }
    ensures held { Held seat.old.first seat.old.end caller (access_of caller node life op.now) seat.old.seen seat.new.seen out.new result.moved result.place }
    ensures plain { IsPlain lock.now.part.engine seat.new.seen }
    ensures needed { IsNeeded lock.now.part.engine seat.new.seen }
{
    let mut file = lock.take(rt, seat);
    let place = file.place();
    let moved = file.try_access(caller, node, life, op, out);
    // The proof reads here that the answers are the plain file's, and that the messages are needed.
    file.sound();
    lock.give(seat, file);
    Hold { place, moved }
}

/// Tries a sync of a caller from a place on, in one hold.
pub(crate) fn hold_sync<G: Ground, R: Wait>(
    rt: &R,
    lock: &HistLock<SharedTower<G>>,
    seat: &mut Seat<SharedTower<G>>,
    caller: u32,
    node: u32,
    from: u64,
    keep: Keep,
) -> Hold
    requires seat { IsFree lock.now seat.old }
    requires caller { (seat.old.first ≤ caller) × (caller < seat.old.end) }
    requires upper { IsUpper (tree_in lock.now.part.engine) node }
    requires from { from ≤ place_of seat.old.seen }
    ensures seat { IsSame seat.old seat.new }
    ensures held { Held seat.old.first seat.old.end caller (sync_of caller node from keep) seat.old.seen seat.new.seen [] result.moved result.place }
    ensures done { IfOk result.moved (λ moved. (answer : _) → IsDone answer moved → answer ≡ ADone) }
    ensures plain { IsPlain lock.now.part.engine seat.new.seen }
    ensures needed { IsNeeded lock.now.part.engine seat.new.seen }
{
    let mut file = lock.take(rt, seat);
    let place = file.place();
    let moved = file.try_sync(caller, node, from, keep);
    // The proof reads here that the answers are the plain file's, and that the messages are needed.
    file.sound();
    lock.give(seat, file);
    Hold { place, moved }
}

/// Tries the end of a layer's channels for a caller, in one hold.
pub(crate) fn hold_end<G: Ground, R: Wait>(
    rt: &R,
    lock: &HistLock<SharedTower<G>>,
    seat: &mut Seat<SharedTower<G>>,
    caller: u32,
    node: u32,
    end: End,
) -> Hold
    requires seat { IsFree lock.now seat.old }
    requires caller { (seat.old.first ≤ caller) × (caller < seat.old.end) }
    requires upper { IsUpper (tree_in lock.now.part.engine) node }
    ensures seat { IsSame seat.old seat.new }
    ensures held { Held seat.old.first seat.old.end caller (end_of caller node end) seat.old.seen seat.new.seen [] result.moved result.place }
    ensures done { IfOk result.moved (λ moved. (answer : _) → IsDone answer moved → answer ≡ ADone) }
    ensures plain { IsPlain lock.now.part.engine seat.new.seen }
    ensures needed { IsNeeded lock.now.part.engine seat.new.seen }
{
    let mut file = lock.take(rt, seat);
    let place = file.place();
    let moved = file.try_end(caller, node, end);
    // The proof reads here that the answers are the plain file's, and that the messages are needed.
    file.sound();
    lock.give(seat, file);
    Hold { place, moved }
}

/// Tells how many events there are, in a hold that enters none.
pub(crate) fn hold_place<G: Ground, R: Wait>(
    rt: &R,
    lock: &HistLock<SharedTower<G>>,
    seat: &mut Seat<SharedTower<G>>,
) -> u64
    requires seat { IsFree lock.now seat.old }
    ensures seat { IsSame seat.old seat.new }
    ensures quietly { Quietly seat.old.first seat.old.end seat.old.seen seat.new.seen }
    ensures place { result ≡ place_of seat.new.seen }
{
    let file = lock.take(rt, seat);
    let place = file.place();
    lock.give(seat, file);
    place
}
