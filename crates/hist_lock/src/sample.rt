//! The lock in use, in small: callers enter their calls into one roll, on threads of their own. The tests run it; the
//! library has none of it.

ghost use Rattle.std.specs.Prelude.{◌≡◌, ◌<◌, ◌≤◌, ◌++◌, ◌∷◌, [], IfOk, OnOk, OnErr};
ghost use Rattle.std.specs.Thread.{IsSync};
ghost use Rattle.hist_lock.specs.Ranges.{Added};
ghost use Rattle.hist_lock.specs.Known.{IsFree};
ghost use Rattle.hist_lock.specs.Sample.{call, by, numbered, Made, MadeFew, EachMade, IsSame};

use crate::lock::{HistLock, Seat};
use crate::storied::Storied;
use std::alloc::{AllocError, Global};
use std::sync::Wait;
use std::thread::{Threads, join_mut};

/// One call: who made it, and how many calls its caller had made before.
pub type Call = (u32, u64);

/// The calls of all callers, oldest first.
#[derive(Drop)]
pub struct Roll {
    /// The roll's own number, which stays.
    pub label: u32,
    /// The calls.
    pub calls: Vec<Call>,
}

impl Storied for Roll {
    ghost use Rattle.hist_lock.specs.Sample.{by};

    type Entry = Call;

    type Fixed = u32;

    ghost entries = { λ r. r.calls.items };

    ghost caller = { by };

    ghost fixed = { λ r. r.label };

    fn len(&self) -> u64 {
        self.calls.len() as u64
    }
}

impl Roll {
    /// Enters a call. If memory runs out, the roll stays as it was.
    fn enter(&mut self, caller: u32, number: u64) -> Result<(), AllocError>
        ensures ok { OnOk result (self.new.calls.items ≡ self.old.calls.items ++ call caller number ∷ []) }
        ensures err { OnErr result (self.new.calls.items ≡ self.old.calls.items) }
        ensures label { self.new.label ≡ self.old.label }
    {
        self.calls.reserve(1)?;
        self.calls.push_reserved((caller, number));
        Ok(())
    }
}

/// One call of a caller, in one hold. If memory runs out, no caller of the seat entered a call.
pub fn enter<R: Wait>(
    rt: &R,
    lock: &HistLock<Roll>,
    seat: &mut Seat<Roll>,
    caller: u32,
    number: u64,
) -> Result<(), AllocError>
    requires seat { IsFree lock.now seat.old }
    requires caller { (seat.old.first ≤ caller) × (caller < seat.old.end) }
    ensures seat { IsSame seat.old seat.new }
    ensures made { OnOk result (Made caller (call caller number ∷ []) seat.old.seen seat.new.seen) }
    ensures err { OnErr result (EachMade seat.old.first seat.old.end 0 seat.old.seen seat.new.seen) }
{
    let mut roll = lock.take(rt, seat);
    let done = roll.enter(caller, number);
    lock.give(seat, roll);
    done
}

/// Two callers make a call each, one after the other.
pub fn in_turn<R: Wait>(rt: &R, alloc: Global, roll: Roll) -> Result<Roll, AllocError>
    ensures made { IfOk result (λ r. EachMade 0 2 1 roll.calls.items r.calls.items) }
    ensures others { IfOk result (λ r. Added by 0 2 roll.calls.items r.calls.items) }
    ensures label { IfOk result (λ r. r.label ≡ roll.label) }
{
    let Ok((lock, mut low)) = HistLock::new(alloc, roll, 0, 2) else {
        return Err(AllocError);
    };
    let mut high = lock.split(&mut low, 1).unwrap();
    let first = enter(rt, &lock, &mut low, 0, 0);
    let second = enter(rt, &lock, &mut high, 1, 0);
    lock.meet(&mut low, high);
    let roll = lock.close(low);
    first?;
    second?;
    Ok(roll)
}

/// The calls of one caller, one after another. If memory runs out, it made the first of them alone.
fn enter_many<R: Wait>(
    rt: &R,
    lock: &HistLock<Roll>,
    seat: &mut Seat<Roll>,
    caller: u32,
    count: u64,
) -> Result<(), AllocError>
    requires seat { IsFree lock.now seat.old }
    requires caller { (seat.old.first ≤ caller) × (caller < seat.old.end) }
    ensures seat { IsSame seat.old seat.new }
    ensures made { OnOk result (Made caller (numbered caller count) seat.old.seen seat.new.seen) }
    ensures err { OnErr result (MadeFew caller count seat.old.seen seat.new.seen) }
{
    for number in 0..count {
        enter(rt, lock, seat, caller, number)?;
    }
    Ok(())
}

/// Each caller of the seat makes its calls, on a thread of its own.
fn enter_all<R: Threads + Wait + Sync>(
    rt: &R,
    lock: &HistLock<Roll>,
    seat: &mut Seat<Roll>,
    first: u32,
    end: u32,
    count: u64,
) -> Result<(), AllocError>
    requires seat { IsFree lock.now seat.old }
    requires range { (seat.old.first ≡ first) × (seat.old.end ≡ end) × (first < end) }
    ensures seat { IsSame seat.old seat.new }
    ensures made { OnOk result (EachMade first end count seat.old.seen seat.new.seen) }
{
    if end - first == 1 {
        return enter_many(rt, lock, seat, first, count);
    }
    let at = first + (end - first) / 2;
    let mut other = lock.split(seat, at).unwrap();
    let (low, high) = join_mut(
        rt,
        &mut || -> Result<(), AllocError>
            requires { IsSync R.row × IsFree lock.now seat.now
                × (seat.now.first ≡ first) × (seat.now.end ≡ at) × (first < at) }
            ensures { IsSame seat.entry.now seat.exit.now
                × OnOk result (EachMade first at count seat.entry.now.seen seat.exit.now.seen) }
        { enter_all(rt, lock, seat, first, at, count) },
        &mut || -> Result<(), AllocError>
            requires { IsSync R.row × IsFree lock.now other
                × (other.first ≡ at) × (other.end ≡ end) × (at < end) }
            ensures { IsSame other.entry other.exit
                × OnOk result (EachMade at end count other.entry.seen other.exit.seen) }
        { enter_all(rt, lock, &mut other, at, end, count) },
    );
    lock.meet(seat, other);
    low?;
    high
}

/// Nobody takes the roll, though its seat is cut in two and met again: it comes back as it was.
pub fn unused(alloc: Global, roll: Roll) -> Roll
    ensures { result ≡ roll }
{
    match HistLock::new(alloc, roll, 0, 2) {
        Ok((lock, mut low)) => {
            let high = lock.split(&mut low, 1).unwrap();
            lock.meet(&mut low, high);
            lock.close(low)
        }
        Err(roll) => roll,
    }
}

/// Each caller makes `count` calls, on a thread of its own.
pub fn at_once<R: Threads + Wait + Sync>(
    rt: &R,
    alloc: Global,
    roll: Roll,
    callers: u32,
    count: u64,
) -> Result<Roll, AllocError>
    requires { 0 < callers }
    ensures made { IfOk result (λ r. EachMade 0 callers count roll.calls.items r.calls.items) }
    ensures others { IfOk result (λ r. Added by 0 callers roll.calls.items r.calls.items) }
    ensures label { IfOk result (λ r. r.label ≡ roll.label) }
{
    let Ok((lock, mut seat)) = HistLock::new(alloc, roll, 0, callers) else {
        return Err(AllocError);
    };
    let done = enter_all(rt, &lock, &mut seat, 0, callers, count);
    let roll = lock.close(seat);
    done?;
    Ok(roll)
}
