//! The lock and its seats.

ghost use Rattle.std.specs.Prelude.{◌≡◌, ℕ, ◌+◌, ◌<◌, ◌≤◌, ◌∷◌, [], IfOk, IfErr, Ok, Some, false};
ghost use Rattle.hist_lock.specs.Ranges.{Follows, Grows, Added};
ghost use Rattle.hist_lock.specs.Rule.{number};
ghost use Rattle.hist_lock.specs.Steps.{with_seen, waiting, Takes, below, above};
ghost use Rattle.hist_lock.specs.declared.view.Stage.TheVariants.{Idle, Waits, Holds, Noted};
ghost use Rattle.hist_lock.specs.Known.{Begins, IsFree, HasTaken, is_own, whole, taking, giving, with_range, meeting};

use crate::rule::{Cut, Draw, Limit, Look, Neighbours, Note, Pass, Ring, Settle, Telling, Turns};
use crate::storied::Storied;
use crate::view::{Deed, View};
use atomic_table::{Shared, Table};
use std::alloc::{AllocError, Global};
use std::hint::spin_loop;
use std::marker::{Brand, Model};
use std::snapshot::Snapshot;
use std::sync::Wait;

/// How many times a seat looks at the serving number before it sleeps between its looks.
const LOOKS: u32 = 400;

/// A lock round a value that keeps a list. Callers take turns, in the order of their tickets. Contracts see which
/// lock it is, its whole range of callers, and the value that it began with, with that value's list and fixed part.
/// It has no `Drop`: it ends by `close`.
pub struct HistLock<T: Storied> {
    table: Table<Option<T>, View<T::Entry, T::Fixed>, Deed<T>, Turns, Global>,
}

impl<T: Storied> Model for HistLock<T> {
    ghost use Rattle.std.specs.Prelude.{◌≡◌};
    ghost use Rattle.hist_lock.specs.Known.{Lock, lock_of};

    ghost Value = { Lock T T.Entry T.Fixed };

    ghost view = { λ l. lock_of T.entries T.fixed l.table.shared.table_id l.table.shared.key };

    ghost invariant = { λ l. (l.table.shared.table_id.words ≡ 19) × (l.table.shared.table_id.slots ≡ 1) };
}

type Words<T> = Shared<
    Option<T>,
    View<<T as Storied>::Entry, <T as Storied>::Fixed>,
    Deed<T>,
    Turns,
>;

type Place<T> = atomic_table::Seat<Option<T>, View<<T as Storied>::Entry, <T as Storied>::Fixed>>;

/// What a range of callers knows of a lock: a beginning of the list, after which the list has no entry of theirs.
/// It has no bytes, and no `Drop`: `close` needs every seat back.
pub struct Seat<T: Storied> {
    place: Place<T>,
}

impl<T: Storied> Model for Seat<T> {
    ghost use Rattle.std.specs.Prelude.{◌<◌};
    ghost use Rattle.hist_lock.specs.Known.{Known, Rests, known};

    ghost Value = { Known T.Entry T.Fixed };

    ghost view = { λ s. known s.place.table_id s.place.me.0 };

    ghost invariant = { λ s. (s.place.me.0.first < s.place.me.0.end) × Rests s.place.me.0.stage s.place.me.1 };
}

impl<T: Storied> HistLock<T> {
    /// A lock round the value for the callers from `first` up to `end`, which is not among them, and the seat of
    /// all of them, which knows the value's list; or the value back, if memory ran out.
    pub fn new(alloc: Global, value: T, first: u32, end: u32) -> Result<(HistLock<T>, Seat<T>), T>
        requires { first < end }
        ensures lock { IfOk result (λ r. Begins T.entries T.fixed value first end r.0) }
        ensures seat { IfOk result (λ r. r.1 ≡ whole r.0) }
        ensures err { IfErr result (λ v. v ≡ value) }
    {
        let length = value.len();
        let words = [0, 0, length, 0, 0, 0, 0, 0, 0, 0, 0, 0, 0, 0, 0, 0, 0, 0, 0];
        let deed = Deed {
            first,
            end,
            value: Snapshot::of(&value),
        };
        let mut slots = Vec::new(alloc);
        if slots.reserve(1).is_err() {
            slots.destroy_empty();
            return Err(value);
        }
        slots.push_reserved(Some(value));
        match Table::new(alloc, &words, slots, &deed) {
            Ok((table, place)) => Ok((HistLock { table }, Seat { place })),
            Err(refused) => Err(only(refused.slots)),
        }
    }

    /// Waits for the seat's turn, and takes the value. Its list goes on from what the seat knew, without an entry
    /// of the seat's callers.
    pub fn take<R: Wait>(&self, rt: &R, seat: &mut Seat<T>) -> T
        requires { IsFree self.now seat.old }
        ensures list { Follows (is_own T.caller seat.old) seat.old.seen (T.entries result) }
        ensures part { T.fixed result ≡ self.now.part }
        ensures seat { seat.new ≡ taking seat.old (T.entries result) }
    {
        let words = &self.table.shared;
        let ticket = draw(rt, words, &mut seat.place);
        await_turn(rt, words, &mut seat.place, ticket);
        words.exchange(&mut seat.place, 0, None).unwrap()
    }

    /// Gives the value back, with at most one entry more, and passes the turn on. The entry is by no caller, or by
    /// one of the seat's.
    pub fn give(&self, seat: &mut Seat<T>, value: T)
        requires seat { HasTaken self.now seat.old }
        requires list { Grows T.caller seat.old.first seat.old.end seat.old.seen (T.entries value) }
        requires part { T.fixed value ≡ self.now.part }
        ensures { seat.new ≡ giving seat.old (T.entries value) }
    {
        let words = &self.table.shared;
        note::<T, Brand>(words, &mut seat.place, &value);
        match words.exchange(&mut seat.place, 0, Some(value)) {
            None => {}
            Some(_) => unreachable!(),
        }
        let served = words.fetch_add::<Pass>(&mut seat.place, 1, 1);
        if words.peek(0) > served + 1 {
            ring(words, &mut seat.place, bell_of(served + 1));
        }
    }

    /// Cuts the seat's range in two: the seat keeps the callers below `at`, and the new seat has the others. Both
    /// know what the seat knew. It takes no memory, so it is always `Ok`.
    pub fn split(&self, seat: &mut Seat<T>, at: u32) -> Result<Seat<T>, AllocError>
        requires seat { IsFree self.now seat.old }
        requires at { (seat.old.first < at) × (at < seat.old.end) }
        ensures low { seat.new ≡ with_range seat.old seat.old.first at }
        ensures high { result ≡ Ok (with_range seat.old at seat.old.end) }
    {
        Ok(Seat {
            place: cut::<T, Brand>(&self.table.shared, &mut seat.place, at),
        })
    }

    /// Takes in the seat of the neighbouring range above. The one seat has both ranges and knows the longer of the
    /// two lists, in which each of the two goes on without an entry of its own callers.
    pub fn meet(&self, seat: &mut Seat<T>, other: Seat<T>)
        requires seat { IsFree self.now seat.old }
        requires other { IsFree self.now other }
        requires neighbours { seat.old.end ≡ other.first }
        ensures seat { seat.new ≡ meeting seat.old other }
        ensures this { Follows (is_own T.caller seat.old) seat.old.seen seat.new.seen }
        ensures that { Follows (is_own T.caller other) other.seen seat.new.seen }
    {
        let words = &self.table.shared;
        let Seat { place } = other;
        words.join_seat::<Neighbours>(&mut seat.place, place);
        words.load::<Settle>(&mut seat.place, 1);
    }

    /// Ends the lock, with the seat of its whole range, and gives the value. Its list is just what the seat knows;
    /// what was added to the list that the lock began with is by callers of the whole range, or by none. If no seat
    /// ever took the value, it is the one that the lock began with.
    pub fn close(self, seat: Seat<T>) -> T
        requires seat { IsFree self seat }
        requires whole { (seat.first ≡ self.first) × (seat.end ≡ self.end) }
        ensures list { T.entries result ≡ seat.seen }
        ensures callers { Added T.caller self.first self.end self.began (T.entries result) }
        ensures part { T.fixed result ≡ self.part }
        ensures untouched { seat.took ≡ false → result ≡ self.value }
    {
        let HistLock { table } = self;
        let Seat { place } = seat;
        let mut closed = table.close_with(place);
        let value = closed.take(0).unwrap();
        closed.free();
        value
    }
}

/// The one value of a list that was refused.
fn only<T>(mut slots: Vec<Option<T>>) -> T
    requires { (x : T) × (slots.items ≡ Some x ∷ []) }
    ensures { slots.items ≡ Some result ∷ [] }
{
    let Some(Some(value)) = slots.pop() else {
        unreachable!()
    };
    slots.destroy_empty();
    value
}

/// Draws a ticket. If no ticket were left, it would wait for good.
fn draw<T: Storied, R: Wait>(rt: &R, words: &Words<T>, place: &mut Place<T>) -> u64
    requires table { (place.old.table_id ≡ words.now.table_id) × (words.now.table_id.words ≡ 19) }
    requires idle { (place.old.me.0.stage ≡ Idle) × (place.old.me.0.first < place.old.me.0.end) }
    ensures same { (place.new.table_id ≡ place.old.table_id) × (place.new.id ≡ place.old.id) }
    ensures waits { place.new.me ≡ (waiting place.old.me.0 result, place.old.me.1) }
{
    let mut guess = words.peek(0);
    for _ in rt.forever() {
        if guess < u64::MAX {
            let found = words.compare_exchange::<Draw>(place, 0, guess, guess + 1);
            if found == guess {
                return found;
            }
            guess = found;
        }
    }
    unreachable!()
}

/// The word on which who has the ticket sleeps.
fn bell_of(ticket: u64) -> usize
    ensures { (k : ℕ) × (k < 16) × (result ≡ 3 + k) }
{
    3 + (ticket % 16) as usize
}

/// Rings a bell, and wakes who sleeps by it.
fn ring<T: Storied>(words: &Words<T>, place: &mut Place<T>, bell: usize)
    requires table { (place.old.table_id ≡ words.now.table_id) × (words.now.table_id.words ≡ 19) }
    requires bell { (k : ℕ) × (k < 16) × (bell ≡ 3 + k) }
    ensures same { (place.new.table_id ≡ place.old.table_id) × (place.new.id ≡ place.old.id) × (place.new.me ≡ place.old.me) }
{
    words.fetch_add::<Ring>(place, bell, 1);
    words.wake_all(bell);
}

/// Waits until the ticket is served, and takes the slot. It looks at its bell before the serving number: who serves the
/// ticket rings behind that, so the bell that it sleeps by has then changed.
fn await_turn<T: Storied, R: Wait>(rt: &R, words: &Words<T>, place: &mut Place<T>, ticket: u64)
    requires table { (place.old.table_id ≡ words.now.table_id) × (words.now.table_id.words ≡ 19) }
    requires waits { place.old.me.0.stage ≡ Waits ticket }
    ensures same { (place.new.table_id ≡ place.old.table_id) × (place.new.id ≡ place.old.id) }
    ensures takes { Takes T.entries T.caller T.fixed place.old.me ticket place.new.me }
{
    let bell = bell_of(ticket);
    let mut looks = 0;
    for _ in rt.forever() {
        let rung = words.peek(bell);
        let serving = words.load::<Look>(place, 1);
        if serving == ticket {
            return;
        }
        if looks < LOOKS {
            looks += 1;
            spin_loop();
        } else {
            words.park(rt, bell, (rung & 0xffff_ffff) as u32);
        }
    }
    unreachable!()
}

/// Notes the length of the list of the value that the seat is about to give.
fn note<T: Storied, N: Telling<T>>(words: &Words<T>, place: &mut Place<T>, value: &T)
    requires told { N.told ≡ Some value.now }
    requires table { (place.old.table_id ≡ words.now.table_id) × (words.now.table_id.words ≡ 19) }
    requires holds { (t : ℕ) × (place.old.me.0.stage ≡ Holds t) }
    requires list { Grows T.caller place.old.me.0.first place.old.me.0.end place.old.me.0.seen (T.entries value.now) }
    ensures same { (place.new.table_id ≡ place.old.table_id) × (place.new.id ≡ place.old.id) }
    ensures noted { place.new.me
        ≡ (with_seen place.old.me.0 (T.entries value.now) (Noted (number place.old.me.0.stage)), place.old.me.1) }
{
    words.store::<Note<N>>(place, 2, value.len());
}

/// Cuts a seat's range.
fn cut<T: Storied, C: Limit>(words: &Words<T>, place: &mut Place<T>, at: u32) -> Place<T>
    requires limit { at ≡ C.at }
    requires table { (place.old.table_id ≡ words.now.table_id) × (words.now.table_id.words ≡ 19) }
    requires idle { (place.old.me.0.stage ≡ Idle) × (place.old.me.0.first < at) × (at < place.old.me.0.end) }
    ensures same { (place.new.table_id ≡ place.old.table_id) × (place.new.id ≡ place.old.id) }
    ensures other { result.table_id ≡ place.old.table_id }
    ensures low { place.new.me ≡ (below at place.old.me.0, place.old.me.1) }
    ensures high { result.me ≡ (above at place.old.me.0, []) }
{
    words.split_seat::<Cut<C>>(place)
}
