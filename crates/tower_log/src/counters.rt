//! How many events each caller made.

ghost use Rattle.std.specs.Prelude.{◌≡◌, ℕ, ◌<◌, ◌≤◌, ◌+◌, ◌^◌, ◌==◌, [], OnOk, Some, if◌then◌else◌, vec_len, vec_capacity, position};
ghost use Rattle.hist_plain.specs.Event.{caller_of};
ghost use Rattle.hist_plain.specs.History.{is_by};
ghost use Rattle.tower_log.specs.Counters.{count_of};

use hist_plain::Event;
use std::alloc::{AllocError, Global};
use std::marker::Model;

/// A caller that made an event.
#[derive(Clone, Copy, Debug, Drop)]
pub struct Counter {
    /// The number of the caller.
    pub caller: u32,
    /// How many events it made.
    pub count: u32,
}

/// A counter for each caller that made an event. There are few.
#[derive(Debug, Drop)]
pub struct Counters {
    list: Vec<Counter>,
}

impl Model for Counters {
    ghost use Rattle.std.specs.Prelude.{◌-◌, vec_len, vec_capacity};
    ghost use Rattle.tower_log.specs.Counters.{CountersSeen};

    ghost Value = { CountersSeen };

    ghost view = { λ c. record { list = c.list.items; room = vec_capacity c.list - vec_len c.list } };
}

impl Counters {
    /// No counters. It takes no memory.
    pub fn new(alloc: Global) -> Counters
        ensures { result ≡ record { list = []; room = 0 } }
    {
        Counters {
            list: Vec::new(alloc),
        }
    }

    /// How many events a caller made.
    pub fn number(&self, caller: u32) -> u32
        ensures { result ≡ count_of self.now.list caller }
    {
        for counter in &self.list {
            if counter.caller == caller {
                return counter.count;
            }
        }
        0
    }

    /// Makes room for so many new callers. If it fails, there is as much room as before, or more.
    pub fn reserve(&mut self, n: usize) -> Result<(), AllocError>
        ensures ok { OnOk result (n ≤ self.new.room) }
        ensures kept { self.old.room ≤ self.new.room }
        ensures same { self.new.list ≡ self.old.list }
    {
        self.list.reserve(n)
    }

    /// Counts an event for its caller, if it has one.
    pub fn count(&mut self, event: &Event)
        requires room { 0 < self.old.room }
        requires fits { (c : ℕ) → caller_of event.now ≡ Some c → count_of self.old.list c + 1 < 2 ^ 32 }
        ensures counts { (c : ℕ) → count_of self.new.list c ≡ count_of self.old.list c + (if is_by c (caller_of event.now) then 1 else 0) }
        ensures room { self.old.room ≤ self.new.room + 1 }
    {
        if let Some(caller) = event.caller() {
            count_for(&mut self.list, caller);
        }
    }
}

/// Counts an event for a caller. A new caller gets a counter, for which there is room.
fn count_for(counters: &mut Vec<Counter>, caller: u32)
    requires room { vec_len counters.old < vec_capacity counters.old }
    requires fits { count_of counters.old.items caller + 1 < 2 ^ 32 }
    ensures counts { (c : ℕ) → count_of counters.new.items c ≡ count_of counters.old.items c + (if caller == c then 1 else 0) }
    ensures len { vec_len counters.new ≤ vec_len counters.old + 1 }
    ensures capacity { vec_capacity counters.new ≡ vec_capacity counters.old }
{
    match place_of(counters, caller) {
        Some(place) => counters[place].count += 1,
        None => counters.push_reserved(Counter { caller, count: 1 }),
    }
}

/// Where a caller's counter stands. None if it has none.
fn place_of(counters: &[Counter], caller: u32) -> Option<usize>
    ensures { result ≡ position (λ counter. counter.caller == caller) counters.now }
{
    counters.iter().position(|counter| counter.caller == caller)
}
