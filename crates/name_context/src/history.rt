//! The history of the calls, and the number of each caller's next one.

ghost use Rattle.std.specs.Prelude.{◌≡◌, ℕ, ◌<◌, ◌+◌, ◌^◌, ◌++◌, ◌∷◌, ◌==◌, [], length, slice_get, OnOk, if◌then◌else◌, position, vec_len, vec_capacity};
ghost use Rattle.std.specs.Option.{option_copied};
ghost use Rattle.name_context.specs.History.{count_of};
ghost use Rattle.name_context.specs.HistoryView.{count_in};

use crate::entry::{NameCall, NameEntry, NameErr, Stored};
use std::alloc::{AllocError, Global};
use std::marker::Model;
use value_types::Path;

/// How many entries a caller has.
#[derive(Clone, Copy, Debug, Drop)]
pub(crate) struct Count {
    /// The number of the caller.
    pub caller: u32,
    /// How many calls the names have taken.
    pub count: u64,
}

/// The entries, and a count for each caller that has one. There are few callers.
#[derive(Drop)]
pub(crate) struct Story {
    entries: Vec<NameEntry>,
    counts: Vec<Count>,
}

impl Model for Story {
    ghost use Rattle.name_context.specs.HistorySeen.{StorySeen};

    ghost Value = { StorySeen };

    ghost use Rattle.name_context.specs.HistoryView.{story_seen, AreCounted};

    ghost view = { story_seen };

    ghost invariant = { AreCounted };
}

impl Story {
    /// No entries. It takes no memory.
    pub(crate) fn new(alloc: Global) -> Story
        ensures { result.entries ≡ [] }
    {
        Story {
            entries: Vec::new(alloc),
            counts: Vec::new(alloc),
        }
    }

    /// How many entries there are.
    pub(crate) fn len(&self) -> u64
        ensures { result ≡ length self.now.entries }
    {
        self.entries.len() as u64
    }

    /// The entry at a place. None exactly if the place is not below the length.
    pub(crate) fn entry(&self, place: u64) -> Option<&NameEntry>
        ensures { option_copied result ≡ slice_get self.now.entries place }
    {
        self.entries.get(place as usize)
    }

    /// Makes room for one more entry. An error is want of memory.
    pub(crate) fn make_room(&mut self) -> Result<(), AllocError>
        ensures ok { OnOk result (0 < self.new.room) }
        ensures same { self.new.entries ≡ self.old.entries }
    {
        self.entries.reserve(1)?;
        self.counts.reserve(1)
    }

    /// Enters a call, with its caller's next number.
    pub(crate) fn enter(
        &mut self,
        caller: u32,
        call: NameCall,
        path: Option<Path>,
        object: Option<Stored>,
        refused: Option<NameErr>,
    )
        requires { 0 < self.old.room }
        ensures { self.new.entries ≡ self.old.entries ++ record { caller = caller; number = count_of caller self.old.entries; call = call; path = path; object = object; refused = refused } ∷ [] }
    {
        let number = number_of(&self.counts, caller);
        count_up(&mut self.counts, caller);
        self.entries.push_reserved(NameEntry {
            caller,
            number,
            call,
            path,
            object,
            refused,
        });
    }
}

/// What a caller's count says; 0 if it has none.
fn number_of(counts: &[Count], caller: u32) -> u64
    ensures { result ≡ count_in counts.now caller }
{
    for count in counts {
        if count.caller == caller {
            return count.count;
        }
    }
    0
}

/// Counts an entry for a caller. A new caller gets a count, for which there is room.
fn count_up(counts: &mut Vec<Count>, caller: u32)
    requires room { vec_len counts.old < vec_capacity counts.old }
    requires fits { count_in counts.old.items caller + 1 < 2 ^ 64 }
    ensures { (c : ℕ) → count_in counts.new.items c ≡ count_in counts.old.items c + (if caller == c then 1 else 0) }
{
    match place_of(counts, caller) {
        Some(place) => counts[place].count += 1,
        None => counts.push_reserved(Count { caller, count: 1 }),
    }
}

/// Where a caller's count stands. None if it has none.
fn place_of(counts: &[Count], caller: u32) -> Option<usize>
    ensures { result ≡ position (λ count. count.caller == caller) counts.now }
{
    counts.iter().position(|count| count.caller == caller)
}
