//! A file's log, as it is kept.

ghost use Rattle.std.specs.Prelude.{◌≡◌, ℕ, ◌+◌, ◌<◌, ◌≤◌, ◌∷◌, ◌++◌, [], length, slice_get, IfOk, IsOk, OnOk, OnErr, vec_len};
ghost use Rattle.std.specs.Option.{option_copied};
ghost use Rattle.hist_plain.specs.declared.TheConstants.{MAX_EVENTS};
ghost use Rattle.hist_plain.specs.History.{mine};
ghost use Rattle.tower_log.specs.declared.logged.Logged.TheVariants.{Entered, Noted};
ghost use Rattle.tower_log.specs.Log.{entries_of, trail_of, place_of, told_by, bytes_told, read_at};

use crate::blocks::Blocks;
use crate::counters::Counters;
use crate::logged::{Entry, Note};
use crate::notes::Placed;
use hist_plain::{Answer, Event};
use std::alloc::{AllocError, Global};
use std::marker::Model;

/// The log of one file. Its entries stand in blocks, its notes apart; a counter tells how many events each caller made.
/// For each spare read there are bytes and places in reserve.
#[derive(Debug, Drop)]
pub struct Trail {
    alloc: Global,
    page_size: u32,
    blocks: Blocks,
    counters: Counters,
    notes: Vec<Placed>,
    pool: Vec<Vec<u8>>,
}

impl Model for Trail {
    ghost use Rattle.tower_log.specs.Trail.{TrailSeen};

    ghost Value = { TrailSeen };

    ghost use Rattle.tower_log.specs.TrailView.{trail_seen, IsKept};

    ghost view = { trail_seen };

    ghost invariant = { IsKept };
}

impl Trail {
    /// A log without entries, of a file whose pages have this size, in bytes. It takes no memory.
    pub fn new(alloc: Global, page_size: u32) -> Trail
        ensures { result ≡ record { page_size = page_size; log = []; spare = 0; room = 0 } }
    {
        Trail {
            alloc,
            page_size,
            blocks: Blocks::new(alloc),
            counters: Counters::new(alloc),
            notes: Vec::new(alloc),
            pool: Vec::new(alloc),
        }
    }

    /// How many events there are.
    pub fn len(&self) -> u64
        ensures { result ≡ place_of self.now.log }
    {
        self.blocks.len() as u64
    }

    /// How many things the log has: events and notes.
    pub fn log_len(&self) -> u64
        requires { place_of self.now.log ≤ MAX_EVENTS }
        ensures { result ≡ length self.now.log }
    {
        self.len() + self.notes.len() as u64
    }

    /// How many events of the trail a caller made: the number of its next one.
    pub fn number(&self, caller: u32) -> u32
        ensures { result ≡ length (mine (trail_of self.now.log) caller) }
    {
        self.counters.number(caller)
    }

    /// The entry of the event at a place. None exactly if the place is not below the length.
    pub fn entry(&self, place: u64) -> Option<&Entry>
        ensures { option_copied result ≡ slice_get (entries_of self.now.log) place }
    {
        self.blocks.entry(place as usize)
    }

    /// The event at a place. None exactly if the place is not below the length.
    pub fn get(&self, place: u64) -> Option<&Event>
        ensures { option_copied result ≡ slice_get (trail_of self.now.log) place }
    {
        match self.entry(place) {
            Some(entry) => Some(&entry.event),
            None => None,
        }
    }

    /// The bytes that the read at a place was answered; empty for every other event, and where there is none.
    pub fn bytes(&self, place: u64) -> &[u8]
        ensures { result.now ≡ read_at self.now.log place }
    {
        match self.entry(place) {
            Some(entry) => read_bytes(entry),
            None => &[],
        }
    }

    /// How many reads may still be entered for which nothing has to be taken.
    pub fn spare(&self) -> usize
        ensures { result ≡ self.now.spare }
    {
        self.pool.len()
    }

    /// Makes room for so many reads, so that they can be entered without memory: their entries, their bytes, and a new
    /// caller for each; and for as many notes. If it fails, there is as much as before, or more.
    pub fn reserve(&mut self, n: u32) -> Result<(), AllocError>
        ensures ok { OnOk result (n ≤ self.new.spare) }
        ensures kept { self.old.spare ≤ self.new.spare }
        ensures same { self.new ≡ record self.old { spare = self.new.spare; room = self.new.room } }
    {
        for _spare in self.spare()..n as usize {
            self.add_spare()?;
        }
        Ok(())
    }

    /// One more spare read.
    fn add_spare(&mut self) -> Result<(), AllocError>
        ensures ok { OnOk result (self.new.spare ≡ self.old.spare + 1) }
        ensures err { OnErr result (self.new.spare ≡ self.old.spare) }
        ensures same { self.new ≡ record self.old { spare = self.new.spare; room = self.new.room } }
    {
        self.make_room()?;
        let bytes = vec![in self.alloc; 0u8; self.page_size as usize]?;
        self.pool.push(bytes)?;
        Ok(())
    }

    /// Makes room for one entry or note, beside those of the spare reads.
    pub fn make_room(&mut self) -> Result<(), AllocError>
        ensures ok { OnOk result (0 < self.new.room) }
        ensures same { self.new ≡ record self.old { room = self.new.room } }
    {
        let places = self.spare() + 1;
        self.blocks.reserve(places)?;
        self.counters.reserve(places)?;
        self.notes.reserve(places)
    }

    /// Makes room for the entry of a read of so many bytes, and gives a place for them. If there is spare room, this
    /// takes no memory, and there is one less.
    pub fn make_read_room(&mut self, len: u32) -> Result<Vec<u8>, AllocError>
        requires { len ≤ self.old.page_size }
        ensures bytes { IfOk result (λ v. vec_len v ≡ len) }
        ensures ok { OnOk result (0 < self.new.room) }
        ensures spare { 0 < self.old.spare → IsOk result × (self.new.spare + 1 ≡ self.old.spare) }
        ensures none { self.old.spare ≡ 0 → self.new.spare ≡ 0 }
        ensures same { self.new ≡ record self.old { spare = self.new.spare; room = self.new.room } }
    {
        if self.pool.is_empty() {
            self.make_room()?;
            return vec![in self.alloc; 0u8; len as usize];
        }
        let mut bytes = self.pool.take_last();
        bytes.truncate(len as usize);
        Ok(bytes)
    }

    /// Enters an event, with its answer and its bytes.
    pub fn enter(&mut self, entry: Entry)
        requires room { 0 < self.old.room }
        requires few { place_of self.old.log < MAX_EVENTS }
        ensures entered { self.new.log ≡ self.old.log ++ Entered entry ∷ [] }
        ensures same { self.new ≡ record self.old { log = self.new.log; room = self.new.room } }
    {
        self.counters.count(&entry.event);
        self.blocks.push(entry);
    }

    /// Notes a call that a store's failure ended.
    pub fn note(&mut self, note: Note)
        requires room { 0 < self.old.room }
        ensures noted { self.new.log ≡ self.old.log ++ Noted note ∷ [] }
        ensures same { self.new ≡ record self.old { log = self.new.log; room = self.new.room } }
    {
        let before = self.blocks.len() as u64;
        self.notes.push_reserved(Placed { before, note });
    }
}

/// The bytes that a read was answered; empty for every other event.
fn read_bytes(entry: &Entry) -> &[u8]
    ensures { result.now ≡ bytes_told (told_by entry.now) }
{
    match entry.answer {
        Some(Answer::Bytes) => entry.bytes.as_slice(),
        _ => &[],
    }
}
