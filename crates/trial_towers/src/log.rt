//! The log of a file of pages of 64 bytes: entries and notes are added, read back, and made room for.

ghost use Rattle.std.specs.Prelude.{◌≡◌, ◌≤◌};

use hist_plain::{Answer, Bytes, Event, MAX_EVENTS, Op};
use std::alloc::{AllocError, Global};
use tower_log::{Entry, Note, Trail};
use trial_parts::Subject;
use trial_words::{Halt, bytes, long, number, put_hex};

/// The log of a case.
#[derive(Drop)]
pub struct Log {
    trail: Trail,
    ghost size: { trail.page_size ≡ 64 },
}

/// A read of some bytes of page 0, and its answer.
fn read_entry(alloc: Global, caller: u32, place: u32, read: &[u8]) -> Result<Entry, AllocError> {
    Ok(Entry {
        event: Event::Access {
            caller,
            number: place,
            node: 1,
            life: 0,
            op: Op::Read {
                page: 0,
                off: 0,
                len: 1,
            },
        },
        answer: Some(Answer::Bytes),
        bytes: Bytes::of(alloc, read)?,
    })
}

impl Log {
    /// Enters the caller's next read.
    fn enter(&mut self, alloc: Global, caller: u32, read: &[u8]) -> Result<(), Halt> {
        if self.trail.len() >= MAX_EVENTS {
            return Err(Halt::Impossible);
        }
        self.trail.make_room()?;
        let entry = read_entry(alloc, caller, self.trail.number(caller), read)?;
        self.trail.enter(entry);
        Ok(())
    }

    /// Enters so many reads, with a note before each hundredth one. Caller 7 makes every second read, callers 9 and 4 the
    /// others in turn, and each reads the byte of its place.
    fn fill(&mut self, alloc: Global, reads: u32) -> Result<(), Halt> {
        for place in 0..reads {
            if place % 100 == 0 {
                self.trail.make_room()?;
                self.trail.note(Note {
                    caller: 7,
                    disk: 0,
                    count: u64::from(place),
                });
            }
            let caller = [7, 9, 7, 4][(place % 4) as usize];
            self.enter(alloc, caller, &[(place % 256) as u8])?;
        }
        Ok(())
    }

    /// Appends how many events there are, and how many things, events and notes.
    fn put_length(&self, answer: &mut String) -> Result<(), Halt> {
        if self.trail.len() > MAX_EVENTS {
            return Err(Halt::Impossible);
        }
        let (events, things) = (self.trail.len(), self.trail.log_len());
        Ok(writeln!(answer, "{events} events, {things} things")?)
    }

    /// Appends the caller, the number and the bytes of the read at a place.
    fn put_read(&self, alloc: Global, place: u64, answer: &mut String) -> Result<(), Halt> {
        match self.trail.get(place) {
            Some(Event::Access { caller, number, .. }) => {
                write!(answer, "caller {caller}, number {number}, bytes ")?;
            }
            Some(_) => answer.push_str("no access, bytes ")?,
            None => answer.push_str("no event, bytes ")?,
        }
        put_hex(alloc, self.trail.bytes(place), answer)?;
        Ok(answer.push('\n')?)
    }

    /// Enters so many reads, and appends how many there are then.
    fn filled(&mut self, alloc: Global, reads: u32, answer: &mut String) -> Result<(), Halt> {
        self.fill(alloc, reads)?;
        self.put_length(answer)
    }

    /// Appends how many events a caller has.
    fn put_number(&self, caller: u32, answer: &mut String) -> Result<(), AllocError> {
        writeln!(answer, "{} events", self.trail.number(caller))
    }

    /// Makes room for so many reads, and appends how many there is room for.
    fn reserve(&mut self, reads: u32, answer: &mut String) -> Result<(), AllocError> {
        self.trail.reserve(reads)?;
        writeln!(answer, "{} spare", self.trail.spare())
    }

    /// Makes room for a read, and appends how many bytes there are for it and how many spare reads are left.
    fn room(&mut self, len: u32, answer: &mut String) -> Result<(), Halt> {
        if len > 64 {
            return Err(Halt::Impossible);
        }
        let room = self.trail.make_read_room(len)?;
        Ok(writeln!(answer, "{} bytes, {} spare", room.len(), self.trail.spare())?)
    }
}

/// A log without entries.
fn fresh(alloc: Global) -> Log {
    Log {
        trail: Trail::new(alloc, 64),
    }
}

impl Subject for Log {
    fn make(alloc: Global, words: &[&str]) -> Result<Log, Halt> {
        match words {
            ["log"] => Ok(fresh(alloc)),
            _ => Err(Halt::Unread),
        }
    }

    fn step(&mut self, alloc: Global, words: &[&str], answer: &mut String) -> Result<(), Halt> {
        match words {
            ["fill", reads] => self.filled(alloc, number(reads)?, answer),
            ["read", caller, word] => self.enter(alloc, number(caller)?, &bytes(alloc, word)?),
            ["at", place] => self.put_read(alloc, long(place)?, answer),
            ["caller", caller] => Ok(self.put_number(number(caller)?, answer)?),
            ["reserve", reads] => Ok(self.reserve(number(reads)?, answer)?),
            ["room", len] => self.room(number(len)?, answer),
            _ => Err(Halt::Unread),
        }
    }
}
