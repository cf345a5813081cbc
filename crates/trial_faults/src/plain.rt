//! A file as it is played from its part of a report: one list of bytes, and a life for each node.

use crate::wrong::{Wrong, claim};
use std::alloc::{AllocError, Global};
use trial_words::{bytes, long, number};

/// How often something of a name was counted.
#[derive(Drop)]
struct Counted {
    name: String,
    count: u32,
}

/// How often something of a name was counted.
fn count_of(counted: &[Counted], name: &str) -> u32 {
    match counted.iter().find(|one| one.name.as_str() == name) {
        Some(one) => one.count,
        None => 0,
    }
}

/// Counts something of a name once more.
fn raise(alloc: Global, counted: &mut Vec<Counted>, name: &str) -> Result<(), AllocError> {
    let count = count_of(counted, name).saturating_add(1);
    let name_of = String::from_str(alloc, name)?;
    counted.retain(|one| one.name.as_str() != name);
    counted.push(Counted {
        name: name_of,
        count,
    })?;
    Ok(())
}

/// The bytes of a file from a place on.
#[derive(Drop)]
struct State {
    /// The place from which on the file has them.
    from: u64,
    bytes: Vec<u8>,
}

/// The nodes whose lives the end of the first one raises, that node itself too.
#[derive(Drop)]
pub struct End<'a> {
    /// The node that is revoked, and those above it.
    pub nodes: Vec<&'a str>,
}

/// A file as it was played so far.
#[derive(Drop)]
pub struct Plain {
    alloc: Global,
    page_size: u32,
    bytes: Vec<u8>,
    /// The lives of the nodes; those that are not here have the first one, 0.
    lives: Vec<Counted>,
    /// How many events each caller has.
    callers: Vec<Counted>,
    /// What the file had, from the begin on.
    states: Vec<State>,
    /// The least place that the next event may have.
    next: u64,
    /// The place at which the last sync began that was done.
    synced: u64,
}

/// A part of some bytes, if they have it.
pub fn part(bytes: &[u8], start: usize, len: usize) -> Option<&[u8]> {
    if start > bytes.len() || len > bytes.len() - start {
        return None;
    }
    Some(&bytes[start..start + len])
}

impl Plain {
    /// A file of so many pages of zeros.
    pub fn new(alloc: Global, page_size: u32, pages: u32) -> Result<Plain, AllocError> {
        let count = page_size.saturating_mul(pages) as usize;
        let mut plain = Plain {
            alloc,
            page_size,
            bytes: vec![in alloc; 0u8; count]?,
            lives: Vec::new(alloc),
            callers: Vec::new(alloc),
            states: Vec::new(alloc),
            next: 0,
            synced: 0,
        };
        plain.note(0)?;
        Ok(plain)
    }

    /// Notes what the file has from a place on.
    fn note(&mut self, from: u64) -> Result<(), AllocError> {
        let bytes = Vec::from_slice(self.alloc, &self.bytes)?;
        self.states.push(State { from, bytes })?;
        Ok(())
    }

    /// Plays the event of a line: its answer has to be the file's.
    pub fn play(&mut self, words: &[&str], ends: &[End<'_>]) -> Result<(), Wrong> {
        let [place, caller, own, event @ ..] = words else {
            return Err(Wrong::Said("a line of a file that is no event"));
        };
        let place = long(place)?;
        claim(
            place >= self.next,
            "an event at a place before the last one's",
        )?;
        self.next = place.saturating_add(1);
        let is_next = number(own)? == count_of(&self.callers, caller);
        claim(is_next, "an event whose number is not its caller's next")?;
        raise(self.alloc, &mut self.callers, caller)?;
        self.event(place, event, ends)
    }

    /// Plays an event at a place.
    fn event(&mut self, place: u64, event: &[&str], ends: &[End<'_>]) -> Result<(), Wrong> {
        match event {
            [_, "synced" | "cleaned", from, "done"] => {
                self.synced = long(from)?;
                claim(self.synced <= place, "a sync that began behind its place")
            }
            [node, "destroy_cache", "done"] => self.end(node, ends),
            [_, "done_with_pager_object", "done"] => Ok(()),
            [node, life, op @ ..] => {
                let now = count_of(&self.lives, node);
                self.access(place, number(life)?, now, op)
            }
            _ => Err(Wrong::Said("an event of no known form")),
        }
    }

    /// Begins a life of a node and of those above it.
    fn end(&mut self, node: &str, ends: &[End<'_>]) -> Result<(), Wrong> {
        let Some(end) = ends.iter().find(|end| end
            .nodes
            .first()
            .is_some_and(|first| *first == node))
        else {
            return Err(Wrong::Said("the end of a node of which no end is told"));
        };
        for other in &end.nodes {
            raise(self.alloc, &mut self.lives, other)?;
        }
        Ok(())
    }

    /// Plays an access of a life, where the node's life is this now.
    fn access(&mut self, place: u64, life: u32, now: u32, op: &[&str]) -> Result<(), Wrong> {
        match op {
            ["open", "life", answer] => claim(number(answer)? == now, "an open of another life"),
            [.., "revoked", answer] => {
                let is_so = number(answer)? == now && life != now;
                claim(is_so, "an access that is not of a life that is over")
            }
            _ => {
                claim(life == now, "an access of a life that is over")?;
                self.effect(place, op)
            }
        }
    }

    /// Where a byte of a page stands in the file.
    fn start(&self, page: &str, off: &str) -> Result<usize, Wrong> {
        let (page, off) = (number(page)?, number(off)?);
        Ok(page.saturating_mul(self.page_size).saturating_add(off) as usize)
    }

    /// Plays an access of the node's life.
    fn effect(&mut self, place: u64, op: &[&str]) -> Result<(), Wrong> {
        match op {
            ["read", page, off, len, hex] => {
                let found = bytes(self.alloc, hex)?;
                let start = self.start(page, off)?;
                match part(&self.bytes, start, number(len)? as usize) {
                    Some(wanted) => claim(wanted == found.as_slice(), "a read of other bytes"),
                    None => Err(Wrong::Said("a read beyond the file")),
                }
            }
            ["write", page, off, hex, "done"] => {
                let new = bytes(self.alloc, hex)?;
                self.put(place, self.start(page, off)?, &new)
            }
            ["clear", page, "done"] => {
                let zeros = vec![in self.alloc; 0u8; self.page_size as usize]?;
                self.put(place, self.start(page, "0")?, &zeros)
            }
            _ => Err(Wrong::Said("an access of no known form")),
        }
    }

    /// Puts bytes into the file.
    fn put(&mut self, place: u64, start: usize, new: &[u8]) -> Result<(), Wrong> {
        claim(
            part(&self.bytes, start, new.len()).is_some(),
            "a write beyond the file",
        )?;
        for (number, byte) in new.iter().enumerate() {
            if let Some(old) = self.bytes.get_mut(start.saturating_add(number)) {
                *old = *byte;
            }
        }
        Ok(self.note(place.saturating_add(1))?)
    }

    /// Whether these are the file's bytes at some place from the begin of the last sync on that was done.
    pub fn had_since_sync(&self, bytes: &[u8]) -> bool {
        self.states.iter().enumerate().any(|(number, state)| {
            let next = self.states.get(number.saturating_add(1));
            let was_over = next.is_some_and(|next| next.from <= self.synced);
            !was_over && state.bytes.as_slice() == bytes
        })
    }
}
