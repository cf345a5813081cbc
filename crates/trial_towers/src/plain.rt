//! The plain file of two pages of 64 letters `a`, under one layer, and its events.

ghost use Rattle.std.specs.Prelude.{IsTrue, ◌≡◌, length};
ghost use Rattle.hist_plain.specs.Plain.{Suits, asked_len};

use crate::events::event_of;
use hist_plain::{Answer, Event, MAX_EVENTS, Op, Plain, fits};
use std::alloc::{AllocError, Global};
use trial_parts::{Subject, access_of, asked, put_answer};
use trial_words::{Halt, put_hex, say_whether, two};

/// The plain file of a case.
#[derive(Drop)]
pub struct PlainFile {
    plain: Plain,
    ghost size: { plain.shape.page_size ≡ 64 },
    ghost nodes: { length plain.shape.parents ≡ 2 },
}

/// How many bytes an event reads.
fn asked_of(event: &Event) -> usize
    ensures { result ≡ asked_len event.now }
{
    match event {
        Event::Access { op, .. } => asked(op),
        _ => 0,
    }
}

/// Appends who made an event, and at which node.
fn put_about(event: &Event, answer: &mut String) -> Result<(), AllocError> {
    let node = event.node();
    match event.caller() {
        Some(caller) => writeln!(answer, "caller {caller} at node {node}"),
        None => writeln!(answer, "no caller at node {node}"),
    }
}

/// Whether the event is one of the file.
fn suits(plain: &Plain, event: &Event) -> bool
    requires size { plain.now.shape.page_size ≡ 64 }
    requires nodes { length plain.now.shape.parents ≡ 2 }
    ensures { IsTrue result → Suits plain.now.shape plain.now.file event.now }
{
    if event.node() >= 2 || plain.bytes().len() != 128 {
        return false;
    }
    match event {
        Event::Access { op, .. } => fits(op, 64, 2),
        _ => true,
    }
}

/// The file with no event.
fn fresh(alloc: Global) -> Result<PlainFile, AllocError> {
    let image = vec![in alloc; b'a'; 128]?;
    Ok(PlainFile {
        plain: Plain::new(alloc, 64, &[0, 0], &image)?,
    })
}

impl PlainFile {
    /// Takes an event.
    fn take(&mut self, alloc: Global, event: &Event, answer: &mut String) -> Result<(), Halt> {
        if !suits(&self.plain, event) || self.plain.len() >= MAX_EVENTS {
            return Err(Halt::Impossible);
        }
        let mut out = vec![in alloc; 0u8; asked_of(event)]?;
        match self.plain.apply(event, &mut out) {
            Some(given) => put_answer(alloc, given, &out, answer),
            None => Ok(answer.push_str("no answer\n")?),
        }
    }

    /// Takes the event of some words.
    fn enter(&mut self, alloc: Global, words: &[&str], answer: &mut String) -> Result<(), Halt> {
        let event = event_of(alloc, words)?;
        self.take(alloc, &event, answer)
    }

    /// Appends how many events there are, and the size of a page.
    fn put_length(&self, answer: &mut String) -> Result<(), AllocError> {
        let (len, size) = (self.plain.len(), self.plain.page_size());
        writeln!(answer, "{len} events, pages of {size} bytes")
    }

    /// Appends the bytes from a place on.
    fn put_bytes(&self, alloc: Global, at: u32, len: u32, answer: &mut String) -> Result<(), Halt> {
        let (at, len) = (at as usize, len as usize);
        let Some(bytes) = self.plain.bytes().get(at..at + len) else {
            return Err(Halt::Impossible);
        };
        put_hex(alloc, bytes, answer)?;
        Ok(answer.push('\n')?)
    }
}

/// Appends whether an access is one of the file.
fn put_fits(alloc: Global, words: &[&str], answer: &mut String) -> Result<(), Halt> {
    let op = access_of(alloc, words)?;
    Ok(say_whether(answer, fits(&op, 64, 2))?)
}

/// Appends what a copy of an event is about.
fn put_copy(alloc: Global, words: &[&str], answer: &mut String) -> Result<(), Halt> {
    let event = event_of(alloc, words)?;
    let copy = event.clone()?;
    Ok(put_about(&copy, answer)?)
}

impl Subject for PlainFile {
    fn make(alloc: Global, words: &[&str]) -> Result<PlainFile, Halt> {
        match words {
            ["plain"] => Ok(fresh(alloc)?),
            _ => Err(Halt::Unread),
        }
    }

    fn step(&mut self, alloc: Global, words: &[&str], answer: &mut String) -> Result<(), Halt> {
        match words {
            ["fits", op @ ..] => put_fits(alloc, op, answer),
            ["about", event @ ..] => put_copy(alloc, event, answer),
            ["bytes", at, len] => {
                let (at, len) = two(at, len)?;
                self.put_bytes(alloc, at, len, answer)
            }
            ["length"] => Ok(self.put_length(answer)?),
            _ => self.enter(alloc, words, answer),
        }
    }
}
