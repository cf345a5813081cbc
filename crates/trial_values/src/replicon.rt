//! Replicon objects of a domain.

ghost use Rattle.std.specs.Prelude.{◌≡◌, length};

use crate::say::{bytes_of, count_of, door_of, say_door, say_hex, small_of};
use domain_doors::{Domain, NoDoor};
use marshal_buf::{Buf, Door, Reader};
use std::alloc::{AllocError, Global};
use sub_core::{ObjectErr, Route};
use sub_replicon::{REPLICON, Replicon, are_replicas};
use trial_words::say;

/// The domain of a case, and its object.
#[derive(Drop)]
pub struct ReplicaCase {
    domain: Domain,
    object: Option<Replicon>,
}

/// The doors that words say.
fn doors_of(alloc: Global, words: &[&str]) -> Result<Vec<Door>, AllocError> {
    let mut doors = Vec::new(alloc);
    for word in words {
        doors.push(door_of(word))?;
    }
    Ok(doors)
}

/// A buffer of parts: a word with a point is a door, behind its index, and any other is bytes.
fn parts_of(alloc: Global, words: &[&str]) -> Result<Option<Buf>, AllocError> {
    let mut buf = Buf::new(alloc);
    for word in words {
        if buf.bytes_len() > 1_000 || buf.doors_len() > 1_000 {
            return Ok(None);
        }
        if word.contains('.') {
            buf.put_door(door_of(word))?;
        } else {
            put_part(alloc, &mut buf, word)?;
        }
    }
    Ok(Some(buf))
}

/// Puts the bytes that a word says.
fn put_part(alloc: Global, buf: &mut Buf, word: &str) -> Result<(), AllocError> {
    let bytes = bytes_of(alloc, word)?;
    if bytes.len() > 1_000 || buf.bytes_len() > 1_000 {
        return Ok(());
    }
    buf.put_bytes(&bytes)
}

/// Receives an object, if one of the subcontract comes next.
fn received(domain: &mut Domain, from: &mut Reader<'_>) -> Option<Result<Replicon, ObjectErr>> {
    if from.copy().get_u16() != Ok(REPLICON) {
        return None;
    }
    Some(Replicon::unmarshal(domain, from))
}

/// An object of these doors, if an object may have them.
fn made(domain: &mut Domain, doors: &[Door]) -> Result<Option<Replicon>, AllocError> {
    if !are_replicas(doors) {
        return Ok(None);
    }
    Ok(Some(Replicon::new(doors, domain)?))
}

/// Where the calls on an object go.
fn say_current(object: &Replicon, domain: &Domain, answer: &mut String) -> Result<(), AllocError> {
    match object.current(domain) {
        Ok(Route { node, file }) => writeln!(answer, "node {node} file {file}"),
        Err(lacks) => writeln!(answer, "{lacks}"),
    }
}

/// How many doors an object has, and the life of the first.
fn say_object(object: &Replicon, answer: &mut String) -> Result<(), AllocError> {
    let (doors, life) = (object.doors_len(), object.life());
    writeln!(answer, "{doors} doors, life {life}")
}

impl ReplicaCase {
    /// An empty domain, and no object.
    pub fn new(alloc: Global) -> Self {
        ReplicaCase {
            domain: Domain::new(alloc),
            object: None,
        }
    }

    /// `replicon CALL ..`
    pub fn step(
        &mut self,
        alloc: Global,
        words: &[&str],
        answer: &mut String,
    ) -> Result<(), AllocError> {
        match words {
            ["new", doors @ ..] => self.begin(alloc, doors, answer),
            ["receive", skip, parts @ ..] => self.receive(alloc, small_of(skip), parts, answer),
            ["send"] => self.send(alloc, answer),
            ["copy"] => self.copy(answer),
            ["consume"] => self.consume(answer),
            ["drop"] => self.drop_current(answer),
            ["keep", k, life] => self.keep(small_of(k), small_of(life), answer),
            ["object"] => self.say(answer),
            ["add", door] => self.add(door_of(door), answer),
            ["take", id] => self.take(count_of(id) as usize, answer),
            ["look", id] => self.look(count_of(id) as usize, answer),
            _ => say(answer, "no such step"),
        }
    }

    /// The object, and where its calls go.
    fn say(&self, answer: &mut String) -> Result<(), AllocError> {
        match &self.object {
            Some(object) => {
                say_object(object, answer)?;
                say_current(object, &self.domain, answer)
            }
            None => say(answer, "no object"),
        }
    }

    /// Makes the object of these doors.
    fn begin(
        &mut self,
        alloc: Global,
        words: &[&str],
        answer: &mut String,
    ) -> Result<(), AllocError> {
        let doors = doors_of(alloc, words)?;
        self.object = made(&mut self.domain, &doors)?;
        self.say(answer)
    }

    /// Receives the object that stands behind so many bytes of these parts, and tells where the reader stands then. If it is
    /// refused, the object of before stays.
    fn receive(
        &mut self,
        alloc: Global,
        skip: u32,
        words: &[&str],
        answer: &mut String,
    ) -> Result<(), AllocError> {
        let Some(buf) = parts_of(alloc, words)? else {
            return say(answer, "impossible");
        };
        let mut from = buf.reader();
        if from.get_part(skip).is_err() {
            return say(answer, "impossible");
        }
        match received(&mut self.domain, &mut from) {
            Some(Ok(object)) => {
                self.object = Some(object);
                self.say(answer)?;
            }
            Some(Err(why)) => writeln!(answer, "{why}")?,
            None => say(answer, "another subcontract")?,
        }
        let at = from.at();
        writeln!(answer, "stands at {at}")
    }

    /// Sends the object, and tells its bytes, and how many doors are sent. If it is refused, it stays.
    fn send(&mut self, alloc: Global, answer: &mut String) -> Result<(), AllocError> {
        let Some(object) = self.object.take() else {
            return say(answer, "no object");
        };
        let mut buf = Buf::new(alloc);
        match sent(object, &mut self.domain, &mut buf) {
            Ok(()) => {
                say_hex(answer, buf.as_slice())?;
                let doors = buf.doors_len();
                writeln!(answer, "{doors} doors")
            }
            Err((why, object)) => {
                self.object = Some(object);
                writeln!(answer, "{why}")
            }
        }
    }

    /// Lets a copy of the object take its place.
    fn copy(&mut self, answer: &mut String) -> Result<(), AllocError> {
        let Some(object) = &self.object else {
            return say(answer, "no object");
        };
        match object.copy(&mut self.domain) {
            Ok(copy) => {
                self.object = Some(copy);
                self.say(answer)
            }
            Err(why) => writeln!(answer, "{why}"),
        }
    }

    /// Gives the object up.
    fn consume(&mut self, answer: &mut String) -> Result<(), AllocError> {
        let Some(object) = self.object.take() else {
            return say(answer, "no object");
        };
        match object.consume(&mut self.domain) {
            Ok(()) => say(answer, "given up"),
            Err(lacks) => writeln!(answer, "{lacks}"),
        }
    }

    /// Drops the first door, if another is left.
    fn drop_current(&mut self, answer: &mut String) -> Result<(), AllocError> {
        let Some(object) = &mut self.object else {
            return say(answer, "no object");
        };
        match object.drop_current(&mut self.domain) {
            Ok(dropped) => say(answer, if dropped { "dropped" } else { "the last door" })?,
            Err(lacks) => writeln!(answer, "{lacks}")?,
        }
        self.say(answer)
    }

    /// Keeps a life for a door.
    fn keep(&mut self, k: u32, life: u32, answer: &mut String) -> Result<(), AllocError> {
        let Some(object) = &mut self.object else {
            return say(answer, "no object");
        };
        if k >= object.doors_len() {
            return say(answer, "impossible");
        }
        object.keep_life(k, life);
        self.say(answer)
    }

    /// Takes a door into the domain, and tells its identifier.
    fn add(&mut self, door: Door, answer: &mut String) -> Result<(), AllocError> {
        let id = self.domain.add(door)?;
        writeln!(answer, "identifier {id}")
    }

    /// Takes the door of an identifier out of the domain.
    fn take(&mut self, id: usize, answer: &mut String) -> Result<(), AllocError> {
        match self.domain.take_out(id) {
            Ok(door) => say_door(answer, door),
            Err(NoDoor { id }) => writeln!(answer, "no door {id}"),
        }
    }

    /// The door of an identifier.
    fn look(&self, id: usize, answer: &mut String) -> Result<(), AllocError> {
        match self.domain.look(id) {
            Ok(door) => say_door(answer, door),
            Err(NoDoor { id }) => writeln!(answer, "no door {id}"),
        }
    }
}

/// Sends an object into an empty buffer.
fn sent(object: Replicon, domain: &mut Domain, buf: &mut Buf) -> Result<(), (ObjectErr, Replicon)>
    requires bytes { length buf.old.bytes ≡ 0 }
    requires doors { length buf.old.doors ≡ 0 }
{
    let _few = object.doors_len();
    object.marshal(domain, buf)
}
