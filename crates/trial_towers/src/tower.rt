//! A tower over disk 0 and file 0 of pages of 64 bytes: how far each try of a caller gets, and what is left when it is closed.

use hist_plain::{Keep, Op, fits};
use stack_engine::{End, Tower, Trail};
use std::alloc::Global;
use trial_parts::{
    Ram, Subject, access_of, asked, first_bytes, is_layer, keep_of, pages_and_tree, put_moved,
    refused_write, tower_of,
};
use trial_words::{Halt, long, number, put_hex, two};

/// The disk and the trail that a closed tower left.
#[derive(Drop)]
struct Left {
    disk: Ram,
    trail: Trail,
}

/// A tower while it is open, and what it left.
#[derive(Drop)]
pub struct Driven {
    tower: Option<Tower<Ram>>,
    left: Option<Left>,
}

/// One try of an access, of a life of the layer, or else of its present one.
fn try_access(
    alloc: Global,
    tower: &mut Tower<Ram>,
    caller: u32,
    node: u32,
    life: Option<u32>,
    op: &Op,
    answer: &mut String,
) -> Result<(), Halt> {
    let file = tower.file();
    if !is_layer(tower, node) || !fits(op, file.page_size, file.pages) {
        return Err(Halt::Impossible);
    }
    let place = tower.number(caller);
    let life = life.unwrap_or(tower.life(node));
    let mut out = vec![in alloc; 0u8; asked(op)]?;
    let moved = tower.advance(caller, place, node, life, op, &mut out);
    put_moved(alloc, &moved, &out, answer)?;
    Ok(answer.push('\n')?)
}

/// One try of a sync, from the present place on.
fn try_sync(
    alloc: Global,
    tower: &mut Tower<Ram>,
    caller: u32,
    node: u32,
    keep: Keep,
    answer: &mut String,
) -> Result<(), Halt> {
    if !is_layer(tower, node) {
        return Err(Halt::Impossible);
    }
    let (place, from) = (tower.number(caller), tower.len());
    let moved = tower.advance_sync(caller, place, node, from, keep);
    put_moved(alloc, &moved, &[], answer)?;
    Ok(answer.push('\n')?)
}

/// One try to end the channels of a layer's files.
fn try_end(
    alloc: Global,
    tower: &mut Tower<Ram>,
    caller: u32,
    node: u32,
    end: End,
    answer: &mut String,
) -> Result<(), Halt> {
    if !is_layer(tower, node) {
        return Err(Halt::Impossible);
    }
    let place = tower.number(caller);
    let moved = tower.advance_end(caller, place, node, end);
    put_moved(alloc, &moved, &[], answer)?;
    Ok(answer.push('\n')?)
}

/// The access of some words, of a life that they say, or else of the present one.
fn try_words(
    alloc: Global,
    tower: &mut Tower<Ram>,
    caller: u32,
    node: u32,
    words: &[&str],
    answer: &mut String,
) -> Result<(), Halt> {
    let (life, op) = match words {
        ["of", life, op @ ..] => (Some(number(life)?), op),
        op => (None, op),
    };
    let op = access_of(alloc, op)?;
    try_access(alloc, tower, caller, node, life, &op, answer)
}

/// Appends the first bytes of a frame or a packet, so many at most.
fn put_start(alloc: Global, bytes: &[u8], most: usize, answer: &mut String) -> Result<(), Halt> {
    put_hex(alloc, &bytes[..bytes.len().min(most)], answer)?;
    Ok(answer.push('\n')?)
}

/// Appends how the two frames of the last message begin: a head, and the first three bytes of the data.
fn put_frames(alloc: Global, tower: &Tower<Ram>, answer: &mut String) -> Result<(), Halt> {
    let (first, second) = tower.frames();
    put_start(alloc, first, 27, answer)?;
    put_start(alloc, second, 27, answer)
}

/// Appends how the packets of the two frames begin: both machines, a head, and the first three bytes of the data.
fn put_packets(alloc: Global, tower: &Tower<Ram>, answer: &mut String) -> Result<(), Halt> {
    let (first, second) = tower.packets();
    if first.is_empty() && second.is_empty() {
        return Ok(answer.push_str("no packets\n")?);
    }
    put_start(alloc, first, 35, answer)?;
    put_start(alloc, second, 35, answer)
}

/// Does a step of an open tower: a try, its frames, or room and turns.
fn over_open(
    alloc: Global,
    tower: &mut Tower<Ram>,
    words: &[&str],
    answer: &mut String,
) -> Result<(), Halt> {
    match words {
        [caller, "at", node, "sync", keep] => {
            let (caller, node) = two(caller, node)?;
            try_sync(alloc, tower, caller, node, keep_of(keep)?, answer)
        }
        [caller, "at", node, "revoke"] => {
            let (caller, node) = two(caller, node)?;
            try_end(alloc, tower, caller, node, End::Destroy, answer)
        }
        [caller, "at", node, "release"] => {
            let (caller, node) = two(caller, node)?;
            try_end(alloc, tower, caller, node, End::Done, answer)
        }
        [caller, "at", node, op @ ..] => {
            let (caller, node) = two(caller, node)?;
            try_words(alloc, tower, caller, node, op, answer)
        }
        ["frames"] => put_frames(alloc, tower, answer),
        ["packets"] => put_packets(alloc, tower, answer),
        ["events"] => Ok(writeln!(answer, "{} events", tower.len())?),
        ["reserve", reads] => Ok(tower.reserve(number(reads)?)?),
        ["give", "up", caller] => {
            tower.give_up(number(caller)?);
            Ok(())
        }
        _ => Err(Halt::Unread),
    }
}

impl Left {
    /// Does a step: the first bytes of a page of the disk, the events, and what they read or wrote.
    fn look(&mut self, alloc: Global, words: &[&str], answer: &mut String) -> Result<(), Halt> {
        match words {
            ["disk", page] => put_hex(alloc, &first_bytes(&mut self.disk, number(page)?)?, answer)?,
            ["bytes", place] => put_hex(alloc, self.trail.bytes(long(place)?), answer)?,
            ["events"] => write!(answer, "{} events", self.trail.len())?,
            ["caller", caller] => {
                write!(answer, "{} events", self.trail.number(number(caller)?))?;
            }
            _ => return Err(Halt::Unread),
        }
        Ok(answer.push('\n')?)
    }
}

impl Driven {
    /// Closes the tower.
    fn close(&mut self) -> Result<(), Halt> {
        match self.tower.take() {
            Some(tower) => {
                let (disk, trail) = tower.close();
                self.left = Some(Left { disk, trail });
                Ok(())
            }
            None => Err(Halt::Impossible),
        }
    }
}

impl Subject for Driven {
    fn make(alloc: Global, words: &[&str]) -> Result<Driven, Halt> {
        let ["tower", rest @ ..] = words else {
            return Err(Halt::Unread);
        };
        let (fails_at, words) = refused_write(rest)?;
        let (pages, tree) = pages_and_tree(words)?;
        let tower = tower_of(alloc, tree, pages, fails_at)?;
        Ok(Driven {
            tower: Some(tower),
            left: None,
        })
    }

    fn step(&mut self, alloc: Global, words: &[&str], answer: &mut String) -> Result<(), Halt> {
        if let ["close"] = words {
            return self.close();
        }
        if let Some(tower) = &mut self.tower {
            return over_open(alloc, tower, words, answer);
        }
        match &mut self.left {
            Some(left) => left.look(alloc, words, answer),
            None => Err(Halt::Impossible),
        }
    }
}
