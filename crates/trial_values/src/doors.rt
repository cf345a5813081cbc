//! The doors that a domain holds.

use crate::say::{count_of, door_of, say_door};
use domain_doors::{Domain, DoorErr, NoDoor};
use std::alloc::{AllocError, Global};
use trial_words::say;

/// A word of a case for the identifier of a door.
#[derive(Drop)]
struct Held {
    word: String,
    id: usize,
}

/// The domain of a case.
#[derive(Drop)]
pub struct Doors {
    domain: Domain,
    held: Vec<Held>,
}

/// The identifier that a word was given; a number stands for itself.
fn id_of(held: &[Held], word: &str) -> usize {
    match held.iter().find(|door| door.word.as_str() == word) {
        Some(door) => door.id,
        None => count_of(word) as usize,
    }
}

/// Tells that there is no door of the identifier that was asked for.
fn lacking(answer: &mut String, asked: usize, told: usize) -> Result<(), AllocError> {
    say(
        answer,
        if asked == told {
            "no door"
        } else {
            "no door of another identifier"
        },
    )
}

impl Doors {
    /// A domain without doors.
    pub fn new(alloc: Global) -> Self {
        Doors {
            domain: Domain::new(alloc),
            held: Vec::new(alloc),
        }
    }

    /// `doors CALL ..`
    pub fn step(
        &mut self,
        alloc: Global,
        words: &[&str],
        answer: &mut String,
    ) -> Result<(), AllocError> {
        match words {
            ["add", word, door] => {
                let id = self.domain.add(door_of(door))?;
                self.keep(alloc, word, id, answer)
            }
            ["copy", word, other] => {
                let id = id_of(&self.held, word);
                match self.domain.copy(id) {
                    Ok(copy) => self.keep(alloc, other, copy, answer),
                    Err(DoorErr::NoDoor { id: told }) => lacking(answer, id, told),
                    Err(DoorErr::Memory) => say(answer, "memory"),
                }
            }
            ["id", word] => {
                let id = id_of(&self.held, word);
                writeln!(answer, "identifier {id}")
            }
            ["look", word] => {
                let id = id_of(&self.held, word);
                match self.domain.look(id) {
                    Ok(door) => say_door(answer, door),
                    Err(NoDoor { id: told }) => lacking(answer, id, told),
                }
            }
            ["exchange", word, door] => {
                let id = id_of(&self.held, word);
                match self.domain.exchange(id, door_of(door)) {
                    Ok(had) => say_door(answer, had),
                    Err(NoDoor { id: told }) => lacking(answer, id, told),
                }
            }
            ["take", word] => {
                let id = id_of(&self.held, word);
                match self.domain.take_out(id) {
                    Ok(door) => say_door(answer, door),
                    Err(NoDoor { id: told }) => lacking(answer, id, told),
                }
            }
            _ => say(answer, "no such step"),
        }
    }

    /// Gives an identifier a word, and tells whether no other word has it.
    fn keep(
        &mut self,
        alloc: Global,
        word: &str,
        id: usize,
        answer: &mut String,
    ) -> Result<(), AllocError> {
        let is_new = self.held.iter().all(|door| door.id != id);
        let word = String::from_str(alloc, word)?;
        self.held.push(Held { word, id })?;
        say(
            answer,
            if is_new {
                "an identifier of its own"
            } else {
                "an identifier of another"
            },
        )
    }
}
