//! A client's own entries of a part of a report, in their order.

use crate::report::{Part, Report};
use crate::wrong::{Wrong, claim};
use std::alloc::{AllocError, Global};

/// What an entry is about: its words behind its place, its caller and its number.
#[derive(Drop)]
struct Own<'a> {
    words: Vec<&'a str>,
}

/// The entries of a client in a part, and how many of them are taken.
#[derive(Drop)]
pub struct Queue<'a> {
    /// The file of the part, or nothing.
    pub name: String,
    entries: Vec<Own<'a>>,
    taken: usize,
}

/// Whether words are those that are wanted; a star is any word.
fn are_like(words: &[&str], wanted: &[&str]) -> bool {
    words.len() == wanted.len()
        && words.iter().enumerate().all(|(number, word)| {
            wanted
                .get(number)
                .is_some_and(|other| *other == "*" || other == word)
        })
}

/// Whether words are those that are wanted of a call, and behind them those of an answer.
fn is_like(words: &[&str], call: &[&str], answer: &[&str]) -> bool {
    let count = call.len().min(words.len());
    let (front, back) = words.split_at(count);
    are_like(front, call) && are_like(back, answer)
}

/// Whether a line may have made an entry on its way to another: an access of a life that is over, a path that is resolved again, or
/// an open.
fn is_on_the_way(words: &[&str]) -> bool {
    match words {
        [.., "revoked", _] => true,
        ["resolve", ..] => true,
        [_, _, "open", ..] => true,
        _ => false,
    }
}

impl<'a> Queue<'a> {
    /// The entries of a client in a part.
    pub fn of(
        alloc: Global,
        report: &Report<'a>,
        part: Part,
        name: &str,
        client: &str,
    ) -> Result<Queue<'a>, AllocError> {
        let mut entries = Vec::new(alloc);
        for entry in &report.entries {
            if entry.part == part && entry.name == name {
                put_own(alloc, &mut entries, &entry.words, client)?;
            }
        }
        Ok(Queue {
            name: String::from_str(alloc, name)?,
            entries,
            taken: 0,
        })
    }

    /// Takes the next entry, which has to be that of a call and an answer. If it may, it takes those on the way to it before.
    pub fn take(&mut self, call: &[&str], answer: &[&str], may_pass: bool) -> Result<(), Wrong> {
        for entry in self.entries.iter().skip(self.taken) {
            self.taken = self.taken.saturating_add(1);
            if is_like(&entry.words, call, answer) {
                return Ok(());
            }
            let is_passed = may_pass && is_on_the_way(&entry.words);
            claim(is_passed, "a line whose next entry is another one")?;
        }
        Err(Wrong::Said("a line without its entry"))
    }

    /// That no entry is left but those that stand on the way to none.
    pub fn end(&self, may_pass: bool) -> Result<(), Wrong> {
        let is_over = self
            .entries
            .iter()
            .skip(self.taken)
            .all(|entry| may_pass && is_on_the_way(&entry.words));
        claim(is_over, "an entry that no line made")
    }
}

/// Appends an entry, if it is the client's.
fn put_own<'a>(
    alloc: Global,
    entries: &mut Vec<Own<'a>>,
    words: &[&'a str],
    client: &str,
) -> Result<(), AllocError> {
    if let [_, caller, _, rest @ ..] = words {
        if *caller == client {
            let words = Vec::from_slice(alloc, rest)?;
            entries.push(Own { words })?;
        }
    }
    Ok(())
}
