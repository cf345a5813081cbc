//! Which calls are to fail.

use crate::halt::Halt;
use std::alloc::Global;

/// The names of calls, each with the ordinals of those that are to fail behind it: `read 3 flush 1 2`.
#[derive(Drop)]
pub struct Failing<'a, 'b> {
    words: &'a [&'b str],
}

/// Whether a word is one of some others.
fn is_among(word: &str, others: &[&str]) -> bool {
    others.iter().any(|other| *other == word)
}

impl<'a, 'b> Failing<'a, 'b> {
    /// Those of some words, each of which has to be an ordinal or one of these names.
    pub fn of(words: &'a [&'b str], names: &[&str]) -> Result<Self, Halt> {
        for word in words {
            if word.parse::<u64>().is_err() && !is_among(word, names) {
                return Err(Halt::Unread);
            }
        }
        Ok(Failing { words })
    }

    /// The ordinals of the calls of a name, counted from 1: `read 3 flush 1 2` has 1 and 2 for `flush`.
    pub fn ordinals(&self, alloc: Global, name: &str) -> Result<Vec<u64>, Halt> {
        let mut ordinals = Vec::new(alloc);
        let mut is_named = false;
        for word in self.words {
            match word.parse::<u64>() {
                Ok(ordinal) if is_named => ordinals.push(ordinal).map_err(|_| Halt::Memory)?,
                Ok(_) => {}
                Err(_) => is_named = *word == name,
            }
        }
        Ok(ordinals)
    }
}
