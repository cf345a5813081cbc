//! The steps of a case: its texts, what its ends raise, and the sweep.

use crate::judge::Rules;
use crate::plain::End;
use crate::setting::Setting;
use crate::sweep::Sweep;
use crate::world::Texts;
use crate::wrong::Wrong;
use std::alloc::{AllocError, Global};
use std::sync::Wait;
use std::thread::Threads;
use trial_words::{long, say, say_text};

/// What the steps of a case have made so far.
#[derive(Drop)]
pub struct Case {
    alloc: Global,
    stack: String,
    script: String,
    /// A line for each node that is revoked: it, and the nodes above it.
    ends: String,
}

/// The ends of nodes that lines say.
fn ends_of<'a>(alloc: Global, text: &'a str) -> Result<Vec<End<'a>>, AllocError> {
    let mut ends = Vec::new(alloc);
    for line in text.lines() {
        let nodes: Vec<&'a str> = line.split(' ').collect(alloc)?;
        ends.push(End { nodes })?;
    }
    Ok(ends)
}

/// The numbers of words.
fn longs(alloc: Global, words: &[&str]) -> Result<Vec<u64>, Wrong> {
    let mut numbers = Vec::new(alloc);
    for word in words {
        numbers.push(long(word)?)?;
    }
    Ok(numbers)
}

impl Case {
    /// No text.
    pub fn new(alloc: Global) -> Case {
        Case {
            alloc,
            stack: String::new(alloc),
            script: String::new(alloc),
            ends: String::new(alloc),
        }
    }

    /// Does a step: `stack`, `script` and `ends` take a text, and `refused DISTANCE ..` does all runs.
    pub fn step<R: Threads + Wait + Sync>(
        &mut self,
        rt: &R,
        words: &[&str],
        body: &[u8],
        answer: &mut String,
    ) -> Result<(), AllocError> {
        match words {
            ["stack"] => say_text(self.alloc, &mut self.stack, body),
            ["script"] => say_text(self.alloc, &mut self.script, body),
            ["ends"] => say_text(self.alloc, &mut self.ends, body),
            ["refused", distances @ ..] => match self.refused(rt, distances, answer) {
                Ok(()) => Ok(()),
                Err(Wrong::Memory) => Err(AllocError),
                Err(Wrong::Said(what)) => say(answer, what),
            },
            _ => say(answer, "no such step"),
        }
    }

    /// Does all runs over the texts.
    fn refused<R: Threads + Wait + Sync>(
        &self,
        rt: &R,
        distances: &[&str],
        answer: &mut String,
    ) -> Result<(), Wrong> {
        let alloc = self.alloc;
        let texts = Texts {
            stack: self.stack.as_str(),
            script: self.script.as_str(),
        };
        let rules = Rules {
            setting: Setting::of(alloc, texts.stack)?,
            script: texts.script,
            ends: ends_of(alloc, self.ends.as_str())?,
        };
        Sweep::new(alloc, texts, rules).tell(rt, &longs(alloc, distances)?, answer)
    }
}
