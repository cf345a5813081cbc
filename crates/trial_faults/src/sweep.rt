//! Every call of the outside is refused in turn.

use crate::judge::{Rules, judge};
use crate::kinds::{Kind, Refusal, kinds_of};
use crate::outcome::Outcome;
use crate::world::{Texts, format_and_run};
use crate::wrong::{Wrong, claim};
use std::alloc::{AllocError, Global};
use std::sync::Wait;
use std::thread::Threads;
use trial_words::{say, say_text};

/// The most calls of a kind that are refused in turn.
const MOST: u64 = 200;

/// What was found so far.
#[derive(Drop)]
struct Found {
    /// The kinds of which a call was refused.
    kinds: u32,
    /// The runs that were judged.
    runs: u32,
    /// The runs that are not right.
    wrong: u32,
    /// What is told of the first of them.
    first: String,
}

/// The sweep of a script.
#[derive(Drop)]
pub struct Sweep<'a> {
    alloc: Global,
    texts: Texts<'a>,
    rules: Rules<'a>,
    /// What a run writes of which no call is refused.
    whole: Vec<u8>,
    found: Found,
}

impl<'a> Sweep<'a> {
    /// A sweep before its first run.
    pub fn new(alloc: Global, texts: Texts<'a>, rules: Rules<'a>) -> Sweep<'a> {
        Sweep {
            alloc,
            texts,
            rules,
            whole: Vec::new(alloc),
            found: Found {
                kinds: 0,
                runs: 0,
                wrong: 0,
                first: String::new(alloc),
            },
        }
    }

    /// Does all runs, and tells of how many kinds a call was refused, how many runs there were, and how many are not right.
    pub fn tell<R: Threads + Wait + Sync>(
        &mut self,
        rt: &R,
        distances: &[u64],
        answer: &mut String,
    ) -> Result<(), Wrong> {
        let whole = self.run(rt, &[])?;
        claim(whole.run.status == 0, "a run without a refusal is refused")?;
        self.whole = Vec::from_slice(self.alloc, &whole.run.text)?;
        self.take(&whole, &[])?;
        self.sweep(rt, distances)?;
        let (kinds, runs, wrong) = (self.found.kinds, self.found.runs, self.found.wrong);
        writeln!(answer, "{kinds} kinds of calls")?;
        writeln!(answer, "{runs} runs")?;
        writeln!(answer, "{wrong} wrong")?;
        answer.push_str(self.found.first.as_str())?;
        Ok(())
    }

    /// A run of which these calls are refused.
    fn run<R: Threads + Wait + Sync>(
        &self,
        rt: &R,
        refused: &[Refusal<'_>],
    ) -> Result<Outcome, Wrong> {
        format_and_run(rt, self.alloc, &self.texts, &self.rules.setting, refused)
    }

    /// Judges a run.
    fn take(&mut self, outcome: &Outcome, refused: &[Refusal<'_>]) -> Result<(), Wrong> {
        self.found.runs = self.found.runs.saturating_add(1);
        match judge(self.alloc, &self.rules, &self.whole, outcome) {
            Ok(()) => Ok(()),
            Err(Wrong::Memory) => Err(Wrong::Memory),
            Err(Wrong::Said(what)) => {
                if self.found.wrong == 0 {
                    self.note(outcome, refused, what)?;
                }
                self.found.wrong = self.found.wrong.saturating_add(1);
                Ok(())
            }
        }
    }

    /// Notes what is wrong with the first run that is not right.
    fn note(
        &mut self,
        outcome: &Outcome,
        refused: &[Refusal<'_>],
        what: &str,
    ) -> Result<(), AllocError> {
        for one in refused {
            let (call, disk, file, ordinal) = (
                one.kind.call,
                one.kind.disk,
                one.kind.file,
                one.ordinal,
            );
            writeln!(self.found.first, "{call:?} {ordinal} {disk} {file}")?;
        }
        say(&mut self.found.first, what)?;
        say_text(self.alloc, &mut self.found.first, &outcome.format.text)?;
        say_text(self.alloc, &mut self.found.first, &outcome.run.text)?;
        say_text(self.alloc, &mut self.found.first, &outcome.run.notices)
    }

    /// Refuses the calls of each kind.
    fn sweep<R: Threads + Wait + Sync>(&mut self, rt: &R, distances: &[u64]) -> Result<(), Wrong> {
        let kinds = kinds_of(self.alloc, &self.rules.setting)?;
        for (number, kind) in kinds.iter().enumerate() {
            let last = self.each_call(rt, *kind)?;
            if last > 0 {
                self.found.kinds = self.found.kinds.saturating_add(1);
            }
            // The sink is the last kind, and its calls are refused beside no other's.
            let beside = number.saturating_add(1);
            let is_beside = beside.saturating_add(1) < kinds.len();
            let other = if is_beside {
                kinds.get(beside).copied()
            } else {
                None
            };
            self.pairs(rt, *kind, other, last, distances)?;
        }
        Ok(())
    }

    /// Refuses each call of a kind in turn, and answers how many there are.
    fn each_call<R: Threads + Wait + Sync>(
        &mut self,
        rt: &R,
        kind: Kind<'a>,
    ) -> Result<u64, Wrong> {
        for ordinal in 1..=MOST {
            let refused = [Refusal { kind, ordinal }];
            let outcome = self.run(rt, &refused)?;
            self.take(&outcome, &refused)?;
            if !outcome.was_refused(&kind) {
                return Ok(ordinal - 1);
            }
        }
        Err(Wrong::Said("no run met no refusal"))
    }

    /// Refuses two calls at each distance.
    fn pairs<R: Threads + Wait + Sync>(
        &mut self,
        rt: &R,
        kind: Kind<'a>,
        other: Option<Kind<'a>>,
        last: u64,
        distances: &[u64],
    ) -> Result<(), Wrong> {
        for distance in distances {
            self.pairs_at(rt, kind, kind, last, *distance)?;
            if let Some(other) = other {
                self.pairs_at(rt, kind, other, last, *distance)?;
            }
        }
        Ok(())
    }

    /// Refuses each call of a kind, and with it the call of a kind at a distance.
    fn pairs_at<R: Threads + Wait + Sync>(
        &mut self,
        rt: &R,
        kind: Kind<'a>,
        other: Kind<'a>,
        last: u64,
        distance: u64,
    ) -> Result<(), Wrong> {
        for ordinal in 1..=last {
            let later = Refusal {
                kind: other,
                ordinal: ordinal.saturating_add(distance),
            };
            let refused = [Refusal { kind, ordinal }, later];
            let outcome = self.run(rt, &refused)?;
            self.take(&outcome, &refused)?;
        }
        Ok(())
    }
}
