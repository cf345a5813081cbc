//! The trial of readers: every prefix of a text, and many changes of it, are read, and what comes of each is held against the laws
//! of its reader.
#![tactic(auto)]

mod draws;
mod frames;
mod images;
mod interfaces;
mod laws;
mod links;
mod packets;
mod scripts;
mod seeds;
mod stacks;
mod tally;
mod tokens;
mod values;

use crate::frames::FrameLaw;
use crate::images::ImageLaw;
use crate::interfaces::IdlLaw;
use crate::links::{ReplyLaw, RequestLaw};
use crate::packets::PacketLaw;
use crate::scripts::ScriptLaw;
use crate::seeds::{hex_lines, try_seed};
use crate::stacks::StackLaw;
use std::alloc::{AllocError, Global};
use std::io;
use std::process::ExitCode;
use trial_cases::{Trial, run_trial};
use trial_words::{Halt, end_step, number};

/// What the steps of a case have made so far.
#[derive(Drop)]
struct ByteTrial {
    alloc: Global,
    /// The text of interfaces whose types the values have.
    types: Vec<u8>,
}

impl ByteTrial {
    /// The trial before its first case.
    fn new(alloc: Global) -> Self {
        ByteTrial {
            alloc,
            types: Vec::new(alloc),
        }
    }

    /// Does a step over a seed.
    fn done(&mut self, words: &[&str], body: &[u8], answer: &mut String) -> Result<(), Halt> {
        match words {
            ["types"] => {
                self.types = Vec::from_slice(self.alloc, body)?;
                Ok(())
            }
            ["stack" | "script" | "interfaces", draws] => self.text(words, body, draws, answer),
            [_, draws, ..] => self.bytes(words, body, draws, answer),
            _ => Err(Halt::Unread),
        }
    }

    /// `stack DRAWS`, `script DRAWS` or `interfaces DRAWS`: the seed is the body.
    fn text(
        &self,
        words: &[&str],
        seed: &[u8],
        draws: &str,
        answer: &mut String,
    ) -> Result<(), Halt> {
        let (alloc, draws) = (self.alloc, number(draws)?);
        match words {
            ["stack", ..] => try_seed(alloc, &StackLaw, seed, draws, answer),
            ["script", ..] => try_seed(alloc, &ScriptLaw, seed, draws, answer),
            _ => try_seed(alloc, &IdlLaw, seed, draws, answer),
        }
    }

    /// `frame DRAWS`, `packet DRAWS`, `request DRAWS`, `reply DRAWS`, `image DRAWS PAGES` or `value DRAWS TYPE`: the seed is what the body says in hexadecimal.
    fn bytes(
        &self,
        words: &[&str],
        body: &[u8],
        draws: &str,
        answer: &mut String,
    ) -> Result<(), Halt> {
        let (alloc, draws) = (self.alloc, number(draws)?);
        let seed = hex_lines(alloc, body)?;
        match words {
            ["frame", _] => try_seed(alloc, &FrameLaw, &seed, draws, answer),
            ["packet", _] => try_seed(alloc, &PacketLaw, &seed, draws, answer),
            ["request", _] => try_seed(alloc, &RequestLaw, &seed, draws, answer),
            ["reply", _] => try_seed(alloc, &ReplyLaw, &seed, draws, answer),
            ["image", _, pages] => {
                let law = ImageLaw {
                    pages: number(pages)?,
                };
                try_seed(alloc, &law, &seed, draws, answer)
            }
            ["value", _, ty] => values::try_values(alloc, &self.types, ty, &seed, draws, answer),
            _ => Err(Halt::Unread),
        }
    }
}

impl Trial for ByteTrial {
    fn begin(&mut self) -> Result<(), AllocError> {
        *self = ByteTrial::new(self.alloc);
        Ok(())
    }

    fn step(&mut self, words: &[&str], body: &[u8], answer: &mut String) -> Result<(), AllocError> {
        end_step(self.done(words, body, answer), answer)
    }
}

fn main(rt: HostRuntime) -> io::Result<ExitCode> {
    let mut trial = ByteTrial::new(rt.alloc());
    run_trial(&rt, &mut trial)
}
