//! The trial: each step names its subject.

use crate::client::{client_step, put_events};
use crate::shared::shared_step;
use crate::volume::volume_step;
use stack_engine::Trail;
use std::alloc::{AllocError, Global};
use std::sync::Wait;
use trial_cases::Trial;
use trial_words::{Halt, end_step};

/// The trial of volumes.
#[derive(Drop)]
pub struct Volumes<'r, R> {
    rt: &'r R,
    alloc: Global,
    /// The text of the case's stack.
    stack: Vec<u8>,
    /// What happened at the file of the case's last client.
    trail: Option<Trail>,
}

impl<'r, R: Wait> Volumes<'r, R> {
    /// A trial of which no case has begun.
    pub fn new(rt: &'r R, alloc: Global) -> Self {
        Volumes {
            rt,
            alloc,
            stack: Vec::new(alloc),
            trail: None,
        }
    }

    /// Does a step.
    fn done(&mut self, words: &[&str], body: &[u8], answer: &mut String) -> Result<(), Halt> {
        let (rt, alloc) = (self.rt, self.alloc);
        match words {
            ["shared", rest @ ..] => shared_step(alloc, rest, body, answer)?,
            ["volume", rest @ ..] => volume_step(rt, alloc, rest, body, answer)?,
            ["stack"] => self.stack = Vec::from_slice(alloc, body)?,
            ["client", rest @ ..] => {
                self.trail = Some(client_step(rt, alloc, rest, &self.stack, body, answer)?);
            }
            ["events"] => match &self.trail {
                Some(trail) => put_events(trail, answer)?,
                None => return Err(Halt::Impossible),
            },
            _ => return Err(Halt::Unread),
        }
        Ok(())
    }
}

impl<'r, R: Wait> Trial for Volumes<'r, R> {
    fn begin(&mut self) -> Result<(), AllocError> {
        self.stack = Vec::new(self.alloc);
        self.trail = None;
        Ok(())
    }

    fn step(&mut self, words: &[&str], body: &[u8], answer: &mut String) -> Result<(), AllocError> {
        end_step(self.done(words, body, answer), answer)
    }
}
