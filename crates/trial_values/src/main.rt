//! The trial of the values: buffers, values of interfaces, frames, calls over links, objects, names and spaces.
#![tactic(auto)]

mod basic;
mod bench;
mod buffer;
mod built;
mod caching;
mod client;
mod doors;
mod frame;
mod link;
mod link_forms;
mod names;
mod packet;
mod registry;
mod replicon;
mod say;
mod space;
mod stack;
mod value;
mod wired;

use crate::buffer::Buffer;
use crate::doors::Doors;
use crate::frame::Frames;
use crate::link::LinkCase;
use crate::names::NameCase;
use crate::replicon::ReplicaCase;
use crate::space::SpaceCase;
use crate::value::Values;
use std::alloc::{AllocError, Global};
use std::io;
use std::process::ExitCode;
use std::sync::Wait;
use trial_cases::{Trial, run_trial};
use trial_words::say;

/// What the steps of a case have made so far.
#[derive(Drop)]
struct ValueTrial<'r, R> {
    rt: &'r R,
    alloc: Global,
    buffer: Buffer,
    values: Values,
    frames: Frames,
    doors: Doors,
    names: NameCase,
    replicas: ReplicaCase,
    space: SpaceCase,
    link: LinkCase,
    /// The text of a stack.
    stack: Vec<u8>,
}

impl<'r, R: Wait> ValueTrial<'r, R> {
    /// The trial before its first case.
    fn new(rt: &'r R, alloc: Global) -> Self {
        ValueTrial {
            rt,
            alloc,
            buffer: Buffer::new(alloc),
            values: Values::new(alloc),
            frames: Frames::new(alloc),
            doors: Doors::new(alloc),
            names: NameCase::new(),
            replicas: ReplicaCase::new(alloc),
            space: SpaceCase::new(),
            link: LinkCase::None,
            stack: Vec::new(alloc),
        }
    }
}

impl<'r, R: Wait> Trial for ValueTrial<'r, R> {
    fn begin(&mut self) -> Result<(), AllocError> {
        *self = ValueTrial::new(self.rt, self.alloc);
        Ok(())
    }

    fn step(&mut self, words: &[&str], body: &[u8], answer: &mut String) -> Result<(), AllocError> {
        let Some((subject, rest)) = words.split_first() else {
            return Ok(());
        };
        let alloc = self.alloc;
        if *subject == "stack" {
            self.stack = Vec::from_slice(alloc, body)?;
            return Ok(());
        }
        match *subject {
            "buffer" => self.buffer.step(alloc, rest, answer),
            "value" => self.values.step(alloc, rest, body, answer),
            "frame" => self.frames.step(alloc, rest, answer),
            "packet" => packet::step(alloc, rest, answer),
            "link" => self.link.step(self.rt, alloc, rest, answer),
            "doors" => self.doors.step(alloc, rest, answer),
            "registry" => registry::step(alloc, rest, answer),
            "replicon" => self.replicas.step(alloc, rest, answer),
            "basic" => basic::step(alloc, rest, &self.stack, answer),
            "caching" => caching::step(alloc, rest, &self.stack, answer),
            "client" => client::step(alloc, rest, &self.stack, answer),
            "names" => self.names.step(alloc, rest, &self.stack, answer),
            "space" => self.space.step(alloc, rest, &self.stack, answer),
            "bind" => space::bind(alloc, rest, &self.stack, answer),
            "stack-name" => space::name(alloc, rest, &self.stack, answer),
            _ => say(answer, "no such step"),
        }
    }
}

fn main(rt: HostRuntime) -> io::Result<ExitCode> {
    let mut trial = ValueTrial::new(&rt, rt.alloc());
    run_trial(&rt, &mut trial)
}
