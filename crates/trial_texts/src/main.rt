//! The trial of the texts: words and lines, stacks, scripts, interfaces, and what a run reads of them.
#![tactic(auto)]

mod command;
mod generated;
mod interfaces;
mod operations;
mod run;
mod say;
mod script;
mod source;
mod stack;
mod values;
mod words;

use crate::run::RunTexts;
use crate::source::Source;
use std::alloc::{AllocError, Global};
use std::io;
use std::process::ExitCode;
use trial_cases::{Trial, run_trial};
use trial_words::say;

/// What the steps of a case have made so far.
#[derive(Drop)]
struct TextTrial {
    alloc: Global,
    /// The text that the next step is over.
    source: Source,
    /// What `print` steps put together.
    printed: Vec<u8>,
    /// The shelf and the sink of a command.
    run: RunTexts,
}

impl TextTrial {
    /// The trial before its first case.
    fn new(alloc: Global) -> Result<Self, AllocError> {
        Ok(TextTrial {
            alloc,
            source: Source::new(alloc),
            printed: Vec::new(alloc),
            run: RunTexts::new(alloc)?,
        })
    }
}

impl Trial for TextTrial {
    fn begin(&mut self) -> Result<(), AllocError> {
        self.source = Source::new(self.alloc);
        self.printed = Vec::new(self.alloc);
        self.run = RunTexts::new(self.alloc)?;
        Ok(())
    }

    fn step(&mut self, words: &[&str], body: &[u8], answer: &mut String) -> Result<(), AllocError> {
        let Some((subject, rest)) = words.split_first() else {
            return Ok(());
        };
        if *subject == "text" {
            return self.source.add(rest, body);
        }
        self.source.take(body)?;
        let (alloc, text) = (self.alloc, self.source.text());
        match *subject {
            "value" => values::step(alloc, rest, answer),
            "word" => words::step(alloc, rest, answer),
            "lines" => words::lines(alloc, text, answer),
            "print" => words::print(alloc, &mut self.printed, rest, answer),
            "command" => command::step(alloc, rest, answer),
            "stack" => stack::step(alloc, rest, text, answer),
            "script" => script::step(alloc, rest, text, answer),
            "generate" => generated::step(alloc, rest, text, answer),
            "answer" => script::answer_step(alloc, rest, answer),
            "interfaces" => interfaces::step(alloc, rest, text, answer),
            "run" => self.run.step(alloc, rest, text, answer),
            _ => say(answer, "no such step"),
        }
    }
}

fn main(rt: HostRuntime) -> io::Result<ExitCode> {
    let mut trial = TextTrial::new(rt.alloc())?;
    run_trial(&rt, &mut trial)
}
