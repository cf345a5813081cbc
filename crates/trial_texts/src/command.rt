//! What the words of the command line ask for.

use crate::say::plain;
use spr_run::{Asked, WordsErr, read_words};
use std::alloc::{AllocError, Global};
use trial_words::say;
use value_types::Text;

/// `command WORD ..`: the command that the words ask for.
pub fn step(alloc: Global, words: &[&str], answer: &mut String) -> Result<(), AllocError> {
    let mut texts = Vec::new(alloc);
    for word in words {
        texts.push(Text::of(alloc, plain(word))?)?;
    }
    match read_words(alloc, &texts) {
        Ok(asked) => say_asked(answer, &asked),
        Err(WordsErr::Usage) => say(answer, "usage"),
        Err(WordsErr::Memory) => say(answer, "memory"),
    }
}

/// Appends a name that a command has; `''` stands for the empty one.
fn say_named(answer: &mut String, what: &str, name: &Text) -> Result<(), AllocError> {
    let name = if name.as_str() == "" {
        "''"
    } else {
        name.as_str()
    };
    writeln!(answer, "{what} {name}")
}

/// Appends the number by which the links of a run lose packets, if there is one.
fn say_loss(answer: &mut String, loss: Option<u32>) -> Result<(), AllocError> {
    match loss {
        Some(every) => writeln!(answer, "loss {every}"),
        None => Ok(()),
    }
}

/// Appends a command and its names.
fn say_asked(answer: &mut String, asked: &Asked) -> Result<(), AllocError> {
    match asked {
        Asked::Run {
            trace,
            loss,
            idl,
            stack,
            script,
        } => {
            say(answer, if *trace { "traced run" } else { "run" })?;
            say_loss(answer, *loss)?;
            say_named(answer, "idl", idl)?;
            say_named(answer, "stack", stack)?;
            say_named(answer, "script", script)
        }
        Asked::Gen {
            idl,
            stack,
            seed,
            calls,
        } => {
            say(answer, "gen")?;
            say_named(answer, "idl", idl)?;
            say_named(answer, "stack", stack)?;
            writeln!(answer, "seed {seed}\ncalls {calls}")
        }
        Asked::Check { stack } => {
            say(answer, "check")?;
            say_named(answer, "stack", stack)
        }
        Asked::Format { stack } => {
            say(answer, "format")?;
            say_named(answer, "stack", stack)
        }
        Asked::Dump { stack, file } => {
            say(answer, "dump")?;
            say_named(answer, "stack", stack)?;
            say_named(answer, "file", file)
        }
        Asked::Disks { stack } => {
            say(answer, "disks")?;
            say_named(answer, "stack", stack)
        }
        Asked::Idl { idl } => {
            say(answer, "tables")?;
            say_named(answer, "idl", idl)
        }
    }
}
