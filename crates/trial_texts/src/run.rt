//! What a run reads before it takes a store, and what is written where it is refused.

ghost use Rattle.std.specs.Prelude.{◌≡◌};
ghost use Rattle.script_text.specs.Grammar.{IsScript};

use crate::generated::limited;
use crate::say::{count_of, say_number};
use pager_channel::{Operation, Ops};
use run_texts::{
    Refusal, TextNames, operation_name, read_generated, read_run, read_stack, read_tables, refuse,
    unknown_line,
};
use script_text::{Script, parse_script, print_script};
use spr_io::{MemShelf, MemSink};
use stack_accept::Mounted;
use std::alloc::{AllocError, Global};
use trial_words::{say, say_text};
use value_types::Text;

/// The shelf of a command, and the writes of its sink that are to fail.
#[derive(Drop)]
pub struct RunTexts {
    shelf: MemShelf,
    fails: Vec<u64>,
}

/// The names of a command's texts.
const NAMES: TextNames<'static> = TextNames {
    idl: "I",
    stack: "S",
    script: "T",
};

/// Appends what a run was given.
fn say_run(
    mount: &Mounted,
    script: &Script,
    ops: &Ops,
    answer: &mut String,
) -> Result<(), AllocError> {
    let (disks, nodes) = (mount.disks().len(), mount.nodes().len());
    let phases = script.phases.as_slice().len();
    writeln!(answer, "{disks} disks, {nodes} nodes, {phases} phases")?;
    for which in [Operation::SetLength, Operation::Done] {
        let (name, number) = (operation_name(which), ops.number(which));
        writeln!(answer, "{name} {number}")?;
    }
    Ok(())
}

/// Appends what a run was given whose script was made, and the text of that.
fn say_generated(
    alloc: Global,
    mount: &Mounted,
    script: &Script,
    ops: &Ops,
    answer: &mut String,
) -> Result<(), AllocError>
    requires { IsScript script.now }
{
    say_run(mount, script, ops, answer)?;
    match unknown_line(mount, script) {
        Some(line) => writeln!(answer, "unknown {line}")?,
        None => {}
    }
    let printed = print_script(alloc, script)?;
    say_text(alloc, answer, printed.as_slice())
}

/// The numbers that words say.
fn numbers(alloc: Global, words: &[&str]) -> Result<Vec<u64>, AllocError> {
    let mut numbers = Vec::new(alloc);
    for word in words {
        numbers.push(count_of(word))?;
    }
    Ok(numbers)
}

impl RunTexts {
    /// No text, and nothing that fails.
    pub fn new(alloc: Global) -> Result<Self, AllocError> {
        Ok(RunTexts {
            shelf: MemShelf::new(alloc, &[])?,
            fails: Vec::new(alloc),
        })
    }

    /// `run CALL ..`; a text that is named stands on the shelf.
    pub fn step(
        &mut self,
        alloc: Global,
        words: &[&str],
        text: &[u8],
        answer: &mut String,
    ) -> Result<(), AllocError> {
        match words {
            ["put", name] => self.shelf.put(alloc, name, text),
            ["failing", "reads", rest @ ..] => {
                self.shelf = MemShelf::new(alloc, &numbers(alloc, rest)?)?;
                Ok(())
            }
            ["failing", "writes", rest @ ..] => {
                self.fails = numbers(alloc, rest)?;
                Ok(())
            }
            ["read", idl, stack, script] => {
                let names = TextNames { idl, stack, script };
                self.read(alloc, &names, answer)
            }
            ["generate", idl, stack, seed, calls] => {
                let names = TextNames {
                    idl,
                    stack,
                    script: "",
                };
                self.generate(alloc, &names, seed, calls, answer)
            }
            ["refuse", rest @ ..] => self.refuse_for(alloc, rest, answer),
            ["unknown", stack] => self.unknown(alloc, stack, text, answer),
            [call, name] => self.one(alloc, call, name, answer),
            _ => say(answer, "no such step"),
        }
    }

    /// Appends what is written for a refusal, and the status that is answered.
    fn say_refusal(
        &self,
        alloc: Global,
        names: &TextNames<'_>,
        refusal: Refusal,
        answer: &mut String,
    ) -> Result<(), AllocError> {
        let mut sink = MemSink::new(alloc, 3, &self.fails)?;
        let status = refuse(&mut sink, names, refusal).number();
        say_text(alloc, answer, sink.bytes())?;
        if !sink.bytes().ends_with(b"\n") {
            say(answer, "..")?;
        }
        writeln!(answer, "answered {status}")
    }

    /// `run refuse WORD ..`: what is written for a refusal that no text of a case has.
    fn refuse_for(
        &self,
        alloc: Global,
        words: &[&str],
        answer: &mut String,
    ) -> Result<(), AllocError> {
        let refusal = match words {
            ["file", "unknown"] => Refusal::FileUnknown,
            ["memory"] => Refusal::Memory,
            ["idl", "shelf"] => Refusal::IdlShelf,
            _ => return say(answer, "no such refusal"),
        };
        self.say_refusal(alloc, &NAMES, refusal, answer)
    }

    /// `run read IDL STACK SCRIPT`: reads the texts of these names.
    fn read(
        &mut self,
        alloc: Global,
        names: &TextNames<'_>,
        answer: &mut String,
    ) -> Result<(), AllocError> {
        let idl = Text::of(alloc, names.idl)?;
        let stack = Text::of(alloc, names.stack)?;
        let script = Text::of(alloc, names.script)?;
        match read_run(alloc, &mut self.shelf, &idl, &stack, &script) {
            Ok((mount, script, ops)) => say_run(&mount, &script, &ops, answer),
            Err(refusal) => self.say_refusal(alloc, names, refusal, answer),
        }
    }

    /// `run generate IDL STACK SEED CALLS`: reads the texts of these names, and makes the script.
    fn generate(
        &mut self,
        alloc: Global,
        names: &TextNames<'_>,
        seed: &str,
        calls: &str,
        answer: &mut String,
    ) -> Result<(), AllocError> {
        let idl = Text::of(alloc, names.idl)?;
        let stack = Text::of(alloc, names.stack)?;
        let Some((seed, calls)) = limited(seed, calls) else {
            return say(answer, "above a limit");
        };
        match read_generated(alloc, &mut self.shelf, &idl, &stack, seed, calls) {
            Ok((mount, script, ops)) => say_generated(alloc, &mount, &script, &ops, answer),
            Err(refusal) => self.say_refusal(alloc, names, refusal, answer),
        }
    }

    /// `run tables NAME` and `run stack NAME`: reads the one text of a name.
    fn one(
        &mut self,
        alloc: Global,
        call: &str,
        name: &str,
        answer: &mut String,
    ) -> Result<(), AllocError> {
        let text = Text::of(alloc, name)?;
        let read = match call {
            "tables" => match read_tables(alloc, &mut self.shelf, &text) {
                Ok(lines) => return say_text(alloc, answer, lines.as_slice()),
                Err(refusal) => Err(refusal),
            },
            "stack" => read_stack(alloc, &mut self.shelf, &text),
            _ => return say(answer, "no such step"),
        };
        match read {
            Ok(_) => say(answer, "mounted"),
            Err(refusal) => self.say_refusal(alloc, &NAMES, refusal, answer),
        }
    }

    /// `run unknown STACK`: the first line of a script that names what the stack of a name does not have.
    fn unknown(
        &mut self,
        alloc: Global,
        stack: &str,
        text: &[u8],
        answer: &mut String,
    ) -> Result<(), AllocError> {
        let name = Text::of(alloc, stack)?;
        let Ok(mount) = read_stack(alloc, &mut self.shelf, &name) else {
            return say(answer, "no stack");
        };
        let Ok(script) = parse_script(alloc, text) else {
            return say(answer, "no script");
        };
        say_number(answer, unknown_line(&mount, &script).map(u64::from))
    }
}
