//! The answers to the steps of cases are compared.

use crate::files::{CaseFile, exit_code, read_files};
use crate::steps::{Step, steps_of};
use crate::trial::Trial;
use std::alloc::{AllocError, Global};
use std::io;
use std::process::ExitCode;
use std::rt::{Env, Files};

/// What was found in a file so far.
#[derive(Drop)]
pub struct Count {
    cases: usize,
    steps: usize,
    wrong: usize,
}

/// Ends the last line of an answer: a backslash stands where it has no line feed.
fn end_line(answer: &mut String) -> Result<(), AllocError> {
    if answer.is_empty() || answer.ends_with('\n') {
        return Ok(());
    }
    answer.push_str("\\\n")
}

impl Count {
    /// No step so far.
    pub fn new() -> Count {
        Count {
            cases: 0,
            steps: 0,
            wrong: 0,
        }
    }

    /// Counts a step of the file of a name, and tells it if its answer is another than is wanted.
    pub fn judge<R: Print>(
        &mut self,
        rt: &R,
        name: &str,
        step: &Step<'_>,
        answer: &mut String,
    ) -> io::Result<()> {
        end_line(answer)?;
        self.steps = self.steps.saturating_add(1);
        if step.begins {
            self.cases = self.cases.saturating_add(1);
        }
        if answer.as_str() == step.wanted.as_str() {
            return Ok(());
        }
        self.wrong = self.wrong.saturating_add(1);
        let (line, words) = (step.line, step.words);
        let (wanted, found) = (step.wanted.as_str(), answer.as_str());
        print!(rt; "{name}:{line}: {words}\nwanted:\n{wanted}found:\n{found}")
    }

    /// Tells how many cases and steps there were, and answers whether all were as wanted.
    pub fn end<R: Print>(&self, rt: &R, name: &str) -> io::Result<bool> {
        let (cases, steps) = (self.cases, self.steps);
        println!(rt; "{name}: {cases} cases, {steps} steps")?;
        Ok(self.wrong == 0)
    }
}

/// Does the cases of a file, tells each step whose answer is another than is wanted and how many cases and steps there were, and
/// answers whether all were as wanted.
pub fn try_file<R: Print, T: Trial>(
    rt: &R,
    alloc: Global,
    file: &CaseFile,
    trial: &mut T,
) -> io::Result<bool> {
    let (name, steps) = (file.name.as_str(), steps_of(alloc, file.text.as_str())?);
    let mut count = Count::new();
    for step in &steps {
        if step.begins {
            trial.begin()?;
        }
        let words: Vec<&str> = step.words.split(' ').collect(alloc)?;
        let mut answer = String::new(alloc);
        trial.step(&words, &step.body, &mut answer)?;
        count.judge(rt, name, step, &mut answer)?;
    }
    count.end(rt, name)
}

/// Does the cases of each file that the program's words name, and answers 0 if all were as wanted.
pub fn run_trial<R: Print + Env + Files + AllocGlobal, T: Trial>(
    rt: &R,
    trial: &mut T,
) -> io::Result<ExitCode> {
    let mut is_good = true;
    for file in &read_files(rt)? {
        is_good &= try_file(rt, rt.alloc(), file, trial)?;
    }
    Ok(exit_code(is_good))
}
