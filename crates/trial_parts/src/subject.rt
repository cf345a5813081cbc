//! What the cases of a file are about.

use std::alloc::{AllocError, Global};
use std::io;
use trial_cases::{CaseFile, Trial, try_file};
use trial_words::{Halt, end_step};

/// What the cases of a file are about.
pub trait Subject {
    /// Makes it of the words of a case's first step.
    fn make(alloc: Global, words: &[&str]) -> Result<Self, Halt>;

    /// Does another step.
    fn step(&mut self, alloc: Global, words: &[&str], answer: &mut String) -> Result<(), Halt>;
}

/// A case, once its first step is done.
#[derive(Drop)]
struct Case<S> {
    alloc: Global,
    subject: Option<S>,
}

impl<S: Subject + Drop> Case<S> {
    /// No step is done.
    fn new(alloc: Global) -> Self {
        Case {
            alloc,
            subject: None,
        }
    }

    /// Does the first step, or another one.
    fn done(&mut self, words: &[&str], answer: &mut String) -> Result<(), Halt> {
        match &mut self.subject {
            Some(subject) => subject.step(self.alloc, words, answer),
            None => {
                self.subject = Some(S::make(self.alloc, words)?);
                Ok(())
            }
        }
    }
}

impl<S: Subject + Drop> Trial for Case<S> {
    fn begin(&mut self) -> Result<(), AllocError> {
        self.subject = None;
        Ok(())
    }

    fn step(
        &mut self,
        words: &[&str],
        _body: &[u8],
        answer: &mut String,
    ) -> Result<(), AllocError> {
        end_step(self.done(words, answer), answer)
    }
}

/// What the cases of a file are about, by its name: `PATH/SUBJECT.cases`.
pub fn subject_of(file: &CaseFile) -> &str {
    let path = file.name.as_str();
    let name = match path.rsplit_once('/') {
        Some((_, name)) => name,
        None => path,
    };
    name.strip_suffix(".cases").unwrap_or(name)
}

/// Does the cases of a file about a subject, and answers whether all answers were as wanted.
pub fn try_about<R: Print, S: Subject + Drop>(
    rt: &R,
    alloc: Global,
    file: &CaseFile,
) -> io::Result<bool> {
    let mut case = Case::<S>::new(alloc);
    try_file(rt, alloc, file, &mut case)
}
