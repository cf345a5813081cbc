//! The steps of a text of cases.

use crate::line::{Line, line_of, put_line};
use std::alloc::{AllocError, Global};

/// A step as it is read.
#[derive(Drop)]
pub struct Step<'a> {
    /// Its line, counted from 1.
    pub line: usize,
    /// Whether it is the first one of its case.
    pub begins: bool,
    /// Its words, with a space between each two.
    pub words: &'a str,
    /// The bytes that it is given.
    pub body: Vec<u8>,
    /// The answer that is wanted.
    pub wanted: String,
}

impl<'a> Step<'a> {
    fn new(alloc: Global, line: usize, begins: bool, words: &'a str) -> Self {
        Step {
            line,
            begins,
            words,
            body: Vec::new(alloc),
            wanted: String::new(alloc),
        }
    }

    /// Another line of the wanted answer.
    fn want(&mut self, line: &str) -> Result<(), AllocError> {
        self.wanted.push_str(line)?;
        self.wanted.push('\n')
    }
}

/// Ends a step, if there is one.
fn close<'a>(steps: &mut Vec<Step<'a>>, step: Option<Step<'a>>) -> Result<(), AllocError> {
    if let Some(step) = step {
        steps.push(step)?;
    }
    Ok(())
}

/// The steps of a text of cases, in their order.
pub fn steps_of(alloc: Global, text: &str) -> Result<Vec<Step<'_>>, AllocError> {
    let mut steps = Vec::new(alloc);
    let mut begins = false;
    let mut step: Option<Step<'_>> = None;
    for (number, line) in text.lines().enumerate() {
        match (line_of(line), &mut step) {
            (Line::Case, _) => {
                close(&mut steps, step.take())?;
                begins = true;
            }
            (Line::Step(words), _) => {
                close(&mut steps, step.take())?;
                step = Some(Step::new(alloc, number.saturating_add(1), begins, words));
                begins = false;
            }
            (Line::Body(text), Some(step)) => put_line(text, &mut step.body)?,
            (Line::Wanted(text), Some(step)) => step.want(text)?,
            _ => {}
        }
    }
    close(&mut steps, step.take())?;
    Ok(steps)
}
