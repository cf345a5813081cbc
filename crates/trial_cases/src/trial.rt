//! What a trial program has to do.

use std::alloc::AllocError;

/// What a trial does with the steps of its cases.
pub trait Trial {
    /// Begins a case: nothing of the one before it is left.
    fn begin(&mut self) -> Result<(), AllocError>;

    /// Does a step of these words over these bytes, and appends the lines of its answer.
    fn step(&mut self, words: &[&str], body: &[u8], answer: &mut String) -> Result<(), AllocError>;
}
