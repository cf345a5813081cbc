//! Why a step has no answer.

use std::alloc::AllocError;

/// Why a step has no answer.
#[derive(Clone, Copy, Debug, Drop)]
pub enum Halt {
    /// Memory ran out.
    Memory,
    /// The words say no step of this subject.
    Unread,
    /// What the call requires does not hold, or what it is made of is missing.
    Impossible,
}

impl From<AllocError> for Halt {
    fn from(_: AllocError) -> Halt {
        Halt::Memory
    }
}

/// Ends a step: one that has no answer is answered with the reason, unless memory ran out.
pub fn end_step(done: Result<(), Halt>, answer: &mut String) -> Result<(), AllocError> {
    match done {
        Ok(()) => Ok(()),
        Err(Halt::Memory) => Err(AllocError),
        Err(Halt::Unread) => answer.push_str("no such step\n"),
        Err(Halt::Impossible) => answer.push_str("impossible\n"),
    }
}
