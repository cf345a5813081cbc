//! What is wrong with a run.

use std::alloc::{AllocError, AllocFailed};
use trial_words::Halt;

/// Why a run is not judged to be right.
#[derive(Clone, Copy, Debug, Drop)]
pub enum Wrong {
    /// Memory ran out while it was judged.
    Memory,
    /// This does not hold of it.
    Said(&'static str),
}

impl From<AllocError> for Wrong {
    fn from(_: AllocError) -> Wrong {
        Wrong::Memory
    }
}

impl<T: Drop> From<AllocFailed<T>> for Wrong {
    fn from(_: AllocFailed<T>) -> Wrong {
        Wrong::Memory
    }
}

impl From<Halt> for Wrong {
    fn from(halt: Halt) -> Wrong {
        match halt {
            Halt::Memory => Wrong::Memory,
            _ => Wrong::Said("a word that cannot be read"),
        }
    }
}

/// That something holds, or else what is wrong.
pub fn claim(holds: bool, what: &'static str) -> Result<(), Wrong> {
    if holds {
        Ok(())
    } else {
        Err(Wrong::Said(what))
    }
}
