//! How far a try got.

use hist_plain::{Answer, Event};

/// How far one try of an access, of a sync or of an end of channels got.
#[derive(Debug, Drop)]
pub enum Moved {
    /// It was allowed, and was made.
    Done {
        /// What the plain file answers at its place.
        answer: Answer,
    },
    /// It is not allowed yet, and another event was entered for it. Fewer are left.
    Stepped {
        /// The event that was done.
        event: Event,
    },
    /// It is not allowed yet, and another caller is before this one. Nothing was entered.
    Busy {
        /// The number of that caller.
        holder: u32,
    },
}
