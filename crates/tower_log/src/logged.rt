//! What a log has.

use hist_plain::{Answer, Event};
use value_types::Bytes;

/// The note of a call that a store's failure ended.
#[derive(Clone, Copy, Debug, PartialEq, Eq)]
pub struct Note {
    /// The number of the caller.
    pub caller: u32,
    /// The number of the disk.
    pub disk: u32,
    /// The store's count of faults after the failure.
    pub count: u64,
}

/// An event of a file's trail, with what it was answered.
#[derive(Debug, Drop)]
pub struct Entry {
    /// The event that was done.
    pub event: Event,
    /// What it was answered; a page message has no answer.
    pub answer: Option<Answer>,
    /// The bytes that a read was answered; of the first grant of a page, the page as the ground gave it; else none.
    pub bytes: Bytes,
}

/// One thing of a file's log. The events alone, in order, are the file's trail.
#[derive(Debug, Drop)]
pub enum Logged {
    /// An event was entered.
    Entered {
        /// The event, and what it was answered.
        entry: Entry,
    },
    /// A call was answered with a store's failure, and entered nothing.
    Noted {
        /// Whose call, and which failure.
        note: Note,
    },
}
