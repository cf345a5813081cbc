//! Notes, which stand apart from the entries.

use crate::logged::Note;

/// A note with its place in the log.
#[derive(Clone, Copy, Debug, PartialEq, Eq)]
pub struct Placed {
    /// How many events stood before it.
    pub before: u64,
    /// The note.
    pub note: Note,
}
