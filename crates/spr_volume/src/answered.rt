//! What a call is answered.

use hist_plain::Answer;

/// What a call is answered, and where its event stands.
#[derive(Clone, Copy, Debug, PartialEq, Eq)]
pub struct Answered {
    /// What the plain file answers at the place.
    pub answer: Answer,
    /// The place of the call's event in the file's trail, counted from 0.
    pub place: u64,
}
