//! What a format and a run left.

use crate::kinds::{Call, Kind};
use spr_io::{MemBay, Store};

/// What a command wrote, and its status.
#[derive(Drop)]
pub struct Told {
    /// What the sink got.
    pub text: Vec<u8>,
    /// The status that was answered.
    pub status: u8,
    /// What the sink of notices got.
    pub notices: Vec<u8>,
}

/// What a format and a run behind it left.
#[derive(Drop)]
pub struct Outcome {
    /// What the format told.
    pub format: Told,
    /// What the run told.
    pub run: Told,
    /// The bay with the stores.
    pub bay: MemBay,
}

/// Whether a text has a line that begins with a word.
pub fn has_line(text: &[u8], word: &[u8]) -> bool {
    text.split(|byte| *byte == b'\n')
        .any(|line| line.starts_with(word))
}

impl Outcome {
    /// Whether some call of a kind was refused.
    pub fn was_refused(&self, kind: &Kind<'_>) -> bool {
        match kind.call {
            Call::Read | Call::Write | Call::Flush => match self.bay.look(kind.disk, kind.file) {
                Some(store) => store.count() > 0,
                None => true,
            },
            Call::Take | Call::Give => {
                has_line(&self.format.text, b"bay ") || has_line(&self.run.text, b"bay ")
            }
            Call::Shelf => has_line(&self.run.text, b"shelf "),
            Call::Sink => self.run.status == 7,
        }
    }
}
