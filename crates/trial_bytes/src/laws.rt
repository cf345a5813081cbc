//! What may come of reading bytes.

use std::alloc::{AllocError, Global};

/// What came of reading bytes.
#[derive(Clone, Copy, Debug, PartialEq, Eq)]
pub enum Found {
    /// They were read, and what was read is spelled so.
    Read,
    /// They were refused, at a place that they have.
    Refused,
    /// Something else.
    Unlike,
}

/// The laws of a reader.
pub trait Law {
    /// What comes of reading bytes.
    fn judge(&self, alloc: Global, bytes: &[u8]) -> Result<Found, AllocError>;
}

/// What it is that bytes were read, if they are spelled as is to be.
pub fn read_if(is_so: bool) -> Found {
    if is_so { Found::Read } else { Found::Unlike }
}

/// What it is that bytes were refused, if the refusal is as it is to be.
pub fn refused_if(is_so: bool) -> Found {
    if is_so { Found::Refused } else { Found::Unlike }
}

/// How many lines a text has; the last one need not have a line feed.
pub fn lines_of(text: &[u8]) -> usize {
    let feeds = text.iter().filter(|byte| **byte == b'\n').count();
    if text.is_empty() || text.ends_with(b"\n") {
        feeds
    } else {
        feeds.saturating_add(1)
    }
}
