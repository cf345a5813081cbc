//! The lines that a step is given, and their words.

use std::alloc::{AllocError, Global};

/// The text of the lines that a step is given.
pub fn text_of(alloc: Global, body: &[u8]) -> Result<String, AllocError> {
    let text = String::from_utf8_lossy(alloc, body)?;
    String::from_str(alloc, text.as_str())
}

/// The words of a line.
pub fn words_of<'a>(alloc: Global, line: &'a str) -> Result<Vec<&'a str>, AllocError> {
    line.split(' ').collect(alloc)
}
