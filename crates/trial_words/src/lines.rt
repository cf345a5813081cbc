//! Lines of answers.

use std::alloc::{AllocError, Global};

/// Appends a line.
pub fn say(answer: &mut String, line: &str) -> Result<(), AllocError> {
    answer.push_str(line)?;
    answer.push('\n')
}

/// Appends `yes` or `no`.
pub fn say_whether(answer: &mut String, is: bool) -> Result<(), AllocError> {
    say(answer, if is { "yes" } else { "no" })
}

/// Appends bytes as text.
pub fn say_text(alloc: Global, answer: &mut String, bytes: &[u8]) -> Result<(), AllocError> {
    let text = String::from_utf8_lossy(alloc, bytes)?;
    answer.push_str(text.as_str())
}

/// The bytes without the zeros at their end.
pub fn without_zeros(bytes: &[u8]) -> &[u8] {
    let mut rest = bytes;
    for _ in 0..bytes.len() {
        match rest {
            [front @ .., 0] => rest = front,
            _ => break,
        }
    }
    rest
}
