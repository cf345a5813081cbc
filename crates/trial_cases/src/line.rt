//! The lines of a file of cases.

use std::alloc::AllocError;

/// A line of a file of cases.
#[derive(Drop)]
pub enum Line<'a> {
    /// `# ..` or nothing: for the reader alone.
    Remark,
    /// `case NAME`: a case begins.
    Case,
    /// `> WORD ..`: a step of these words.
    Step(&'a str),
    /// `| TEXT`: a line of the bytes that the step is given.
    Body(&'a str),
    /// Any other line: one of the answer that the step has to give.
    Wanted(&'a str),
}

/// What a line of a file of cases is.
pub fn line_of(text: &str) -> Line<'_> {
    if text.is_empty() || text.starts_with('#') {
        return Line::Remark;
    }
    if text.starts_with("case ") {
        return Line::Case;
    }
    if let Some(words) = text.strip_prefix("> ") {
        return Line::Step(words);
    }
    if text == "|" {
        return Line::Body("");
    }
    match text.strip_prefix("| ") {
        Some(line) => Line::Body(line),
        None => Line::Wanted(text),
    }
}

/// The value of a hexadecimal digit, or 0.
fn digit(byte: u8) -> u8 {
    match byte {
        b'0'..=b'9' => byte - b'0',
        b'a'..=b'f' => byte - b'a' + 10,
        _ => 0,
    }
}

/// Appends what stands behind a backslash: `xNN` is the byte of these two hexadecimal digits.
fn put_escaped(part: &[u8], body: &mut Vec<u8>) -> Result<(), AllocError> {
    match part {
        [b'x', high, low, rest @ ..] => {
            body.push(digit(*high).wrapping_mul(16).wrapping_add(digit(*low)))?;
            body.extend_from_slice(rest)
        }
        _ => body.extend_from_slice(part),
    }
}

/// Appends a line of a body, and a line feed, unless the line ends with a backslash.
pub fn put_line(line: &str, body: &mut Vec<u8>) -> Result<(), AllocError> {
    for (number, part) in line.split('\\').enumerate() {
        match number {
            0 => body.extend_from_slice(part.as_bytes())?,
            _ => put_escaped(part.as_bytes(), body)?,
        }
    }
    if line.ends_with('\\') {
        return Ok(());
    }
    body.push(b'\n')?;
    Ok(())
}
