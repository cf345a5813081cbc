//! What a command wrote, and what is to be seen in it where it is not the same each time.

use std::alloc::{AllocError, Global};

/// What a command wrote.
#[derive(Drop)]
pub struct Written {
    alloc: Global,
    text: Vec<u8>,
    /// What was not looked at by `next`.
    rest: Vec<u8>,
}

/// Where a part stands last in a text.
fn last_place(text: &[u8], part: &[u8]) -> Option<usize> {
    let mut place = None;
    for start in 0..text.len() {
        if text[start..].starts_with(part) {
            place = Some(start);
        }
    }
    place
}

/// What follows a part, where that stands first in a text.
fn behind<'a>(text: &'a [u8], part: &[u8]) -> Option<&'a [u8]> {
    for start in 0..text.len() {
        if let Some(rest) = text[start..].strip_prefix(part) {
            return Some(rest);
        }
    }
    None
}

/// How many digits a text begins with.
fn digits(text: &[u8]) -> usize {
    text.iter().take_while(|byte| byte.is_ascii_digit()).count()
}

/// Whether a word is bytes in hexadecimal digits.
fn is_bytes(word: &str) -> bool {
    let digits = word.as_bytes();
    !digits.is_empty()
        && digits.len() % 2 == 0
        && digits
            .iter()
            .all(|byte| matches!(byte, b'0'..=b'9' | b'a'..=b'f'))
}

/// Whether a call of this line was answered with bytes, with `done`, with a life, or with that of a life that is over.
fn is_answered(line: &str) -> bool {
    match line.split(' ').nth(1) {
        Some("done" | "life" | "revoked") => true,
        Some(word) => is_bytes(word),
        None => false,
    }
}

impl Written {
    /// Nothing.
    pub fn new(alloc: Global) -> Written {
        Written {
            alloc,
            text: Vec::new(alloc),
            rest: Vec::new(alloc),
        }
    }

    /// What a command wrote now.
    pub fn set(&mut self, text: &[u8]) -> Result<(), AllocError> {
        self.text = Vec::from_slice(self.alloc, text)?;
        self.rest = Vec::from_slice(self.alloc, text)?;
        Ok(())
    }

    /// Lends it.
    pub fn text(&self) -> &[u8] {
        &self.text
    }

    /// Whether the text goes on with a part, which is then looked at.
    pub fn next(&mut self, part: &[u8]) -> Result<bool, AllocError> {
        let Some(rest) = self.rest.strip_prefix(part) else {
            return Ok(false);
        };
        self.rest = Vec::from_slice(self.alloc, rest)?;
        Ok(true)
    }

    /// Whether all of the text was looked at.
    pub fn is_at_end(&self) -> bool {
        self.rest.is_empty()
    }

    /// How often a part stands in the text.
    pub fn times(&self, part: &[u8]) -> usize {
        let mut count = 0;
        for start in 0..self.text.len() {
            if self.text[start..].starts_with(part) {
                count += 1;
            }
        }
        count
    }

    /// How many lines the part of a client has, if each was answered with bytes, with `done`, with a life, or with that of a life that
    /// is over.
    pub fn answered(&self, client: &str) -> Result<Option<usize>, AllocError> {
        let text = String::from_utf8_lossy(self.alloc, &self.text)?;
        let head = format!(in self.alloc; "client {client}")?;
        let mut count = None;
        for line in text.as_str().lines() {
            match count {
                None if line == head.as_str() => count = Some(0usize),
                None => (),
                Some(_) if line.starts_with("client ") || line.starts_with("file ") => break,
                Some(lines) if is_answered(line) => count = Some(lines.saturating_add(1)),
                Some(_) => return Ok(None),
            }
        }
        Ok(count)
    }

    /// The one of two parts that stands later in the text, if both stand there.
    pub fn later<'a>(&self, one: &'a str, other: &'a str) -> Option<&'a str> {
        let first = last_place(&self.text, one.as_bytes())?;
        let second = last_place(&self.text, other.as_bytes())?;
        Some(if first < second { other } else { one })
    }

    /// Whether a number of at most so many digits, and then a line feed or another word, follows a part.
    pub fn has_digits(&self, part: &[u8], most: usize) -> bool {
        match behind(&self.text, part) {
            Some(rest) => matches!(digits(rest), count if 0 < count && count <= most),
            None => false,
        }
    }
}
