//! Texts, bytes, paths and lists, made and lent again.

use crate::say::count_of;
use std::alloc::{AllocError, Global};
use trial_words::{say, say_text};
use value_types::{Bytes, Items, Path, Text};

/// `value KIND ..`: makes a value of a kind, and tells what it lends.
pub fn step(alloc: Global, words: &[&str], answer: &mut String) -> Result<(), AllocError> {
    let Some((kind, rest)) = words.split_first() else {
        return Ok(());
    };
    match *kind {
        "text" => text(alloc, rest, answer),
        "ascii" => ascii(alloc, rest, answer),
        "bytes" => bytes(alloc, rest, answer),
        "vec" => vec(alloc, rest, answer),
        "path" => path(alloc, rest, answer),
        "items" => items(alloc, rest, answer),
        _ => say(answer, "no such value"),
    }
}

/// A copy of the text of a word.
fn text(alloc: Global, words: &[&str], answer: &mut String) -> Result<(), AllocError> {
    for word in words {
        let text = Text::of(alloc, word)?.clone()?;
        say(answer, text.as_str())?;
    }
    Ok(())
}

/// The text of a word's bytes.
fn ascii(alloc: Global, words: &[&str], answer: &mut String) -> Result<(), AllocError> {
    for word in words {
        let text = Text::of_ascii(alloc, word.as_bytes())?;
        say(answer, text.as_str())?;
    }
    Ok(())
}

/// A copy of a word's bytes.
fn bytes(alloc: Global, words: &[&str], answer: &mut String) -> Result<(), AllocError> {
    for word in words {
        let bytes = Bytes::of(alloc, word.as_bytes())?.clone()?;
        say_text(alloc, answer, bytes.as_slice())?;
        say(answer, "")?;
    }
    Ok(())
}

/// A `Vec` of these numbers, given as bytes and taken back.
fn vec(alloc: Global, words: &[&str], answer: &mut String) -> Result<(), AllocError> {
    let mut given = Vec::new(alloc);
    for word in words {
        given.push((count_of(word) % 256) as u8)?;
    }
    let back = Bytes::from_vec(given).into_vec();
    for byte in &back {
        writeln!(answer, "{byte}")?;
    }
    Ok(())
}

/// The parts of a path of these words.
fn path(alloc: Global, words: &[&str], answer: &mut String) -> Result<(), AllocError> {
    let path = Path::of(alloc, words)?;
    let parts = path.as_slice();
    let count = parts.len();
    writeln!(answer, "{count} parts")?;
    for part in parts {
        say(answer, part.as_str())?;
    }
    Ok(())
}

/// A list of these numbers, taken apart and made again.
fn items(alloc: Global, words: &[&str], answer: &mut String) -> Result<(), AllocError> {
    let mut items = Items::new(alloc);
    for word in words {
        items.push(count_of(word))?;
    }
    let again = Items::from_vec(items.into_vec());
    for number in again.as_slice() {
        writeln!(answer, "{number}")?;
    }
    Ok(())
}
