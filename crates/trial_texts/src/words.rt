//! Names, numbers, hex and paths; the words of lines; and texts put together.

use crate::say::{count_of, plain, plain_words, say_number};
use std::alloc::{AllocError, Global};
use text_words::{
    LineWhy, address, hex_bytes, is_name, number, put, put_hex, put_line, put_number, put_path,
    put_spaced, put_spaced_number, put_word, read_path, split_line, text_of_name, words_of,
};
use trial_words::{say, say_text, say_whether};

/// `word KIND WORD`: what the word is read as.
pub fn step(alloc: Global, words: &[&str], answer: &mut String) -> Result<(), AllocError> {
    let [kind, word] = words else {
        return say(answer, "no such step");
    };
    let word = plain(word);
    match *kind {
        "name" => say_whether(answer, is_name(word.as_bytes())),
        "number" => say_number(answer, number(word.as_bytes()).map(u64::from)),
        "address" => say_number(answer, address(word.as_bytes())),
        "hex" => hex(alloc, word, answer),
        "path" => path(alloc, word, answer),
        "text" => text(alloc, word, answer),
        _ => say(answer, "no such word"),
    }
}

/// The bytes of a hex word, as decimal numbers.
fn hex(alloc: Global, word: &str, answer: &mut String) -> Result<(), AllocError> {
    let Some(bytes) = hex_bytes(alloc, word.as_bytes())? else {
        return say(answer, "none");
    };
    for byte in bytes.as_slice() {
        writeln!(answer, "{byte}")?;
    }
    Ok(())
}

/// The parts of a path.
fn path(alloc: Global, word: &str, answer: &mut String) -> Result<(), AllocError> {
    let Some(path) = read_path(alloc, word.as_bytes())? else {
        return say(answer, "none");
    };
    for part in path.as_slice() {
        say(answer, part.as_str())?;
    }
    Ok(())
}

/// The text of a name.
fn text(alloc: Global, word: &str, answer: &mut String) -> Result<(), AllocError> {
    if !is_name(word.as_bytes()) {
        return say(answer, "impossible");
    }
    let text = text_of_name(alloc, word.as_bytes())?;
    say(answer, text.as_str())
}

/// The word for why a line has no words.
fn why_word(why: LineWhy) -> &'static str {
    match why {
        LineWhy::Byte => "byte",
        LineWhy::Space => "space",
        LineWhy::End => "end",
        LineWhy::Memory => "memory",
    }
}

/// Appends the words of a line, with commas between them.
fn say_words(alloc: Global, answer: &mut String, words: &[&[u8]]) -> Result<(), AllocError> {
    let count = words.len();
    write!(answer, "{count} words:")?;
    for word in words {
        answer.push(' ')?;
        say_text(alloc, answer, word)?;
    }
    say(answer, "")
}

/// `lines`: the words of each line of the text, up to the first line that has none, and why it has none.
pub fn lines(alloc: Global, text: &[u8], answer: &mut String) -> Result<(), AllocError> {
    let mut rest = text;
    for _ in 0..text.len() {
        if rest.is_empty() {
            break;
        }
        let (line, after) = split_line(rest);
        match words_of(alloc, line) {
            Ok(words) => say_words(alloc, answer, &words)?,
            Err(why) => return say(answer, why_word(why)),
        }
        rest = after;
    }
    Ok(())
}

/// `print KIND WORD ..`: appends to what is printed; `print` alone tells all of it.
pub fn print(
    alloc: Global,
    out: &mut Vec<u8>,
    words: &[&str],
    answer: &mut String,
) -> Result<(), AllocError> {
    let Some((kind, rest)) = words.split_first() else {
        return say_text(alloc, answer, out);
    };
    let rest = plain_words(alloc, rest)?;
    match (*kind, rest.as_slice()) {
        ("bytes", [word]) => put(out, word.as_bytes()),
        ("word", [word]) => put_word(out, word.as_bytes()),
        ("number", [word]) => put_number(out, count_of(word)),
        ("spaced-number", [word]) => put_spaced_number(out, count_of(word)),
        ("hex", [word]) => print_hex(alloc, out, word),
        ("path", [word]) => print_path(alloc, out, word),
        ("spaced", words) => put_spaced(out, &bytes_of(alloc, words)?),
        ("line", words) => put_line(out, &bytes_of(alloc, words)?),
        _ => say(answer, "no such print"),
    }
}

/// Appends bytes that a hex word says.
fn print_hex(alloc: Global, out: &mut Vec<u8>, word: &str) -> Result<(), AllocError> {
    match hex_bytes(alloc, word.as_bytes())? {
        Some(bytes) => put_hex(alloc, out, bytes.as_slice()),
        None => Ok(()),
    }
}

/// Appends a path.
fn print_path(alloc: Global, out: &mut Vec<u8>, word: &str) -> Result<(), AllocError> {
    match read_path(alloc, word.as_bytes())? {
        Some(path) => put_path(out, &path),
        None => Ok(()),
    }
}

/// The bytes of each word.
fn bytes_of<'a>(alloc: Global, words: &[&'a str]) -> Result<Vec<&'a [u8]>, AllocError> {
    let mut all = Vec::new(alloc);
    for word in words {
        all.push(word.as_bytes())?;
    }
    Ok(all)
}
