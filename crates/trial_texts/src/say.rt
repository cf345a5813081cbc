//! Lines of answers, and what steps' words stand for.

use std::alloc::{AllocError, Global};
use trial_words::{say, say_text};

/// Appends a number, or `none`.
pub fn say_number(answer: &mut String, number: Option<u64>) -> Result<(), AllocError> {
    match number {
        Some(number) => writeln!(answer, "{number}"),
        None => say(answer, "none"),
    }
}

/// Appends whether a text is printed as it was read, and if not how it is printed.
pub fn say_again(
    alloc: Global,
    answer: &mut String,
    read: &[u8],
    printed: &[u8],
) -> Result<(), AllocError> {
    if read == printed {
        return say(answer, "printed as it was read");
    }
    say(answer, "printed otherwise")?;
    say_text(alloc, answer, printed)
}

/// The word itself; `''` stands for the empty one.
pub fn plain<'a>(word: &'a str) -> &'a str {
    if word == "''" { "" } else { word }
}

/// The words themselves.
pub fn plain_words<'a>(alloc: Global, words: &[&'a str]) -> Result<Vec<&'a str>, AllocError> {
    let mut plains = Vec::new(alloc);
    for word in words {
        plains.push(plain(word))?;
    }
    Ok(plains)
}

/// The number that a word of a step says.
pub fn count_of(word: &str) -> u64 {
    match word.parse::<u64>() {
        Ok(count) => count,
        Err(_) => 0,
    }
}
