//! A text as lines, and a line as words.

ghost use Rattle.std.specs.Prelude.{◌≡◌, ◌==◌, ◌∷◌, ◌++◌, ◌<◌, ◌⊎◌, IfErr, IfOk, OnOk, List, ℕ, length, map, not, position, true, false, Ok, MatchResult};
ghost use Rattle.std.specs.List.{AllByRecursion, flat_map, list_all};
ghost use Rattle.text_words.specs.Lines.{row_of, rows_of, is_line_byte, is_word_byte, has_bytes, words_in, words_at, AreWords, words_row, ReadsWords, row_bytes, text_of};

use std::alloc::{AllocError, AllocFailed, Global};
use thiserror::Error;

/// A line of a text: its bytes without the line feed, and whether it ends with one. Only the last
/// line of a text can be without.
#[derive(Clone, Copy, Debug)]
pub struct Line<'a> {
    /// The bytes before the line feed.
    pub body: &'a [u8],
    /// Whether a line feed follows.
    pub ended: bool,
}

/// Why a line is no list of words; of several reasons the first counts.
#[derive(Clone, Copy, Debug, PartialEq, Eq, Error)]
pub enum LineWhy {
    /// A byte is not one of space to `~`.
    #[error("byte")]
    Byte,
    /// The line is empty, has a space at an end, or two spaces together.
    #[error("space")]
    Space,
    /// The line has no line feed.
    #[error("end")]
    End,
    /// Memory ran out.
    #[error("memory")]
    Memory,
}

impl<T: Drop> From<AllocFailed<T>> for LineWhy {
    ghost use Rattle.text_words.specs.declared.lines.LineWhy.TheVariants.{Memory};

    ghost from_gives = { λ _ e. e ≡ Memory };

    fn from(_: AllocFailed<T>) -> LineWhy {
        LineWhy::Memory
    }
}

impl From<AllocError> for LineWhy {
    ghost use Rattle.text_words.specs.declared.lines.LineWhy.TheVariants.{Memory};

    ghost from_gives = { λ _ e. e ≡ Memory };

    fn from(_: AllocError) -> LineWhy {
        LineWhy::Memory
    }
}

/// The place of the first line feed.
fn line_feed(text: &[u8]) -> Option<usize>
    ensures { result ≡ position (λ b. b == 10) text.now }
{
    text.iter().position(|b| *b == b'\n')
}

/// The first line of a text, and what follows it.
pub fn split_line(text: &[u8]) -> (Line<'_>, &[u8])
    requires { 0 < length text.now }
    ensures lines { rows_of text.now ≡ row_of result.0 ∷ rows_of result.1.now }
    ensures shorter { length result.1.now < length text.now }
{
    match line_feed(text) {
        Some(end) => (
            Line {
                body: &text[..end],
                ended: true,
            },
            &text[end + 1..],
        ),
        None => (
            Line {
                body: text,
                ended: false,
            },
            &text[text.len()..],
        ),
    }
}

/// The place of the first byte that is not one of `!` to `~`, and so stands in no word.
fn word_end(text: &[u8]) -> Option<usize>
    ensures { result ≡ position (λ b. not (is_word_byte b)) text.now }
{
    text.iter().position(|b| !(b'!' <= *b && *b <= b'~'))
}

/// Appends what stands between spaces, unless a byte is not one of space to `~`; and tells whether each
/// has a byte.
fn split_words<'a>(words: &mut Vec<&'a [u8]>, body: &'a [u8]) -> Result<bool, LineWhy>
    ensures bytes { OnOk result (list_all is_line_byte body.now ≡ true) }
    ensures words { OnOk result (map (λ word. word.now) words.new.items ≡ map (λ word. word.now) words.old.items ++ words_in body.now) }
    ensures full { IfOk result (λ full. full ≡ list_all has_bytes (words_in body.now)) }
    ensures err { IfErr result (λ why. (why ≡ LineWhy.Memory) ⊎ ((why ≡ LineWhy.Byte) × (list_all is_line_byte body.now ≡ false))) }
{
    let mut rest = body;
    let mut full = true;
    while let Some(end) = word_end(rest) {
        if rest[end] != b' ' {
            return Err(LineWhy::Byte);
        }
        words.push(&rest[..end])?;
        rest = &rest[end + 1..];
        full &= end > 0;
    }
    words.push(rest)?;
    Ok(full & !rest.is_empty())
}

/// Puts the words of a line into a list, in place of what it has; or gives the first reason why it is
/// no line of words. One list for all lines of a text takes memory for the most words of a line alone.
#[tactic(auto, using(crate::proofs::Bytes::seen_all), unfolding(crate::specs::Lines::words_at))]
pub fn read_words<'a>(words: &mut Vec<&'a [u8]>, line: Line<'a>) -> Result<(), LineWhy>
    ensures { MatchResult result (λ _. words_at (row_of line.entry) ≡ Ok (map (λ word. word.now) words.new.items)) (λ why. ReadsWords why (words_at (row_of line.entry))) }
{
    words.clear();
    let full = split_words(words, line.body)?;
    if !full {
        return Err(LineWhy::Space);
    }
    if !line.ended {
        return Err(LineWhy::End);
    }
    Ok(())
}

/// The words of a line, or the first reason why it has none.
fn checked_words(alloc: Global, line: Line<'_>) -> Result<Vec<&[u8]>, LineWhy>
    ensures { MatchResult result (λ words. words_at (row_of line.entry) ≡ Ok (map (λ word. word.now) words.items)) (λ why. ReadsWords why (words_at (row_of line.entry))) }
{
    let mut words = Vec::new(alloc);
    read_words(&mut words, line)?;
    Ok(words)
}

/// The words of a line, or the first reason why it is no line of words.
pub fn words_of(alloc: Global, line: Line<'_>) -> Result<Vec<&[u8]>, LineWhy>
    ensures value { MatchResult result (λ words. words_at (row_of line.entry) ≡ Ok (map (λ word. word.now) words.items)) (λ why. ReadsWords why (words_at (row_of line.entry))) }
    ensures found { IfOk result (λ words. AreWords (map (λ word. word.now) words.items) × (row_of line.entry ≡ words_row (map (λ word. word.now) words.items))) }
    ensures only { (words : List (List ℕ)) → AreWords words → row_of line.entry ≡ words_row words → MatchResult result (λ read. map (λ word. word.now) read.items ≡ words) (λ why. why ≡ LineWhy.Memory) }
{
    checked_words(alloc, line)
}

/// The lines of a text, one after the other, are the text; and the lines of words are the lines of
/// the text that they make.
pub fn lines_and_text()
    ensures split_joined { (text : List ℕ) → flat_map row_bytes (rows_of text) ≡ text }
    ensures joined_split { (lines : List (List (List ℕ))) → AllByRecursion AreWords lines → rows_of (text_of lines) ≡ map words_row lines }
{}
