//! The tokens of a text, one at a time.

ghost use Rattle.std.specs.Prelude.{◌≡◌, ◌+◌, ◌<◌, ◌≤◌, length, drop, true, false};
ghost use Rattle.std.specs.List.{prefix_len};
ghost use Rattle.text_words.specs.Words.{is_letter, is_name_char};
ghost use Rattle.idl_reader.specs.Tokens.{is_blank, is_sign, is_no_line_feed, comment_first, is_at_token, BeginsWord};
ghost use Rattle.idl_reader.specs.Left.{left, found};

use crate::idl::MAX_NAME;
use crate::rest::Rest;

/// The first token of what is left, and what is left after it.
#[derive(Clone, Copy, Debug)]
pub enum Token<'a> {
    /// A word.
    Word {
        /// Its first byte, counted from the start of the text.
        place: u32,
        /// Its characters.
        word: &'a [u8],
        /// What is left after it.
        after: Rest<'a>,
    },
    /// A sign.
    Sign {
        /// Its first byte, counted from the start of the text.
        place: u32,
        /// Its byte.
        sign: u8,
        /// What is left after it.
        after: Rest<'a>,
    },
    /// A byte that begins no token.
    Stray {
        /// Its first byte, counted from the start of the text.
        place: u32,
    },
    /// A word that is too long.
    Long {
        /// Its first byte, counted from the start of the text.
        place: u32,
    },
    /// The end of the text.
    End {
        /// The text's length.
        place: u32,
    },
}

/// What is left after so many bytes.
fn after<'a>(rest: Rest<'a>, count: usize) -> Rest<'a>
    requires { count ≤ length rest.bytes.now }
    ensures place { result.place ≡ rest.entry.place + count }
    ensures bytes { result.bytes.now ≡ drop count rest.entry.bytes.now }
{
    Rest {
        place: rest.place + count as u32,
        bytes: &rest.bytes[count..],
    }
}

fn is_blank(c: u8) -> bool
    ensures { result ≡ is_blank c }
{
    matches!(c, b' ' | b'\t' | b'\n')
}

fn is_sign(c: u8) -> bool
    ensures { result ≡ is_sign c }
{
    matches!(
        c,
        b'{' | b'}' | b'(' | b')' | b'<' | b'>' | b':' | b';' | b','
    )
}

fn is_letter(c: u8) -> bool
    ensures { result ≡ is_letter c }
{
    c.is_ascii_lowercase()
}

fn is_name_char(c: u8) -> bool
    ensures { result ≡ is_name_char c }
{
    is_letter(c) || c.is_ascii_digit() || c == b'_'
}

/// How many bytes of a word stand at the front.
fn word_len(bytes: &[u8]) -> usize
    ensures { result ≡ prefix_len is_name_char bytes.now }
{
    bytes.iter().take_while(|c| is_name_char(**c)).count()
}

/// How many bytes stand before the line feed.
fn comment_len(bytes: &[u8]) -> usize
    ensures { result ≡ prefix_len is_no_line_feed bytes.now }
{
    bytes.iter().take_while(|c| **c != b'\n').count()
}

fn begins_comment(bytes: &[u8]) -> bool
    ensures { result ≡ comment_first bytes.now }
{
    match bytes {
        [first, second, ..] => *first == b'/' && *second == b'/',
        _ => false,
    }
}

/// Whether neither a blank nor a comment comes first.
fn is_at_token(bytes: &[u8]) -> bool
    ensures { result ≡ is_at_token bytes.now }
{
    match bytes {
        [] => true,
        [first, ..] => !is_blank(*first) && !begins_comment(bytes),
    }
}

/// What is left after the blanks and comments.
fn skip_gap<'a>(rest: Rest<'a>) -> Rest<'a>
    ensures same { left result ≡ left rest.entry }
    ensures ahead { is_at_token result.bytes.now ≡ true }
{
    let mut rest = rest;
    while !is_at_token(rest.bytes) {
        rest = skip_one(rest);
    }
    rest
}

/// What is left after a blank or a comment.
fn skip_one<'a>(rest: Rest<'a>) -> Rest<'a>
    requires { is_at_token rest.bytes.now ≡ false }
    ensures same { left result ≡ left rest.entry }
    ensures shorter { length result.bytes.now < length rest.entry.bytes.now }
{
    if begins_comment(rest.bytes) {
        after(rest, comment_len(rest.bytes))
    } else {
        after(rest, 1)
    }
}

/// The word at the front.
fn word_token<'a>(rest: Rest<'a>) -> Token<'a>
    requires { BeginsWord rest.bytes.now }
    ensures { found result ≡ left rest.entry }
{
    let len = word_len(rest.bytes);
    if len > MAX_NAME {
        return Token::Long { place: rest.place };
    }
    Token::Word {
        place: rest.place,
        word: &rest.bytes[..len],
        after: after(rest, len),
    }
}

/// The first token.
pub fn first_token<'a>(rest: Rest<'a>) -> Token<'a>
    ensures { found result ≡ left rest.entry }
{
    let rest = skip_gap(rest);
    match rest.bytes {
        [] => Token::End { place: rest.place },
        [sign, ..] if is_sign(*sign) => Token::Sign {
            place: rest.place,
            sign: *sign,
            after: after(rest, 1),
        },
        [first, ..] if is_letter(*first) => word_token(rest),
        _ => Token::Stray { place: rest.place },
    }
}
