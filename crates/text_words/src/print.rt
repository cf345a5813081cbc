//! Putting a text together in one buffer. Where memory runs out, what a call appended so far may
//! stand at the buffer's end.

ghost use Rattle.std.specs.Prelude.{◌≡◌, ◌+◌, ◌*◌, ◌<◌, ◌≤◌, ◌++◌, ◌∷◌, [], OnOk, OnErr, List, ℕ, map, length, slice_index, vec_len, vec_capacity};
ghost use Rattle.std.specs.List.{flat_map, join_with_byte};
ghost use Rattle.std.specs.Fmt.{decimal};
ghost use Rattle.hex.specs.Hex.{encode_lower, lower_digits};
ghost use Rattle.text_words.specs.Lines.{line_of, spaced};
ghost use Rattle.text_words.specs.Words.{path_word};

use std::alloc::{AllocError, Global};
use value_types::{Path, Text};

/// The most bytes that are put into hex without a text of their own; for more, it costs less to have one.
const FEW_BYTES: usize = 64;

/// The most digits of a number of 64 bits.
const MOST_DIGITS: usize = 20;

/// Appends some bytes, all or none of them.
pub fn put(out: &mut Vec<u8>, bytes: &[u8]) -> Result<(), AllocError>
    ensures ok { OnOk result (out.new.items ≡ out.old.items ++ bytes.now) }
    ensures err { OnErr result (out.new.items ≡ out.old.items) }
{
    out.extend_from_slice(bytes)
}

/// Appends a space and a word.
pub fn put_word(out: &mut Vec<u8>, word: &[u8]) -> Result<(), AllocError>
    ensures { OnOk result (out.new.items ≡ out.old.items ++ 32 ∷ word.now) }
{
    out.push(b' ')?;
    put(out, word)
}

/// Appends a number below a hundred in decimal digits, for which there is room.
#[tactic(auto, using(crate::proofs::Printing::one_digit, crate::proofs::Printing::two_digits))]
fn put_two(out: &mut Vec<u8>, number: u64)
    requires small { number < 100 }
    requires room { vec_len out.old + length (decimal number) ≤ vec_capacity out.old }
    ensures written { out.new.items ≡ out.old.items ++ decimal number }
    ensures len { vec_len out.new ≡ vec_len out.old + length (decimal number) }
    ensures capacity { vec_capacity out.new ≡ vec_capacity out.old }
{
    if number < 10 {
        out.push_reserved(b'0' + number as u8);
    } else {
        out.push_reserved(b'0' + (number / 10) as u8);
        out.push_reserved(b'0' + (number % 10) as u8);
    }
}

/// Appends a number in decimal digits, for which there is room: two digits at a time.
fn put_digits(out: &mut Vec<u8>, number: u64)
    requires { vec_len out.old + length (decimal number) ≤ vec_capacity out.old }
    ensures written { out.new.items ≡ out.old.items ++ decimal number }
    ensures len { vec_len out.new ≡ vec_len out.old + length (decimal number) }
    ensures capacity { vec_capacity out.new ≡ vec_capacity out.old }
{
    if number < 100 {
        return put_two(out, number);
    }
    put_digits(out, number / 100);
    out.push_reserved(b'0' + (number / 10 % 10) as u8);
    out.push_reserved(b'0' + (number % 10) as u8);
}

/// Appends a number in decimal digits, or nothing.
pub fn put_number(out: &mut Vec<u8>, number: u64) -> Result<(), AllocError>
    ensures ok { OnOk result (out.new.items ≡ out.old.items ++ decimal number) }
    ensures err { OnErr result (out.new.items ≡ out.old.items) }
{
    out.reserve(MOST_DIGITS)?;
    put_digits(out, number);
    Ok(())
}

/// Appends a space and a number in decimal digits.
pub fn put_spaced_number(out: &mut Vec<u8>, number: u64) -> Result<(), AllocError>
    ensures { OnOk result (out.new.items ≡ out.old.items ++ 32 ∷ decimal number) }
{
    out.push(b' ')?;
    put_number(out, number)
}

/// The digit of hex for a number below sixteen.
fn hex_digit(number: u8) -> u8
    requires { number < 16 }
    ensures { result ≡ slice_index lower_digits number }
{
    b"0123456789abcdef"[number as usize]
}

/// Appends bytes in hex, for which there is room.
fn put_hex_digits(out: &mut Vec<u8>, bytes: &[u8])
    requires { vec_len out.old + 2 * length bytes.now ≤ vec_capacity out.old }
    ensures { out.new.items ≡ out.old.items ++ encode_lower bytes.now }
{
    for byte in bytes {
        out.push_reserved(hex_digit(*byte / 16));
        out.push_reserved(hex_digit(*byte % 16));
    }
}

/// Appends a space and a few bytes in hex, digit by digit.
fn put_few(out: &mut Vec<u8>, bytes: &[u8]) -> Result<(), AllocError>
    ensures { OnOk result (out.new.items ≡ out.old.items ++ 32 ∷ encode_lower bytes.now) }
{
    out.reserve(2 * bytes.len() + 1)?;
    out.push_reserved(b' ');
    put_hex_digits(out, bytes);
    Ok(())
}

/// Appends a space and many bytes in hex, by a text of their own.
#[inline(never)]
fn put_many(alloc: Global, out: &mut Vec<u8>, bytes: &[u8]) -> Result<(), AllocError>
    ensures { OnOk result (out.new.items ≡ out.old.items ++ 32 ∷ encode_lower bytes.now) }
{
    let text = hex::encode(alloc, bytes)?;
    put_word(out, text.as_bytes())
}

/// Appends a space and bytes in hex.
pub fn put_hex(alloc: Global, out: &mut Vec<u8>, bytes: &[u8]) -> Result<(), AllocError>
    ensures { OnOk result (out.new.items ≡ out.old.items ++ 32 ∷ encode_lower bytes.now) }
{
    if bytes.len() <= FEW_BYTES {
        put_few(out, bytes)
    } else {
        put_many(alloc, out, bytes)
    }
}

/// Appends a slash before each part.
fn put_parts(out: &mut Vec<u8>, parts: &[Text]) -> Result<(), AllocError>
    ensures { OnOk result (out.new.items ≡ out.old.items ++ flat_map (λ part. 47 ∷ part) parts.now) }
{
    for part in parts {
        put(out, b"/")?;
        put(out, part.as_str().as_bytes())?;
    }
    Ok(())
}

/// Appends a space and a path.
pub fn put_path(out: &mut Vec<u8>, path: &Path) -> Result<(), AllocError>
    ensures { OnOk result (out.new.items ≡ out.old.items ++ 32 ∷ path_word path.now) }
{
    match path.as_slice() {
        [] => put(out, b" "),
        [first, rest @ ..] => {
            put_word(out, first.as_str().as_bytes())?;
            put_parts(out, rest)
        }
    }
}

/// Appends a space before each word.
pub fn put_spaced(out: &mut Vec<u8>, words: &[&[u8]]) -> Result<(), AllocError>
    ensures { OnOk result (out.new.items ≡ out.old.items ++ spaced (map (λ word. word.now) words.now)) }
{
    for word in words {
        put_word(out, word)?;
    }
    Ok(())
}

/// Appends the words, with a space between each two.
fn put_words(out: &mut Vec<u8>, words: &[&[u8]]) -> Result<(), AllocError>
    ensures { OnOk result (out.new.items ≡ out.old.items ++ join_with_byte 32 (map (λ word. word.now) words.now)) }
{
    match words {
        [] => Ok(()),
        [first, rest @ ..] => {
            put(out, first)?;
            put_spaced(out, rest)
        }
    }
}

/// Appends a line of these words.
pub fn put_line(out: &mut Vec<u8>, words: &[&[u8]]) -> Result<(), AllocError>
    ensures { OnOk result (out.new.items ≡ out.old.items ++ line_of (map (λ word. word.now) words.now)) }
{
    put_words(out, words)?;
    put(out, b"\n")
}
