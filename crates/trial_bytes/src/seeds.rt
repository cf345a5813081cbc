//! The inputs that are made of a seed: its prefixes, the seed with one byte changed, and the seed with changes that are drawn.

use crate::draws::Draws;
use crate::laws::Law;
use crate::tally::Tally;
use std::alloc::{AllocError, Global};
use trial_words::{Halt, bytes};

/// How many bytes a drawn change changes.
const CHANGED: u32 = 3;

/// The longest piece that is cut out or doubled.
const LONGEST: usize = 16;

/// Tries all inputs of a seed, and tells what came of them. Of `n` bytes there are `12 n + 1` inputs, and four more for each draw.
pub fn try_seed<L: Law>(
    alloc: Global,
    law: &L,
    seed: &[u8],
    draws: u32,
    answer: &mut String,
) -> Result<(), Halt> {
    let mut tally = Tally::new(alloc);
    prefixes(law, seed, &mut tally)?;
    replaced(alloc, law, seed, &mut tally)?;
    drawn(alloc, law, seed, draws, &mut tally)?;
    tally.say(answer)
}

/// A text without its spaces and line feeds.
fn without_spaces(alloc: Global, text: &[u8]) -> Result<Vec<u8>, AllocError> {
    let mut out = Vec::new(alloc);
    for byte in text {
        if !byte.is_ascii_whitespace() {
            out.push(*byte)?;
        }
    }
    Ok(out)
}

/// The bytes that the hexadecimal digits of a text say; spaces and line feeds stand between them.
pub fn hex_lines(alloc: Global, text: &[u8]) -> Result<Vec<u8>, Halt> {
    let digits = without_spaces(alloc, text)?;
    let digits = String::from_utf8_lossy(alloc, &digits)?;
    bytes(alloc, digits.as_str())
}

/// Tries each prefix, the empty one and the whole too.
fn prefixes<L: Law>(law: &L, seed: &[u8], tally: &mut Tally) -> Result<(), AllocError> {
    for end in 0..seed.len() {
        tally.take(law, &seed[..end])?;
    }
    tally.take(law, seed)
}

/// Tries the seed with each byte changed in each way.
fn replaced<L: Law>(
    alloc: Global,
    law: &L,
    seed: &[u8],
    tally: &mut Tally,
) -> Result<(), AllocError> {
    let mut input = Vec::from_slice(alloc, seed)?;
    for (place, byte) in seed.iter().enumerate() {
        others(law, &mut input, place, *byte, tally)?;
    }
    Ok(())
}

/// Tries an input with the least, the next and the greatest byte at a place, and with each bit of a byte changed there; that byte
/// stands there afterwards.
fn others<L: Law>(
    law: &L,
    input: &mut Vec<u8>,
    place: usize,
    byte: u8,
    tally: &mut Tally,
) -> Result<(), AllocError> {
    let values = [
        0,
        1,
        255,
        byte ^ 1,
        byte ^ 2,
        byte ^ 4,
        byte ^ 8,
        byte ^ 16,
        byte ^ 32,
        byte ^ 64,
        byte ^ 128,
    ];
    for value in &values {
        put(input, place, *value);
        tally.take(law, input)?;
    }
    put(input, place, byte);
    Ok(())
}

/// Puts a byte at a place, if there is one.
fn put(input: &mut [u8], place: usize, byte: u8) {
    if let Some(changed) = input.get_mut(place) {
        *changed = byte;
    }
}

/// Tries four inputs for each draw.
fn drawn<L: Law>(
    alloc: Global,
    law: &L,
    seed: &[u8],
    count: u32,
    tally: &mut Tally,
) -> Result<(), AllocError> {
    let mut draws = Draws::new(1);
    if seed.is_empty() {
        return Ok(());
    }
    for _ in 0..count {
        tally.take(law, &scattered(alloc, seed, &mut draws)?)?;
        tally.take(law, &moved(alloc, seed, &mut draws)?)?;
        tally.take(law, &without_piece(alloc, seed, &mut draws)?)?;
        tally.take(law, &with_piece_twice(alloc, seed, &mut draws)?)?;
    }
    Ok(())
}

/// The seed with some bytes that are drawn.
fn scattered(alloc: Global, seed: &[u8], draws: &mut Draws) -> Result<Vec<u8>, AllocError> {
    let mut input = Vec::from_slice(alloc, seed)?;
    for _ in 0..CHANGED {
        if !seed.is_empty() {
            let place = draws.below(seed.len());
            put(&mut input, place, draws.byte());
        }
    }
    Ok(input)
}

/// The seed with some bytes that stand elsewhere in it.
fn moved(alloc: Global, seed: &[u8], draws: &mut Draws) -> Result<Vec<u8>, AllocError> {
    let mut input = Vec::from_slice(alloc, seed)?;
    for _ in 0..CHANGED {
        if !seed.is_empty() {
            let place = draws.below(seed.len());
            put(&mut input, place, seed[draws.below(seed.len())]);
        }
    }
    Ok(input)
}

/// A seed in three parts.
#[derive(Drop)]
struct Parts<'a> {
    /// What stands before the piece.
    front: &'a [u8],
    /// A piece that was drawn.
    piece: &'a [u8],
    /// What stands behind it.
    back: &'a [u8],
}

/// Cuts a seed at places that are drawn.
fn in_parts<'a>(seed: &'a [u8], draws: &mut Draws) -> Parts<'a> {
    let start = if seed.is_empty() {
        0
    } else {
        draws.below(seed.len())
    };
    let (front, rest) = seed.split_at(start);
    let count = draws.below(LONGEST) + 1;
    let (piece, back) = rest.split_at(count.min(rest.len()));
    Parts { front, piece, back }
}

/// The seed without a piece.
fn without_piece(alloc: Global, seed: &[u8], draws: &mut Draws) -> Result<Vec<u8>, AllocError> {
    let parts = in_parts(seed, draws);
    let mut input = Vec::from_slice(alloc, parts.front)?;
    input.extend_from_slice(parts.back)?;
    Ok(input)
}

/// The seed with a piece that stands twice.
fn with_piece_twice(alloc: Global, seed: &[u8], draws: &mut Draws) -> Result<Vec<u8>, AllocError> {
    let parts = in_parts(seed, draws);
    let mut input = Vec::from_slice(alloc, parts.front)?;
    input.extend_from_slice(parts.piece)?;
    input.extend_from_slice(parts.piece)?;
    input.extend_from_slice(parts.back)?;
    Ok(input)
}
