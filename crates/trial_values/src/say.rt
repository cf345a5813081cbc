//! Lines of answers, and what steps' words stand for.

use marshal_buf::Door;
use std::alloc::{AllocError, Global};
use text_words::hex_bytes;
use trial_words::say;

/// Appends a line of bytes in hex; `''` stands for none.
pub fn say_hex(answer: &mut String, bytes: &[u8]) -> Result<(), AllocError> {
    if bytes.is_empty() {
        return say(answer, "''");
    }
    for byte in bytes {
        write!(answer, "{byte:02x}")?;
    }
    say(answer, "")
}

/// Appends whether bytes are put again as they were, and if not how they are put.
pub fn say_again(answer: &mut String, first: &[u8], second: &[u8]) -> Result<(), AllocError> {
    if first == second {
        return say(answer, "put again as before");
    }
    answer.push_str("put again as ")?;
    say_hex(answer, second)
}

/// The word itself; `''` stands for the empty one.
pub fn plain<'a>(word: &'a str) -> &'a str {
    if word == "''" { "" } else { word }
}

/// The bytes that a word says in hex; `''` says none.
pub fn bytes_of(alloc: Global, word: &str) -> Result<Vec<u8>, AllocError> {
    match hex_bytes(alloc, plain(word).as_bytes())? {
        Some(bytes) => Ok(bytes.into_vec()),
        None => Ok(Vec::new(alloc)),
    }
}

/// The number that a word of a step says.
pub fn count_of(word: &str) -> u64 {
    match word.parse::<u64>() {
        Ok(count) => count,
        Err(_) => 0,
    }
}

/// The number of 32 bits that a word of a step says.
pub fn small_of(word: &str) -> u32 {
    match word.parse::<u32>() {
        Ok(number) => number,
        Err(_) => 0,
    }
}

/// The number of 16 bits that a word of a step says.
pub fn short_of(word: &str) -> u16 {
    match word.parse::<u16>() {
        Ok(number) => number,
        Err(_) => 0,
    }
}

/// The byte that a word of a step says in hex.
pub fn byte_of(word: &str) -> u8 {
    match u8::from_str_radix(word, 16) {
        Ok(number) => number,
        Err(_) => 0,
    }
}

/// The door that a word says: its node and its file, with a point between them.
pub fn door_of(word: &str) -> Door {
    match word.split_once('.') {
        Some((node, file)) => Door {
            node: small_of(node),
            file: small_of(file),
        },
        None => Door { node: 0, file: 0 },
    }
}

/// Appends a door in the same form.
pub fn say_door(answer: &mut String, door: Door) -> Result<(), AllocError> {
    let (node, file) = (door.node, door.file);
    writeln!(answer, "door {node}.{file}")
}
