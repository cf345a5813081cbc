//! Numbers and bytes in words.

use crate::halt::Halt;
use hex::FromHexError;
use std::alloc::Global;

/// The number of a word.
pub fn number(word: &str) -> Result<u32, Halt> {
    word.parse::<u32>().map_err(|_| Halt::Unread)
}

/// The place of a word, or another long number.
pub fn long(word: &str) -> Result<u64, Halt> {
    word.parse::<u64>().map_err(|_| Halt::Unread)
}

/// The byte that a word says in hexadecimal.
pub fn byte(word: &str) -> Result<u8, Halt> {
    u8::from_str_radix(word, 16).map_err(|_| Halt::Unread)
}

/// The bytes of a word in hexadecimal.
pub fn bytes(alloc: Global, word: &str) -> Result<Vec<u8>, Halt> {
    match hex::decode(alloc, word) {
        Ok(bytes) => Ok(bytes),
        Err(FromHexError::OutOfMemory) => Err(Halt::Memory),
        Err(_) => Err(Halt::Unread),
    }
}

/// The numbers of some words.
pub fn numbers(alloc: Global, words: &[&str]) -> Result<Vec<u32>, Halt> {
    let mut numbers = Vec::new(alloc);
    for word in words {
        numbers.push(number(word)?).map_err(|_| Halt::Memory)?;
    }
    Ok(numbers)
}

/// Appends bytes in hexadecimal.
pub fn put_hex(alloc: Global, bytes: &[u8], answer: &mut String) -> Result<(), Halt> {
    let text = hex::encode(alloc, bytes)?;
    answer.push_str(text.as_str())?;
    Ok(())
}

/// The numbers of two words.
pub fn two(first: &str, second: &str) -> Result<(u32, u32), Halt> {
    Ok((number(first)?, number(second)?))
}

/// The numbers of three words.
pub fn three(first: &str, second: &str, third: &str) -> Result<(u32, u32, u32), Halt> {
    Ok((number(first)?, number(second)?, number(third)?))
}
