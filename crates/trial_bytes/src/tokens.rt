//! The tokens of a text of interfaces.

use std::alloc::{AllocError, Global};

/// The tokens of a text that was seen so far, with a space between two words and nothing between others.
#[derive(Drop)]
struct Tokens {
    out: Vec<u8>,
    /// Whether a comment goes on.
    is_comment: bool,
    /// Whether the last token ended.
    is_apart: bool,
}

/// Whether a byte stands in a word.
fn is_of_word(byte: u8) -> bool {
    byte.is_ascii_alphanumeric() || byte == b'_'
}

impl Tokens {
    /// No token so far.
    fn new(alloc: Global) -> Tokens {
        Tokens {
            out: Vec::new(alloc),
            is_comment: false,
            is_apart: false,
        }
    }

    /// Takes a byte of a token.
    fn token(&mut self, byte: u8) -> Result<(), AllocError> {
        let follows_word = self.out.last().is_some_and(|last| is_of_word(*last));
        if self.is_apart && follows_word && is_of_word(byte) {
            self.out.push(b' ')?;
        }
        self.out.push(byte)?;
        self.is_apart = false;
        Ok(())
    }

    /// Takes the next byte of the text.
    fn take(&mut self, byte: u8) -> Result<(), AllocError> {
        match byte {
            b'\n' => {
                self.is_comment = false;
                self.is_apart = true;
            }
            _ if self.is_comment => {}
            b'/' => self.is_comment = true,
            b' ' | b'\t' => self.is_apart = true,
            _ => self.token(byte)?,
        }
        Ok(())
    }
}

/// The tokens of a text, without its spaces and comments.
pub fn tokens_of(alloc: Global, text: &[u8]) -> Result<Vec<u8>, AllocError> {
    let mut tokens = Tokens::new(alloc);
    for byte in text {
        tokens.take(*byte)?;
    }
    Ok(tokens.out)
}
