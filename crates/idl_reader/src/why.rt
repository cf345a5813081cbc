//! Why a text is not in the language.

ghost use Rattle.std.specs.Prelude.{◌≡◌};
ghost use Rattle.idl_reader.specs.Why.{word_of};

use std::alloc::{AllocError, AllocFailed};
use thiserror::Error;

/// Why a text is not in the language. The first place in the text counts.
#[derive(Clone, Copy, Debug, PartialEq, Eq, Error)]
pub enum IdlWhy {
    /// A byte begins no token.
    #[error("byte")]
    Byte,
    /// A word has more than 32 characters.
    #[error("long")]
    LongName,
    /// A token, or the end of the text, cannot stand there.
    #[error("token")]
    Token,
    /// There are too many declarations, members, parameters or sequences.
    #[error("limit")]
    Limit,
    /// Memory ran out.
    #[error("memory")]
    Memory,
}

impl IdlWhy {
    /// The reason's printed word.
    pub fn word(self) -> &'static str
        ensures { result.now ≡ word_of self }
    {
        match self {
            IdlWhy::Byte => "byte",
            IdlWhy::LongName => "long",
            IdlWhy::Token => "token",
            IdlWhy::Limit => "limit",
            IdlWhy::Memory => "memory",
        }
    }
}

/// A text that is not in the language: the first place that is wrong, and why.
#[derive(Clone, Copy, Debug, PartialEq, Eq, Error)]
#[error("byte {place}: {why}")]
pub struct IdlRefused {
    /// The offset in bytes of the first byte, token or end that is wrong; 0 if memory ran out.
    pub place: u32,
    /// Why the text is refused there.
    pub why: IdlWhy,
}

impl From<AllocError> for IdlRefused {
    ghost use Rattle.idl_reader.specs.Why.{no_memory};

    ghost from_gives = { λ _ e. e ≡ no_memory };

    fn from(_: AllocError) -> IdlRefused {
        IdlRefused {
            place: 0,
            why: IdlWhy::Memory,
        }
    }
}

impl<T: Drop> From<AllocFailed<T>> for IdlRefused {
    ghost use Rattle.idl_reader.specs.Why.{no_memory};

    ghost from_gives = { λ _ e. e ≡ no_memory };

    fn from(_: AllocFailed<T>) -> IdlRefused {
        IdlRefused {
            place: 0,
            why: IdlWhy::Memory,
        }
    }
}
