//! Why a text is no stack text.

ghost use Rattle.std.specs.Prelude.{◌≡◌};
ghost use Rattle.stack_text.specs.Why.{word_of, why_of};

use std::alloc::{AllocError, AllocFailed};
use text_words::LineWhy;
use thiserror::Error;

/// Why a line cannot stand in a stack text. The reasons are tested in this order, and the first
/// counts.
#[derive(Clone, Copy, Debug, PartialEq, Eq, Error)]
pub enum StackWhy {
    /// A byte is not one of space to `~`.
    #[error("byte")]
    Byte,
    /// The line is empty, has a space at an end, or two spaces together.
    #[error("space")]
    Space,
    /// The last line has no line feed.
    #[error("end")]
    End,
    /// There are `MAX_LINES` lines before, which is 128.
    #[error("long")]
    Long,
    /// The first word names no kind of line.
    #[error("verb")]
    Verb,
    /// The number of words is wrong.
    #[error("words")]
    Words,
    /// A word in a name's place is no name.
    #[error("name")]
    Name,
    /// A word in a number's place is no number.
    #[error("number")]
    Number,
    /// Memory ran out.
    #[error("memory")]
    Memory,
}

impl StackWhy {
    /// The reason's printed word.
    pub fn word(self) -> &'static str
        ensures { result.now ≡ word_of self }
    {
        match self {
            StackWhy::Byte => "byte",
            StackWhy::Space => "space",
            StackWhy::End => "end",
            StackWhy::Long => "long",
            StackWhy::Verb => "verb",
            StackWhy::Words => "words",
            StackWhy::Name => "name",
            StackWhy::Number => "number",
            StackWhy::Memory => "memory",
        }
    }
}

impl From<AllocError> for StackWhy {
    ghost use Rattle.stack_text.specs.declared.why.StackWhy.TheVariants.{Memory};

    ghost from_gives = { λ _ e. e ≡ Memory };

    fn from(_: AllocError) -> StackWhy {
        StackWhy::Memory
    }
}

impl<T: Drop> From<AllocFailed<T>> for StackWhy {
    ghost use Rattle.stack_text.specs.declared.why.StackWhy.TheVariants.{Memory};

    ghost from_gives = { λ _ e. e ≡ Memory };

    fn from(_: AllocFailed<T>) -> StackWhy {
        StackWhy::Memory
    }
}

impl From<LineWhy> for StackWhy {
    ghost from_gives = { λ why e. e ≡ why_of why };

    fn from(why: LineWhy) -> StackWhy {
        match why {
            LineWhy::Byte => StackWhy::Byte,
            LineWhy::Space => StackWhy::Space,
            LineWhy::End => StackWhy::End,
            LineWhy::Memory => StackWhy::Memory,
        }
    }
}

/// A text that is no stack text: its first bad line, and why it is bad.
#[derive(Clone, Copy, Debug, PartialEq, Eq, Error)]
#[error("line {line}: {why}")]
pub struct Refused {
    /// The line's number, from 1; 0 if memory ran out.
    pub line: u32,
    /// The first reason.
    pub why: StackWhy,
}
