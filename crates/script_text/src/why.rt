//! Why a text is no script.

ghost use Rattle.std.specs.Prelude.{◌≡◌};
ghost use Rattle.script_text.specs.Why.{why_word, from_line};

use std::alloc::{AllocError, AllocFailed};
use text_words::LineWhy;
use thiserror::Error;

/// Why a line cannot stand in a script. On each line the reasons are tested in this order, and the
/// first bad line counts.
#[derive(Clone, Copy, Debug, PartialEq, Eq, Error)]
pub enum ScriptWhy {
    /// A byte is not one of space to `~`, nor the line feed.
    #[error("byte")]
    Byte,
    /// The line is empty, has a space at an end, or two spaces together.
    #[error("space")]
    Space,
    /// The last line has no line feed.
    #[error("end")]
    End,
    /// The line's number is above 2,097,152, or it has more than 8,400 bytes before its line feed.
    #[error("long")]
    Long,
    /// A client line after a phase line, a seventeenth one, or a repeated client name.
    #[error("client")]
    Client,
    /// Another line than a client line before the first phase line, or a phase line with further
    /// words.
    #[error("phase")]
    Phase,
    /// The first word of a call line is no declared client.
    #[error("who")]
    Who,
    /// The second word of a call line is no call, or is missing.
    #[error("verb")]
    Verb,
    /// The number of words is wrong.
    #[error("words")]
    Words,
    /// A name, path, subcontract or mode is malformed, or a client has a name that it cannot have.
    #[error("name")]
    Name,
    /// A number or an address is malformed.
    #[error("number")]
    Number,
    /// A hex word is malformed.
    #[error("hex")]
    Hex,
    /// Memory ran out; this says nothing of the text.
    #[error("memory")]
    Memory,
}

/// The first bad line of a text, from 1, and why it is bad. The line is 0 if memory ran out.
#[derive(Clone, Copy, Debug, PartialEq, Eq, Error)]
#[error("line {line}: {why}")]
pub struct Refused {
    /// The number of the line.
    pub line: u32,
    /// The first reason on that line.
    pub why: ScriptWhy,
}

impl ScriptWhy {
    /// The word that is printed for the reason.
    pub fn word(self) -> &'static str
        ensures { result.now ≡ why_word self }
    {
        match self {
            ScriptWhy::Byte => "byte",
            ScriptWhy::Space => "space",
            ScriptWhy::End => "end",
            ScriptWhy::Long => "long",
            ScriptWhy::Client => "client",
            ScriptWhy::Phase => "phase",
            ScriptWhy::Who => "who",
            ScriptWhy::Verb => "verb",
            ScriptWhy::Words => "words",
            ScriptWhy::Name => "name",
            ScriptWhy::Number => "number",
            ScriptWhy::Hex => "hex",
            ScriptWhy::Memory => "memory",
        }
    }
}

impl From<AllocError> for ScriptWhy {
    ghost use Rattle.script_text.specs.declared.why.ScriptWhy.TheVariants.{Memory};

    ghost from_gives = { λ _ w. w ≡ Memory };

    fn from(_: AllocError) -> ScriptWhy {
        ScriptWhy::Memory
    }
}

impl<T: Drop> From<AllocFailed<T>> for ScriptWhy {
    ghost use Rattle.script_text.specs.declared.why.ScriptWhy.TheVariants.{Memory};

    ghost from_gives = { λ _ w. w ≡ Memory };

    fn from(_: AllocFailed<T>) -> ScriptWhy {
        ScriptWhy::Memory
    }
}

impl From<LineWhy> for ScriptWhy {
    ghost from_gives = { λ line w. w ≡ from_line line };

    fn from(why: LineWhy) -> ScriptWhy {
        match why {
            LineWhy::Byte => ScriptWhy::Byte,
            LineWhy::Space => ScriptWhy::Space,
            LineWhy::End => ScriptWhy::End,
            LineWhy::Memory => ScriptWhy::Memory,
        }
    }
}
