//! What callers call, and what the history has of a call.

ghost use Rattle.std.specs.Prelude.{◌≡◌};
ghost use Rattle.name_context.specs.declared.entry.NameErr.TheVariants as errs;

use marshal_buf::Buf;
use std::alloc::AllocError;
use thiserror::Error;
use value_types::Path;

/// How many parts the path of a call may have. The limit is this project's own.
pub const MAX_PARTS: usize = 8;

/// What is stored under a name: an object's bytes and doors, as a message would carry it.
pub type Stored = Buf;

/// Why a call is refused. Parts of a path count from 0, and the first part that cannot stand gives the refusal.
#[derive(Clone, Copy, Debug, PartialEq, Eq, Error)]
pub enum NameErr {
    /// Nothing stands at the part.
    #[error("part {part} is not bound")]
    NotBound {
        /// The part of the path, counted from 0.
        part: u32,
    },
    /// Something stands at the part, where something is to be made.
    #[error("part {part} is bound already")]
    AlreadyBound {
        /// The part of the path, counted from 0.
        part: u32,
    },
    /// An object stands at the part, where a context is needed.
    #[error("part {part} is not a context")]
    NotContext {
        /// The part of the path, counted from 0.
        part: u32,
    },
    /// A context stands at the part, where an object is needed.
    #[error("part {part} is not an object")]
    NotObject {
        /// The part of the path, counted from 0.
        part: u32,
    },
    /// Memory ran out. Such a call is no entry of the history.
    #[error("out of memory")]
    Memory,
}

impl From<AllocError> for NameErr {
    ghost from_gives = { λ _ err. err ≡ errs.Memory };

    fn from(_err: AllocError) -> NameErr {
        NameErr::Memory
    }
}

/// What a caller calls.
#[derive(Clone, Copy, Debug, PartialEq, Eq)]
pub enum NameCall {
    /// Makes a context.
    Context,
    /// Stores an object.
    Bind,
    /// Gives the object that is stored.
    Resolve,
    /// Takes a name out, and all names below it.
    Unbind,
    /// Lists what stands in a context.
    List,
}

/// A call, as the history has it.
#[derive(Debug, Drop)]
pub struct NameEntry {
    /// The number of the caller.
    pub caller: u32,
    /// How many entries its caller had before.
    pub number: u64,
    /// What was called.
    pub call: NameCall,
    /// The path that was named. None is the root, which only a list may name.
    pub path: Option<Path>,
    /// The object of a bind. Every other call has none.
    pub object: Option<Stored>,
    /// Why the call was refused. None if it was done. It is never `Memory`.
    pub refused: Option<NameErr>,
}
