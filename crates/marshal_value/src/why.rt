//! Why bytes are no value of a type.

use marshal_buf::Short;
use std::alloc::{AllocError, AllocFailed};
use thiserror::Error;

/// Why the next bytes are no value of a type.
#[derive(Clone, Copy, Debug, PartialEq, Eq, Error)]
pub enum ValueWhy {
    /// The input ends within the value.
    #[error("short")]
    Short,
    /// The byte of a truth value is neither 0 nor 1.
    #[error("bool")]
    Bool,
    /// The enum has no name at this position.
    #[error("enum")]
    Enum,
    /// The bytes of a text are no UTF-8.
    #[error("utf8")]
    Utf8,
    /// The index is not that of the next door, or there is no further door.
    #[error("door")]
    DoorIndex,
    /// Memory ran out; this says nothing of the bytes.
    #[error("memory")]
    Memory,
}

/// The first part, in the order of the bytes, that cannot stand, and why.
#[derive(Clone, Copy, Debug, PartialEq, Eq, Error)]
#[error("{why} at byte {at}")]
pub struct BadValue {
    /// Where that part begins, in bytes from the input's start; the length of the whole input where it is too
    /// short, and 0 if memory ran out.
    pub at: u32,
    /// Why it cannot stand.
    pub why: ValueWhy,
}

impl From<AllocError> for BadValue {
    ghost use Rattle.std.specs.Prelude.{◌≡◌};
    ghost use Rattle.marshal_value.specs.declared.why.ValueWhy.TheVariants.{Memory};

    ghost from_gives = { λ _ e. e ≡ record { at = 0; why = Memory } };

    fn from(_: AllocError) -> BadValue {
        BadValue {
            at: 0,
            why: ValueWhy::Memory,
        }
    }
}

impl<T: Drop> From<AllocFailed<T>> for BadValue {
    ghost use Rattle.std.specs.Prelude.{◌≡◌};
    ghost use Rattle.marshal_value.specs.declared.why.ValueWhy.TheVariants.{Memory};

    ghost from_gives = { λ _ e. e ≡ record { at = 0; why = Memory } };

    fn from(_: AllocFailed<T>) -> BadValue {
        BadValue {
            at: 0,
            why: ValueWhy::Memory,
        }
    }
}

impl From<Short> for BadValue {
    ghost use Rattle.std.specs.Prelude.{◌≡◌};
    ghost use Rattle.marshal_value.specs.declared.why.ValueWhy.TheVariants as why;

    ghost from_gives = { λ short e. e ≡ record { at = short.at; why = why.Short } };

    fn from(short: Short) -> BadValue {
        BadValue {
            at: short.at,
            why: ValueWhy::Short,
        }
    }
}
