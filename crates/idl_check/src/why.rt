//! Why declarations do not fit together.

ghost use Rattle.std.specs.Prelude.{◌≡◌};
ghost use Rattle.idl_check.specs.Why.{word_of};

use std::alloc::{AllocError, AllocFailed};
use thiserror::Error;

/// Why declarations do not fit together. They are tested in this order over the whole text, and of
/// one reason the first place counts. The rules are this project's own.
#[derive(Clone, Copy, Debug, PartialEq, Eq, Error)]
pub enum UnfitWhy {
    /// A name stands twice among the declarations, the fields of one struct, the names of one
    /// enum, the bases or the operations of one interface, or the parameters of one operation. The
    /// place is that of the second.
    #[error("repeated")]
    Repeated,
    /// A type or a base is not declared. The place is that of its name.
    #[error("unknown")]
    UnknownType,
    /// A base is a struct or an enum. The place is that of the base.
    #[error("base")]
    NotInterface,
    /// A declaration reaches itself through bases, or through fields of structs. The place is that
    /// of its name.
    #[error("cycle")]
    Cycle,
    /// An interface has, with those that it inherits, two operations of one name that different
    /// interfaces declare. The place is that of its name.
    #[error("clash")]
    Clash,
    /// Memory ran out.
    #[error("memory")]
    Memory,
}

impl UnfitWhy {
    /// The reason's printed word.
    pub fn word(self) -> &'static str
        ensures { result.now ≡ word_of self }
    {
        match self {
            UnfitWhy::Repeated => "repeated",
            UnfitWhy::UnknownType => "unknown",
            UnfitWhy::NotInterface => "base",
            UnfitWhy::Cycle => "cycle",
            UnfitWhy::Clash => "clash",
            UnfitWhy::Memory => "memory",
        }
    }
}

/// Declarations that do not fit together: where, and why.
#[derive(Clone, Copy, Debug, PartialEq, Eq, Error)]
#[error("byte {place}: {why}")]
pub struct IdlUnfit {
    /// The offset in bytes of the name that the reason is about; 0 if memory ran out.
    pub place: u32,
    /// Why the text is refused there.
    pub why: UnfitWhy,
}

impl From<AllocError> for IdlUnfit {
    ghost use Rattle.idl_check.specs.Why.{no_memory};

    ghost from_gives = { λ _ e. e ≡ no_memory };

    fn from(_: AllocError) -> IdlUnfit {
        IdlUnfit {
            place: 0,
            why: UnfitWhy::Memory,
        }
    }
}

impl<T: Drop> From<AllocFailed<T>> for IdlUnfit {
    ghost use Rattle.idl_check.specs.Why.{no_memory};

    ghost from_gives = { λ _ e. e ≡ no_memory };

    fn from(_: AllocFailed<T>) -> IdlUnfit {
        IdlUnfit {
            place: 0,
            why: UnfitWhy::Memory,
        }
    }
}
