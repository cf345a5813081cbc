//! Why a client receives no object.

use std::alloc::AllocError;
use thiserror::Error;

/// Why an object is not received.
#[derive(Clone, Copy, Debug, PartialEq, Eq, Error)]
pub enum NotReceived {
    /// What the names keep is no object of a subcontract that the program has, with nothing left over, which leads to
    /// a view and a file of the stack.
    #[error("bad object")]
    BadObject,
    /// Out of memory for the object.
    #[error("out of memory for an object")]
    Memory,
}

impl From<AllocError> for NotReceived {
    ghost use Rattle.std.specs.Prelude.{◌≡◌};
    ghost use Rattle.client_objects.specs.declared.why.NotReceived.TheVariants as whys;

    ghost from_gives = { λ _ e. e ≡ whys.Memory };

    fn from(_: AllocError) -> NotReceived {
        NotReceived::Memory
    }
}
