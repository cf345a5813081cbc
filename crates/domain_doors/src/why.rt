//! Why a domain refuses.

use std::alloc::AllocError;
use thiserror::Error;

/// The domain holds no door under the identifier.
#[derive(Clone, Copy, Debug, PartialEq, Eq, Error)]
#[error("no door {id}")]
pub struct NoDoor {
    /// The identifier that was asked for.
    pub id: usize,
}

/// Why a domain copies no door.
#[derive(Clone, Copy, Debug, PartialEq, Eq, Error)]
pub enum DoorErr {
    /// The domain holds no door under the identifier.
    #[error("no door {id}")]
    NoDoor {
        /// The identifier that was asked for.
        id: usize,
    },
    /// Out of memory for another identifier.
    #[error("out of memory for a door")]
    Memory,
}

impl From<NoDoor> for DoorErr {
    ghost use Rattle.std.specs.Prelude.{◌≡◌};
    ghost use Rattle.domain_doors.specs.declared.why.DoorErr.TheVariants as whys;

    ghost from_gives = { λ lacking e. e ≡ whys.NoDoor lacking.id };

    fn from(lacking: NoDoor) -> DoorErr {
        DoorErr::NoDoor { id: lacking.id }
    }
}

impl From<AllocError> for DoorErr {
    ghost use Rattle.std.specs.Prelude.{◌≡◌};
    ghost use Rattle.domain_doors.specs.declared.why.DoorErr.TheVariants as whys;

    ghost from_gives = { λ _ e. e ≡ whys.Memory };

    fn from(_: AllocError) -> DoorErr {
        DoorErr::Memory
    }
}
