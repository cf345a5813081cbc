//! Why a call on an object fails.

use domain_doors::{DoorErr, NoDoor};
use marshal_buf::{BadDoor, Short};
use std::alloc::AllocError;
use thiserror::Error;

/// Why a subcontract refuses.
#[derive(Clone, Copy, Debug, PartialEq, Eq, Error)]
pub enum ObjectErr {
    /// The domain holds no door under the identifier that the object names.
    #[error("no door {id}")]
    NoDoor {
        /// The identifier of the door.
        id: usize,
    },
    /// The bytes are no object of the subcontract's form.
    #[error("no object at byte {at}")]
    BadObject {
        /// Where the part begins that cannot stand, in bytes from the input's start; the length of the whole input where
        /// a part is cut.
        at: u32,
    },
    /// Out of memory.
    #[error("out of memory for an object")]
    Memory,
}

/// Why no object of any known subcontract is received.
#[derive(Clone, Copy, Debug, PartialEq, Eq, Error)]
pub enum AnyErr {
    /// The bytes are no object.
    #[error("no object at byte {at}")]
    BadObject {
        /// Where the part begins that cannot stand, in bytes from the input's start; the length of the whole input where
        /// a part is cut.
        at: u32,
    },
    /// No known subcontract has the identifier.
    #[error("unknown subcontract {id}")]
    UnknownSubcontract {
        /// The identifier.
        id: u16,
    },
    /// Out of memory.
    #[error("out of memory for an object")]
    Memory,
}

impl From<NoDoor> for ObjectErr {
    ghost use Rattle.std.specs.Prelude.{◌≡◌};
    ghost use Rattle.sub_core.specs.declared.why.ObjectErr.TheVariants as whys;

    ghost from_gives = { λ lacking e. e ≡ whys.NoDoor lacking.id };

    fn from(lacking: NoDoor) -> ObjectErr {
        ObjectErr::NoDoor { id: lacking.id }
    }
}

impl From<AllocError> for ObjectErr {
    ghost use Rattle.std.specs.Prelude.{◌≡◌};
    ghost use Rattle.sub_core.specs.declared.why.ObjectErr.TheVariants as whys;

    ghost from_gives = { λ _ e. e ≡ whys.Memory };

    fn from(_: AllocError) -> ObjectErr {
        ObjectErr::Memory
    }
}

impl From<DoorErr> for ObjectErr {
    ghost use Rattle.std.specs.Prelude.{◌≡◌};
    ghost use Rattle.sub_core.specs.Whys.{object_why};

    ghost from_gives = { λ why e. e ≡ object_why why };

    fn from(why: DoorErr) -> ObjectErr {
        match why {
            DoorErr::NoDoor { id } => ObjectErr::NoDoor { id },
            DoorErr::Memory => ObjectErr::Memory,
        }
    }
}

impl From<BadDoor> for ObjectErr {
    ghost use Rattle.std.specs.Prelude.{◌≡◌};
    ghost use Rattle.sub_core.specs.declared.why.ObjectErr.TheVariants as whys;

    ghost from_gives = { λ bad e. e ≡ whys.BadObject bad.at };

    fn from(bad: BadDoor) -> ObjectErr {
        ObjectErr::BadObject { at: bad.at }
    }
}

impl From<Short> for ObjectErr {
    ghost use Rattle.std.specs.Prelude.{◌≡◌};
    ghost use Rattle.sub_core.specs.declared.why.ObjectErr.TheVariants as whys;

    ghost from_gives = { λ short e. e ≡ whys.BadObject short.at };

    fn from(short: Short) -> ObjectErr {
        ObjectErr::BadObject { at: short.at }
    }
}

impl From<Short> for AnyErr {
    ghost use Rattle.std.specs.Prelude.{◌≡◌};
    ghost use Rattle.sub_core.specs.declared.why.AnyErr.TheVariants as whys;

    ghost from_gives = { λ short e. e ≡ whys.BadObject short.at };

    fn from(short: Short) -> AnyErr {
        AnyErr::BadObject { at: short.at }
    }
}
