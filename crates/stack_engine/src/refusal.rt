//! Why a try entered no event.

use page_exchange::GroundErr;
use page_ground::StoreFault as Fault;
use std::alloc::AllocError;
use thiserror::Error;

/// Why a try entered no event. Every layer's table and the ground's pages are as before.
#[derive(Clone, Copy, Debug, PartialEq, Eq, Error)]
pub enum StepErr {
    /// A disk's store failed in this try.
    #[error("store of disk {disk} failed, its fault {count}")]
    StoreFault {
        /// The number of the disk.
        disk: u32,
        /// The store's count of faults after the failure.
        count: u64,
    },
    /// The file's trail has 4,194,304 events, which is all that it may have.
    #[error("the trail is full")]
    TrailFull,
    /// Memory ran out.
    #[error("out of memory")]
    Memory,
}

impl From<AllocError> for StepErr {
    ghost use Rattle.std.specs.Prelude.{◌≡◌};
    ghost use Rattle.stack_engine.specs.declared.refusal.StepErr.TheVariants.{Memory};

    ghost from_gives = { λ _ e. e ≡ Memory };

    fn from(_: AllocError) -> StepErr {
        StepErr::Memory
    }
}
