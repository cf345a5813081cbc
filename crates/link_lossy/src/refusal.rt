//! Why a call has no answer.

use thiserror::Error;

/// Why a call has no answer.
#[derive(Clone, Copy, Debug, PartialEq, Eq, Error)]
pub enum LinkErr {
    /// Each of the call's eight tries lost its request or its reply. Whether it was served is not known.
    #[error("the link lost each try, its loss {count}")]
    Link {
        /// The link's count of losses after the tries.
        count: u64,
    },
    /// A disk's store failed as it was served.
    #[error("the store of disk {disk} failed, its fault {count}")]
    StoreFault {
        /// The number of the disk.
        disk: u32,
        /// The store's count of faults after the failure.
        count: u64,
    },
    /// The file's trail has all the events that it may have.
    #[error("the trail is full")]
    TrailFull,
    /// Memory ran out.
    #[error("out of memory")]
    Memory,
}
