//! A store that failed.

ghost use Rattle.std.specs.Prelude.{◌≡◌};

use thiserror::Error;

/// A disk's store failed in this call.
#[derive(Clone, Copy, Debug, PartialEq, Eq, Error)]
#[error("the store of disk {disk} failed, its fault {count}")]
pub struct StoreFault {
    /// The number of the disk.
    pub disk: u32,
    /// The store's count of faults after the failure.
    pub count: u64,
}

/// The failure of a disk whose store then has this count of faults.
pub fn fault_of(disk: u32, count: u64) -> StoreFault
    ensures { result ≡ record { disk = disk; count = count } }
{
    StoreFault { disk, count }
}
