//! Why a space refuses.

use std::alloc::AllocError;
use thiserror::Error;

/// Why a region is not mapped. The first in this order counts, which is this project's own.
#[derive(Clone, Copy, Debug, PartialEq, Eq, Error)]
pub enum SpaceErr {
    /// A region has the name.
    #[error("region exists")]
    RegionExists,
    /// The address is no multiple of the page size.
    #[error("unaligned")]
    Unaligned,
    /// It has no page, or more than the file has.
    #[error("too long")]
    TooLong,
    /// Its bytes meet those of a region.
    #[error("overlap")]
    Overlap,
    /// Out of memory.
    #[error("out of memory for a region")]
    Memory,
}

/// No region has the name.
#[derive(Clone, Copy, Debug, PartialEq, Eq, Error)]
#[error("no region")]
pub struct NoRegion;

/// Why an address leads to no page. The first in this order counts, which is this project's own.
#[derive(Clone, Copy, Debug, PartialEq, Eq, Error)]
pub enum TranslateErr {
    /// No region has the address.
    #[error("unmapped {address}")]
    Unmapped {
        /// The address, in bytes.
        address: u64,
    },
    /// There is no byte, or the bytes are not of one page.
    #[error("crosses page")]
    CrossesPage,
    /// A store through a region that is mapped for reading.
    #[error("not writable")]
    NotWritable,
}

impl From<AllocError> for SpaceErr {
    ghost use Rattle.std.specs.Prelude.{◌≡◌};
    ghost use Rattle.vmm_space.specs.declared.why.SpaceErr.TheVariants as whys;

    ghost from_gives = { λ _ e. e ≡ whys.Memory };

    fn from(_: AllocError) -> SpaceErr {
        SpaceErr::Memory
    }
}
