//! What a look at a store finds.

ghost use Rattle.std.specs.Prelude.{◌≡◌};
ghost use Rattle.image_looks.specs.Found.{is_lost, lacks_memory};

use disk_format::ImageWhy;
use script_meaning::StoreKey;

/// What a look at a store finds.
#[derive(Clone, Copy, Debug, PartialEq, Eq)]
pub enum Found {
    /// An image.
    Image {
        /// The generation: it rises at each raise of the image.
        generation: u64,
    },
    /// Nothing lies there.
    Missing,
    /// No image, and block 0 is all zeros.
    Blank,
    /// No image, and block 0 is not all zeros.
    NoImage {
        /// The place of the first damage, in bytes from the image's start.
        place: u32,
        /// Why the blocks are no image.
        why: ImageWhy,
    },
    /// The bay did not give the store.
    NotTaken,
    /// The bay did not take the store back.
    Lost,
    /// The store failed.
    Failed {
        /// Its count of faults after the failure.
        count: u64,
    },
    /// Memory ran out.
    Memory,
}

impl Found {
    /// Whether the bay refused to take the store back.
    pub(crate) fn is_lost(self) -> bool
        ensures { result ≡ is_lost self }
    {
        matches!(self, Found::Lost)
    }

    /// Whether memory ran out.
    pub(crate) fn lacks_memory(self) -> bool
        ensures { result ≡ lacks_memory self }
    {
        matches!(self, Found::Memory)
    }
}

/// A store that was looked at, and what was found.
#[derive(Clone, Copy, Debug, PartialEq, Eq)]
pub struct Look {
    /// Which store.
    pub store: StoreKey,
    /// What was found.
    pub found: Found,
}
