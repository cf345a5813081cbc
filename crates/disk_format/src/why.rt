//! Why bytes are no image.

ghost use Rattle.std.specs.Prelude.{◌≡◌};
ghost use Rattle.disk_format.specs.Why.{word_of};

use std::alloc::AllocError;
use thiserror::Error;

/// Why bytes are no image. They are tested in this order, and the first counts.
#[derive(Clone, Copy, Debug, PartialEq, Eq, Error)]
pub enum ImageWhy {
    /// The first four bytes are not `SPRG`.
    #[error("magic")]
    Magic,
    /// The version is not 1.
    #[error("version")]
    Version,
    /// The page size is not the shape's.
    #[error("size")]
    PageSize,
    /// The number of pages is not the shape's.
    #[error("pages")]
    Pages,
    /// The generation is 0 or above 9,223,372,036,854,775,807.
    #[error("generation")]
    Generation,
    /// A byte of the header past the generation is not zero.
    #[error("pad")]
    Pad,
    /// An entry is neither 0 nor the number of a data block.
    #[error("entry")]
    Entry,
    /// An entry names a block of an earlier entry.
    #[error("twice")]
    Twice,
    /// A byte of the map past the last entry is not zero.
    #[error("tail")]
    Tail,
    /// Memory ran out.
    #[error("memory")]
    Memory,
}

impl ImageWhy {
    /// The reason's printed word.
    pub fn word(self) -> &'static str
        ensures { result.now ≡ word_of self }
    {
        match self {
            ImageWhy::Magic => "magic",
            ImageWhy::Version => "version",
            ImageWhy::PageSize => "size",
            ImageWhy::Pages => "pages",
            ImageWhy::Generation => "generation",
            ImageWhy::Pad => "pad",
            ImageWhy::Entry => "entry",
            ImageWhy::Twice => "twice",
            ImageWhy::Tail => "tail",
            ImageWhy::Memory => "memory",
        }
    }
}

/// Bytes that are no image: where the first fault stands, and why it is one.
#[derive(Clone, Copy, Debug, PartialEq, Eq, Error)]
#[error("no image at byte {place}: {why}")]
pub struct BadImage {
    /// The fault's place, in bytes from the image's start; 0 if memory ran out.
    pub place: u32,
    /// The first reason.
    pub why: ImageWhy,
}

impl BadImage {
    /// A fault of a place.
    pub fn new(place: u32, why: ImageWhy) -> BadImage
        ensures { result ≡ record { place = place; why = why } }
    {
        BadImage { place, why }
    }
}

impl From<AllocError> for BadImage {
    ghost use Rattle.disk_format.specs.declared.why.ImageWhy.TheVariants.{Memory};

    ghost from_gives = { λ _ e. e ≡ record { place = 0; why = Memory } };

    fn from(_: AllocError) -> BadImage {
        BadImage::new(0, ImageWhy::Memory)
    }
}
