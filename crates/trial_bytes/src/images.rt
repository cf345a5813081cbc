//! The header and the map of an image of pages of 64 bytes.

ghost use Rattle.std.specs.Prelude.{IfOk};
ghost use Rattle.disk_format.specs.Shape.{IsShape};

use crate::laws::{Found, Law, read_if, refused_if};
use disk_format::{Image, ImageShape, ImageWhy, check_image};
use std::alloc::{AllocError, Global};
use trial_words::Halt;

/// The size of a page, and of a block.
const SIZE: usize = 64;

/// An image that is read is the only one with that generation and these entries; what is refused is refused at a byte of its front.
#[derive(Drop)]
pub struct ImageLaw {
    /// How many pages the image is to have.
    pub pages: u32,
}

/// The shape of so many pages.
fn shape_of(pages: u32) -> Result<ImageShape, Halt>
    ensures { IfOk result IsShape }
{
    if pages == 0 || pages > 1024 {
        return Err(Halt::Impossible);
    }
    Ok(ImageShape {
        page_size: 64,
        pages,
    })
}

/// The bytes, and behind them zeros up to a length; what is too long is cut.
fn with_zeros(alloc: Global, bytes: &[u8], len: usize) -> Result<Vec<u8>, AllocError> {
    let mut front = Vec::from_slice(alloc, bytes)?;
    front.resize(len, 0)?;
    Ok(front)
}

/// The front of an image of a shape that says this.
fn front_of(alloc: Global, shape: &ImageShape, image: &Image) -> Result<Vec<u8>, AllocError> {
    let mut header = Vec::from_slice(alloc, b"SPRG\0\0\0\x01")?;
    header.extend_from_slice(&shape.page_size.to_be_bytes())?;
    header.extend_from_slice(&shape.pages.to_be_bytes())?;
    header.extend_from_slice(&image.generation.to_be_bytes())?;
    header.resize(SIZE, 0)?;
    for entry in image.entries.as_slice() {
        header.extend_from_slice(&entry.to_be_bytes())?;
    }
    Ok(header)
}

/// Whether each entry is 0 or the number of a data block, and how many there are, is as the shape says.
fn fits(shape: &ImageShape, map_blocks: u32, image: &Image) -> bool {
    let first = map_blocks.saturating_add(1);
    let end = first.saturating_add(shape.pages);
    let entries = image.entries.as_slice();
    image.generation >= 1
        && image.generation < 9_223_372_036_854_775_808
        && entries.len() == shape.pages as usize
        && entries
            .iter()
            .all(|entry| *entry == 0 || (*entry >= first && *entry < end))
}

/// Whether no data block has two pages.
fn has_each_once(entries: &[u32]) -> bool {
    entries.iter().enumerate().all(|(page, entry)| {
        *entry == 0 || !entries.iter().take(page).any(|before| before == entry)
    })
}

impl Law for ImageLaw {
    fn judge(&self, alloc: Global, bytes: &[u8]) -> Result<Found, AllocError> {
        let Ok(shape) = shape_of(self.pages) else {
            return Ok(Found::Unlike);
        };
        let map_blocks = shape.map_blocks();
        let len = SIZE * (1 + map_blocks as usize);
        let front = with_zeros(alloc, bytes, len)?;
        if shape.page_size != 64 || front.len() != 64 * (1 + shape.map_blocks() as usize) {
            return Ok(Found::Unlike);
        }
        match check_image(alloc, &shape, &front) {
            Ok(image) => {
                let again = with_zeros(alloc, &front_of(alloc, &shape, &image)?, len)?;
                let is_so = fits(&shape, map_blocks, &image)
                    && has_each_once(image.entries.as_slice())
                    && again == front;
                Ok(read_if(is_so))
            }
            Err(bad) => Ok(refused_if(bad.why != ImageWhy::Memory && (bad.place as usize) < len)),
        }
    }
}
