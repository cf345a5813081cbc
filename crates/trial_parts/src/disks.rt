//! Disks of pages of 64 bytes on a store in memory, which fails where a case says so.

ghost use Rattle.std.specs.Prelude.{IfOk, IsTrue, ◌≡◌, ◌≤◌, ℕ};
ghost use Rattle.disk_format.specs.Shape.{IsShape};
ghost use Rattle.disk_layer.specs.Disk.{seen_of};
ghost use Rattle.page_ground.specs.Seen.{faults_in, opened_in};
ghost use Rattle.page_exchange.specs.Tables.{IsUnderFile};

use disk_format::ImageShape;
use disk_layer::Disk;
use page_ground::Ground;
use page_messages::PagedFile;
use spr_io::MemStore;
use std::alloc::Global;
use trial_words::{Halt, number};

/// A disk on a store in memory.
pub type Ram = Disk<MemStore>;

/// The size of each page.
pub const SIZE: u32 = 64;

/// So many pages of 64 bytes.
fn shape_of(pages: u32) -> ImageShape
    requires some { 1 ≤ pages }
    requires few { pages ≤ 1024 }
    ensures shape { result ≡ record { page_size = 64; pages = pages } }
    ensures within { IsShape result }
{
    ImageShape {
        page_size: SIZE,
        pages,
    }
}

/// A disk of a fresh image, of a number and so many pages, whose store fails at one write: 0 is no write. The image takes the
/// first two writes.
pub fn disk(alloc: Global, disk: u32, pages: u32, fails_at: u64) -> Result<Ram, Halt> {
    if pages == 0 || pages > 15 {
        return Err(Halt::Impossible);
    }
    let shape = shape_of(pages);
    let blocks = shape.blocks();
    let store = MemStore::new(alloc, SIZE, blocks, &[], &[fails_at], &[])?;
    if !store.has_shape(SIZE, blocks) {
        return Err(Halt::Impossible);
    }
    Disk::format(alloc, store, disk, &shape).map_err(|_| Halt::Impossible)
}

/// The file of a number and so many pages of 64 bytes.
pub fn file_of(number: u32, pages: u32) -> PagedFile
    ensures { result ≡ record { number = number; page_size = 64; pages = pages } }
{
    PagedFile {
        number,
        page_size: SIZE,
        pages,
    }
}

/// Whether the disk has the pages of the file.
pub fn is_under(disk: &Ram, file: PagedFile) -> bool
    ensures under { IsTrue result → IsUnderFile (seen_of disk.now) file }
    ensures counts { (n : ℕ) → opened_in (seen_of disk.now).disks n ≤ faults_in (seen_of disk.now).disks n }
{
    disk.sound();
    let shape = disk.shape();
    shape.page_size == file.page_size && shape.pages == file.pages
}

/// The first bytes of a page of the disk.
pub fn first_bytes(disk: &mut Ram, page: u32) -> Result<[u8; 4], Halt> {
    let shape = disk.shape();
    if shape.page_size != SIZE || page >= shape.pages {
        return Err(Halt::Impossible);
    }
    let mut bytes = [0u8; 64];
    match disk.read(page, &mut bytes) {
        Ok(()) => Ok([bytes[0], bytes[1], bytes[2], bytes[3]]),
        Err(_) => Err(Halt::Impossible),
    }
}

/// The write that the store refuses, in `write N refused, ..`, or 0, and the words behind it.
pub fn refused_write<'a, 'b>(words: &'a [&'b str]) -> Result<(u64, &'a [&'b str]), Halt> {
    match words {
        ["write", at, "refused,", rest @ ..] => Ok((u64::from(number(at)?), rest)),
        _ => Ok((0, words)),
    }
}
