//! Version 1 of the format: the header in block 0, and the map in the blocks after it.

ghost use Rattle.std.specs.Prelude.{◌≡◌, ℕ, Ok, ◌+◌, ◌-◌, ◌*◌, ◌^◌, ◌<◌, ◌≤◌, ◌==◌, ◌++◌, [], length, take, drop, not, IsTrue, IfOk, None};
ghost use Rattle.byteorder.specs.Endian.{big_bytes};
ghost use Rattle.disk_format.specs.declared.shape.ImageShape.{ImageShape};
ghost use Rattle.disk_format.specs.Shape.{IsShape, map_blocks, front_length};
ghost use Rattle.disk_format.specs.Why.{Answers};
ghost use Rattle.disk_format.specs.Table.{first_place, again_place};
ghost use Rattle.disk_format.specs.VersionOne.{number_at, long_number_at, header, header_in, entry_of, entries_in, is_entry, map_in, image_in};

use crate::image::{Entries, Header, Image};
use crate::shape::ImageShape;
use crate::why::{BadImage, ImageWhy};
use byteorder::{BigEndian, ByteOrder};
use std::alloc::{AllocError, Global};

/// The first bytes of an image: `SPRG`.
const MAGIC: u32 = 0x5350_5247;

/// The version of the format.
const VERSION: u32 = 1;

/// The least generation that is too great: 2 to the 63rd.
const NO_GENERATION: u64 = 0x8000_0000_0000_0000;

/// The number in four bytes.
#[tactic(auto, unfolding(crate::specs::VersionOne::number_at))]
fn number_at(bytes: &[u8], place: usize) -> u32
    requires { place + 4 ≤ length bytes.now }
    ensures { result ≡ number_at place bytes.now }
{
    BigEndian::read_u32(&bytes[place..])
}

/// The number in eight bytes.
#[tactic(auto, unfolding(crate::specs::VersionOne::long_number_at))]
fn long_number_at(bytes: &[u8], place: usize) -> u64
    requires { place + 8 ≤ length bytes.now }
    ensures { result ≡ long_number_at place bytes.now }
{
    BigEndian::read_u64(&bytes[place..])
}

/// Writes a number into four bytes.
fn put_number(out: &mut [u8], place: usize, number: u32)
    requires { place + 4 ≤ length out.old }
    ensures number { out.new ≡ take place out.old ++ (big_bytes 4 number ++ drop (place + 4) out.old) }
    ensures same { length out.new ≡ length out.old }
{
    BigEndian::write_u32(&mut out[place..], number);
}

/// Writes a number into eight bytes.
fn put_long_number(out: &mut [u8], place: usize, number: u64)
    requires { place + 8 ≤ length out.old }
    ensures number { out.new ≡ take place out.old ++ (big_bytes 8 number ++ drop (place + 8) out.old) }
    ensures same { length out.new ≡ length out.old }
{
    BigEndian::write_u64(&mut out[place..], number);
}

/// Writes the header of an image of this shape and generation into a block.
#[tactic(auto, using(crate::proofs::ShapeLaws::sizes))]
pub fn write_header(shape: &ImageShape, generation: u64, out: &mut [u8])
    requires shape { IsShape shape.now }
    requires size { length out.old ≡ shape.now.page_size }
    ensures { out.new ≡ header shape.now generation }
{
    put_number(out, 0, MAGIC);
    put_number(out, 4, VERSION);
    put_number(out, 8, shape.page_size);
    put_number(out, 12, shape.pages);
    put_long_number(out, 16, generation);
    out[24..].fill(0);
}

/// The place of the first byte that is not zero; `from` is the place of the first byte.
fn nonzero_place(bytes: &[u8], from: u32) -> Option<u32>
    requires { from + length bytes.now < 2 ^ 32 }
    ensures { result ≡ first_place 1 (λ b. not (b == 0)) from bytes.now }
{
    for (index, byte) in bytes.iter().enumerate() {
        if *byte != 0 {
            return Some(from + index as u32);
        }
    }
    None
}

/// Reads the header in a block: what it says, or the first place at which it is no header of this
/// shape.
#[tactic(auto, using(crate::proofs::ShapeLaws::sizes))]
pub fn read_header(shape: &ImageShape, block: &[u8]) -> Result<Header, BadImage>
    requires shape { IsShape shape.now }
    requires size { length block.now ≡ shape.now.page_size }
    ensures { result ≡ header_in shape.now block.now }
{
    let generation = long_number_at(block, 16);
    let (place, why) = if number_at(block, 0) != MAGIC {
        (0, ImageWhy::Magic)
    } else if number_at(block, 4) != VERSION {
        (4, ImageWhy::Version)
    } else if number_at(block, 8) != shape.page_size {
        (8, ImageWhy::PageSize)
    } else if number_at(block, 12) != shape.pages {
        (12, ImageWhy::Pages)
    } else if generation == 0 || generation >= NO_GENERATION {
        (16, ImageWhy::Generation)
    } else if let Some(place) = nonzero_place(&block[24..], 24) {
        (place, ImageWhy::Pad)
    } else {
        return Ok(Header { generation });
    };
    Err(BadImage { place, why })
}

/// A law: a header that was written is read again, with its generation.
pub fn written_header_is_read()
    ensures { (shape : ImageShape) (generation : ℕ) → IsShape shape → 1 ≤ generation → generation < 2 ^ 63
        → header_in shape (header shape generation) ≡ Ok (record { generation = generation }) }
{}

/// The entry of a page in the bytes of the map: 0 for a hole, else the number of its data block.
pub fn map_entry(map: &[u8], page: u32) -> u32
    requires { 4 * page + 4 ≤ length map.now }
    ensures { result ≡ entry_of map.now page }
{
    number_at(map, 4 * page as usize)
}

/// The entry of each page.
#[tactic(auto, using(crate::proofs::EntryLaws::entries_more))]
fn read_entries(alloc: Global, pages: u32, map: &[u8]) -> Result<Vec<u32>, AllocError>
    requires { 4 * pages ≤ length map.now }
    ensures { IfOk result (λ entries. entries.items ≡ entries_in pages map.now) }
{
    let mut entries = Vec::with_capacity(alloc, pages as usize)?;
    for page in 0..pages {
        entries.push(map_entry(map, page))?;
    }
    Ok(entries)
}

/// The place of the first entry that is neither 0 nor a data block.
#[tactic(auto, using(crate::proofs::ShapeLaws::sizes))]
fn wrong_entry(shape: &ImageShape, entries: &[u32]) -> Option<u32>
    requires shape { IsShape shape.now }
    requires many { length entries.now ≡ shape.now.pages }
    ensures { result ≡ first_place 4 (λ e. not (is_entry shape.now e)) shape.now.page_size entries.now }
{
    let data = 1 + shape.map_blocks();
    for (page, entry) in entries.iter().enumerate() {
        if *entry != 0 && (*entry < data || *entry >= data + shape.pages) {
            return Some(shape.page_size + 4 * page as u32);
        }
    }
    None
}

/// The place of the first entry that names a block of an earlier one.
#[tactic(auto, using(crate::proofs::ShapeLaws::sizes))]
fn repeated_entry(
    alloc: Global,
    shape: &ImageShape,
    entries: &[u32],
) -> Result<Option<u32>, AllocError>
    requires shape { IsShape shape.now }
    requires many { length entries.now ≡ shape.now.pages }
    requires entries { first_place 4 (λ e. not (is_entry shape.now e)) shape.now.page_size entries.now ≡ None }
    ensures { IfOk result (λ place. place ≡ again_place 4 [] shape.now.page_size entries.now) }
{
    let data = 1 + shape.map_blocks();
    let mut used = vec![in alloc; false; shape.pages as usize]?;
    for (page, entry) in entries.iter().enumerate() {
        if *entry != 0 {
            let block = (*entry - data) as usize;
            if used[block] {
                return Ok(Some(shape.page_size + 4 * page as u32));
            }
            used[block] = true;
        }
    }
    Ok(None)
}

/// Reads the bytes of the map: the entries, or the first place at which they are no map of this
/// shape.
#[tactic(auto, using(crate::proofs::ShapeLaws::sizes))]
fn read_map(alloc: Global, shape: &ImageShape, map: &[u8]) -> Result<Entries, BadImage>
    requires shape { IsShape shape.now }
    requires size { length map.now ≡ map_blocks shape.now * shape.now.page_size }
    ensures { Answers result (map_in shape.now map.now) }
{
    let entries = read_entries(alloc, shape.pages, map)?;
    if let Some(place) = wrong_entry(shape, &entries) {
        return Err(BadImage::new(place, ImageWhy::Entry));
    }
    if let Some(place) = repeated_entry(alloc, shape, &entries)? {
        return Err(BadImage::new(place, ImageWhy::Twice));
    }
    let past = 4 * shape.pages;
    if let Some(place) = nonzero_place(&map[past as usize..], shape.page_size + past) {
        return Err(BadImage::new(place, ImageWhy::Tail));
    }
    Ok(Entries::from_vec(entries))
}

/// Reads the header and the map of an image, in the bytes of block 0 and of the map's blocks: what
/// they say, or the first place at which they are no image of this shape; place 0 if memory ran
/// out.
#[tactic(auto, using(crate::proofs::ShapeLaws::sizes))]
pub fn check_image(alloc: Global, shape: &ImageShape, bytes: &[u8]) -> Result<Image, BadImage>
    requires shape { IsShape shape.now }
    requires size { length bytes.now ≡ front_length shape.now }
    ensures { Answers result (image_in shape.now bytes.now) }
{
    let (block, map) = bytes.split_at(shape.page_size as usize);
    let header = read_header(shape, block)?;
    let entries = read_map(alloc, shape, map)?;
    Ok(Image {
        generation: header.generation,
        entries,
    })
}
