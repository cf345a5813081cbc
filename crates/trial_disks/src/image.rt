//! The front of an image: its header and its map, of pages of 64 bytes.

ghost use Rattle.std.specs.Prelude.{IfOk};
ghost use Rattle.disk_format.specs.Shape.{IsShape};

use crate::say::{say_bad, say_bytes};
use disk_format::{
    Image, ImageShape, check_image, map_entry, read_header, write_header, written_header_is_read,
};
use std::alloc::Global;
use trial_words::{Halt, byte, number, say};

/// The front of an image, and how many pages it is to have.
#[derive(Drop)]
pub struct Front {
    pages: u32,
    bytes: Vec<u8>,
}

/// The shape of so many pages of 64 bytes.
fn shape_of(pages: u32) -> Result<ImageShape, Halt>
    ensures { IfOk result IsShape }
{
    if pages == 0 || pages > 1024 {
        return Err(Halt::Impossible);
    }
    Ok(ImageShape {
        page_size: 64,
        pages,
    })
}

/// The bytes of a fresh image of generation 1.
fn fresh(alloc: Global, pages: u32) -> Result<Vec<u8>, Halt> {
    let shape = shape_of(pages)?;
    let mut bytes = vec![in alloc; 0u8; shape.page_size as usize]?;
    write_header(&shape, 1, &mut bytes);
    let map = vec![in alloc; 0u8; (shape.map_blocks() * 64) as usize]?;
    bytes.extend_from_slice(&map)?;
    Ok(bytes)
}

/// Appends what an image says.
fn say_image(image: &Image, answer: &mut String) -> Result<(), Halt> {
    let generation = image.generation;
    write!(answer, "generation {generation}, entries")?;
    for entry in image.entries.as_slice() {
        write!(answer, " {entry}")?;
    }
    Ok(say(answer, "")?)
}

impl Front {
    /// That of a fresh image.
    pub fn new(alloc: Global, pages: u32) -> Result<Front, Halt> {
        Ok(Front {
            pages,
            bytes: fresh(alloc, pages)?,
        })
    }

    /// Sets a byte.
    fn set(&mut self, place: u32, byte: u8) -> Result<(), Halt> {
        let place = place as usize;
        if place >= self.bytes.len() {
            return Err(Halt::Impossible);
        }
        self.bytes[place] = byte;
        Ok(())
    }

    /// Appends how many blocks there are of the map, and in all.
    fn say_blocks(&self, answer: &mut String) -> Result<(), Halt> {
        let shape = shape_of(self.pages)?;
        let (map, all) = (shape.map_blocks(), shape.blocks());
        Ok(writeln!(answer, "{map} of the map, {all} in all")?)
    }

    /// Appends what the bytes stand for, or the first place at which they stand for nothing.
    fn check(&self, alloc: Global, answer: &mut String) -> Result<(), Halt> {
        let shape = shape_of(self.pages)?;
        if shape.page_size != 64 || self.bytes.len() != 64 * (1 + shape.map_blocks() as usize) {
            return Err(Halt::Impossible);
        }
        match check_image(alloc, &shape, &self.bytes) {
            Ok(image) => say_image(&image, answer),
            Err(bad) => Ok(say_bad(answer, &bad)?),
        }
    }

    /// Appends what the header says.
    fn header(&self, answer: &mut String) -> Result<(), Halt> {
        let shape = shape_of(self.pages)?;
        let size = shape.page_size as usize;
        if self.bytes.len() < size {
            return Err(Halt::Impossible);
        }
        written_header_is_read();
        match read_header(&shape, &self.bytes[..size]) {
            Ok(header) => {
                let generation = header.generation;
                Ok(writeln!(answer, "generation {generation}")?)
            }
            Err(bad) => Ok(say_bad(answer, &bad)?),
        }
    }

    /// Appends the entry of a page.
    fn entry(&self, page: u32, answer: &mut String) -> Result<(), Halt> {
        if self.bytes.len() < 64 || page >= 1024 {
            return Err(Halt::Impossible);
        }
        let map = &self.bytes[64..];
        if map.len() < 4 * page as usize + 4 {
            return Err(Halt::Impossible);
        }
        let entry = map_entry(map, page);
        Ok(writeln!(answer, "{entry}")?)
    }

    /// Does a step: a byte is set, or something is told.
    pub fn step(&mut self, alloc: Global, words: &[&str], answer: &mut String) -> Result<(), Halt> {
        match words {
            ["set", place, other] => self.set(number(place)?, byte(other)?),
            ["blocks"] => self.say_blocks(answer),
            ["length"] => {
                let len = self.bytes.len();
                Ok(writeln!(answer, "{len}")?)
            }
            ["bytes"] => Ok(say_bytes(answer, &self.bytes)?),
            ["check"] => self.check(alloc, answer),
            ["header"] => self.header(answer),
            ["entry", page] => self.entry(number(page)?, answer),
            _ => Err(Halt::Unread),
        }
    }
}
