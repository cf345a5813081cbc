//! A disk in the making, of number 7, on a store in memory.

use crate::disk::{NUMBER, Ram, say_why, suitable};
use crate::say::say_called;
use crate::shape::shape;
use disk_layer::{FreshImage, Making, OpenErr};
use spr_io::MemStore;
use std::alloc::Global;
use trial_words::{Halt, byte, long, number, say};

/// A disk in the making, if one was begun.
#[derive(Drop)]
pub struct MakingCase {
    making: Option<Making<MemStore>>,
}

/// Takes the store of a refusal into the hand, and appends the reason.
fn refuse(
    held: &mut Option<MemStore>,
    refused: OpenErr<MemStore>,
    answer: &mut String,
) -> Result<(), Halt> {
    say_why(answer, refused.why)?;
    *held = Some(refused.store);
    Ok(())
}

/// Writes a page that has one byte in each place.
fn write(
    making: &mut Making<MemStore>,
    page: u32,
    byte: u8,
    answer: &mut String,
) -> Result<(), Halt> {
    let shape = making.shape();
    if shape.page_size != 64 || page >= shape.pages {
        return Err(Halt::Impossible);
    }
    Ok(say_called(answer, making.write(page, &[byte; 64]))?)
}

impl MakingCase {
    /// None was begun.
    pub fn new() -> MakingCase {
        MakingCase { making: None }
    }

    /// Begins one on the store in hand.
    fn begin(
        &mut self,
        alloc: Global,
        held: &mut Option<MemStore>,
        answer: &mut String,
    ) -> Result<(), Halt> {
        let store = suitable(held)?;
        let fresh = FreshImage::new(alloc, &shape())?;
        match Making::begin(fresh, store, NUMBER) {
            Ok(making) => {
                self.making = Some(making);
                Ok(say(answer, "done")?)
            }
            Err(refused) => refuse(held, refused, answer),
        }
    }

    /// The one that was begun, which is taken out.
    fn taken(&mut self) -> Result<Making<MemStore>, Halt> {
        match self.making.take() {
            Some(making) => Ok(making),
            None => Err(Halt::Impossible),
        }
    }

    /// Ends it, with a generation.
    fn end(
        &mut self,
        disk: &mut Option<Ram>,
        held: &mut Option<MemStore>,
        generation: u64,
        answer: &mut String,
    ) -> Result<(), Halt> {
        if generation == 0 || generation > 9_223_372_036_854_775_807 {
            return Err(Halt::Impossible);
        }
        match self.taken()?.end(generation) {
            Ok(made) => {
                *disk = Some(made);
                Ok(say(answer, "done")?)
            }
            Err(refused) => refuse(held, refused, answer),
        }
    }

    /// `making begin`, `making write PAGE BYTE`, `making end GENERATION`, or `making leave`.
    pub fn step(
        &mut self,
        alloc: Global,
        disk: &mut Option<Ram>,
        held: &mut Option<MemStore>,
        words: &[&str],
        answer: &mut String,
    ) -> Result<(), Halt> {
        match words {
            ["begin"] => self.begin(alloc, held, answer),
            ["write", page, filled] => match &mut self.making {
                Some(making) => write(making, number(page)?, byte(filled)?, answer),
                None => Err(Halt::Impossible),
            },
            ["end", generation] => self.end(disk, held, long(generation)?, answer),
            ["leave"] => {
                *held = Some(self.taken()?.leave());
                Ok(())
            }
            _ => Err(Halt::Unread),
        }
    }
}
