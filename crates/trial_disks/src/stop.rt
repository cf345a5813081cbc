//! Why a command stops before its work, and what it writes then.

use crate::stack::{key_of, say_key};
use disk_format::{BadImage, ImageWhy};
use disk_layer::OpenWhy;
use file_stores::{Stop, stopped};
use page_ground::StoreFault;
use script_meaning::StoreKey;
use spr_io::MemSink;
use spr_report::Status;
use stack_accept::Mounted;
use std::alloc::{AllocError, Global};
use trial_words::{Halt, long, number, say};

/// Appends the number of a status.
pub fn say_status(answer: &mut String, status: Status) -> Result<(), AllocError> {
    let number = status.number();
    writeln!(answer, "status {number}")
}

/// Appends why a command stops.
pub fn say_stop(answer: &mut String, stop: Stop) -> Result<(), AllocError> {
    match stop {
        Stop::Bay { store } => {
            answer.push_str("bay, ")?;
            say_key(answer, store)?;
            say(answer, "")
        }
        Stop::Store { store, count } => {
            answer.push_str("store, ")?;
            say_key(answer, store)?;
            writeln!(answer, ", fault {count}")
        }
        Stop::Image { store, place, why } => {
            answer.push_str("image, ")?;
            say_key(answer, store)?;
            let word = why.word();
            writeln!(answer, ", {place} {word}")
        }
        Stop::Memory => say(answer, "memory"),
    }
}

/// The reason of a word.
fn why_of(word: &str) -> Result<ImageWhy, Halt> {
    match word {
        "magic" => Ok(ImageWhy::Magic),
        "version" => Ok(ImageWhy::Version),
        "size" => Ok(ImageWhy::PageSize),
        "pages" => Ok(ImageWhy::Pages),
        "generation" => Ok(ImageWhy::Generation),
        "pad" => Ok(ImageWhy::Pad),
        "entry" => Ok(ImageWhy::Entry),
        "twice" => Ok(ImageWhy::Twice),
        "tail" => Ok(ImageWhy::Tail),
        _ => Err(Halt::Unread),
    }
}

/// The stop of some words: `bay FILE DISK`, `store FILE DISK COUNT`, `image FILE DISK PLACE REASON`, or `memory`.
fn stop_of(words: &[&str]) -> Result<Stop, Halt> {
    match words {
        ["bay", file, disk] => Ok(Stop::Bay {
            store: key_of(file, disk)?,
        }),
        ["store", file, disk, count] => Ok(Stop::Store {
            store: key_of(file, disk)?,
            count: long(count)?,
        }),
        ["image", file, disk, place, why] => Ok(Stop::Image {
            store: key_of(file, disk)?,
            place: number(place)?,
            why: why_of(why)?,
        }),
        ["memory"] => Ok(Stop::Memory),
        _ => Err(Halt::Unread),
    }
}

/// Why a disk was not opened: `image PLACE REASON`, `store DISK COUNT`, or `memory`.
fn refusal_of(words: &[&str]) -> Result<OpenWhy, Halt> {
    match words {
        ["image", place, why] => Ok(OpenWhy::BadImage {
            bad: BadImage::new(number(place)?, why_of(why)?),
            blank: false,
        }),
        ["store", disk, count] => Ok(OpenWhy::StoreFault {
            fault: StoreFault {
                disk: number(disk)?,
                count: long(count)?,
            },
        }),
        ["memory"] => Ok(OpenWhy::Memory),
        _ => Err(Halt::Unread),
    }
}

/// The stores that are lost.
#[derive(Drop)]
pub struct StopCase {
    lost: Vec<StoreKey>,
}

impl StopCase {
    /// None is lost.
    pub fn new(alloc: Global) -> StopCase {
        StopCase {
            lost: Vec::new(alloc),
        }
    }

    /// Does a step: a store is lost; a disk's refusal is told as a stop; or a command stops, and what it writes goes to the
    /// sink.
    pub fn step(
        &mut self,
        mount: &Mounted,
        sink: &mut Option<MemSink>,
        words: &[&str],
        answer: &mut String,
    ) -> Result<(), Halt> {
        match words {
            ["lose", file, disk] => {
                let key = key_of(file, disk)?;
                self.lost.push(key).map_err(|_| Halt::Memory)
            }
            ["refused", file, disk, why @ ..] => {
                let stop = Stop::refused(key_of(file, disk)?, refusal_of(why)?);
                Ok(say_stop(answer, stop)?)
            }
            _ => match sink {
                Some(sink) => {
                    let status = stopped(sink, mount, stop_of(words)?, &self.lost);
                    Ok(say_status(answer, status)?)
                }
                None => Err(Halt::Impossible),
            },
        }
    }
}
