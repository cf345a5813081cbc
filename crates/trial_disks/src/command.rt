//! The commands over the images of a stack's files.

use crate::stop::say_status;
use image_commands::{dump_file, format_files};
use spr_io::{MemBay, MemSink};
use spr_report::Status;
use stack_accept::Mounted;
use std::alloc::Global;
use trial_words::{Halt, number};

/// Prints the pages of a file. What it tells of the disks in mirrors goes nowhere.
fn dump(
    alloc: Global,
    mount: &Mounted,
    file: u32,
    bay: &mut MemBay,
    sink: &mut MemSink,
) -> Result<Status, Halt> {
    if file as usize >= mount.files().len() {
        return Err(Halt::Impossible);
    }
    let mut notices = MemSink::new(alloc, 1, &[])?;
    Ok(dump_file(alloc, mount, file, bay, sink, &mut notices))
}

/// `command format` or `command dump FILE` over the bay. What is written goes to the sink, and the status is appended.
pub fn step(
    alloc: Global,
    mount: &Mounted,
    bay: &mut Option<MemBay>,
    sink: &mut Option<MemSink>,
    words: &[&str],
    answer: &mut String,
) -> Result<(), Halt> {
    let (Some(bay), Some(sink)) = (bay, sink) else {
        return Err(Halt::Impossible);
    };
    let status = match words {
        ["format"] => format_files(alloc, mount, bay, sink),
        ["dump", file] => dump(alloc, mount, number(file)?, bay, sink)?,
        _ => return Err(Halt::Unread),
    };
    Ok(say_status(answer, status)?)
}
