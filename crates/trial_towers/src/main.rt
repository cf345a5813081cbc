//! Cases of the layers over a file: the plain file, the sheet of rights, the plan, logs, traces and whole towers.
#![tactic(auto)]

mod events;
mod log;
mod plain;
mod plan;
mod sheet;
mod tower;
mod trace;

use crate::log::Log;
use crate::plain::PlainFile;
use crate::plan::Planned;
use crate::sheet::Entered;
use crate::tower::Driven;
use crate::trace::Traced;
use std::alloc::Global;
use std::io;
use std::process::ExitCode;
use trial_cases::{CaseFile, exit_code, read_files};
use trial_parts::{subject_of, try_about};

/// Does the cases of a file, and answers whether all answers were as wanted.
fn try_cases<R: Print>(rt: &R, alloc: Global, file: &CaseFile) -> io::Result<bool> {
    match subject_of(file) {
        "plain" => try_about::<R, PlainFile>(rt, alloc, file),
        "sheet" => try_about::<R, Entered>(rt, alloc, file),
        "plan" => try_about::<R, Planned>(rt, alloc, file),
        "log" => try_about::<R, Log>(rt, alloc, file),
        "trace" => try_about::<R, Traced>(rt, alloc, file),
        "tower" | "ends" => try_about::<R, Driven>(rt, alloc, file),
        other => {
            println!(rt; "{other}: no such subject")?;
            Ok(false)
        }
    }
}

fn main(rt: HostRuntime) -> io::Result<ExitCode> {
    let mut is_good = true;
    for file in &read_files(&rt)? {
        is_good &= try_cases(&rt, rt.alloc(), file)?;
    }
    Ok(exit_code(is_good))
}
