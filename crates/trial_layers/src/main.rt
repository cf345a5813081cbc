//! Cases of one layer: frames, the tables of layers and of leaves, and their exchanges.
#![tactic(auto)]

mod exchange;
mod frames;
mod layers;
mod leaf;
mod tables;

use crate::exchange::Exchanged;
use crate::frames::Heard;
use crate::layers::Layers;
use crate::leaf::OneLeaf;
use crate::tables::Shared;
use std::alloc::Global;
use std::io;
use std::process::ExitCode;
use trial_cases::{CaseFile, exit_code, read_files};
use trial_parts::{subject_of, try_about};

/// Does the cases of a file, and answers whether all answers were as wanted.
fn try_cases<R: Print>(rt: &R, alloc: Global, file: &CaseFile) -> io::Result<bool> {
    match subject_of(file) {
        "frames" => try_about::<R, Heard>(rt, alloc, file),
        "layers" => try_about::<R, Layers>(rt, alloc, file),
        "leaf" => try_about::<R, OneLeaf>(rt, alloc, file),
        "exchange" => try_about::<R, Exchanged>(rt, alloc, file),
        "tables" => try_about::<R, Shared>(rt, alloc, file),
        other => {
            println!(rt; "{other}: no such subject")?;
            Ok(false)
        }
    }
}

fn main(rt: HostRuntime) -> io::Result<ExitCode> {
    let mut is_good = true;
    for file in &read_files(&rt)? {
        is_good &= try_cases(&rt, rt.alloc(), file)?;
    }
    Ok(exit_code(is_good))
}
