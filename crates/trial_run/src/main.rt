//! The trial of whole runs: what a command writes, and tells of the disks in mirrors, over texts and stores in memory whose calls
//! fail where a case says so, and what the stores keep afterwards.
#![tactic(auto)]

mod meeting;
mod runs;
mod sinks;
mod stores;
mod texts;
mod written;

use crate::runs::Runs;
use std::alloc::Global;
use std::io;
use std::process::ExitCode;
use std::sync::Wait;
use std::thread::Threads;
use trial_cases::{CaseFile, Count, exit_code, read_files, steps_of};

/// Does the cases of a file, and answers whether all answers were as wanted.
fn try_file<R: Print + Threads + Wait + Sync>(
    rt: &R,
    alloc: Global,
    file: &CaseFile,
) -> io::Result<bool> {
    let (name, steps) = (file.name.as_str(), steps_of(alloc, file.text.as_str())?);
    let mut count = Count::new();
    let mut runs = Runs::new(alloc)?;
    for step in &steps {
        if step.begins {
            runs = Runs::new(alloc)?;
        }
        let words: Vec<&str> = step.words.split(' ').collect(alloc)?;
        let mut answer = String::new(alloc);
        runs.step(rt, &words, &step.body, &mut answer)?;
        count.judge(rt, name, step, &mut answer)?;
    }
    count.end(rt, name)
}

fn main(rt: HostRuntime) -> io::Result<ExitCode> {
    let mut is_good = true;
    for file in &read_files(&rt)? {
        is_good &= try_file(&rt, rt.alloc(), file)?;
    }
    Ok(exit_code(is_good))
}
