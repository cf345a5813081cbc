//! The trial of refusals: over many stacks, every call of every store, of the bay, of the shelf and of the sink is refused in turn,
//! and what a run writes and leaves is judged by its text and the stores alone.
#![tactic(auto)]

mod calls;
mod case;
mod judge;
mod kept;
mod kinds;
mod outcome;
mod plain;
mod queue;
mod report;
mod setting;
mod sweep;
mod walk;
mod world;
mod wrong;

use crate::case::Case;
use std::alloc::Global;
use std::io;
use std::process::ExitCode;
use std::sync::Wait;
use std::thread::Threads;
use trial_cases::{CaseFile, Count, exit_code, read_files, steps_of};

/// Does the cases of a file, and answers whether all answers were as wanted.
fn try_file<R: Print + Threads + Wait + Sync>(
    rt: &R,
    alloc: Global,
    file: &CaseFile,
) -> io::Result<bool> {
    let (name, steps) = (file.name.as_str(), steps_of(alloc, file.text.as_str())?);
    let mut count = Count::new();
    let mut case = Case::new(alloc);
    for step in &steps {
        if step.begins {
            case = Case::new(alloc);
        }
        let words: Vec<&str> = step.words.split(' ').collect(alloc)?;
        let mut answer = String::new(alloc);
        case.step(rt, &words, &step.body, &mut answer)?;
        count.judge(rt, name, step, &mut answer)?;
    }
    count.end(rt, name)
}

fn main(rt: HostRuntime) -> io::Result<ExitCode> {
    let mut is_good = true;
    for file in &read_files(&rt)? {
        is_good &= try_file(&rt, rt.alloc(), file)?;
    }
    Ok(exit_code(is_good))
}
