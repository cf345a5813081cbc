//! The command `spring`: the program over the host's files, the standard output and the standard error.
#![tactic(auto)]

mod help;
mod notices;
mod progress;

use crate::help::{HELP, VERSION, asks_help, asks_version};
use crate::notices::ErrSink;
use crate::progress::{ClearSink, Progress};
use spr_io::{HostBay, HostShelf, StdSink};
use spr_run::spring;
use std::alloc::{AllocError, Global};
use std::fs::File;
use std::io::IsTerminal;
use std::process::ExitCode;
use std::rt::{Runtime, Stderr};
use std::sync::Wait;
use std::thread::Threads;
use std::{env, io};
use value_types::Text;

/// The status of want of memory.
const NO_MEMORY: u8 = 8;

/// The arguments after the program's name.
fn words(alloc: Global, args: env::Args<Global>) -> Result<Vec<Text>, AllocError> {
    let mut words = Vec::new(alloc);
    for arg in args.skip(1) {
        words.push(Text::of(alloc, arg.as_str())?)?;
    }
    Ok(words)
}

/// Runs a command of these words, which tells its notices to the standard error, and answers its status. A run of more than a second
/// shows there how many calls it made, if that is a terminal.
fn run<R: Runtime<File = File> + Threads + Wait + Sync>(
    rt: &R,
    alloc: Global,
    stderr: Stderr,
    words: &[Text],
) -> io::Result<u8> {
    let mut shelf = HostShelf::new(rt.clone()?);
    let mut bay = HostBay::new(rt.clone()?, alloc);
    let progress = Progress::new(rt, stderr.is_terminal());
    let mut sink = ClearSink::new(StdSink::new(rt.clone()?), &progress);
    let mut notices = ClearSink::new(ErrSink::new(stderr), &progress);
    let status = spring(
        rt,
        alloc,
        words,
        &mut shelf,
        &mut bay,
        &mut sink,
        &mut notices,
        &progress,
    );
    progress.clear();
    Ok(status.number())
}

fn main(rt: HostRuntime) -> ExitCode {
    let Ok(args) = env::args(&rt) else {
        return ExitCode::from(NO_MEMORY);
    };
    let Ok(words) = words(rt.alloc(), args) else {
        return ExitCode::from(NO_MEMORY);
    };
    if asks_help(&words) {
        let _ = println!(rt; "{HELP}");
        return ExitCode::from(0);
    }
    if asks_version(&words) {
        let _ = println!(rt; "{VERSION}");
        return ExitCode::from(0);
    }
    match run(&rt, rt.alloc(), rt.stderr(), &words) {
        Ok(status) => ExitCode::from(status),
        Err(_) => ExitCode::from(NO_MEMORY),
    }
}
