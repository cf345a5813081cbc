//! The trial of the outside and of disks: stores, bays, texts, images, disks, mirrors, the files over them, and the commands.
#![tactic(auto)]

mod bay;
mod command;
mod disk;
mod file;
mod image;
mod making;
mod mirror;
mod say;
mod shape;
mod stack;
mod stop;
mod store;
mod stores;
mod texts;
mod trial;

use crate::trial::DiskTrial;
use std::io;
use std::process::ExitCode;
use trial_cases::run_trial;

fn main(rt: HostRuntime) -> io::Result<ExitCode> {
    let mut trial = DiskTrial::new(rt.alloc());
    run_trial(&rt, &mut trial)
}
