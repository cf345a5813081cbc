//! Cases of towers that callers share, of volumes of files and names, and of clients over them.
#![tactic(auto)]

mod calls;
mod client;
mod lines;
mod names;
mod open;
mod shared;
mod stack;
mod trial;
mod volume;

use crate::trial::Volumes;
use std::io;
use std::process::ExitCode;
use trial_cases::run_trial;

fn main(rt: HostRuntime) -> io::Result<ExitCode> {
    let mut volumes = Volumes::new(&rt, rt.alloc());
    run_trial(&rt, &mut volumes)
}
