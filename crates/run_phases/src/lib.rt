//! The clients of a script over the files of a stack: phase by phase, each client on a thread of its own, and then the closing syncs.
//!
//! Phases and closing syncs are this project's own.
#![tactic(auto)]

mod closing;
mod parts;
mod phase;
mod start;
mod worker;

pub use closing::close_files;
pub use phase::run_phases;
pub use start::workers_of;
pub use worker::Worker;
