//! What the trial programs have in common: they read cases from files, do each step of a case, and compare its answer with the one
//! that stands in the case.
#![tactic(auto)]

mod files;
mod judge;
mod line;
mod steps;
mod trial;

pub use files::{CaseFile, exit_code, read_files};
pub use judge::{Count, run_trial, try_file};
pub use steps::{Step, steps_of};
pub use trial::Trial;
