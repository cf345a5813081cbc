//! A run of a script over the files of a stack: their stores are taken, opened, run over and given back, and the report is
//! written.
#![tactic(auto)]

mod beginning;
mod ended;
mod held;
mod lasting;
mod layers;
mod play;
mod promise;
mod room;
mod run;
mod shut;
mod sums;

pub use promise::{each_sync_counts, headline, synced_pages_begin_the_next_run, synced_pages_last};
pub use run::{run_files, sum_files};
