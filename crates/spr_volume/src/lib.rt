//! A volume: the files of a stack and its names, shared by callers on threads of their own. Each file stands under a lock, and the
//! names under another; a pass is what some callers know of the files' logs and of the names' history, and with it each of their
//! calls stands once in the log of its file, or in the names' history, at the place that it answers.
//!
//! A file under its lock is a shared tower, which keeps what it was when it was handed in, so that whoever has it later knows that
//! it is the same file later on; each of its calls is one try, which adds one entry to the log at most. A call on the names is
//! one hold of their lock, and what it is refused, the names decide as they stand in that hold.
//!
//! The rules of locks, seats, volumes and passes are this project's own.
#![tactic(auto)]

mod answered;
mod file_calls;
mod files;
mod holds;
mod law;
mod mounted;
mod names;
mod names_calls;
mod patience;
mod rows;
mod shared_files;
mod shared_tower;

pub use answered::Answered;
pub use law::{
    kept_pages_make_a_file, pages_read_again_were_taken, reads_find_the_file, tries_come_to_an_end,
};
pub use mounted::{Pass, Volume};
pub use name_context::{NameErr, Names, Stored};
pub use shared_files::{FilesPass, SharedFiles};
pub use shared_tower::SharedTower;
pub use stack_engine::StepErr as CallErr;
