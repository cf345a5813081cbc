//! The commands over the images of a stack's files: one writes a fresh image on each store, another prints the pages of one.
#![tactic(auto)]

mod dumping;
mod formatting;
mod fresh;
mod pages;
mod told;

pub use dumping::dump_file;
pub use formatting::format_files;
