//! The program: the words of the command line and the command that they ask for, what it does over the outside, what it writes, and
//! its status.
#![tactic(auto)]

mod check;
mod command;
mod generated;
mod images;
mod tables;
mod top;
mod words;

pub use top::spring;
pub use words::{Asked, WordsErr, read_words};
