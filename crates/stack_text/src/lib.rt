//! Stack texts: which file system layers stand on which, a line for each.
#![tactic(auto)]

mod print;
mod read;
mod stack;
mod why;

pub use print::print_stack;
pub use read::parse_stack;
pub use stack::{LayerKind, MAX_LINES, StackLine, StackText, UpperKind};
pub use why::{Refused, StackWhy};
