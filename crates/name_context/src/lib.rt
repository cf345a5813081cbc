//! The names of a stack, as one tree that callers change by five calls, and the history of these calls. That contexts hold names,
//! and that a name leads to a context or to an object, is the Spring papers' rule; the five calls, their refusals and the history
//! are this project's own.
#![tactic(auto)]

mod entry;
mod history;
mod keys;
mod parts;
mod stack_names;
mod start;
mod steps;
mod tree;
mod walk;

pub use entry::{MAX_PARTS, NameCall, NameEntry, NameErr, Stored};
pub use stack_names::Names;
pub use tree::NameTree;
