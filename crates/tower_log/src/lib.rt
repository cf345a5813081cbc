//! The log of one file, kept so that an entry that is added moves no older one: its events, each with its answer and the
//! bytes that go with it, and the notes of failed calls.
#![tactic(auto)]

mod blocks;
mod counters;
mod logged;
mod notes;
mod trail;

pub use logged::{Entry, Logged, Note};
pub use trail::Trail;
