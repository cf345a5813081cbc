//! One file over its ground: the layers above it, each with a table and copies of its own, moved one event at a time, and
//! the log that they leave. An access, a sync or an end of channels is brought about by tries, between which other callers
//! may act.
#![tactic(auto)]

mod accesses;
mod beside;
mod book;
mod ending;
mod ends;
mod engine;
mod messages;
mod moved;
mod plans;
mod refusal;
mod sight;
mod syncs;
mod tower;
mod turns;

pub use ends::End;
pub use moved::Moved;
pub use refusal::StepErr;
pub use tower::Tower;
pub use tower_log::{Entry, Logged, Note, Trail};
pub use turns::{Turn, TurnOf};
