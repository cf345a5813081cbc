//! What a generated run tells: how many calls were answered, and the sum of the bytes at the end.
#![tactic(auto)]

mod bytes;
mod counts;
mod text;

pub use text::summary;
