//! Texts, bytes, paths and lists, as values that contracts see as lists. Every other crate takes them from here.
#![tactic(auto)]

mod items;
mod text;

pub use items::Items;
pub use text::{Bytes, Path, Text};
