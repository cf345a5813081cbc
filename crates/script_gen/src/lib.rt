//! Scripts that are made from a number: which clients a stack gives them, and what each client calls.
#![tactic(auto)]

mod access;
mod aim;
mod draws;
mod first;
mod laws;
mod second;
mod shape;
mod whole;

pub use laws::{calls_are_within_pages, calls_take_three_or_four_draws, pages_have_one_writer};
pub use shape::{Shape, ShapeFile, ShapeSeat};
pub use whole::generate;

/// How many clients a generated script has.
pub const CLIENTS: u32 = 8;
/// The most calls of its second phase.
pub const MAX_CALLS: u32 = 1_000_000;
/// A seed is below this number.
pub const SEED_LIMIT: u32 = 2_147_483_648;
/// The most files of a shape.
pub const MAX_FILES: usize = 16;
