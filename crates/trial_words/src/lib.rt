//! What the words of a step say: numbers, bytes and the calls that are to fail; why a step has no answer; and lines of answers.
#![tactic(auto)]

mod failing;
mod halt;
mod lines;
mod values;

pub use failing::Failing;
pub use halt::{Halt, end_step};
pub use lines::{say, say_text, say_whether, without_zeros};
pub use values::{byte, bytes, long, number, numbers, put_hex, three, two};
