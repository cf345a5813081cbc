//! Scripts: their texts, what they say, and the answers to their lines.
#![tactic(auto)]

mod answer;
mod args;
mod calls;
mod lines;
mod parse;
mod print;
mod script;
mod verb;
mod why;

pub use answer::put_reply;
pub use parse::parse_script;
pub use print::print_script;
pub use script::{Call, CallLine, ClientLine, Reply, Said, Script, Sub};
pub use why::{Refused, ScriptWhy};

/// The most clients of a script.
pub const MAX_CLIENTS: usize = 16;
/// The most lines of a script.
pub const MAX_LINES: u32 = 2_097_152;
/// The most bytes of a line before its line feed.
pub const MAX_LINE_BYTES: usize = 8_400;
