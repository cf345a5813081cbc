//! What a command reads before it takes a store: its texts, the numbers that the layers' operations have in the interfaces of a text,
//! and why a text is refused.
#![tactic(auto)]

mod generated;
mod interfaces;
mod known;
mod operation_names;
mod ops;
mod refusal;
mod stacks;
mod texts;

pub use generated::read_generated;
pub use interfaces::{IDL_LIMIT, read_tables};
pub use known::unknown_line;
pub use operation_names::operation_name;
pub use ops::ops_of;
pub use refusal::{Refusal, TextNames, refuse};
pub use texts::{TEXT_LIMIT, read_run, read_stack};
