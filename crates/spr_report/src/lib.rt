//! The text of a run, and how a command's text is written and ends.
//!
//! The page messages of a file's trail are printed as they went over the channels: of each event its operation, its page and the
//! heads of its two frames. An event and the state before it determine them, so that a trail has to keep neither.
#![tactic(auto)]

mod answer;
mod bytes;
mod event;
mod exchange;
mod heads;
mod heads_law;
mod names_laws;
mod names_lines;
mod names_refusal;
mod operation_names;
mod status;
mod tracing;
mod whole;
mod writing;

pub use bytes::head_bytes;
pub use heads::{Heads, heads_of};
pub use heads_law::{heads_are_of_the_frames, heads_are_of_the_letters};
pub use names_laws::refusals_name_parts;
pub use names_lines::put_names;
pub use names_refusal::reply_of;
pub use operation_names::operation_name;
pub use status::Status;
pub use whole::{Run, report};
pub use writing::{finish, write_all, write_lost, write_pieces, write_status};
