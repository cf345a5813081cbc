//! The frames that go over a pager-cache channel and to a file: a head of 24 bytes, and data. That a channel joins a
//! cache manager's cache object to a pager's pager object, and the names of the operations on both, are the Spring
//! papers' rule. The form of a frame is this project's own.
#![tactic(auto)]

mod flags;
mod front;
mod numbers;
mod operation;
mod reading;
mod sent;
mod why;
mod writing;

pub use flags::{DATA, REPLY, TO_CACHE, TO_FILE};
pub use front::Head;
pub use numbers::Ops;
pub use operation::Operation;
pub use reading::read_frame;
pub use sent::Frame;
pub use why::{BadFrame, FrameWhy};
pub use writing::put_frame;
