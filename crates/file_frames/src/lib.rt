//! The calls on file objects as frames: a call is put into a frame, and read from it again. The
//! names of the operations are the Spring papers'. The form of a frame is this project's own.
#![tactic(auto)]

mod call;
mod putting;
mod reading;
mod through;
mod why;

pub use call::{FileCall, Received};
pub use putting::put_call;
pub use reading::read_call;
pub use through::through_frame;
pub use why::CallWhy;
