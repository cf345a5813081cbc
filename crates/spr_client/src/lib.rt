//! A client of a stack's files and names: its open objects, its address space, and what its lines of a script do. A call on a file goes as
//! a frame of its object's subcontract, and a load or a store goes straight to the manager of the client's machine.
//!
//! The lines are this project's own; what a call on a file is follows the Spring papers.
#![tactic(auto)]

mod calls;
mod carried;
mod client;
mod ending;
mod files;
mod gate;
mod line;
mod lines;
mod mapping;
mod names;
mod opening;
mod places;
mod reconnecting;
mod replicas;

pub use calls::sync_at;
pub use client::{Client, Common, perform};
pub use gate::LineGate;
pub use line::{refused, reply_to};
pub use lines::{do_lines, lines_in, run_phase};
