//! What lies on each disk of each file of a stack, and which disk a mount would take: told in lines. No block is written, and
//! nothing is made.
#![tactic(auto)]

mod disk_text;
mod disks;
mod found;
mod looking;
mod winner;

pub use disks::list_disks;
pub use found::{Found, Look};
