//! What lies under a file: its pages, on one or more disks, as the layers above it see them.
//!
//! That a layer's bytes come from the object under it is from Spring's papers. That each call tells which disks are
//! live, what they kept and how often they failed is this project's own.
#![tactic(auto)]

mod fault;
mod ground;
mod zeros;

pub use fault::{StoreFault, fault_of};
pub use ground::Ground;
pub use zeros::is_zero_page;
