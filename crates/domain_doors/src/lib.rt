//! The table of doors of a domain: it holds each door under an identifier of its own. That a domain holds its
//! objects' doors so is the Spring papers' rule.
#![tactic(auto)]

mod table;
mod why;

pub use table::Domain;
pub use why::{DoorErr, NoDoor};
