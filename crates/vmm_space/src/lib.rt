//! The address space of a client: which pages of which files stand at which addresses. That a client maps a file into
//! an address space is the Spring papers' rule. That a region has a name and takes a file's first pages, and the order
//! of the refusals, are this project's own.
#![tactic(auto)]

mod laws;
mod regions;
mod table;
mod why;

pub use laws::regions_meet_at_an_address;
pub use regions::{Place, Region};
pub use table::Space;
pub use why::{NoRegion, SpaceErr, TranslateErr};

/// The greatest address of a space, in bytes.
pub const MAX_ADDRESS: u64 = 9_223_372_036_854_775_807;
