//! The two plain subcontracts: a singleton has a door of its own, and the objects of a cluster share one door and have a
//! tag each. That there are these two is the Spring papers' rule; their identifiers, and that a tag is the number of a
//! file, are this project's own.
#![tactic(auto)]

mod kinds;

pub use kinds::{Cluster, Singleton};

/// The identifier of the subcontract of singletons.
pub const SINGLETON: u16 = 1;
/// The identifier of the subcontract of clusters.
pub const CLUSTER: u16 = 2;
