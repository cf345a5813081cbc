//! The caching subcontract: a call on an object goes to the cache of its own machine, if there is one, and else to the
//! server's door. That a subcontract does this is the Spring papers' rule; its identifier, the bytes of its objects, and
//! that the name of every manager is `vmm`, are this project's own.
#![tactic(auto)]

mod kinds;
mod laws;

pub use kinds::Caching;
pub use laws::calls_go_local;

/// The identifier of the subcontract.
pub const CACHING: u16 = 3;
