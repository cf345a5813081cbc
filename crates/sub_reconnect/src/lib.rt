//! The reconnectable subcontract: an object knows the path that it was bound under, so that it can find its file again after
//! its view was revoked. That a subcontract does this is the Spring papers' rule; its identifier and the bytes of its objects
//! are this project's own.
#![tactic(auto)]

mod kinds;

pub use kinds::Reconnectable;

/// The identifier of the subcontract.
pub const RECONNECTABLE: u16 = 4;
