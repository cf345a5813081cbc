//! The replicon subcontract: an object has one to eight doors, to views of one file, and a call goes through the first of them;
//! when that one serves no more, the object drops it and goes on by the next. That a subcontract does this is the Spring
//! papers' rule; that the doors are at most eight, the identifier of the subcontract, the bytes of its objects, and that they
//! keep a life for each door are this project's own.
#![tactic(auto)]

mod doors;
mod held;
mod laws;
mod lives;
mod put;
mod reading;
mod replicas;
mod replicon;
mod sent;

pub use doors::DoorList;
pub use laws::{refused_at_a_place, routes_arrive, written_is_read};
pub use reading::read_doors;
pub use replicas::are_replicas;
pub use replicon::Replicon;

/// The identifier of the subcontract.
pub const REPLICON: u16 = 5;
/// How many doors an object has at most.
pub const MAX_DOORS: usize = 8;
