//! What clients, the report and the run have in common: what a run sees of a mounted stack, what a
//! line of a script does, and which logs and answers a script may have.
#![tactic(auto)]

mod laws;
mod names;
mod store;

pub use laws::revoked_by_each_door;
pub use names::{disk_name, file_name, file_named, layer_of, pages_of, view_of};
pub use store::StoreKey;
