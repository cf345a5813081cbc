//! A client's open replicon objects: each has one to eight doors to one file, at views of a stack, and a life of each door's view. Its calls go
//! by the first door; when that one's life is over, the object drops it and goes on by the next. That is the Spring papers' rule. That the doors
//! of each object stand in a domain of its own, and the names that a client has for its objects, are this project's own.
#![tactic(auto)]

mod door;
mod reading;
mod replicas;
mod replicated;
mod stored;

pub use door::OpenDoor;
pub use reading::received_doors;
pub use replicas::{OpenReplicon, Replicas};
pub use replicated::Replicated;
pub use stored::stored_replicon;
