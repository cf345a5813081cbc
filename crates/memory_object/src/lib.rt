//! Memory objects: which virtual memory manager holds the pages of a file at a view, for the clients of a machine. That
//! equivalent memory objects bind to one set of cached pages is the Spring papers' rule; that the first manager that
//! fits is taken is this project's own.
#![tactic(auto)]

mod binding;
mod laws;

pub use binding::{CacheRights, MemoryObject, NoManager};
pub use laws::equivalent_objects_bind_alike;
