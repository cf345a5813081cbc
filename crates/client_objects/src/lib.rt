//! The objects that a client holds: each by a door of the client's own domain, under a name. An object is received
//! from the bytes that the names keep for it, and its subcontract says where its calls go: those of a caching object go
//! to the cache of the machine that they are made on. That an object is held so, and that a subcontract routes to the
//! local cache, is the Spring papers' rule; the bytes of the objects, the constant name of every manager, and a client's
//! names for its objects are this project's own.
//!
//! The names of a mounted stack start with one context per view, in the order of the nodes, and in it an object for each file.
#![tactic(auto)]

mod begun;
mod entry;
mod kind;
mod laws;
mod objects;
mod reading;
mod registry;
mod state;
mod stored;
mod target;
mod why;

pub use begun::{start_is_of_stack, start_names};
pub use kind::ObjectKind;
pub use laws::{bound_is_received, found_leads, received_leads};
pub use objects::Objects;
pub use reading::received_target;
pub use state::ClientState;
pub use stored::bound_object;
pub use target::{Found, Target, Way, file_by};
pub use why::NotReceived;
