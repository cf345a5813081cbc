//! Objects, and what a subcontract does with them: how an object is sent, received, copied and given up, and where its
//! calls go. That a subcontract decides this, and that an object may name the manager of a cache, is the Spring papers'
//! rule. How the bytes of an object lie, that an identifier of two bytes stands before them, and that the name of every
//! manager is `vmm`, are this project's own.
#![tactic(auto)]

mod any;
mod fields;
mod given;
mod laws;
mod names;
mod received;
mod roles;
mod sent;
mod shape;
mod values;
mod why;

pub use any::unmarshal_any;
pub use fields::read_fields;
pub use given::{consume_held, copy_held};
pub use laws::{sent_arrives, written_is_read};
pub use names::MANAGER;
pub use received::unmarshal_as;
pub use roles::{Registry, Subcontract};
pub use sent::marshal_as;
pub use shape::{Form, object_len};
pub use values::{Fields, Object, Route};
pub use why::{AnyErr, ObjectErr};
