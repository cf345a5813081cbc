//! The seats that a mounted stack has for generated clients.
#![tactic(auto)]

mod law;
mod shape;

pub use law::texts_have_names;
pub use shape::shape_of;
