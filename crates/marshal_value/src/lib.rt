//! Values of the types of an interface text, and how they are spelled in a buffer: one part after the other,
//! without their names. Each value of a type has one spelling, and no spelling begins another. That a call's
//! arguments are marshalled by the types of its interface is the Spring papers' rule; the spelling is this
//! project's own.
#![tactic(auto)]

mod check;
mod find;
mod kind;
mod laws;
mod plain;
mod put;
mod read;
mod room;
mod value;
mod why;

pub use check::is_value_of;
pub use kind::declares;
pub use laws::{declared_within, one_spelling, written_is_read};
pub use put::{fits, put_value};
pub use read::get_value;
pub use value::Value;
pub use why::{BadValue, ValueWhy};
