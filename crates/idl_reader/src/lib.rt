//! The texts of Spring's interface definition language: what a text declares, and how it is printed.
#![tactic(auto)]

mod idl;
mod print;
mod read;
mod rest;
mod token;
mod why;

pub use idl::{
    Decl, Field, Idl, IdlOp, IdlType, MAX_DECLS, MAX_MEMBERS, MAX_NAME, MAX_PARAMS, MAX_SEQUENCES,
    Param, Word,
};
pub use print::print_idl;
pub use read::{read_idl, texts_and_declarations};
pub use why::{IdlRefused, IdlWhy};
