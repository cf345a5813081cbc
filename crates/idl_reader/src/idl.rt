//! An IDL text as values.

use std::boxed::Box;
use value_types::{Items, Text};

/// The most declarations that a text has.
pub const MAX_DECLS: usize = 256;
/// The most fields, names or operations that a declaration has.
pub const MAX_MEMBERS: usize = 64;
/// The most parameters that an operation has.
pub const MAX_PARAMS: usize = 16;
/// The most sequences that a type has.
pub const MAX_SEQUENCES: u32 = 8;
/// The most characters that a word has.
pub const MAX_NAME: usize = 32;

/// A name where it stands in a text.
#[derive(Debug, Drop)]
pub struct Word {
    /// The name.
    pub text: Text,
    /// Its offset in the text, in bytes.
    pub place: u32,
}

/// What a text declares. Whether the declarations fit together is for `check` to say.
#[derive(Debug, Drop)]
pub struct Idl {
    /// The declarations, in the order of the text.
    pub decls: Items<Decl>,
}

/// One declaration.
#[derive(Debug, Drop)]
pub enum Decl {
    /// A value of several fields.
    Struct {
        /// Its name, as it stands in the text.
        name: Word,
        /// Its fields, in order; at least one.
        fields: Items<Field>,
    },
    /// One of several names.
    Enum {
        /// Its name, as it stands in the text.
        name: Word,
        /// The names, in order; at least one.
        names: Items<Word>,
    },
    /// An object's operations.
    Interface {
        /// Its name, as it stands in the text.
        name: Word,
        /// The interfaces that it inherits from, in order.
        bases: Items<Word>,
        /// The operations that it declares itself, in order.
        ops: Items<IdlOp>,
    },
}

/// A field of a struct.
#[derive(Debug, Drop)]
pub struct Field {
    /// Its type.
    pub ty: IdlType,
    /// Its name.
    pub name: Word,
}

/// An operation of an interface.
#[derive(Debug, Drop)]
pub struct IdlOp {
    /// The type of its result; `None` where it has none.
    pub result: Option<IdlType>,
    /// Its name.
    pub name: Word,
    /// Its parameters, in order.
    pub params: Items<Param>,
}

/// A parameter of an operation.
#[derive(Debug, Drop)]
pub struct Param {
    /// Whether the caller gives the argument away; else a copy is passed.
    pub consume: bool,
    /// Its type.
    pub ty: IdlType,
    /// Its name.
    pub name: Word,
}

/// A type.
#[derive(Debug, Drop)]
pub enum IdlType {
    /// A truth value.
    Bool,
    /// A number of 8 bits.
    U8,
    /// A number of 32 bits.
    U32,
    /// A number of 64 bits.
    U64,
    /// A text.
    Str,
    /// Some bytes.
    Bytes,
    /// Any number of values of one type.
    Sequence {
        /// The type of each.
        of: Box<IdlType>,
    },
    /// A declared type.
    Named {
        /// Its name, as it stands in the text.
        name: Word,
    },
}
