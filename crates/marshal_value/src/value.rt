//! A value.

use marshal_buf::Door;
use value_types::{Bytes, Text};

/// A value of a type of an interface: what a call passes, or answers.
#[derive(Debug, Drop)]
pub enum Value {
    /// A truth value.
    Bool {
        /// Whether it is true.
        v: bool,
    },
    /// A number of 8 bits.
    U8 {
        /// The number itself.
        v: u8,
    },
    /// A number of 32 bits.
    U32 {
        /// The number itself.
        v: u32,
    },
    /// A number of 64 bits.
    U64 {
        /// The number itself.
        v: u64,
    },
    /// A text.
    Str {
        /// The text.
        v: Text,
    },
    /// Some bytes.
    Bytes {
        /// The bytes.
        v: Bytes,
    },
    /// Any number of values of one type.
    Sequence {
        /// The values, in order.
        items: Vec<Value>,
    },
    /// A value of a struct.
    Struct {
        /// The values of its fields, in order.
        fields: Vec<Value>,
    },
    /// One of the names of an enum.
    Enum {
        /// How many names stand before it.
        position: u32,
    },
    /// A reference to an object of an interface.
    Reference {
        /// The door to the object.
        door: Door,
    },
}
