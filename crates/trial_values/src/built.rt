//! Types and values that the words of a step build.

use crate::say::{bytes_of, count_of, door_of, small_of};
use idl_reader::{IdlType, Word};
use marshal_value::Value;
use std::alloc::{AllocError, Global};
use std::boxed::Box;
use value_types::{Bytes, Text};

/// The type of a name.
fn named(alloc: Global, name: &str) -> Result<IdlType, AllocError> {
    Ok(IdlType::Named {
        name: Word {
            text: Text::of(alloc, name)?,
            place: 0,
        },
    })
}

/// The type that a word names: `u8`, a name, or `sequence:NAME`.
pub fn type_of(alloc: Global, word: &str) -> Result<IdlType, AllocError> {
    if word == "u8" {
        return Ok(IdlType::U8);
    }
    match word.strip_prefix("sequence:") {
        Some(name) => Ok(IdlType::Sequence {
            of: Box::new(alloc, named(alloc, name)?)?,
        }),
        None => named(alloc, word),
    }
}

/// Takes the last values off, in their order.
fn last(alloc: Global, values: &mut Vec<Value>, count: u32) -> Result<Vec<Value>, AllocError> {
    let mut taken = Vec::new(alloc);
    for _ in 0..count {
        if let Some(value) = values.pop() {
            taken.push(value)?;
        }
    }
    taken.reverse();
    Ok(taken)
}

/// The value of a word: a kind and what it is; `sequence:COUNT` and `struct:COUNT` are made of the last values.
fn value_in(
    alloc: Global,
    values: &mut Vec<Value>,
    kind: &str,
    what: &str,
) -> Result<Option<Value>, AllocError> {
    let value = match kind {
        "bool" => Value::Bool { v: what == "true" },
        "u8" => Value::U8 {
            v: (count_of(what) % 256) as u8,
        },
        "u32" => Value::U32 { v: small_of(what) },
        "u64" => Value::U64 { v: count_of(what) },
        "text" => Value::Str {
            v: Text::of(alloc, what)?,
        },
        "bytes" => Value::Bytes {
            v: Bytes::from_vec(bytes_of(alloc, what)?),
        },
        "enum" => Value::Enum {
            position: small_of(what),
        },
        "door" => Value::Reference {
            door: door_of(what),
        },
        "sequence" => Value::Sequence {
            items: last(alloc, values, small_of(what))?,
        },
        "struct" => Value::Struct {
            fields: last(alloc, values, small_of(what))?,
        },
        _ => return Ok(None),
    };
    Ok(Some(value))
}

/// The last value that words build.
pub fn value_of(alloc: Global, words: &[&str]) -> Result<Option<Value>, AllocError> {
    let mut values = Vec::new(alloc);
    for word in words {
        if let Some((kind, what)) = word.split_once(':') {
            if let Some(value) = value_in(alloc, &mut values, kind, what)? {
                values.push(value)?;
            }
        }
    }
    Ok(values.pop())
}
