//! Reading a value of a plain type.

ghost use Rattle.std.specs.Prelude.{◌≡◌, IfSome, IfNone, true, false};
ghost use Rattle.std.specs.Str.{is_utf8};
ghost use Rattle.marshal_value.specs.Tree.{tree_of};
ghost use Rattle.marshal_value.specs.Reading.{number_from, bool_at, u8_at, u32_at, u64_at, counted_at, bytes_at, text_at, enum_at, reference_at, Gives};

use crate::value::Value;
use crate::why::{BadValue, ValueWhy};
use marshal_buf::Reader;
use std::alloc::Global;
use value_types::{Bytes, Text};

#[tactic(auto, unfolding(crate::specs::Reading::bool_at, crate::specs::Reading::part_from))]
pub(crate) fn read_bool(from: &mut Reader<'_>) -> Result<Value, BadValue>
    ensures { Gives tree_of result from.new (bool_at from.old) }
{
    let at = from.at();
    let part = from.get_part(1)?;
    match part[0] {
        0 => Ok(Value::Bool { v: false }),
        1 => Ok(Value::Bool { v: true }),
        _ => Err(BadValue {
            at,
            why: ValueWhy::Bool,
        }),
    }
}

#[tactic(auto, unfolding(crate::specs::Reading::u8_at, crate::specs::Reading::part_from))]
pub(crate) fn read_u8(from: &mut Reader<'_>) -> Result<Value, BadValue>
    ensures { Gives tree_of result from.new (u8_at from.old) }
{
    let part = from.get_part(1)?;
    Ok(Value::U8 { v: part[0] })
}

#[tactic(auto, unfolding(crate::specs::Reading::u32_at, crate::specs::Reading::number_from))]
pub(crate) fn read_u32(from: &mut Reader<'_>) -> Result<Value, BadValue>
    ensures { Gives tree_of result from.new (u32_at from.old) }
{
    let v = from.get_u32()?;
    Ok(Value::U32 { v })
}

#[tactic(auto, unfolding(crate::specs::Reading::u64_at, crate::specs::Reading::number_from))]
pub(crate) fn read_u64(from: &mut Reader<'_>) -> Result<Value, BadValue>
    ensures { Gives tree_of result from.new (u64_at from.old) }
{
    let v = from.get_u64()?;
    Ok(Value::U64 { v })
}

/// Reads a count, or a length.
#[tactic(auto, unfolding(crate::specs::Reading::number_from))]
pub(crate) fn read_count(from: &mut Reader<'_>) -> Result<u32, BadValue>
    ensures { Gives (λ n. n) result from.new (number_from 4 from.old) }
{
    Ok(from.get_u32()?)
}

#[tactic(auto, unfolding(crate::specs::Reading::counted_at, crate::specs::Reading::part_from))]
fn read_counted<'a>(from: &mut Reader<'a>) -> Result<&'a [u8], BadValue>
    ensures { Gives (λ part. part.now) result from.new (counted_at from.old) }
{
    let len = read_count(from)?;
    Ok(from.get_part(len)?)
}

#[tactic(auto, unfolding(crate::specs::Reading::bytes_at))]
pub(crate) fn read_bytes(alloc: Global, from: &mut Reader<'_>) -> Result<Value, BadValue>
    ensures { Gives tree_of result from.new (bytes_at from.old) }
{
    let part = read_counted(from)?;
    Ok(Value::Bytes {
        v: Bytes::of(alloc, part)?,
    })
}

/// The text that bytes are, if they are UTF-8.
fn text_of(bytes: &[u8]) -> Option<&str>
    ensures none { IfNone result (is_utf8 bytes.now ≡ false) }
    ensures text { IfSome result (λ text. text.now ≡ bytes.now) }
    ensures utf8 { IfSome result (λ text. is_utf8 bytes.now ≡ true) }
{
    match str::from_utf8(bytes) {
        Ok(text) => Some(text),
        Err(_) => None,
    }
}

#[tactic(auto, unfolding(crate::specs::Reading::text_at))]
pub(crate) fn read_text(alloc: Global, from: &mut Reader<'_>) -> Result<Value, BadValue>
    ensures { Gives tree_of result from.new (text_at from.old) }
{
    let at = from.at();
    let part = read_counted(from)?;
    match text_of(part) {
        Some(text) => Ok(Value::Str {
            v: Text::of(alloc, text)?,
        }),
        None => Err(BadValue {
            at,
            why: ValueWhy::Utf8,
        }),
    }
}

#[tactic(auto, unfolding(crate::specs::Reading::enum_at, crate::specs::Reading::number_from))]
pub(crate) fn read_enum(names: usize, from: &mut Reader<'_>) -> Result<Value, BadValue>
    ensures { Gives tree_of result from.new (enum_at names from.old) }
{
    let at = from.at();
    let position = from.get_u32()?;
    if (position as usize) < names {
        Ok(Value::Enum { position })
    } else {
        Err(BadValue {
            at,
            why: ValueWhy::Enum,
        })
    }
}

#[tactic(auto, unfolding(crate::specs::Reading::reference_at, crate::specs::Reading::number_from))]
pub(crate) fn read_reference(from: &mut Reader<'_>) -> Result<Value, BadValue>
    ensures { Gives tree_of result from.new (reference_at from.old) }
{
    let at = from.at();
    let mut ahead = from.copy();
    ahead.get_u32()?;
    match from.get_door() {
        Ok(door) => Ok(Value::Reference { door }),
        Err(_) => Err(BadValue {
            at,
            why: ValueWhy::DoorIndex,
        }),
    }
}
