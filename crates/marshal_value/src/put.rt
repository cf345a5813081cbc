//! Putting a value.

ghost use Rattle.std.specs.Prelude.{◌≡◌, ◌+◌, ◌<◌, ◌^◌, ◌↔◌, [], IsTrue, IsOk, OnOk, OnErr, length};
ghost use Rattle.marshal_buf.specs.Held.{Puts, IsAsBefore};
ghost use Rattle.marshal_value.specs.Tree.{tree_of, trees_of};
ghost use Rattle.marshal_value.specs.Spelling.{flag, count, spelling, spelling_of_all, doors_of, doors_of_all, size_of, size_of_all, HasSpelling, HaveSpelling};
ghost use Rattle.idl_reader.specs.Tree.{type_tree};
ghost use Rattle.marshal_value.specs.Lookup.{table_of};
ghost use Rattle.marshal_value.specs.Types.{IsOf};
ghost use Rattle.marshal_value.specs.Room.{IsWithin, HasRoom};

use crate::room::room_of;
use crate::value::Value;
use idl_reader::IdlType;
use idl_tables::TableSet;
use marshal_buf::Buf;
use std::alloc::AllocError;

fn put_flag(v: bool, buf: &mut Buf) -> Result<(), AllocError>
    requires { HasRoom 1 0 buf.old }
    ensures ok { IsOk result }
    ensures put { Puts (flag v) [] buf.old buf.new }
{
    if v {
        buf.put_bytes(&[1])
    } else {
        buf.put_bytes(&[0])
    }
}

/// Puts a value for which there is room.
#[cycle(puts)]
fn put_one(value: &Value, buf: &mut Buf) -> Result<(), AllocError>
    requires fits { HasSpelling (tree_of value.now) }
    requires room { HasRoom (size_of (tree_of value.now)) (length (doors_of (tree_of value.now))) buf.old }
    ensures ok { IsOk result }
    ensures put { Puts (spelling (length buf.old.doors) (tree_of value.now)) (doors_of (tree_of value.now)) buf.old buf.new }
{
    match value {
        Value::Bool { v } => put_flag(*v, buf),
        Value::U8 { v } => buf.put_bytes(&[*v]),
        Value::U32 { v } => buf.put_u32(*v),
        Value::U64 { v } => buf.put_u64(*v),
        Value::Str { v } => buf.put_counted(v.as_str().as_bytes()),
        Value::Bytes { v } => buf.put_counted(v.as_slice()),
        Value::Sequence { items } => {
            buf.put_u32(items.len() as u32)?;
            put_all(items, buf)
        }
        Value::Struct { fields } => put_all(fields, buf),
        Value::Enum { position } => buf.put_u32(*position),
        Value::Reference { door } => buf.put_door(*door),
    }
}

/// Puts values for which there is room, one after the other.
#[cycle(puts)]
fn put_all(values: &[Value], buf: &mut Buf) -> Result<(), AllocError>
    requires fit { HaveSpelling (trees_of values.now) }
    requires room { HasRoom (size_of_all (trees_of values.now)) (length (doors_of_all (trees_of values.now))) buf.old }
    ensures ok { IsOk result }
    ensures put { Puts (spelling_of_all (length buf.old.doors) (trees_of values.now)) (doors_of_all (trees_of values.now)) buf.old buf.new }
{
    for value in values {
        put_one(value, buf)?;
    }
    Ok(())
}

/// Whether a value fits behind what a buffer has, so that `put_value` may be called.
pub fn fits(value: &Value, buf: &Buf) -> bool
    ensures { IsTrue result ↔ IsWithin (size_of (tree_of value.now)) (length (doors_of (tree_of value.now))) buf.now }
{
    let room = room_of(value);
    room.bytes + (buf.bytes_len() as u64) <= u32::MAX as u64
        && room.doors + (buf.doors_len() as u64) <= u32::MAX as u64
}

/// Puts a value of a type, all of it or nothing. The set and the type are named for the condition alone, since a
/// value's spelling does not depend on them. Fails only if memory runs out, and never if there is room.
pub fn put_value(
    _set: &TableSet<'_>,
    _ty: &IdlType,
    value: &Value,
    buf: &mut Buf,
) -> Result<(), AllocError>
    requires of { IsOf (table_of _set.now) (type_tree _ty.now) (tree_of value.now) }
    requires within { IsWithin (size_of (tree_of value.now)) (length (doors_of (tree_of value.now))) buf.old }
    ensures ok { OnOk result (Puts (spelling (length buf.old.doors) (tree_of value.now)) (doors_of (tree_of value.now)) buf.old buf.new) }
    ensures err { OnErr result (IsAsBefore buf.old buf.new) }
    ensures room { HasRoom (size_of (tree_of value.now)) (length (doors_of (tree_of value.now))) buf.old → IsOk result }
{
    let room = room_of(value);
    buf.reserve(room.bytes as u32)?;
    buf.reserve_doors(room.doors as u32)?;
    put_one(value, buf)
}
