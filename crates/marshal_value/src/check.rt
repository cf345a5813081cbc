//! Whether a value is of a type.

ghost use Rattle.std.specs.Prelude.{◌≡◌, ◌↔◌, IsTrue, Some};
ghost use Rattle.marshal_value.specs.Tree.{tree_of, trees_of};
ghost use Rattle.idl_reader.specs.Tree.{OfU8, OfU32, OfU64, OfName, type_tree};
ghost use Rattle.marshal_value.specs.Lookup.{table_of};
ghost use Rattle.marshal_value.specs.KindView.{field_types};
ghost use Rattle.marshal_value.specs.Types.{Table, IsOf};
ghost use Rattle.marshal_value.specs.TypeTest.{is_short_text, is_of, is_sequence_of, are_of_one, are_of};

use crate::kind::{NameKind, kind_of};
use crate::value::Value;
use idl_reader::{Field, IdlType, Word};
use idl_tables::TableSet;

fn is_u8(value: &Value) -> bool
    ensures { (table : Table) → result ≡ is_of table OfU8 (tree_of value.now) }
{
    match value {
        Value::U8 { v } => {
            let _number = *v;
            true
        }
        _ => false,
    }
}

fn is_u32(value: &Value) -> bool
    ensures { (table : Table) → result ≡ is_of table OfU32 (tree_of value.now) }
{
    match value {
        Value::U32 { v } => {
            let _number = *v;
            true
        }
        _ => false,
    }
}

fn is_u64(value: &Value) -> bool
    ensures { (table : Table) → result ≡ is_of table OfU64 (tree_of value.now) }
{
    match value {
        Value::U64 { v } => {
            let _number = *v;
            true
        }
        _ => false,
    }
}

fn is_short_text(text: &str) -> bool
    ensures { result ≡ is_short_text text.now }
{
    text.len() <= u32::MAX as usize
}

#[cycle(checks)]
fn is_of(set: &TableSet<'_>, ty: &IdlType, value: &Value) -> bool
    ensures { result ≡ is_of (table_of set.now) (type_tree ty.now) (tree_of value.now) }
{
    match ty {
        IdlType::Bool => matches!(value, Value::Bool { .. }),
        IdlType::U8 => is_u8(value),
        IdlType::U32 => is_u32(value),
        IdlType::U64 => is_u64(value),
        IdlType::Str => match value {
            Value::Str { v } => is_short_text(v.as_str()),
            _ => false,
        },
        IdlType::Bytes => match value {
            Value::Bytes { v } => v.as_slice().len() <= u32::MAX as usize,
            _ => false,
        },
        IdlType::Sequence { of } => match value {
            Value::Sequence { items } => is_sequence_of(set, of, items),
            _ => false,
        },
        IdlType::Named { name } => is_of_name(set, name, value),
    }
}

#[cycle(checks)]
fn is_of_name(set: &TableSet<'_>, name: &Word, value: &Value) -> bool
    ensures { result ≡ is_of (table_of set.now) (OfName name.now) (tree_of value.now) }
{
    match value {
        Value::Struct { fields } => match kind_of(set, name) {
            Some(NameKind::Fields { fields: types }) => are_of(set, types, fields),
            _ => false,
        },
        Value::Enum { position } => match kind_of(set, name) {
            Some(NameKind::Names { number }) => (*position as usize) < number,
            _ => false,
        },
        Value::Reference { .. } => matches!(kind_of(set, name), Some(NameKind::Object)),
        Value::Bool { .. }
        | Value::U8 { .. }
        | Value::U32 { .. }
        | Value::U64 { .. }
        | Value::Str { .. }
        | Value::Bytes { .. }
        | Value::Sequence { .. } => false,
    }
}

#[cycle(checks)]
fn is_sequence_of(set: &TableSet<'_>, of: &IdlType, values: &[Value]) -> bool
    ensures { result ≡ is_sequence_of (table_of set.now) (type_tree of.now) (trees_of values.now) }
{
    values.len() <= u32::MAX as usize && are_of_one(set, of, values)
}

#[cycle(checks)]
fn are_of_one(set: &TableSet<'_>, of: &IdlType, values: &[Value]) -> bool
    ensures { result ≡ are_of_one (table_of set.now) (type_tree of.now) (trees_of values.now) }
{
    for value in values {
        if !is_of(set, of, value) {
            return false;
        }
    }
    true
}

#[cycle(checks)]
fn are_of(set: &TableSet<'_>, types: &[Field], values: &[Value]) -> bool
    ensures { result ≡ are_of (table_of set.now) (Some (field_types types.now)) (trees_of values.now) }
{
    if types.len() != values.len() {
        return false;
    }
    for (at, value) in values.iter().enumerate() {
        if !is_of(set, &types[at].ty, value) {
            return false;
        }
    }
    true
}

/// Whether a value is of a type, so that `put_value` may be called.
pub fn is_value_of(set: &TableSet<'_>, ty: &IdlType, value: &Value) -> bool
    ensures { IsTrue result ↔ IsOf (table_of set.now) (type_tree ty.now) (tree_of value.now) }
{
    is_of(set, ty, value)
}
