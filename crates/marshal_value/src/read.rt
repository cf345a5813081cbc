//! Reading a value.

ghost use Rattle.std.specs.Prelude.{◌≡◌, IfOk, IsSome, OnErr, MatchResult, List, ℕ};
ghost use Rattle.marshal_buf.specs.declared.door.Door.{Door};
ghost use Rattle.marshal_value.specs.Tree.{Tree, tree_of, trees_of};
ghost use Rattle.idl_reader.specs.Tree.{type_tree};
ghost use Rattle.marshal_value.specs.Lookup.{table_of, depth_of};
ghost use Rattle.marshal_value.specs.KindView.{field_types};
ghost use Rattle.marshal_value.specs.Types.{IsOf, IsNamed, AreNamed, IsDeclared};
ghost use Rattle.marshal_value.specs.Reading.{sequence_at, values_at, fields_at, type_at, named_at, value_at, ComesNext, IsRead, Gives};

use crate::kind::{NameKind, depth_of, kind_of};
use crate::plain::{
    read_bool, read_bytes, read_count, read_enum, read_reference, read_text, read_u8, read_u32,
    read_u64,
};
use crate::value::Value;
use crate::why::{BadValue, ValueWhy};
use idl_reader::{Field, IdlType, Word};
use idl_tables::TableSet;
use marshal_buf::Reader;
use std::alloc::Global;

/// Reads a value of a type whose names the set declares. It may run out of memory; else the refusal
/// names the first part, in the order of the bytes, that cannot stand. A refused call leaves the reader where it
/// stood.
pub fn get_value(
    alloc: Global,
    set: &TableSet<'_>,
    ty: &IdlType,
    from: &mut Reader<'_>,
) -> Result<Value, BadValue>
    requires { IsNamed (λ name. IsSome (table_of set.now name)) (type_tree ty.now) }
    // What is read is of the type, and is spelled so.
    ensures of { IfOk result (λ v. IsOf (table_of set.now) (type_tree ty.now) (tree_of v)) }
    ensures read { IfOk result (λ v. IsRead (tree_of v) from.old from.new) }
    // What is spelled so is read, whatever follows it.
    ensures only { (v : Tree) (more : List ℕ) (more_doors : List Door) → IsOf (table_of set.now) (type_tree ty.now) v
        → ComesNext v more more_doors from.old → MatchResult result (λ got. tree_of got ≡ v) (λ bad. bad.why ≡ ValueWhy.Memory) }
    // Which refusal it is.
    ensures exact { Gives tree_of result from.new (value_at (table_of set.now) (depth_of set.now) (type_tree ty.now) from.old) }
    ensures err { OnErr result (from.new ≡ from.old) }
{
    let mut ahead = from.copy();
    let value = read_value(alloc, set, depth_of(set), ty, &mut ahead)?;
    *from = ahead;
    Ok(value)
}

/// Reads a value of a type; its names lie no deeper than so many.
#[cycle(reads)]
#[tactic(auto, unfolding(crate::specs::Reading::type_at))]
fn read_value(
    alloc: Global,
    set: &TableSet<'_>,
    depth: usize,
    ty: &IdlType,
    from: &mut Reader<'_>,
) -> Result<Value, BadValue>
    requires { IsNamed (IsDeclared (table_of set.now) depth) (type_tree ty.now) }
    ensures { Gives tree_of result from.new (value_at (table_of set.now) depth (type_tree ty.now) from.old) }
{
    match ty {
        IdlType::Bool => read_bool(from),
        IdlType::U8 => read_u8(from),
        IdlType::U32 => read_u32(from),
        IdlType::U64 => read_u64(from),
        IdlType::Str => read_text(alloc, from),
        IdlType::Bytes => read_bytes(alloc, from),
        IdlType::Sequence { of } => read_sequence(alloc, set, depth, of, from),
        IdlType::Named { name } => read_named(alloc, set, depth, name, from),
    }
}

/// Reads a count, and so many values of one type.
#[cycle(reads)]
fn read_sequence(
    alloc: Global,
    set: &TableSet<'_>,
    depth: usize,
    of: &IdlType,
    from: &mut Reader<'_>,
) -> Result<Value, BadValue>
    requires { IsNamed (IsDeclared (table_of set.now) depth) (type_tree of.now) }
    ensures { Gives tree_of result from.new (sequence_at (value_at (table_of set.now) depth (type_tree of.now)) from.old) }
{
    let count = read_count(from)?;
    let items = read_values(alloc, set, depth, of, count, from)?;
    Ok(Value::Sequence { items })
}

#[cycle(reads)]
fn read_values(
    alloc: Global,
    set: &TableSet<'_>,
    depth: usize,
    of: &IdlType,
    count: u32,
    from: &mut Reader<'_>,
) -> Result<Vec<Value>, BadValue>
    requires { IsNamed (IsDeclared (table_of set.now) depth) (type_tree of.now) }
    ensures { Gives (λ vs. trees_of vs.items) result from.new (values_at (value_at (table_of set.now) depth (type_tree of.now)) count from.old) }
{
    let mut values = Vec::new(alloc);
    for _ in 0..count {
        values.push(read_value(alloc, set, depth, of, from)?)?;
    }
    Ok(values)
}

/// Reads a value of a declared type.
#[cycle(reads)]
#[tactic(auto, unfolding(crate::specs::Reading::named_at, crate::specs::Types::IsDeclared))]
fn read_named(
    alloc: Global,
    set: &TableSet<'_>,
    depth: usize,
    name: &Word,
    from: &mut Reader<'_>,
) -> Result<Value, BadValue>
    requires { IsDeclared (table_of set.now) depth name.now.text }
    ensures { Gives tree_of result from.new (named_at (table_of set.now) depth name.now.text from.old) }
{
    match kind_of(set, name) {
        Some(NameKind::Fields { fields }) => {
            let fields = read_fields(alloc, set, depth - 1, fields, from)?;
            Ok(Value::Struct { fields })
        }
        Some(NameKind::Names { number }) => read_enum(number, from),
        Some(NameKind::Object) => read_reference(from),
        None => unreachable!(),
    }
}

#[cycle(reads)]
fn read_fields(
    alloc: Global,
    set: &TableSet<'_>,
    depth: usize,
    fields: &[Field],
    from: &mut Reader<'_>,
) -> Result<Vec<Value>, BadValue>
    requires { AreNamed (IsDeclared (table_of set.now) depth) (field_types fields.now) }
    ensures { Gives (λ vs. trees_of vs.items) result from.new (fields_at (λ ty. value_at (table_of set.now) depth ty) (field_types fields.now) from.old) }
{
    let mut values = Vec::new(alloc);
    for field in fields {
        values.push(read_value(alloc, set, depth, &field.ty, from)?)?;
    }
    Ok(values)
}
