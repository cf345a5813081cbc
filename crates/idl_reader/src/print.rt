//! Writing declarations as a text.

ghost use Rattle.std.specs.Prelude.{◌≡◌, ◌++◌, ◌∷◌, IfOk, OnOk, map, codes};
ghost use Rattle.std.specs.List.{flat_map};
ghost use Rattle.idl_reader.specs.Tree.{type_tree, field_tree, param_tree, op_tree, decl_tree, result_tree, idl_tree};
ghost use Rattle.idl_reader.specs.Spelling.{comma_joined, type_text, field_text, param_text, result_text, op_text, names_text, bases_text, decl_text, spelling};

use crate::idl::{Decl, Field, Idl, IdlOp, IdlType, Param, Word};
use std::alloc::{AllocError, Global};
use text_words::put;
use value_types::Bytes;

fn put_name(out: &mut Vec<u8>, name: &Word) -> Result<(), AllocError>
    ensures { OnOk result (out.new.items ≡ out.old.items ++ name.now.text) }
{
    put(out, name.text.as_str().as_bytes())
}

fn put_type(out: &mut Vec<u8>, ty: &IdlType) -> Result<(), AllocError>
    ensures { OnOk result (out.new.items ≡ out.old.items ++ type_text (type_tree ty.now)) }
{
    match ty {
        IdlType::Bool => put(out, b"bool"),
        IdlType::U8 => put(out, b"u8"),
        IdlType::U32 => put(out, b"u32"),
        IdlType::U64 => put(out, b"u64"),
        IdlType::Str => put(out, b"string"),
        IdlType::Bytes => put(out, b"bytes"),
        IdlType::Sequence { of } => {
            put(out, b"sequence<")?;
            put_type(out, of)?;
            put(out, b">")
        }
        IdlType::Named { name } => put_name(out, name),
    }
}

fn put_field(out: &mut Vec<u8>, field: &Field) -> Result<(), AllocError>
    ensures { OnOk result (out.new.items ≡ out.old.items ++ field_text (field_tree field.now)) }
{
    put(out, b"  ")?;
    put_type(out, &field.ty)?;
    put(out, b" ")?;
    put_name(out, &field.name)?;
    put(out, b";\n")
}

fn put_param(out: &mut Vec<u8>, param: &Param) -> Result<(), AllocError>
    ensures { OnOk result (out.new.items ≡ out.old.items ++ param_text (param_tree param.now)) }
{
    if param.consume {
        put(out, b"consume")?;
    } else {
        put(out, b"copy")?;
    }
    put(out, b" ")?;
    put_type(out, &param.ty)?;
    put(out, b" ")?;
    put_name(out, &param.name)
}

fn put_more_params(out: &mut Vec<u8>, params: &[Param]) -> Result<(), AllocError>
    ensures { OnOk result (out.new.items ≡ out.old.items ++ flat_map (λ t. codes ", " ++ t) (map (λ param. param_text param) (map (λ param. param_tree param) params.now))) }
{
    for param in params {
        put(out, b", ")?;
        put_param(out, param)?;
    }
    Ok(())
}

fn put_params(out: &mut Vec<u8>, params: &[Param]) -> Result<(), AllocError>
    ensures { OnOk result (out.new.items ≡ out.old.items ++ comma_joined (map (λ param. param_text param) (map (λ param. param_tree param) params.now))) }
{
    match params {
        [] => Ok(()),
        [first, rest @ ..] => {
            put_param(out, first)?;
            put_more_params(out, rest)
        }
    }
}

fn put_more_names(out: &mut Vec<u8>, names: &[Word]) -> Result<(), AllocError>
    ensures { OnOk result (out.new.items ≡ out.old.items ++ flat_map (λ t. codes ", " ++ t) (map (λ name. name.text) names.now)) }
{
    for name in names {
        put(out, b", ")?;
        put_name(out, name)?;
    }
    Ok(())
}

fn put_names(out: &mut Vec<u8>, names: &[Word]) -> Result<(), AllocError>
    ensures { OnOk result (out.new.items ≡ out.old.items ++ names_text names.now) }
{
    match names {
        [] => Ok(()),
        [first, rest @ ..] => {
            put_name(out, first)?;
            put_more_names(out, rest)
        }
    }
}

fn put_result(out: &mut Vec<u8>, ty: &Option<IdlType>) -> Result<(), AllocError>
    ensures { OnOk result (out.new.items ≡ out.old.items ++ result_text (result_tree ty.now)) }
{
    match ty {
        None => put(out, b"void"),
        Some(ty) => put_type(out, ty),
    }
}

fn put_op(out: &mut Vec<u8>, op: &IdlOp) -> Result<(), AllocError>
    ensures { OnOk result (out.new.items ≡ out.old.items ++ op_text (op_tree op.now)) }
{
    put(out, b"  ")?;
    put_result(out, &op.result)?;
    put(out, b" ")?;
    put_name(out, &op.name)?;
    put(out, b"(")?;
    put_params(out, op.params.as_slice())?;
    put(out, b");\n")
}

fn put_fields(out: &mut Vec<u8>, fields: &[Field]) -> Result<(), AllocError>
    ensures { OnOk result (out.new.items ≡ out.old.items ++ flat_map (λ field. field_text field) (map (λ field. field_tree field) fields.now)) }
{
    for field in fields {
        put_field(out, field)?;
    }
    Ok(())
}

fn put_ops(out: &mut Vec<u8>, ops: &[IdlOp]) -> Result<(), AllocError>
    ensures { OnOk result (out.new.items ≡ out.old.items ++ flat_map (λ op. op_text op) (map (λ op. op_tree op) ops.now)) }
{
    for op in ops {
        put_op(out, op)?;
    }
    Ok(())
}

fn put_bases(out: &mut Vec<u8>, bases: &[Word]) -> Result<(), AllocError>
    ensures { OnOk result (out.new.items ≡ out.old.items ++ bases_text bases.now) }
{
    if bases.is_empty() {
        return Ok(());
    }
    put(out, b" : ")?;
    put_names(out, bases)
}

fn put_decl(out: &mut Vec<u8>, decl: &Decl) -> Result<(), AllocError>
    ensures { OnOk result (out.new.items ≡ out.old.items ++ decl_text (decl_tree decl.now)) }
{
    match decl {
        Decl::Struct { name, fields } => {
            put(out, b"struct ")?;
            put_name(out, name)?;
            put(out, b" {\n")?;
            put_fields(out, fields.as_slice())?;
            put(out, b"};\n")
        }
        Decl::Enum { name, names } => {
            put(out, b"enum ")?;
            put_name(out, name)?;
            put(out, b" {\n  ")?;
            put_names(out, names.as_slice())?;
            put(out, b"\n};\n")
        }
        Decl::Interface { name, bases, ops } => {
            put(out, b"interface ")?;
            put_name(out, name)?;
            put_bases(out, bases.as_slice())?;
            put(out, b" {\n")?;
            put_ops(out, ops.as_slice())?;
            put(out, b"};\n")
        }
    }
}

/// The declarations in their one layout: two spaces before each member, an enum's names on one
/// line, no comments. Fails only if memory runs out.
pub fn print_idl(alloc: Global, idl: &Idl) -> Result<Bytes, AllocError>
    ensures { IfOk result (λ text. text ≡ spelling (idl_tree idl.now)) }
{
    let mut out = Vec::new(alloc);
    for decl in idl.decls.as_slice() {
        put_decl(&mut out, decl)?;
    }
    Ok(Bytes::from_vec(out))
}
