//! Which names a declaration declares, and which it uses.

ghost use Rattle.std.specs.Prelude.{◌≡◌, ◌++◌, OnOk, IfOk, map};
ghost use Rattle.std.specs.List.{flat_map};
ghost use Rattle.idl_reader.specs.Tree.{type_tree, field_tree, param_tree, op_tree, decl_tree, result_tree};
ghost use Rattle.idl_check.specs.Names.{decl_name, is_interface, has_name, type_names, field_types, outcome_types, op_types, uses, bases_of, parts_of, op_names};

use idl_reader::{Decl, Field, IdlOp, IdlType, Param, Word};
use std::alloc::{AllocError, Global};

/// The name of a declaration.
pub fn decl_name(decl: &Decl) -> &Word
    ensures { result.now ≡ decl_name (decl_tree decl.now) }
{
    match decl {
        Decl::Struct { name, .. } | Decl::Enum { name, .. } | Decl::Interface { name, .. } => name,
    }
}

/// Whether a declaration is an interface.
pub fn is_interface(decl: &Decl) -> bool
    ensures { result ≡ is_interface (decl_tree decl.now) }
{
    match decl {
        Decl::Interface { .. } => true,
        Decl::Struct { .. } | Decl::Enum { .. } => false,
    }
}

/// Whether one of the words is this name.
pub fn has_name(words: &[&Word], name: &str) -> bool
    ensures { result ≡ has_name name.now (map (λ word. word.now) words.now) }
{
    words.iter().any(|word| word.text.as_str() == name)
}

fn put_words<'a>(out: &mut Vec<&'a Word>, words: &'a [Word]) -> Result<(), AllocError>
    ensures { OnOk result (map (λ word. word.now) out.new.items ≡ map (λ word. word.now) out.old.items ++ words.now) }
{
    for word in words {
        out.push(word)?;
    }
    Ok(())
}

fn put_type<'a>(out: &mut Vec<&'a Word>, ty: &'a IdlType) -> Result<(), AllocError>
    ensures { OnOk result (map (λ word. word.now) out.new.items ≡ map (λ word. word.now) out.old.items ++ type_names (type_tree ty.now)) }
{
    match ty {
        IdlType::Sequence { of } => put_type(out, of),
        IdlType::Named { name } => {
            out.push(name)?;
            Ok(())
        }
        IdlType::Bool | IdlType::U8 | IdlType::U32 | IdlType::U64 | IdlType::Str | IdlType::Bytes =>
            Ok(()),
    }
}

fn put_fields<'a>(out: &mut Vec<&'a Word>, fields: &'a [Field]) -> Result<(), AllocError>
    ensures { OnOk result (map (λ word. word.now) out.new.items ≡ map (λ word. word.now) out.old.items ++ field_types (map (λ field. field_tree field) fields.now)) }
{
    for field in fields {
        put_type(out, &field.ty)?;
    }
    Ok(())
}

fn put_params<'a>(out: &mut Vec<&'a Word>, params: &'a [Param]) -> Result<(), AllocError>
    ensures { OnOk result (map (λ word. word.now) out.new.items ≡ map (λ word. word.now) out.old.items ++ flat_map (λ param. type_names param.ty) (map (λ param. param_tree param) params.now)) }
{
    for param in params {
        put_type(out, &param.ty)?;
    }
    Ok(())
}

fn put_op<'a>(out: &mut Vec<&'a Word>, op: &'a IdlOp) -> Result<(), AllocError>
    ensures { OnOk result (map (λ word. word.now) out.new.items ≡ map (λ word. word.now) out.old.items ++ op_types (op_tree op.now)) }
{
    if let Some(ty) = &op.result {
        put_type(out, ty)?;
    }
    put_params(out, op.params.as_slice())
}

fn put_ops<'a>(out: &mut Vec<&'a Word>, ops: &'a [IdlOp]) -> Result<(), AllocError>
    ensures { OnOk result (map (λ word. word.now) out.new.items ≡ map (λ word. word.now) out.old.items ++ flat_map (λ op. op_types op) (map (λ op. op_tree op) ops.now)) }
{
    for op in ops {
        put_op(out, op)?;
    }
    Ok(())
}

fn put_uses<'a>(out: &mut Vec<&'a Word>, decl: &'a Decl) -> Result<(), AllocError>
    ensures { OnOk result (map (λ word. word.now) out.new.items ≡ map (λ word. word.now) out.old.items ++ uses (decl_tree decl.now)) }
{
    match decl {
        Decl::Struct { fields, .. } => put_fields(out, fields.as_slice()),
        Decl::Enum { .. } => Ok(()),
        Decl::Interface { bases, ops, .. } => {
            put_words(out, bases.as_slice())?;
            put_ops(out, ops.as_slice())
        }
    }
}

fn put_bases<'a>(out: &mut Vec<&'a Word>, decl: &'a Decl) -> Result<(), AllocError>
    ensures { OnOk result (map (λ word. word.now) out.new.items ≡ map (λ word. word.now) out.old.items ++ bases_of (decl_tree decl.now)) }
{
    match decl {
        Decl::Interface { bases, .. } => put_words(out, bases.as_slice()),
        Decl::Struct { .. } | Decl::Enum { .. } => Ok(()),
    }
}

/// The types and bases that the declarations name.
pub fn all_uses<'a>(alloc: Global, decls: &'a [Decl]) -> Result<Vec<&'a Word>, AllocError>
    ensures { IfOk result (λ words. map (λ word. word.now) words.items ≡ flat_map (λ d. uses d) (map (λ d. decl_tree d) decls.now)) }
{
    let mut out = Vec::new(alloc);
    for decl in decls {
        put_uses(&mut out, decl)?;
    }
    Ok(out)
}

/// The bases of the interfaces.
pub fn all_bases<'a>(alloc: Global, decls: &'a [Decl]) -> Result<Vec<&'a Word>, AllocError>
    ensures { IfOk result (λ words. map (λ word. word.now) words.items ≡ flat_map (λ d. bases_of d) (map (λ d. decl_tree d) decls.now)) }
{
    let mut out = Vec::new(alloc);
    for decl in decls {
        put_bases(&mut out, decl)?;
    }
    Ok(out)
}

/// What a declaration is made of: the types of fields, or the bases.
pub fn parts_of<'a>(alloc: Global, decl: &'a Decl) -> Result<Vec<&'a Word>, AllocError>
    ensures { IfOk result (λ words. map (λ word. word.now) words.items ≡ parts_of (decl_tree decl.now)) }
{
    let mut out = Vec::new(alloc);
    match decl {
        Decl::Struct { fields, .. } => put_fields(&mut out, fields.as_slice())?,
        Decl::Enum { .. } => {}
        Decl::Interface { bases, .. } => put_words(&mut out, bases.as_slice())?,
    }
    Ok(out)
}
