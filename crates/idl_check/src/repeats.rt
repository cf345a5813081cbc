//! Names that stand twice.

ghost use Rattle.std.specs.Prelude.{◌≡◌, IfOk, [], map};
ghost use Rattle.idl_reader.specs.Tree.{field_tree, param_tree, op_tree, decl_tree};
ghost use Rattle.idl_check.specs.Verdict.{repeat_among, repeat_in_ops, repeat_in_decl, repeat_in};

use crate::names::{decl_name, has_name};
use idl_reader::{Decl, Field, IdlOp, Param, Word};
use std::alloc::{AllocError, Global};

/// The place of the first word that equals an earlier one.
fn repeat_among(alloc: Global, words: &[&Word]) -> Result<Option<u32>, AllocError>
    ensures { IfOk result (λ place. place ≡ repeat_among [] (map (λ word. word.now) words.now)) }
{
    let mut before = Vec::new(alloc);
    for word in words {
        if has_name(&before, word.text.as_str()) {
            return Ok(Some(word.place));
        }
        before.push(*word)?;
    }
    Ok(None)
}

fn repeat_in_words(alloc: Global, words: &[Word]) -> Result<Option<u32>, AllocError>
    ensures { IfOk result (λ place. place ≡ repeat_among [] words.now) }
{
    let names: Vec<&Word> = words.iter().collect(alloc)?;
    repeat_among(alloc, &names)
}

fn repeat_in_fields(alloc: Global, fields: &[Field]) -> Result<Option<u32>, AllocError>
    ensures { IfOk result (λ place. place ≡ repeat_among [] (map (λ field. field.name) (map (λ field. field_tree field) fields.now))) }
{
    let mut names = Vec::new(alloc);
    for field in fields {
        names.push(&field.name)?;
    }
    repeat_among(alloc, &names)
}

fn repeat_in_params(alloc: Global, params: &[Param]) -> Result<Option<u32>, AllocError>
    ensures { IfOk result (λ place. place ≡ repeat_among [] (map (λ param. param.name) (map (λ param. param_tree param) params.now))) }
{
    let mut names = Vec::new(alloc);
    for param in params {
        names.push(&param.name)?;
    }
    repeat_among(alloc, &names)
}

fn repeat_in_ops(alloc: Global, ops: &[IdlOp]) -> Result<Option<u32>, AllocError>
    ensures { IfOk result (λ place. place ≡ repeat_in_ops [] (map (λ op. op_tree op) ops.now)) }
{
    let mut before = Vec::new(alloc);
    for op in ops {
        if has_name(&before, op.name.text.as_str()) {
            return Ok(Some(op.name.place));
        }
        if let Some(place) = repeat_in_params(alloc, op.params.as_slice())? {
            return Ok(Some(place));
        }
        before.push(&op.name)?;
    }
    Ok(None)
}

fn repeat_in_decl(alloc: Global, decl: &Decl) -> Result<Option<u32>, AllocError>
    ensures { IfOk result (λ place. place ≡ repeat_in_decl (decl_tree decl.now)) }
{
    match decl {
        Decl::Struct { fields, .. } => repeat_in_fields(alloc, fields.as_slice()),
        Decl::Enum { names, .. } => repeat_in_words(alloc, names.as_slice()),
        Decl::Interface { bases, ops, .. } => {
            if let Some(place) = repeat_in_words(alloc, bases.as_slice())? {
                return Ok(Some(place));
            }
            repeat_in_ops(alloc, ops.as_slice())
        }
    }
}

/// The place of the first name that stands for the second time.
pub fn repeat_in(alloc: Global, decls: &[Decl]) -> Result<Option<u32>, AllocError>
    ensures { IfOk result (λ place. place ≡ repeat_in [] (map (λ d. decl_tree d) decls.now)) }
{
    let mut before = Vec::new(alloc);
    for decl in decls {
        let name = decl_name(decl);
        if has_name(&before, name.text.as_str()) {
            return Ok(Some(name.place));
        }
        if let Some(place) = repeat_in_decl(alloc, decl)? {
            return Ok(Some(place));
        }
        before.push(name)?;
    }
    Ok(None)
}
