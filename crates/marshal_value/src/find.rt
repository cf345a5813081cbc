//! Finding a declaration.

ghost use Rattle.std.specs.Prelude.{◌≡◌, map};
ghost use Rattle.std.specs.Option.{option_map};
ghost use Rattle.idl_reader.specs.Tree.{type_tree, decl_tree};
ghost use Rattle.idl_check.specs.Names.{decl_name};
ghost use Rattle.marshal_value.specs.Decls.{kind_of, find_kind, is_found};

use idl_reader::{Decl, IdlType};

fn name_of(decl: &Decl) -> &str
    ensures { result.now ≡ (decl_name (decl_tree decl.now)).text }
{
    match decl {
        Decl::Struct { name, .. } | Decl::Enum { name, .. } | Decl::Interface { name, .. } => {
            name.text.as_str()
        }
    }
}

/// The first declaration of a name.
pub(crate) fn find<'a>(decls: &'a [Decl], name: &str) -> Option<&'a Decl>
    ensures { option_map (λ d. kind_of (decl_tree d.now)) result ≡ find_kind (map (λ d. decl_tree d) decls.now) name.now }
{
    for decl in decls {
        if name_of(decl) == name {
            return Some(decl);
        }
    }
    None
}

/// Whether the names of a type are declared.
pub(crate) fn is_found(decls: &[Decl], ty: &IdlType) -> bool
    ensures { result ≡ is_found (map (λ d. decl_tree d) decls.now) (type_tree ty.now) }
{
    match ty {
        IdlType::Sequence { of } => is_found(decls, of),
        IdlType::Named { name } => find(decls, name.text.as_str()).is_some(),
        IdlType::Bool | IdlType::U8 | IdlType::U32 | IdlType::U64 | IdlType::Str | IdlType::Bytes =>
            true,
    }
}
