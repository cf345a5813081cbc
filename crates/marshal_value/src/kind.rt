//! What a name stands for.

ghost use Rattle.std.specs.Prelude.{◌≡◌, ◌↔◌, IsTrue, IsSome};
ghost use Rattle.std.specs.Option.{option_map};
ghost use Rattle.idl_reader.specs.Tree.{type_tree};
ghost use Rattle.idl_tables.specs.TableSet.{IsTabled};
ghost use Rattle.marshal_value.specs.Lookup.{table_of, depth_of};
ghost use Rattle.marshal_value.specs.KindView.{kind_view};
ghost use Rattle.marshal_value.specs.Types.{IsNamed};

use crate::find::{find, is_found};
use idl_reader::{Decl, Field, IdlType, Word};
use idl_tables::TableSet;

/// What a name stands for.
#[derive(Clone, Copy, Debug)]
pub(crate) enum NameKind<'a> {
    /// A struct of these fields.
    Fields {
        /// The fields, in order.
        fields: &'a [Field],
    },
    /// An enum of so many names.
    Names {
        /// How many parts it has.
        number: usize,
    },
    /// An interface.
    Object,
}

/// The declarations of a set.
fn decls<'a>(set: &TableSet<'a>) -> &'a [Decl]
    ensures same { result.now ≡ set.now.idl.decls }
    ensures tabled { IsTabled set.now }
{
    set.idl().decls.as_slice()
}

/// What a name stands for, if it is declared.
pub(crate) fn kind_of<'a>(set: &TableSet<'a>, name: &Word) -> Option<NameKind<'a>>
    ensures { option_map kind_view result ≡ table_of set.now name.now.text }
{
    match find(decls(set), name.text.as_str()) {
        Some(Decl::Struct { fields, .. }) => Some(NameKind::Fields {
            fields: fields.as_slice(),
        }),
        Some(Decl::Enum { names, .. }) => Some(NameKind::Names {
            number: names.as_slice().len(),
        }),
        Some(Decl::Interface { .. }) => Some(NameKind::Object),
        None => None,
    }
}

/// How deep names lie at most.
pub(crate) fn depth_of(set: &TableSet<'_>) -> usize
    ensures depth { result ≡ depth_of set.now }
    ensures tabled { IsTabled set.now }
{
    decls(set).len()
}

/// Whether the names of a type are declared, so that `get_value` may be called.
pub fn declares(set: &TableSet<'_>, ty: &IdlType) -> bool
    ensures { IsTrue result ↔ IsNamed (λ name. IsSome (table_of set.now name)) (type_tree ty.now) }
{
    is_found(decls(set), ty)
}
