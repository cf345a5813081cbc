//! The names at the start.

ghost use Rattle.std.specs.Prelude.{◌≡◌, ◌≤◌, ◌+◌, ◌^◌, ◌++◌, ◌∷◌, ℕ, List, [], None, OnOk, IfOk, length, map};
ghost use Rattle.std.specs.List.{IsDistinct};
ghost use Rattle.std.specs.Str.{bytes_eq};
ghost use Rattle.name_context.specs.Names.{kept_at};
ghost use Rattle.name_context.specs.History.{with_name};
ghost use Rattle.name_context.specs.Start.{file_object, view_names, start_names};
ghost use Rattle.name_context.specs.TreeView.{kept_of};

use crate::tree::{Binding, NameTree};
use marshal_buf::{Buf, Door};
use std::alloc::{AllocError, Global};
use value_types::{Path, Text};

/// The identifier of the subcontract that each object has at the start. That an object begins with it is the Spring papers' rule;
/// the number is this project's own.
const SINGLETON: u16 = 1;

/// The object of a file at a view. An error is want of memory.
fn file_binding(alloc: Global, node: u32, file: u32) -> Result<Binding, AllocError>
    ensures { IfOk result (λ binding. kept_of binding ≡ file_object node file) }
{
    let mut stored = Buf::new(alloc);
    stored.put_u16(SINGLETON)?;
    stored.put_door(Door { node, file })?;
    Ok(Binding::Object { stored })
}

/// Puts a view's context behind the names, and in it an object for each file. An error is want of memory.
fn put_view(
    alloc: Global,
    tree: &mut NameTree,
    view: &Text,
    node: u32,
    files: &[Text],
) -> Result<(), AllocError>
    requires fresh { (path : List (List ℕ)) → kept_at tree.old (view.now ∷ path) ≡ None }
    requires files { IsDistinct bytes_eq files.now }
    requires few { length files.now ≤ 2 ^ 32 }
    ensures { OnOk result (tree.new ≡ tree.old ++ view_names files.now (view.now, node)) }
{
    let path = Path::of(alloc, &[view.as_str()])?;
    tree.put(alloc, path, Binding::Context)?;
    for (at, file) in files.iter().enumerate() {
        put_file(alloc, tree, view, file, node, at as u32)?;
    }
    Ok(())
}

/// Puts the object of a file at a view behind the names. An error is want of memory.
fn put_file(
    alloc: Global,
    tree: &mut NameTree,
    view: &Text,
    file: &Text,
    node: u32,
    number: u32,
) -> Result<(), AllocError>
    requires { kept_at tree.old (view.now ∷ file.now ∷ []) ≡ None }
    ensures { OnOk result (tree.new ≡ with_name tree.old (view.now ∷ file.now ∷ []) (file_object node number)) }
{
    let path = Path::of(alloc, &[view.as_str(), file.as_str()])?;
    let binding = file_binding(alloc, node, number)?;
    tree.put(alloc, path, binding)
}

/// A context for each view, and in it an object for each file. An error is want of memory.
pub(crate) fn start_tree(
    alloc: Global,
    views: &[(Text, u32)],
    files: &[Text],
) -> Result<NameTree, AllocError>
    requires views { IsDistinct bytes_eq (map (λ view. view.0) views.now) }
    requires files { IsDistinct bytes_eq files.now }
    requires few { length files.now ≤ 2 ^ 32 }
    ensures { IfOk result (λ tree. tree ≡ start_names views.now files.now) }
{
    let mut tree = NameTree::new(alloc);
    for (view, node) in views {
        put_view(alloc, &mut tree, view, *node, files)?;
    }
    Ok(tree)
}
