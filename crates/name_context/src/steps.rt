//! The steps that the calls are made of.

ghost use Rattle.std.specs.Prelude.{◌≡◌, ◌<◌, Some, None, IfOk, OnOk, OnErr, IsSomeAnd};
ghost use Rattle.std.specs.Option.{option_copied, option_map};
ghost use Rattle.name_context.specs.declared.entry.NameCall.TheVariants as calls;
ghost use Rattle.name_context.specs.Names.{IsObject, kept_at, kept_object};
ghost use Rattle.name_context.specs.Refusal.{refusal};
ghost use Rattle.name_context.specs.History.{IsPathOf, after_call};
ghost use Rattle.name_context.specs.Listed.{listed};
ghost use Rattle.name_context.specs.Calls.{refused_by};
ghost use Rattle.name_context.specs.NamesView.{call_for};

use crate::entry::{NameCall, NameErr, Stored};
use crate::history::Story;
use crate::keys::key_of;
use crate::tree::{Binding, NameTree};
use crate::walk::first_refused;
use std::alloc::{AllocError, Global};
use value_types::{Path, Text};

/// What is known of a call before its first effect.
#[derive(Drop)]
pub(crate) struct Asked {
    /// A copy of its path.
    pub path: Option<Path>,
    /// Why it is refused. None if it is done.
    pub refused: Option<NameErr>,
}

/// Makes room for the entry of a call, copies its path, and walks it. An error is want of memory.
pub(crate) fn ask(
    alloc: Global,
    tree: &NameTree,
    story: &mut Story,
    call: NameCall,
    path: Option<&Path>,
) -> Result<Asked, AllocError>
    requires { IsPathOf call (option_copied path) }
    ensures room { OnOk result (0 < story.new.room) }
    ensures same { story.new.entries ≡ story.old.entries }
    ensures path { IfOk result (λ asked. asked.path ≡ option_copied path.entry) }
    ensures refused { IfOk result (λ asked. asked.refused ≡ refusal tree.now call (option_copied path.entry)) }
{
    story.make_room()?;
    let refused = why_refused(alloc, tree, call, path)?;
    let path = path_copy(path)?;
    Ok(Asked { path, refused })
}

/// Why a call is refused. An error is want of memory.
fn why_refused(
    alloc: Global,
    tree: &NameTree,
    call: NameCall,
    path: Option<&Path>,
) -> Result<Option<NameErr>, AllocError>
    requires { IsPathOf call (option_copied path) }
    ensures { IfOk result (λ refused. refused ≡ refusal tree.now call (option_copied path.entry)) }
{
    match path {
        Some(path) => first_refused(alloc, tree, call, path.as_slice()),
        None => Ok(None),
    }
}

/// A copy of a path. An error is want of memory.
fn path_copy(path: Option<&Path>) -> Result<Option<Path>, AllocError>
    ensures { IfOk result (λ copy. copy ≡ option_copied path.entry) }
{
    match path {
        Some(path) => Ok(Some(path.clone()?)),
        None => Ok(None),
    }
}

/// A copy of an object. An error is want of memory.
pub(crate) fn object_copy(object: Option<&Stored>) -> Result<Option<Stored>, AllocError>
    ensures { IfOk result (λ copy. option_map kept_object copy ≡ option_map kept_object (option_copied object.entry)) }
{
    match object {
        Some(object) => Ok(Some(object.copy()?)),
        None => Ok(None),
    }
}

/// The call that stores an object, or makes a context if there is none.
pub(crate) fn call_of(object: Option<&Stored>) -> NameCall
    ensures { result ≡ call_for (option_copied object.entry) }
{
    match object {
        Some(_) => NameCall::Bind,
        None => NameCall::Context,
    }
}

/// Puts a context behind the names, or a copy of an object, unless that is refused. An error is want of memory, and leaves them
/// as they were.
pub(crate) fn put_unless(
    alloc: Global,
    tree: &mut NameTree,
    refused: Option<NameErr>,
    path: &Path,
    object: Option<&Stored>,
) -> Result<(), AllocError>
    requires { refused ≡ None → kept_at tree.old path.now ≡ None }
    ensures ok { OnOk result (tree.new ≡ after_call tree.old (call_for (option_copied object.entry)) (Some path.now) (option_copied object.entry) refused) }
    ensures err { OnErr result (tree.new ≡ tree.old) }
{
    if refused.is_some() {
        return Ok(());
    }
    let binding = match object {
        Some(object) => Binding::Object {
            stored: object.copy()?,
        },
        None => Binding::Context,
    };
    tree.put(alloc, path.clone()?, binding)
}

/// A copy of the object at a path, unless that is refused. An error is want of memory.
pub(crate) fn object_unless(
    alloc: Global,
    tree: &NameTree,
    refused: Option<NameErr>,
    path: &Path,
) -> Result<Result<Stored, NameErr>, AllocError>
    requires { refused ≡ None → IsSomeAnd (kept_at tree.now path.now) IsObject }
    ensures told { IfOk result (λ answer. refused_by answer ≡ refused) }
    ensures found { IfOk result (λ answer. IfOk answer (λ stored. kept_at tree.now path.now ≡ Some (kept_object stored))) }
{
    if let Some(err) = refused {
        return Ok(Err(err));
    }
    let key = key_of(alloc, path.as_slice())?;
    match tree.at(&key) {
        Some(Binding::Object { stored }) => Ok(Ok(stored.copy()?)),
        _ => unreachable!(),
    }
}

/// Takes out a name and all names below it, unless that is refused.
pub(crate) fn remove_unless(tree: &mut NameTree, refused: Option<NameErr>, path: &Path)
    ensures { tree.new ≡ after_call tree.old calls.Unbind (Some path.now) None refused }
{
    if refused.is_none() {
        tree.remove(path.as_slice());
    }
}

/// What stands in a context, unless that is refused. An error is want of memory.
pub(crate) fn texts_unless(
    alloc: Global,
    tree: &NameTree,
    refused: Option<NameErr>,
    path: Option<&Path>,
) -> Result<Result<Vec<Text>, NameErr>, AllocError>
    ensures told { IfOk result (λ answer. refused_by answer ≡ refused) }
    ensures listed { IfOk result (λ answer. IfOk answer (λ texts. texts.items ≡ listed tree.now (option_copied path.entry))) }
{
    if let Some(err) = refused {
        return Ok(Err(err));
    }
    let above = match path {
        Some(path) => path.as_slice(),
        None => &[],
    };
    Ok(Ok(tree.list(alloc, above)?))
}

/// Done, unless it is refused.
pub(crate) fn done_unless(refused: Option<NameErr>) -> Result<(), NameErr>
    ensures { refused_by result ≡ refused }
{
    match refused {
        None => Ok(()),
        Some(err) => Err(err),
    }
}
