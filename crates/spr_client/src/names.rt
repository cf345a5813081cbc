//! Lines on the names.

ghost use Rattle.std.specs.Prelude.{◌≡◌, None, Some, IfOk, IsSome};
ghost use Rattle.std.specs.Option.{option_copied};
ghost use Rattle.text_words.specs.Words.{IsPath, path_word};
ghost use Rattle.name_context.specs.declared.entry.NameCall.TheVariants as names_calls;
ghost use Rattle.name_context.specs.History.{IsPathOf};
ghost use Rattle.name_context.specs.Names.{HasParts};
ghost use Rattle.script_meaning.specs.Stack.{file_named, view_of};
ghost use Rattle.script_meaning.specs.Plan.{asking_names, binding, kind_named, plan_bind, plan_done, plan_list};
ghost use Rattle.spr_client.specs.Calls.{MayCall};
ghost use Rattle.spr_client.specs.Lines.{LineDone};

use crate::client::{Client, Common};
use crate::line::{parts_of, refused_names};
use client_objects::{ObjectKind, bound_object};
use hist_plain::Gate;
use page_ground::Ground;
use script_meaning::{file_named, view_of};
use script_text::{Reply, Sub};
use spr_volume::Pass;
use std::alloc::{AllocError, Global};
use std::sync::Wait;
use text_words::put_path;
use value_types::{Items, Path, Text};

/// A line that makes a context.
pub(crate) fn context_line<R: Wait, G: Ground, T: Gate>(
    rt: &R,
    alloc: Global,
    common: &Common<'_, G, T>,
    pass: &mut Pass<G>,
    client: &Client,
    path: &Path,
) -> Reply
    requires may { MayCall common.now.mount.now common.now.volume.now pass.old client.now.caller }
    requires path { HasParts path.now }
    ensures { LineDone common.now.mount.now client.now.caller client.now.state (plan_done client.now.state (asking_names names_calls.Context (Some path.now))) pass.old pass.new result client.now.state }
{
    let Ok(parts) = parts_of(alloc, path) else {
        return Reply::Memory;
    };
    match common.volume.context(rt, pass, client.caller, path) {
        Ok(()) => Reply::Done,
        Err(err) => refused_names(err, parts),
    }
}

/// The subcontract that a line names.
fn kind_named(sub: &Sub) -> ObjectKind
    ensures { result ≡ kind_named sub.now }
{
    match sub {
        Sub::Singleton => ObjectKind::Singleton,
        Sub::Cluster => ObjectKind::Cluster,
        Sub::Caching => ObjectKind::Caching,
        Sub::Reconnectable => ObjectKind::Reconnectable,
    }
}

/// A path as one word. An error is that memory ran out.
fn word_of(alloc: Global, path: &Path) -> Result<Text, AllocError>
    requires { IsPath path.now }
    ensures { IfOk result (λ word. word ≡ path_word path.now) }
{
    let mut out = Vec::new(alloc);
    put_path(&mut out, path)?;
    // A space stands before the word.
    Text::of_ascii(alloc, &out[1..])
}

/// A line that binds an object of a file at a view. The stack has the view and the file.
pub(crate) fn bind_line<R: Wait, G: Ground, T: Gate>(
    rt: &R,
    alloc: Global,
    common: &Common<'_, G, T>,
    pass: &mut Pass<G>,
    client: &Client,
    path: &Path,
    sub: &Sub,
    view: &Text,
    file: &Text,
) -> Reply
    requires may { MayCall common.now.mount.now common.now.volume.now pass.old client.now.caller }
    requires path { IsPath path.now }
    requires view { IsSome (view_of common.now.mount.now view.now) }
    requires file { IsSome (file_named common.now.mount.now file.now) }
    ensures { LineDone common.now.mount.now client.now.caller client.now.state (plan_bind client.now.state path.now (kind_named sub.now) (view_of common.now.mount.now view.now) (file_named common.now.mount.now file.now)) pass.old pass.new result client.now.state }
{
    let (Some(node), Some(number)) = (view_of(common.mount, view), file_named(common.mount, file))
    else {
        unreachable!()
    };
    bind_object(
        rt,
        alloc,
        common,
        pass,
        client,
        path,
        kind_named(sub),
        node,
        number,
    )
}

/// A line that binds an object of a subcontract, of a file at a view.
fn bind_object<R: Wait, G: Ground, T: Gate>(
    rt: &R,
    alloc: Global,
    common: &Common<'_, G, T>,
    pass: &mut Pass<G>,
    client: &Client,
    path: &Path,
    kind: ObjectKind,
    node: u32,
    file: u32,
) -> Reply
    requires may { MayCall common.now.mount.now common.now.volume.now pass.old client.now.caller }
    requires path { IsPath path.now }
    ensures { LineDone common.now.mount.now client.now.caller client.now.state (plan_done client.now.state (binding path.now kind node file)) pass.old pass.new result client.now.state }
{
    let Ok(parts) = parts_of(alloc, path) else {
        return Reply::Memory;
    };
    let Ok(word) = word_of(alloc, path) else {
        return Reply::Memory;
    };
    let Ok(object) = bound_object(alloc, kind, word.as_str(), node, file) else {
        return Reply::Memory;
    };
    match common.volume.bind(rt, pass, client.caller, path, object) {
        Ok(()) => Reply::Done,
        Err((err, _object)) => refused_names(err, parts),
    }
}

/// A line that takes out what stands under a path, and all below it.
pub(crate) fn unbind_line<R: Wait, G: Ground, T: Gate>(
    rt: &R,
    alloc: Global,
    common: &Common<'_, G, T>,
    pass: &mut Pass<G>,
    client: &Client,
    path: &Path,
) -> Reply
    requires may { MayCall common.now.mount.now common.now.volume.now pass.old client.now.caller }
    requires path { HasParts path.now }
    ensures { LineDone common.now.mount.now client.now.caller client.now.state (plan_done client.now.state (asking_names names_calls.Unbind (Some path.now))) pass.old pass.new result client.now.state }
{
    let Ok(parts) = parts_of(alloc, path) else {
        return Reply::Memory;
    };
    match common.volume.unbind(rt, pass, client.caller, path) {
        Ok(()) => Reply::Done,
        Err(err) => refused_names(err, parts),
    }
}

/// A line that lists the context of a path.
fn list_path<R: Wait, G: Ground, T: Gate>(
    rt: &R,
    alloc: Global,
    common: &Common<'_, G, T>,
    pass: &mut Pass<G>,
    client: &Client,
    path: &Path,
) -> Reply
    requires may { MayCall common.now.mount.now common.now.volume.now pass.old client.now.caller }
    requires path { HasParts path.now }
    ensures { LineDone common.now.mount.now client.now.caller client.now.state (plan_list client.now.state (Some path.now)) pass.old pass.new result client.now.state }
{
    let Ok(parts) = parts_of(alloc, path) else {
        return Reply::Memory;
    };
    match common.volume.list(rt, pass, client.caller, Some(path)) {
        Ok(names) => Reply::Names {
            names: Items::from_vec(names),
        },
        Err(err) => refused_names(err, parts),
    }
}

/// A line that lists the root.
fn list_root<R: Wait, G: Ground, T: Gate>(
    rt: &R,
    alloc: Global,
    common: &Common<'_, G, T>,
    pass: &mut Pass<G>,
    client: &Client,
) -> Reply
    requires may { MayCall common.now.mount.now common.now.volume.now pass.old client.now.caller }
    ensures { LineDone common.now.mount.now client.now.caller client.now.state (plan_list client.now.state None) pass.old pass.new result client.now.state }
{
    match common.volume.list(rt, pass, client.caller, None) {
        Ok(names) => Reply::Names {
            names: Items::from_vec(names),
        },
        // The root is a context, so only memory can lack.
        Err(_) => Reply::Memory,
    }
}

/// A line that lists a context.
pub(crate) fn list_line<R: Wait, G: Ground, T: Gate>(
    rt: &R,
    alloc: Global,
    common: &Common<'_, G, T>,
    pass: &mut Pass<G>,
    client: &Client,
    path: Option<&Path>,
) -> Reply
    requires may { MayCall common.now.mount.now common.now.volume.now pass.old client.now.caller }
    requires path { IsPathOf names_calls.List (option_copied path) }
    ensures { LineDone common.now.mount.now client.now.caller client.now.state (plan_list client.now.state (option_copied path.entry)) pass.old pass.new result client.now.state }
{
    match path {
        Some(path) => list_path(rt, alloc, common, pass, client, path),
        None => list_root(rt, alloc, common, pass, client),
    }
}
