//! What the bytes and doors of an object of the names say.

ghost use Rattle.std.specs.Prelude.{◌≡◌, ◌==◌, ◌&&◌, Some, IsOk, IfOk, OnErr, length};
ghost use Rattle.marshal_buf.specs.Reading.{rest_of};
ghost use Rattle.stack_accept.specs.Mount.{is_view_in};
ghost use Rattle.sub_core.specs.Fields.{any_fields_at};
ghost use Rattle.sub_core.specs.Received.{UnmarshalsAny};
ghost use Rattle.name_context.specs.Names.{kept_object};
ghost use Rattle.client_objects.specs.Kinds.{is_built, form_at};
ghost use Rattle.client_objects.specs.Stored.{leads, target_of, received};

use crate::kind::ObjectKind;
use crate::registry::Built;
use crate::target::Target;
use domain_doors::Domain;
use marshal_buf::{Buf, Reader};
use stack_accept::Mounted;
use std::alloc::{AllocError, Global};
use sub_core::{AnyErr, Fields, Object, read_fields, unmarshal_any};

/// Where the object that the names keep leads, if the program can receive it. It takes no memory.
pub fn received_target(mount: &Mounted, stored: &Buf) -> Option<Target>
    ensures { result ≡ received mount.now (Some (kept_object stored.now)) }
{
    let mut from = stored.reader();
    let Ok(id) = from.get_u16() else {
        return None;
    };
    let kind = ObjectKind::of(id)?;
    let Ok(fields) = read_fields(kind.form(), &mut from) else {
        return None;
    };
    if !ends_there(&from, stored) {
        return None;
    }
    if !leads(mount, kind, &fields) {
        return None;
    }
    Some(target_of(kind, &fields))
}

/// Whether nothing is left behind an object that was read, whose door is the one door.
fn ends_there(from: &Reader<'_>, stored: &Buf) -> bool
    ensures { result ≡ ((length (rest_of from.now) == 0) && (length stored.now.doors == 1)) }
{
    from.rest().is_empty() && stored.doors_len() == 1
}

/// Where an object of these fields leads.
fn target_of(kind: ObjectKind, fields: &Fields<'_>) -> Target
    ensures { result ≡ target_of kind fields.now }
{
    let (door, tag) = (fields.door(), fields.tag());
    Target {
        kind,
        tag,
        view: door.node,
        file: kind.file(door, tag),
        life: 0,
    }
}

/// Whether an object of these fields leads to a view and a file of the stack.
fn leads(mount: &Mounted, kind: ObjectKind, fields: &Fields<'_>) -> bool
    ensures { result ≡ leads mount.now kind fields.now }
{
    let (door, files) = (fields.door(), mount.files().len());
    is_view(mount, door.node)
        && (door.file as usize) < files
        && (kind.file(door, fields.tag()) as usize) < files
}

/// Whether the node of the number is a view.
fn is_view(mount: &Mounted, node: u32) -> bool
    ensures { result ≡ is_view_in mount.now.nodes node }
{
    match mount.nodes().get(node as usize) {
        Some(node) => node.kind.is_view(),
        None => false,
    }
}

/// Receives an object of which it is known that it can be read. An error leaves the domain as it was.
pub(crate) fn take_in(
    alloc: Global,
    domain: &mut Domain,
    from: &mut Reader<'_>,
) -> Result<Object, AllocError>
    requires { IsOk (any_fields_at is_built form_at from.old) }
    ensures ok { IfOk result (UnmarshalsAny is_built form_at domain.old domain.new from.old from.new) }
    ensures err { OnErr result (domain.new ≡ domain.old) }
{
    match unmarshal_any(&Built, alloc, domain, from) {
        Ok(object) => Ok(object),
        Err(AnyErr::Memory) => Err(AllocError),
        Err(AnyErr::BadObject { .. } | AnyErr::UnknownSubcontract { .. }) => unreachable!(),
    }
}
