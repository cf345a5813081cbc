//! What the names keep for an object.

ghost use Rattle.std.specs.Prelude.{◌≡◌, ◌<◌, ◌^◌, ◌+◌, IfOk, IfErr, OnOk, length};
ghost use Rattle.sub_core.specs.Forms.{IsTagOf, IsNameOf, object_len};
ghost use Rattle.sub_core.specs.Calls.{Marshals, RefusesHeld};
ghost use Rattle.name_context.specs.Names.{kept_object};
ghost use Rattle.client_objects.specs.Kinds.{form_of};
ghost use Rattle.client_objects.specs.Stored.{bound_object, name_for, stored_object};
ghost use Rattle.client_objects.specs.Held.{IsHeld};
ghost use Rattle.client_objects.specs.Laws.{MayKeep};

use crate::kind::ObjectKind;
use domain_doors::Domain;
use marshal_buf::{Buf, Door};
use std::alloc::{AllocError, Global};
use sub_basic::{Cluster, Singleton};
use sub_caching::Caching;
use sub_core::{MANAGER, Object, ObjectErr, Subcontract};
use sub_reconnect::Reconnectable;
use value_types::Text;

/// What is bound under a path for a file at a view: an object of the subcontract, sent by a domain of its own, which stands for
/// that of the server. An error is that memory ran out.
pub fn bound_object(
    alloc: Global,
    kind: ObjectKind,
    path: &str,
    node: u32,
    file: u32,
) -> Result<Buf, AllocError>
    requires { MayKeep kind path.now }
    ensures { IfOk result (λ stored. kept_object stored ≡ bound_object kind path.now node file) }
{
    let name = name_for(kind, path);
    match kind {
        ObjectKind::Cluster => sent(alloc, kind, Door { node, file: 0 }, file, name),
        ObjectKind::Singleton | ObjectKind::Caching | ObjectKind::Reconnectable => {
            sent(alloc, kind, Door { node, file }, 0, name)
        }
    }
}

/// The name of an object that is bound under a path.
fn name_for<'a>(kind: ObjectKind, path: &'a str) -> &'a str
    ensures { result.now ≡ name_for kind path.now }
{
    match kind {
        ObjectKind::Singleton | ObjectKind::Cluster => "",
        ObjectKind::Caching => MANAGER,
        ObjectKind::Reconnectable => path,
    }
}

/// The message of an object of the door, the tag and the name, sent by a domain of its own.
fn sent(
    alloc: Global,
    kind: ObjectKind,
    door: Door,
    tag: u32,
    name: &str,
) -> Result<Buf, AllocError>
    requires tag { IsTagOf (form_of kind) tag }
    requires name { IsNameOf (form_of kind) name.now }
    requires bytes { object_len (form_of kind) name.now < 2 ^ 32 }
    ensures { IfOk result (λ stored. kept_object stored ≡ stored_object kind door tag name.now) }
{
    let mut domain = Domain::new(alloc);
    let object = Object {
        sub: kind.id(),
        door: domain.add(door)?,
        tag,
        name: Text::of(alloc, name)?,
        life: 0,
    };
    let mut stored = Buf::new(alloc);
    send(kind, object, &mut domain, &mut stored)?;
    Ok(stored)
}

/// Sends an object that the domain holds.
fn send(
    kind: ObjectKind,
    object: Object,
    domain: &mut Domain,
    buf: &mut Buf,
) -> Result<(), AllocError>
    requires held { IsHeld domain.old kind object }
    requires bytes { length buf.old.bytes + object_len (form_of kind) object.name < 2 ^ 32 }
    requires doors { length buf.old.doors + 1 < 2 ^ 32 }
    ensures { OnOk result (Marshals (form_of kind) object domain.old domain.new buf.old buf.new) }
{
    match marshal(kind, object, domain, buf) {
        Ok(()) => Ok(()),
        Err((ObjectErr::Memory, _object)) => Err(AllocError),
        Err((ObjectErr::NoDoor { .. } | ObjectErr::BadObject { .. }, _object)) => unreachable!(),
    }
}

/// As the object's subcontract says.
fn marshal(
    kind: ObjectKind,
    object: Object,
    domain: &mut Domain,
    buf: &mut Buf,
) -> Result<(), (ObjectErr, Object)>
    requires held { IsHeld domain.old kind object }
    requires bytes { length buf.old.bytes + object_len (form_of kind) object.name < 2 ^ 32 }
    requires doors { length buf.old.doors + 1 < 2 ^ 32 }
    ensures ok { OnOk result (Marshals (form_of kind) object domain.old domain.new buf.old buf.new) }
    ensures why { IfErr result (λ e. RefusesHeld domain.old object e.0) }
{
    match kind {
        ObjectKind::Singleton => Singleton.marshal(object, domain, buf),
        ObjectKind::Cluster => Cluster.marshal(object, domain, buf),
        ObjectKind::Caching => Caching.marshal(object, domain, buf),
        ObjectKind::Reconnectable => Reconnectable.marshal(object, domain, buf),
    }
}
