//! One open object, and what its subcontract does with it.

ghost use Rattle.std.specs.Prelude.{◌≡◌, ◌<◌, None, Some, IfOk, IfErr, IfSome, OnOk, OnErr, length, position};
ghost use Rattle.std.specs.Str.{bytes_eq};
ghost use Rattle.domain_doors.specs.Doors.{Updates, Lacks};
ghost use Rattle.sub_core.specs.Forms.{IsOf};
ghost use Rattle.sub_core.specs.Calls.{CopiesObject, GivesUp, RefusesHeld, LeadsToView, route_of};
ghost use Rattle.client_objects.specs.Kinds.{id_of, form_of};
ghost use Rattle.client_objects.specs.Found.{found_on};
ghost use Rattle.client_objects.specs.Held.{target_in, route_by, IsHeld};

use crate::kind::ObjectKind;
use crate::target::{Found, Target};
use domain_doors::{Domain, NoDoor};
use stack_accept::Mounted;
use std::alloc::AllocError;
use sub_basic::{Cluster, Singleton};
use sub_caching::Caching;
use sub_core::{Object, ObjectErr, Route, Subcontract};
use sub_reconnect::Reconnectable;
use value_types::Text;

/// An open object under its name.
#[derive(Debug, Drop)]
pub(crate) struct Entry {
    /// The client's name for it.
    pub name: Text,
    /// Its subcontract.
    pub kind: ObjectKind,
    /// The object, whose door the client's domain holds.
    pub object: Object,
}

/// The place of the first object of a name.
pub(crate) fn place_of(entries: &[Entry], name: &Text) -> Option<usize>
    ensures place { result ≡ position (λ entry. bytes_eq entry.name name.now) entries.now }
    ensures within { IfSome result (λ place. place < length entries.now) }
{
    entries
        .iter()
        .position(|entry| entry.name.as_str() == name.as_str())
}

/// Where an object leads, and to which node its calls go from a machine of the stack.
pub(crate) fn found_of(
    kind: ObjectKind,
    object: &Object,
    domain: &Domain,
    mount: &Mounted,
    machine: u32,
) -> Found
    requires machine { machine < length mount.now.machines }
    requires held { IsHeld domain.now kind object.now }
    requires leads { LeadsToView mount.now domain.now object.now }
    ensures { result ≡ found_on mount.now machine (target_in domain.now kind object.now) }
{
    let Ok(door) = domain.look(object.door) else {
        unreachable!();
    };
    match route_of(kind, object, domain, mount, machine) {
        Ok(route) => Found {
            target: Target {
                kind,
                tag: object.tag,
                view: door.node,
                file: route.file,
                life: object.life,
            },
            node: route.node,
        },
        Err(NoDoor { .. }) => unreachable!(),
    }
}

/// Another object like this one. An error leaves the domain as it was.
pub(crate) fn copy_of(
    kind: ObjectKind,
    object: &Object,
    domain: &mut Domain,
) -> Result<Object, AllocError>
    requires { IsHeld domain.old kind object.now }
    ensures ok { IfOk result (λ copy. CopiesObject object.now copy domain.old domain.new) }
    ensures err { OnErr result (domain.new ≡ domain.old) }
{
    match try_copy(kind, object, domain) {
        Ok(copy) => Ok(copy),
        Err(ObjectErr::Memory) => Err(AllocError),
        Err(ObjectErr::NoDoor { .. } | ObjectErr::BadObject { .. }) => unreachable!(),
    }
}

/// Gives an object up: its door leaves the domain.
pub(crate) fn give_up(kind: ObjectKind, object: Object, domain: &mut Domain)
    requires { IsHeld domain.old kind object }
    ensures { Updates domain.old domain.new object.door None }
{
    match try_consume(kind, object, domain) {
        Ok(()) => (),
        Err(NoDoor { .. }) => unreachable!(),
    }
}

/// As the object's subcontract says.
fn route_of(
    kind: ObjectKind,
    object: &Object,
    domain: &Domain,
    mount: &Mounted,
    machine: u32,
) -> Result<Route, NoDoor>
    requires machine { machine < length mount.now.machines }
    requires sub { object.now.sub ≡ id_of kind }
    requires of { IsOf (form_of kind) object.now }
    requires leads { LeadsToView mount.now domain.now object.now }
    ensures ok { IfOk result (λ to. route_of (route_by kind) mount.now machine domain.now object.now ≡ Some to) }
    ensures why { IfErr result (Lacks domain.now object.now.door) }
{
    match kind {
        ObjectKind::Singleton => Singleton.route(object, domain, mount, machine),
        ObjectKind::Cluster => Cluster.route(object, domain, mount, machine),
        ObjectKind::Caching => Caching.route(object, domain, mount, machine),
        ObjectKind::Reconnectable => Reconnectable.route(object, domain, mount, machine),
    }
}

/// As the object's subcontract says.
fn try_copy(kind: ObjectKind, object: &Object, domain: &mut Domain) -> Result<Object, ObjectErr>
    requires sub { object.now.sub ≡ id_of kind }
    requires of { IsOf (form_of kind) object.now }
    ensures ok { IfOk result (λ copy. CopiesObject object.now copy domain.old domain.new) }
    ensures why { IfErr result (RefusesHeld domain.old object.now) }
    ensures err { OnErr result (domain.new ≡ domain.old) }
{
    match kind {
        ObjectKind::Singleton => Singleton.copy(object, domain),
        ObjectKind::Cluster => Cluster.copy(object, domain),
        ObjectKind::Caching => Caching.copy(object, domain),
        ObjectKind::Reconnectable => Reconnectable.copy(object, domain),
    }
}

/// As the object's subcontract says.
fn try_consume(kind: ObjectKind, object: Object, domain: &mut Domain) -> Result<(), NoDoor>
    requires sub { object.sub ≡ id_of kind }
    requires of { IsOf (form_of kind) object }
    ensures ok { OnOk result (GivesUp object domain.old domain.new) }
    ensures why { IfErr result (Lacks domain.old object.door) }
    ensures err { OnErr result (domain.new ≡ domain.old) }
{
    match kind {
        ObjectKind::Singleton => Singleton.consume(object, domain),
        ObjectKind::Cluster => Cluster.consume(object, domain),
        ObjectKind::Caching => Caching.consume(object, domain),
        ObjectKind::Reconnectable => Reconnectable.consume(object, domain),
    }
}
