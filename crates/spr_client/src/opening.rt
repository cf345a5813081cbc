//! Lines that open, copy and drop objects.

ghost use Rattle.std.specs.Prelude.{◌≡◌, ℕ, List, Some};
ghost use Rattle.name_context.specs.Names.{HasParts, kept_object};
ghost use Rattle.client_objects.specs.Objects.{OpenObject, object_of, with_object, word_of};
ghost use Rattle.client_objects.specs.Stored.{received, received_word};
ghost use Rattle.client_replicas.specs.Received.{received_doors};
ghost use Rattle.script_meaning.specs.Plan.{holding, is_open, node_at, plan_copy, plan_drop, plan_found, plan_named, plan_open, plan_received};
ghost use Rattle.spr_client.specs.Calls.{MayCall};
ghost use Rattle.spr_client.specs.Lines.{IsKept, IsOnMachine, IsTarget, LineDone, PlanDone};

use crate::carried::call_object;
use crate::client::{Client, Common};
use crate::files::find;
use crate::line::{life_in, parts_of, refused_names, reply_to};
use crate::replicas::open_replicon;
use client_objects::{Found, NotReceived};
use client_replicas::received_doors;
use file_frames::FileCall;
use hist_plain::{Gate, Op};
use page_ground::Ground;
use script_text::Reply;
use spr_volume::{Pass, Stored};
use std::alloc::Global;
use std::sync::Wait;
use value_types::{Path, Text};

/// Opens the file at the node to which the calls of the last of a client's objects go, which was just received. The object keeps the life
/// that is answered; if the call is refused, the object is given up.
fn open_received<R: Wait, G: Ground, T: Gate>(
    rt: &R,
    alloc: Global,
    common: &Common<'_, G, T>,
    pass: &mut Pass<G>,
    client: &mut Client,
    found: Found,
) -> Reply
    requires may { MayCall common.now.mount.now common.now.volume.now pass.old client.old.caller }
    requires target { IsTarget common.now.mount.now found }
    requires node { found.node ≡ node_at common.now.mount.now client.old.state found.target }
    ensures done { (objects : List OpenObject) (name word : List ℕ) → client.old.state.objects ≡ with_object objects name found.target word
        → PlanDone common.now.mount.now client.old.caller (plan_found common.now.mount.now (holding client.old.state objects) name word (Some found.target)) pass.old pass.new result client.new.state }
    ensures on { (objects : List OpenObject) (name word : List ℕ) → client.old.state.objects ≡ with_object objects name found.target word
        → IsKept client.old.state client.new.state objects name found.target word }
    ensures same { client.new ≡ record client.old { state = client.new.state } }
{
    let call = FileCall::Access { op: Op::Open };
    match call_object(
        rt,
        alloc,
        common,
        pass,
        client,
        found.target,
        found.node,
        0,
        &call,
        &mut [],
    ) {
        Ok(answer) => {
            client.state.objects.set_life(life_in(answer));
            reply_to(answer, Vec::new(alloc))
        }
        Err(reply) => {
            client.state.objects.give_up_last();
            reply
        }
    }
}

/// Opens what stands at a path, under a name that no open object has, if it is no replicon object.
fn open_stored<R: Wait, G: Ground, T: Gate>(
    rt: &R,
    alloc: Global,
    common: &Common<'_, G, T>,
    pass: &mut Pass<G>,
    client: &mut Client,
    name: Text,
    stored: &Stored,
) -> Reply
    requires may { MayCall common.now.mount.now common.now.volume.now pass.old client.old.caller }
    requires on { IsOnMachine common.now.mount.now client.old.state }
    ensures done { PlanDone common.now.mount.now client.old.caller (plan_found common.now.mount.now client.old.state name (received_word (Some (kept_object stored.now))) (received common.now.mount.now (Some (kept_object stored.now)))) pass.old pass.new result client.new.state }
    ensures on { IsOnMachine common.now.mount.now client.new.state }
    ensures same { client.new ≡ record client.old { state = client.new.state } }
{
    // The proof reads here that calls go above the ground.
    let _nodes = common.mount.nodes();
    let machine = client.state.machine;
    let objects = &mut client.state.objects;
    match objects.receive(alloc, common.mount, machine, name, stored) {
        Ok(found) => open_received(rt, alloc, common, pass, client, found),
        Err(NotReceived::BadObject) => Reply::BadObject,
        Err(NotReceived::Memory) => Reply::Memory,
    }
}

/// Opens what stands at a path, under a name that no open object has.
fn open_kept<R: Wait, G: Ground, T: Gate>(
    rt: &R,
    alloc: Global,
    common: &Common<'_, G, T>,
    pass: &mut Pass<G>,
    client: &mut Client,
    name: Text,
    stored: &Stored,
) -> Reply
    requires may { MayCall common.now.mount.now common.now.volume.now pass.old client.old.caller }
    requires on { IsOnMachine common.now.mount.now client.old.state }
    ensures done { PlanDone common.now.mount.now client.old.caller (plan_received common.now.mount.now client.old.state name (Some (kept_object stored.now)) (received_doors common.now.mount.now (Some (kept_object stored.now)))) pass.old pass.new result client.new.state }
    ensures on { IsOnMachine common.now.mount.now client.new.state }
    ensures same { client.new ≡ record client.old { state = client.new.state } }
{
    match received_doors(common.mount, stored) {
        Some(doors) => open_replicon(rt, alloc, common, pass, client, name, doors.as_slice()),
        None => open_stored(rt, alloc, common, pass, client, name, stored),
    }
}

/// Whether a client has an open object of the name.
pub(crate) fn is_open<G: Ground, T: Gate>(
    common: &Common<'_, G, T>,
    client: &Client,
    name: &Text,
) -> bool
    requires { IsOnMachine common.now.mount.now client.now.state }
    ensures { result ≡ is_open name.now client.now.state }
{
    client.state.replicas.first(name).is_some() || find(common, client, name).is_some()
}

/// A line that opens what a path leads to.
pub(crate) fn open_line<R: Wait, G: Ground, T: Gate>(
    rt: &R,
    alloc: Global,
    common: &Common<'_, G, T>,
    pass: &mut Pass<G>,
    client: &mut Client,
    name: &Text,
    path: &Path,
) -> Reply
    requires may { MayCall common.now.mount.now common.now.volume.now pass.old client.old.caller }
    requires on { IsOnMachine common.now.mount.now client.old.state }
    requires path { HasParts path.now }
    ensures done { LineDone common.now.mount.now client.old.caller client.old.state (plan_open common.now.mount.now client.old.state name.now path.now (is_open name.now client.old.state)) pass.old pass.new result client.new.state }
    ensures on { IsOnMachine common.now.mount.now client.new.state }
    ensures same { client.new ≡ record client.old { state = client.new.state } }
{
    if is_open(common, client, name) {
        return Reply::ObjectExists;
    }
    let Ok(copy) = Text::of(alloc, name.as_str()) else {
        return Reply::Memory;
    };
    let Ok(parts) = parts_of(alloc, path) else {
        return Reply::Memory;
    };
    match common.volume.resolve(rt, pass, client.caller, path) {
        Ok(stored) => open_kept(rt, alloc, common, pass, client, copy, &stored),
        Err(err) => refused_names(err, parts),
    }
}

/// A line that copies the object of a name, which has one door.
pub(crate) fn copy_line<G: Ground, T: Gate>(
    alloc: Global,
    common: &Common<'_, G, T>,
    pass: &Pass<G>,
    client: &mut Client,
    name: &Text,
    other: &Text,
) -> Reply
    requires on { IsOnMachine common.now.mount.now client.old.state }
    ensures done { LineDone common.now.mount.now client.old.caller client.old.state (plan_named client.old.state (object_of name.now client.old.state.objects) (plan_copy client.old.state (word_of name.now client.old.state.objects) other.now (is_open other.now client.old.state))) pass.now pass.now result client.new.state }
    ensures on { IsOnMachine common.now.mount.now client.new.state }
    ensures same { client.new ≡ record client.old { state = client.new.state } }
{
    let Some(_) = find(common, client, name) else {
        return Reply::NoObject;
    };
    if is_open(common, client, other) {
        return Reply::ObjectExists;
    }
    let Ok(second) = Text::of(alloc, other.as_str()) else {
        return Reply::Memory;
    };
    match client.state.objects.copy(name, second) {
        Ok(()) => Reply::Done,
        Err(_) => Reply::Memory,
    }
}

/// A line that drops the object of a name, which has one door.
pub(crate) fn drop_line<G: Ground, T: Gate>(
    common: &Common<'_, G, T>,
    pass: &Pass<G>,
    client: &mut Client,
    name: &Text,
) -> Reply
    requires on { IsOnMachine common.now.mount.now client.old.state }
    ensures done { LineDone common.now.mount.now client.old.caller client.old.state (plan_named client.old.state (object_of name.now client.old.state.objects) (plan_drop client.old.state name.now)) pass.now pass.now result client.new.state }
    ensures on { IsOnMachine common.now.mount.now client.new.state }
    ensures same { client.new ≡ record client.old { state = client.new.state } }
{
    let Some(_) = find(common, client, name) else {
        return Reply::NoObject;
    };
    client.state.objects.remove(name);
    Reply::Done
}
