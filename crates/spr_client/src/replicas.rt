//! Lines on replicon objects: the calls of one go by its first door, and an access whose door's life is over drops that door and goes by the
//! next.

ghost use Rattle.std.specs.Prelude.{◌≡◌, ◌∷◌, ◌++◌, ◌+◌, ◌≤◌, [], ℕ, List, Some, IfOk, IsSome, length, map};
ghost use Rattle.std.specs.List.{AllByRecursion};
ghost use Rattle.marshal_buf.specs.declared.door.Door.{Door as ADoor};
ghost use Rattle.text_words.specs.Words.{IsPath};
ghost use Rattle.client_objects.specs.Objects.{object_of, word_of};
ghost use Rattle.sub_replicon.specs.Replicas.{AreReplicas};
ghost use Rattle.client_replicas.specs.declared.door.OpenDoor.{OpenDoor as AnOpenDoor};
ghost use Rattle.client_replicas.specs.declared.replicas.OpenReplicon.{OpenReplicon};
ghost use Rattle.client_replicas.specs.Objects.{doors_of, with_replicon};
ghost use Rattle.client_replicas.specs.OpenDoors.{fresh};
ghost use Rattle.client_replicas.specs.Received.{LeadsOnto};
ghost use Rattle.script_meaning.specs.Stack.{file_named};
ghost use Rattle.script_meaning.specs.Plan.{by_door, doors_at, is_open, plan_by_doors, plan_copy, plan_copy_doors, plan_doors, plan_drop, plan_drop_doors, plan_named, plan_opens, plan_replicate, plan_sync, plan_synced, replica_doors, replicating};
ghost use Rattle.spr_client.specs.Calls.{MayCall};
ghost use Rattle.spr_client.specs.Lines.{IsDoorOn, IsOnMachine, LineDone, PlanDone};
ghost use Rattle.spr_client.specs.Doors.{IsFirst, found_by, replica_way};

use crate::carried::call_way;
use crate::client::{Client, Common};
use crate::files::{keep_number, sync_line};
use crate::line::{life_in, parts_of, refused_names, reply_to};
use crate::opening::{copy_line, drop_line, is_open};
use crate::reconnecting::{asked, is_revoked};
use client_objects::{Found, ObjectKind, Target, Way};
use client_replicas::{OpenDoor, stored_replicon};
use file_frames::FileCall;
use hist_plain::{Gate, Keep, Op, fits};
use marshal_buf::Door;
use page_ground::Ground;
use script_meaning::{file_named, pages_of, view_of};
use script_text::Reply;
use spr_volume::Pass;
use stack_accept::Mounted;
use std::alloc::{AllocError, Global};
use std::sync::Wait;
use sub_replicon::REPLICON;
use value_types::{Path, Text};

/// By what the frame of a call says a replicon object that goes by this door: its subcontract, and the tag 0.
fn replica_way(door: Door) -> Way
    ensures { result ≡ replica_way door }
{
    Way {
        sub: REPLICON,
        tag: 0,
        door,
        file: door.file,
    }
}

/// The door by which calls go.
fn door_of(door: OpenDoor) -> Door
    ensures { result ≡ record { node = door.view; file = door.file } }
{
    Door {
        node: door.view,
        file: door.file,
    }
}

/// Where the calls by a door of a replicon object go.
pub(crate) fn found_by(door: OpenDoor) -> Found
    ensures { result ≡ found_by door }
{
    Found {
        target: Target {
            kind: ObjectKind::Singleton,
            tag: 0,
            view: door.view,
            file: door.file,
            life: door.life,
        },
        node: door.view,
    }
}

/// Makes an access of the replicon object of a name by its first door. If that is answered with a life that is over and another door is left,
/// the first is dropped, and the access is made by the next.
pub(crate) fn access_doors<R: Wait, G: Ground, T: Gate>(
    rt: &R,
    alloc: Global,
    common: &Common<'_, G, T>,
    pass: &mut Pass<G>,
    client: &mut Client,
    name: &Text,
    door: OpenDoor,
    op: Op,
) -> Reply
    requires may { MayCall common.now.mount.now common.now.volume.now pass.old client.old.caller }
    requires on { IsOnMachine common.now.mount.now client.old.state }
    requires first { IsFirst name.now door client.old.state.replicas }
    ensures done { (more : List AnOpenDoor) → doors_of name.now client.old.state.replicas ≡ Some (door ∷ more)
        → PlanDone common.now.mount.now client.old.caller (plan_by_doors common.now.mount.now client.old.state name.now op door more) pass.old pass.new result client.new.state }
    ensures on { IsOnMachine common.now.mount.now client.new.state }
    ensures same { client.new ≡ record client.old { state = client.new.state } }
{
    // The proof reads here that calls go above the ground.
    let _nodes = common.mount.nodes();
    if !fits(
        &op,
        common.mount.page_size(),
        pages_of(common.mount, door.file),
    ) {
        return Reply::NotOnePage;
    }
    let Ok(mut out) = vec![in alloc; 0u8; asked(&op) as usize] else {
        return Reply::Memory;
    };
    let call = FileCall::Access { op };
    let way = replica_way(door_of(door));
    let answer = match call_way(
        rt, alloc, common, pass, client, way, door.view, door.life, &call, &mut out,
    ) {
        Ok(answer) => answer,
        Err(reply) => return reply,
    };
    if !is_revoked(answer) {
        return reply_to(answer, out);
    }
    if !client.state.replicas.drop_first(name) {
        return reply_to(answer, out);
    }
    let FileCall::Access { op } = call else {
        unreachable!();
    };
    let Some(next) = client.state.replicas.first(name) else {
        unreachable!();
    };
    access_doors(rt, alloc, common, pass, client, name, next, op)
}

/// Opens the file by the doors that are left, which are those from door k on of the last of a client's replicon objects, which was just
/// received. Each door keeps the life that its Open is answered; if one is refused, the object is given up.
fn open_doors<R: Wait, G: Ground, T: Gate>(
    rt: &R,
    alloc: Global,
    common: &Common<'_, G, T>,
    pass: &mut Pass<G>,
    client: &mut Client,
    doors: &[Door],
    k: u32,
) -> Reply
    requires may { MayCall common.now.mount.now common.now.volume.now pass.old client.old.caller }
    requires lead { AllByRecursion (LeadsOnto common.now.mount.now) doors.now }
    requires few { k + length doors.now ≤ 8 }
    ensures done { (replicas : List OpenReplicon) (name : List ℕ) (before : List AnOpenDoor) → client.old.state.replicas ≡ with_replicon replicas name (before ++ map fresh doors.now) → length before ≡ k
        → PlanDone common.now.mount.now client.old.caller (plan_opens common.now.mount.now name before doors.now (replicating client.old.state replicas)) pass.old pass.new result client.new.state }
    ensures on { (replicas : List OpenReplicon) (name : List ℕ) (before : List AnOpenDoor) → client.old.state.replicas ≡ with_replicon replicas name (before ++ map fresh doors.now) → length before ≡ k
        → IsOnMachine common.now.mount.now (replicating client.old.state replicas) → AllByRecursion (IsDoorOn common.now.mount.now) before → IsOnMachine common.now.mount.now client.new.state }
    ensures same { client.new ≡ record client.old { state = client.new.state } }
{
    // The proof reads here that calls go above the ground.
    let _nodes = common.mount.nodes();
    let Some((door, more)) = doors.split_first() else {
        let life = client.state.replicas.last_life();
        return Reply::Life { life };
    };
    let call = FileCall::Access { op: Op::Open };
    let way = replica_way(*door);
    match call_way(
        rt,
        alloc,
        common,
        pass,
        client,
        way,
        door.node,
        0,
        &call,
        &mut [],
    ) {
        Ok(answer) => {
            client.state.replicas.keep_last(k, life_in(answer));
            open_doors(rt, alloc, common, pass, client, more, k + 1)
        }
        Err(reply) => {
            client.state.replicas.give_up_last();
            reply
        }
    }
}

/// Opens a replicon object of these doors, under a name that no open object has.
pub(crate) fn open_replicon<R: Wait, G: Ground, T: Gate>(
    rt: &R,
    alloc: Global,
    common: &Common<'_, G, T>,
    pass: &mut Pass<G>,
    client: &mut Client,
    name: Text,
    doors: &[Door],
) -> Reply
    requires may { MayCall common.now.mount.now common.now.volume.now pass.old client.old.caller }
    requires on { IsOnMachine common.now.mount.now client.old.state }
    requires of { AreReplicas doors.now }
    requires lead { AllByRecursion (LeadsOnto common.now.mount.now) doors.now }
    ensures done { PlanDone common.now.mount.now client.old.caller (plan_opens common.now.mount.now name [] doors.now client.old.state) pass.old pass.new result client.new.state }
    ensures on { IsOnMachine common.now.mount.now client.new.state }
    ensures same { client.new ≡ record client.old { state = client.new.state } }
{
    match client.state.replicas.receive(alloc, name, doors) {
        Ok(()) => open_doors(rt, alloc, common, pass, client, doors, 0),
        Err(_) => Reply::Memory,
    }
}

/// A sync by a door of a replicon object.
fn sync_door<R: Wait, G: Ground, T: Gate>(
    rt: &R,
    alloc: Global,
    common: &Common<'_, G, T>,
    pass: &mut Pass<G>,
    client: &mut Client,
    door: OpenDoor,
    keep: Keep,
) -> Reply
    requires may { MayCall common.now.mount.now common.now.volume.now pass.old client.old.caller }
    requires on { IsOnMachine common.now.mount.now client.old.state }
    requires door { IsDoorOn common.now.mount.now door }
    ensures done { LineDone common.now.mount.now client.old.caller client.old.state (plan_sync common.now.mount.now client.old.state keep (by_door door)) pass.old pass.new result client.new.state }
    ensures on { IsOnMachine common.now.mount.now client.new.state }
    ensures same { client.new ≡ record client.old { state = client.new.state } }
{
    // The proof reads here that calls go above the ground.
    let _nodes = common.mount.nodes();
    let way = replica_way(door_of(door));
    let life = keep_number(keep);
    match call_way(
        rt,
        alloc,
        common,
        pass,
        client,
        way,
        door.view,
        life,
        &FileCall::Sync,
        &mut [],
    ) {
        Ok(answer) => reply_to(answer, Vec::new(alloc)),
        Err(reply) => reply,
    }
}

/// A line that syncs the file of the object of a name, of one door or of several.
pub(crate) fn sync_held<R: Wait, G: Ground, T: Gate>(
    rt: &R,
    alloc: Global,
    common: &Common<'_, G, T>,
    pass: &mut Pass<G>,
    client: &mut Client,
    name: &Text,
    keep: Keep,
) -> Reply
    requires may { MayCall common.now.mount.now common.now.volume.now pass.old client.old.caller }
    requires on { IsOnMachine common.now.mount.now client.old.state }
    ensures done { LineDone common.now.mount.now client.old.caller client.old.state (plan_synced common.now.mount.now client.old.state name.now keep) pass.old pass.new result client.new.state }
    ensures on { IsOnMachine common.now.mount.now client.new.state }
    ensures same { client.new ≡ record client.old { state = client.new.state } }
{
    match client.state.replicas.first(name) {
        Some(door) => sync_door(rt, alloc, common, pass, client, door, keep),
        None => sync_line(rt, alloc, common, pass, client, name, keep),
    }
}

/// Copies the replicon object of a name.
fn copy_doors<G: Ground, T: Gate>(
    alloc: Global,
    common: &Common<'_, G, T>,
    pass: &Pass<G>,
    client: &mut Client,
    name: &Text,
    other: &Text,
) -> Reply
    requires on { IsOnMachine common.now.mount.now client.old.state }
    requires held { IsSome (doors_of name.now client.old.state.replicas) }
    ensures done { (door : AnOpenDoor) (more : List AnOpenDoor) → doors_of name.now client.old.state.replicas ≡ Some (door ∷ more)
        → LineDone common.now.mount.now client.old.caller client.old.state (plan_copy_doors client.old.state other.now (is_open other.now client.old.state) door more) pass.now pass.now result client.new.state }
    ensures on { IsOnMachine common.now.mount.now client.new.state }
    ensures same { client.new ≡ record client.old { state = client.new.state } }
{
    if is_open(common, client, other) {
        return Reply::ObjectExists;
    }
    let Ok(second) = Text::of(alloc, other.as_str()) else {
        return Reply::Memory;
    };
    match client.state.replicas.copy(alloc, name, second) {
        Ok(()) => Reply::Done,
        Err(_) => Reply::Memory,
    }
}

/// A line that copies the object of a name, of one door or of several.
pub(crate) fn copy_held<G: Ground, T: Gate>(
    alloc: Global,
    common: &Common<'_, G, T>,
    pass: &Pass<G>,
    client: &mut Client,
    name: &Text,
    other: &Text,
) -> Reply
    requires on { IsOnMachine common.now.mount.now client.old.state }
    ensures done { LineDone common.now.mount.now client.old.caller client.old.state (plan_doors (doors_of name.now client.old.state.replicas) (plan_copy_doors client.old.state other.now (is_open other.now client.old.state)) (plan_named client.old.state (object_of name.now client.old.state.objects) (plan_copy client.old.state (word_of name.now client.old.state.objects) other.now (is_open other.now client.old.state)))) pass.now pass.now result client.new.state }
    ensures on { IsOnMachine common.now.mount.now client.new.state }
    ensures same { client.new ≡ record client.old { state = client.new.state } }
{
    match client.state.replicas.first(name) {
        Some(_) => copy_doors(alloc, common, pass, client, name, other),
        None => copy_line(alloc, common, pass, client, name, other),
    }
}

/// A line that drops the object of a name, of one door or of several.
pub(crate) fn drop_held<G: Ground, T: Gate>(
    common: &Common<'_, G, T>,
    pass: &Pass<G>,
    client: &mut Client,
    name: &Text,
) -> Reply
    requires on { IsOnMachine common.now.mount.now client.old.state }
    ensures done { LineDone common.now.mount.now client.old.caller client.old.state (plan_doors (doors_of name.now client.old.state.replicas) (λ door more. plan_drop_doors client.old.state name.now) (plan_named client.old.state (object_of name.now client.old.state.objects) (plan_drop client.old.state name.now))) pass.now pass.now result client.new.state }
    ensures on { IsOnMachine common.now.mount.now client.new.state }
    ensures same { client.new ≡ record client.old { state = client.new.state } }
{
    match client.state.replicas.first(name) {
        Some(_) => {
            client.state.replicas.remove(name);
            Reply::Done
        }
        None => drop_line(common, pass, client, name),
    }
}

/// The doors of a file at these views, which the stack has. An error is that memory ran out.
fn doors_at(
    alloc: Global,
    mount: &Mounted,
    file: u32,
    views: &[Text],
) -> Result<Vec<Door>, AllocError>
    requires { IsSome (doors_at mount.now file views.now) }
    ensures { IfOk result (λ doors. doors_at mount.now file views.now ≡ Some doors.items) }
{
    let mut doors = Vec::new(alloc);
    for view in views {
        let Some(node) = view_of(mount, view) else {
            unreachable!();
        };
        doors.push(Door { node, file })?;
    }
    Ok(doors)
}

/// Binds a replicon object of these doors.
fn bind_doors<R: Wait, G: Ground, T: Gate>(
    rt: &R,
    alloc: Global,
    common: &Common<'_, G, T>,
    pass: &mut Pass<G>,
    client: &Client,
    path: &Path,
    doors: &[Door],
) -> Reply
    requires may { MayCall common.now.mount.now common.now.volume.now pass.old client.now.caller }
    requires path { IsPath path.now }
    requires of { AreReplicas doors.now }
    ensures { LineDone common.now.mount.now client.now.caller client.now.state (plan_replicate client.now.state path.now (Some doors.now)) pass.old pass.new result client.now.state }
{
    let Ok(parts) = parts_of(alloc, path) else {
        return Reply::Memory;
    };
    let Ok(object) = stored_replicon(alloc, doors) else {
        return Reply::Memory;
    };
    match common.volume.bind(rt, pass, client.caller, path, object) {
        Ok(()) => Reply::Done,
        Err((err, _object)) => refused_names(err, parts),
    }
}

/// A line that binds a replicon object for a file at some views. The stack has the file and the views.
pub(crate) fn replicate_line<R: Wait, G: Ground, T: Gate>(
    rt: &R,
    alloc: Global,
    common: &Common<'_, G, T>,
    pass: &mut Pass<G>,
    client: &Client,
    path: &Path,
    file: &Text,
    views: &Path,
) -> Reply
    requires may { MayCall common.now.mount.now common.now.volume.now pass.old client.now.caller }
    requires path { IsPath path.now }
    requires views { IsPath views.now }
    requires known { IsSome (replica_doors common.now.mount.now (file_named common.now.mount.now file.now) views.now) }
    ensures { LineDone common.now.mount.now client.now.caller client.now.state (plan_replicate client.now.state path.now (replica_doors common.now.mount.now (file_named common.now.mount.now file.now) views.now)) pass.old pass.new result client.now.state }
{
    let Some(number) = file_named(common.mount, file) else {
        unreachable!();
    };
    let Ok(doors) = doors_at(alloc, common.mount, number, views.as_slice()) else {
        return Reply::Memory;
    };
    bind_doors(rt, alloc, common, pass, client, path, &doors)
}
