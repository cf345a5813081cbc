//! Lines on the file of an open object.

ghost use Rattle.std.specs.Prelude.{◌≡◌, IfSome, IsTrue, length};
ghost use Rattle.std.specs.Option.{option_map};
ghost use Rattle.hist_plain.specs.declared.event.Op.TheVariants as ops;
ghost use Rattle.hist_plain.specs.Event.{fits_page};
ghost use Rattle.hist_plain.specs.Plain.{asked_by};
ghost use Rattle.client_objects.specs.Objects.{object_of, word_of};
ghost use Rattle.client_objects.specs.Found.{found_on};
ghost use Rattle.script_meaning.specs.Stack.{pages_of};
ghost use Rattle.script_meaning.specs.Plan.{access, asking, node_at, plan_access, plan_call, plan_named, plan_sync, plan_use, trial_of};
ghost use Rattle.spr_client.specs.Calls.{MayCall};
ghost use Rattle.spr_client.specs.Serving.{keep_number};
ghost use Rattle.spr_client.specs.Lines.{IsLeafOf, IsOnMachine, IsTarget, LineDone};

use crate::calls::access_at;
use crate::carried::call_object;
use crate::client::{Client, Common};
use crate::line::{refused, reply_to};
use crate::reconnecting::reconnecting;
use crate::replicas::access_doors;
use client_objects::{Found, ObjectKind};
use file_frames::FileCall;
use hist_plain::{Gate, Keep, Op, fits};
use page_ground::Ground;
use script_meaning::pages_of;
use script_text::Reply;
use spr_volume::Pass;
use std::alloc::Global;
use std::sync::Wait;
use value_types::{Bytes, Text};

/// A line of one access, at a layer above the ground, within one page of the file. What it reads comes into the bytes.
pub(crate) fn answer_access<R: Wait, G: Ground, T: Gate>(
    rt: &R,
    common: &Common<'_, G, T>,
    pass: &mut Pass<G>,
    client: &Client,
    file: u32,
    node: u32,
    life: u32,
    op: &Op,
    out: Vec<u8>,
) -> Reply
    requires may { MayCall common.now.mount.now common.now.volume.now pass.old client.now.caller }
    requires leads { IsLeafOf common.now.mount.now node file }
    requires fits { IsTrue (fits_page common.now.mount.now.page_size (pages_of common.now.mount.now file) op.now) }
    requires out { length out.items ≡ asked_by op.now }
    ensures { LineDone common.now.mount.now client.now.caller client.now.state (plan_call client.now.state (asking file (access node life op.now))) pass.old pass.new result client.now.state }
{
    let mut out = out;
    match access_at(
        rt,
        common,
        pass,
        client.caller,
        file,
        node,
        life,
        op,
        &mut out,
    ) {
        Ok(answered) => reply_to(answered.answer, out),
        Err(err) => refused(err),
    }
}

/// A line of one access of an open object, whose range is within one page of the file.
fn access_object<R: Wait, G: Ground, T: Gate>(
    rt: &R,
    alloc: Global,
    common: &Common<'_, G, T>,
    pass: &mut Pass<G>,
    client: &mut Client,
    found: Found,
    op: Op,
    len: usize,
) -> Reply
    requires may { MayCall common.now.mount.now common.now.volume.now pass.old client.old.caller }
    requires on { IsOnMachine common.now.mount.now client.old.state }
    requires target { IsTarget common.now.mount.now found }
    requires node { found.node ≡ node_at common.now.mount.now client.old.state found.target }
    requires fits { IsTrue (fits_page common.now.mount.now.page_size (pages_of common.now.mount.now found.target.file) op) }
    requires len { len ≡ asked_by op }
    ensures done { LineDone common.now.mount.now client.old.caller client.old.state (plan_call client.old.state (trial_of common.now.mount.now client.old.state found.target op)) pass.old pass.new result client.new.state }
    ensures on { IsOnMachine common.now.mount.now client.new.state }
    ensures same { client.new ≡ record client.old { state = client.new.state } }
{
    let Ok(mut out) = vec![in alloc; 0u8; len] else {
        return Reply::Memory;
    };
    let call = FileCall::Access { op };
    let life = found.target.life;
    match call_object(
        rt,
        alloc,
        common,
        pass,
        client,
        found.target,
        found.node,
        life,
        &call,
        &mut out,
    ) {
        Ok(answer) => reply_to(answer, out),
        Err(reply) => reply,
    }
}

/// A line of one access of the object of a name, which has one door.
fn access_line<R: Wait, G: Ground, T: Gate>(
    rt: &R,
    alloc: Global,
    common: &Common<'_, G, T>,
    pass: &mut Pass<G>,
    client: &mut Client,
    name: &Text,
    op: Op,
    len: usize,
) -> Reply
    requires may { MayCall common.now.mount.now common.now.volume.now pass.old client.old.caller }
    requires on { IsOnMachine common.now.mount.now client.old.state }
    requires len { len ≡ asked_by op }
    ensures done { LineDone common.now.mount.now client.old.caller client.old.state (plan_named client.old.state (object_of name.now client.old.state.objects) (plan_access common.now.mount.now client.old.state name.now (word_of name.now client.old.state.objects) op)) pass.old pass.new result client.new.state }
    ensures on { IsOnMachine common.now.mount.now client.new.state }
    ensures same { client.new ≡ record client.old { state = client.new.state } }
{
    let Some(found) = find(common, client, name) else {
        return Reply::NoObject;
    };
    if found.target.kind == ObjectKind::Reconnectable {
        return reconnecting(rt, alloc, common, pass, client, name, found, op);
    }
    if !fits(
        &op,
        common.mount.page_size(),
        pages_of(common.mount, found.target.file),
    ) {
        return Reply::NotOnePage;
    }
    access_object(rt, alloc, common, pass, client, found, op, len)
}

/// A line of one access of the object of a name, of one door or of several.
fn use_line<R: Wait, G: Ground, T: Gate>(
    rt: &R,
    alloc: Global,
    common: &Common<'_, G, T>,
    pass: &mut Pass<G>,
    client: &mut Client,
    name: &Text,
    op: Op,
    len: usize,
) -> Reply
    requires may { MayCall common.now.mount.now common.now.volume.now pass.old client.old.caller }
    requires on { IsOnMachine common.now.mount.now client.old.state }
    requires len { len ≡ asked_by op }
    ensures done { LineDone common.now.mount.now client.old.caller client.old.state (plan_use common.now.mount.now client.old.state name.now op) pass.old pass.new result client.new.state }
    ensures on { IsOnMachine common.now.mount.now client.new.state }
    ensures same { client.new ≡ record client.old { state = client.new.state } }
{
    match client.state.replicas.first(name) {
        Some(door) => access_doors(rt, alloc, common, pass, client, name, door, op),
        None => access_line(rt, alloc, common, pass, client, name, op, len),
    }
}

/// A line that reads bytes of a page of the object of a name.
pub(crate) fn read_line<R: Wait, G: Ground, T: Gate>(
    rt: &R,
    alloc: Global,
    common: &Common<'_, G, T>,
    pass: &mut Pass<G>,
    client: &mut Client,
    name: &Text,
    page: u32,
    off: u32,
    len: u32,
) -> Reply
    requires may { MayCall common.now.mount.now common.now.volume.now pass.old client.old.caller }
    requires on { IsOnMachine common.now.mount.now client.old.state }
    ensures done { LineDone common.now.mount.now client.old.caller client.old.state (plan_use common.now.mount.now client.old.state name.now (ops.Read page off len)) pass.old pass.new result client.new.state }
    ensures on { IsOnMachine common.now.mount.now client.new.state }
    ensures same { client.new ≡ record client.old { state = client.new.state } }
{
    let op = Op::Read { page, off, len };
    use_line(rt, alloc, common, pass, client, name, op, len as usize)
}

/// A line that writes bytes of a page of the object of a name.
pub(crate) fn write_line<R: Wait, G: Ground, T: Gate>(
    rt: &R,
    alloc: Global,
    common: &Common<'_, G, T>,
    pass: &mut Pass<G>,
    client: &mut Client,
    name: &Text,
    page: u32,
    off: u32,
    bytes: &Bytes,
) -> Reply
    requires may { MayCall common.now.mount.now common.now.volume.now pass.old client.old.caller }
    requires on { IsOnMachine common.now.mount.now client.old.state }
    ensures done { LineDone common.now.mount.now client.old.caller client.old.state (plan_use common.now.mount.now client.old.state name.now (ops.Write page off bytes.now)) pass.old pass.new result client.new.state }
    ensures on { IsOnMachine common.now.mount.now client.new.state }
    ensures same { client.new ≡ record client.old { state = client.new.state } }
{
    let Ok(bytes) = bytes.clone() else {
        return Reply::Memory;
    };
    let op = Op::Write { page, off, bytes };
    use_line(rt, alloc, common, pass, client, name, op, 0)
}

/// A line that clears a page of the object of a name.
pub(crate) fn clear_line<R: Wait, G: Ground, T: Gate>(
    rt: &R,
    alloc: Global,
    common: &Common<'_, G, T>,
    pass: &mut Pass<G>,
    client: &mut Client,
    name: &Text,
    page: u32,
) -> Reply
    requires may { MayCall common.now.mount.now common.now.volume.now pass.old client.old.caller }
    requires on { IsOnMachine common.now.mount.now client.old.state }
    ensures done { LineDone common.now.mount.now client.old.caller client.old.state (plan_use common.now.mount.now client.old.state name.now (ops.Clear page)) pass.old pass.new result client.new.state }
    ensures on { IsOnMachine common.now.mount.now client.new.state }
    ensures same { client.new ≡ record client.old { state = client.new.state } }
{
    use_line(rt, alloc, common, pass, client, name, Op::Clear { page }, 0)
}

/// A line that syncs the file of the object of a name, which has one door.
pub(crate) fn sync_line<R: Wait, G: Ground, T: Gate>(
    rt: &R,
    alloc: Global,
    common: &Common<'_, G, T>,
    pass: &mut Pass<G>,
    client: &mut Client,
    name: &Text,
    keep: Keep,
) -> Reply
    requires may { MayCall common.now.mount.now common.now.volume.now pass.old client.old.caller }
    requires on { IsOnMachine common.now.mount.now client.old.state }
    ensures done { LineDone common.now.mount.now client.old.caller client.old.state (plan_named client.old.state (object_of name.now client.old.state.objects) (plan_sync common.now.mount.now client.old.state keep)) pass.old pass.new result client.new.state }
    ensures on { IsOnMachine common.now.mount.now client.new.state }
    ensures same { client.new ≡ record client.old { state = client.new.state } }
{
    let Some(found) = find(common, client, name) else {
        return Reply::NoObject;
    };
    let life = keep_number(keep);
    match call_object(
        rt,
        alloc,
        common,
        pass,
        client,
        found.target,
        found.node,
        life,
        &FileCall::Sync,
        &mut [],
    ) {
        Ok(answer) => reply_to(answer, Vec::new(alloc)),
        Err(reply) => reply,
    }
}

/// The number by which the request of a sync says which right it keeps.
pub(crate) fn keep_number(keep: Keep) -> u32
    ensures { result ≡ keep_number keep }
{
    match keep {
        Keep::Write => 0,
        Keep::Read => 1,
    }
}

/// Where a client's object of a name leads, which has one door, and to which node its calls go from the client's machine.
pub(crate) fn find<G: Ground, T: Gate>(
    common: &Common<'_, G, T>,
    client: &Client,
    name: &Text,
) -> Option<Found>
    requires on { IsOnMachine common.now.mount.now client.now.state }
    ensures is { result ≡ option_map (found_on common.now.mount.now client.now.state.machine) (object_of name.now client.now.state.objects) }
    ensures target { IfSome result (IsTarget common.now.mount.now) }
{
    // The proof reads here that calls go above the ground.
    let _nodes = common.mount.nodes();
    let objects = &client.state.objects;
    objects.find(common.mount, client.state.machine, name)
}
