//! Accesses of reconnectable objects: an object whose view was revoked finds its file again, by the path that it was bound under.

ghost use Rattle.std.specs.Prelude.{◌≡◌, IfErr, IfOk, IfSome, Some};
ghost use Rattle.hist_plain.specs.declared.event.Op.{Op as AnOp};
ghost use Rattle.hist_plain.specs.Plain.{Told, asked_by};
ghost use Rattle.name_context.specs.declared.entry.NameCall.TheVariants as names_calls;
ghost use Rattle.name_context.specs.Names.{HasParts, kept_at, kept_object};
ghost use Rattle.client_objects.specs.declared.kind.ObjectKind.TheVariants.{Reconnectable};
ghost use Rattle.client_objects.specs.declared.state.ClientState.{ClientState as AState};
ghost use Rattle.client_objects.specs.Objects.{object_of, word_of};
ghost use Rattle.client_objects.specs.Laws.{LeadsOntoStack};
ghost use Rattle.script_meaning.specs.Plan.{Plan, asking_names, is_revoked, plan_access, plan_after, plan_names, plan_reopened, plan_try, reached};
ghost use Rattle.spr_client.specs.Calls.{MayCall};
ghost use Rattle.client_objects.specs.Reconnected.{IsReconnectable};
ghost use Rattle.spr_client.specs.Lines.{IsLed, IsOnMachine, LeadsOn, LineDone, PlanDone};
ghost use Rattle.spr_volume.specs.Passes.{as_known};

use crate::carried::call_object;
use crate::client::{Client, Common};
use crate::line::{life_in, parts_of, refused_names, reply_to};
use client_objects::{Found, ObjectKind, Target, received_target};
use client_replicas::received_doors;
use file_frames::FileCall;
use hist_plain::{Answer, Gate, Op, fits};
use page_ground::Ground;
use script_meaning::pages_of;
use script_text::Reply;
use spr_volume::{Pass, Stored};
use stack_accept::Mounted;
use std::alloc::Global;
use std::sync::Wait;
use value_types::{Path, Text};

/// How often a reconnectable object finds its file again within one line: it makes three tries.
const FURTHER: u32 = 2;

/// Whether an answer is that a life is over.
pub(crate) fn is_revoked(answer: Answer) -> bool
    ensures { result ≡ is_revoked answer }
{
    matches!(answer, Answer::Revoked { .. })
}

/// Where a reconnectable object leads from now on: by the door of what stands at its path, in this life.
fn led_to(found: Target, life: u32) -> Found
    ensures target { result.target ≡ record { kind = Reconnectable; tag = 0; view = found.view; file = found.file; life = life } }
    ensures node { result.node ≡ found.view }
{
    Found {
        target: Target {
            kind: ObjectKind::Reconnectable,
            tag: 0,
            view: found.view,
            file: found.file,
            life,
        },
        node: found.view,
    }
}

/// Where a reconnectable object finds its file again, by what stands at its path: by the first door of a replicon object, and by the door of
/// any other object.
fn reached(mount: &Mounted, stored: &Stored) -> Option<Target>
    ensures is { result ≡ reached mount.now (Some (kept_object stored.now)) }
    ensures leads { IfSome result (LeadsOntoStack mount.now) }
{
    let Some(doors) = received_doors(mount, stored) else {
        return received_target(mount, stored);
    };
    let door = doors.as_slice()[0];
    Some(Target {
        kind: ObjectKind::Singleton,
        tag: 0,
        view: door.node,
        file: door.file,
        life: 0,
    })
}

/// Opens the view to which an object leads that stands at the path of the reconnectable object of a name; if that is answered,
/// the object leads there. An error is the answer that ends the line.
fn reopen<R: Wait, G: Ground, T: Gate>(
    rt: &R,
    alloc: Global,
    common: &Common<'_, G, T>,
    pass: &mut Pass<G>,
    client: &mut Client,
    name: &Text,
    stored: &Stored,
) -> Result<Found, Reply>
    requires may { MayCall common.now.mount.now common.now.volume.now pass.old client.old.caller }
    requires on { IsOnMachine common.now.mount.now client.old.state }
    requires held { IsReconnectable (object_of name.now client.old.state.objects) }
    ensures ok { IfOk result (λ found. (op : AnOp) (go_on : AState → Told → Plan) → LeadsOn common.now.mount.now client.old.caller
        (plan_reopened common.now.mount.now name.now op go_on client.old.state (reached common.now.mount.now (Some (kept_object stored.now))))
        (plan_try common.now.mount.now op go_on client.new.state found.target) pass.old pass.new) }
    ensures err { IfErr result (λ reply. (op : AnOp) (go_on : AState → Told → Plan) → PlanDone common.now.mount.now client.old.caller
        (plan_reopened common.now.mount.now name.now op go_on client.old.state (reached common.now.mount.now (Some (kept_object stored.now)))) pass.old pass.new reply client.new.state) }
    ensures led { IfOk result (IsLed common.now.mount.now name.now client.new.state) }
    ensures on { IsOnMachine common.now.mount.now client.new.state }
    ensures same { client.new ≡ record client.old { state = client.new.state } }
    ensures pass { pass.new ≡ as_known pass.old pass.new }
{
    // The proof reads here that calls go above the ground.
    let _nodes = common.mount.nodes();
    let Some(target) = reached(common.mount, stored) else {
        return Err(Reply::BadObject);
    };
    let call = FileCall::Access { op: Op::Open };
    match call_object(
        rt,
        alloc,
        common,
        pass,
        client,
        target,
        target.view,
        0,
        &call,
        &mut [],
    ) {
        Ok(answer) => {
            let life = life_in(answer);
            client.state.objects.reroute(name, target.door(), life);
            Ok(led_to(target, life))
        }
        Err(reply) => Err(reply),
    }
}

/// Resolves the path of the reconnectable object of a name, and opens what stands there. An error is the answer that ends the
/// line.
fn reconnect<R: Wait, G: Ground, T: Gate>(
    rt: &R,
    alloc: Global,
    common: &Common<'_, G, T>,
    pass: &mut Pass<G>,
    client: &mut Client,
    name: &Text,
    path: &Path,
) -> Result<Found, Reply>
    requires may { MayCall common.now.mount.now common.now.volume.now pass.old client.old.caller }
    requires on { IsOnMachine common.now.mount.now client.old.state }
    requires held { IsReconnectable (object_of name.now client.old.state.objects) }
    requires path { HasParts path.now }
    ensures ok { IfOk result (λ found. (op : AnOp) (go_on : AState → Told → Plan) → LeadsOn common.now.mount.now client.old.caller
        (plan_names client.old.state (asking_names names_calls.Resolve (Some path.now)) (λ names. plan_reopened common.now.mount.now name.now op go_on client.old.state (reached common.now.mount.now (kept_at names path.now))))
        (plan_try common.now.mount.now op go_on client.new.state found.target) pass.old pass.new) }
    ensures err { IfErr result (λ reply. (op : AnOp) (go_on : AState → Told → Plan) → PlanDone common.now.mount.now client.old.caller
        (plan_names client.old.state (asking_names names_calls.Resolve (Some path.now)) (λ names. plan_reopened common.now.mount.now name.now op go_on client.old.state (reached common.now.mount.now (kept_at names path.now)))) pass.old pass.new reply client.new.state) }
    ensures led { IfOk result (IsLed common.now.mount.now name.now client.new.state) }
    ensures on { IsOnMachine common.now.mount.now client.new.state }
    ensures same { client.new ≡ record client.old { state = client.new.state } }
    ensures pass { pass.new ≡ as_known pass.old pass.new }
{
    let Ok(parts) = parts_of(alloc, path) else {
        return Err(Reply::Memory);
    };
    match common.volume.resolve(rt, pass, client.caller, path) {
        Ok(stored) => reopen(rt, alloc, common, pass, client, name, &stored),
        Err(err) => Err(refused_names(err, parts)),
    }
}

/// Tries an access of the reconnectable object of a name, and so many times more if its view was revoked meanwhile.
fn tried<R: Wait, G: Ground, T: Gate>(
    rt: &R,
    alloc: Global,
    common: &Common<'_, G, T>,
    pass: &mut Pass<G>,
    client: &mut Client,
    name: &Text,
    path: &Path,
    found: Found,
    op: Op,
    left: u32,
) -> Reply
    requires may { MayCall common.now.mount.now common.now.volume.now pass.old client.old.caller }
    requires on { IsOnMachine common.now.mount.now client.old.state }
    requires led { IsLed common.now.mount.now name.now client.old.state found }
    requires path { HasParts path.now }
    ensures done { PlanDone common.now.mount.now client.old.caller (plan_try common.now.mount.now op (plan_after common.now.mount.now left name.now path.now op) client.old.state found.target) pass.old pass.new result client.new.state }
    ensures on { IsOnMachine common.now.mount.now client.new.state }
    ensures same { client.new ≡ record client.old { state = client.new.state } }
{
    if !fits(
        &op,
        common.mount.page_size(),
        pages_of(common.mount, found.target.file),
    ) {
        return Reply::NotOnePage;
    }
    let Ok(mut out) = vec![in alloc; 0u8; asked(&op) as usize] else {
        return Reply::Memory;
    };
    let call = FileCall::Access { op };
    let life = found.target.life;
    let answer = match call_object(
        rt,
        alloc,
        common,
        pass,
        client,
        found.target,
        found.node,
        life,
        &call,
        &mut out,
    ) {
        Ok(answer) => answer,
        Err(reply) => return reply,
    };
    if left == 0 || !is_revoked(answer) {
        return reply_to(answer, out);
    }
    let FileCall::Access { op } = call else {
        unreachable!();
    };
    match reconnect(rt, alloc, common, pass, client, name, path) {
        Ok(found) => tried(
            rt,
            alloc,
            common,
            pass,
            client,
            name,
            path,
            found,
            op,
            left - 1,
        ),
        Err(reply) => reply,
    }
}

/// How many bytes an access asks for.
pub(crate) fn asked(op: &Op) -> u32
    ensures { result ≡ asked_by op.now }
{
    match op {
        Op::Read { len, .. } => *len,
        _ => 0,
    }
}

/// A line of one access of the reconnectable object of a name.
pub(crate) fn reconnecting<R: Wait, G: Ground, T: Gate>(
    rt: &R,
    alloc: Global,
    common: &Common<'_, G, T>,
    pass: &mut Pass<G>,
    client: &mut Client,
    name: &Text,
    found: Found,
    op: Op,
) -> Reply
    requires may { MayCall common.now.mount.now common.now.volume.now pass.old client.old.caller }
    requires on { IsOnMachine common.now.mount.now client.old.state }
    requires led { IsLed common.now.mount.now name.now client.old.state found }
    ensures done { LineDone common.now.mount.now client.old.caller client.old.state (plan_access common.now.mount.now client.old.state name.now (word_of name.now client.old.state.objects) op found.target) pass.old pass.new result client.new.state }
    ensures on { IsOnMachine common.now.mount.now client.new.state }
    ensures same { client.new ≡ record client.old { state = client.new.state } }
{
    let Ok(path) = client.state.objects.path(alloc, name) else {
        return Reply::Memory;
    };
    tried(
        rt, alloc, common, pass, client, name, &path, found, op, FURTHER,
    )
}
