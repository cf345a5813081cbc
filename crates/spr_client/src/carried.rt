//! A client's calls on open objects. One that stays on the client's machine, or whose client has no carrier, is made at the volume; any other
//! is carried to the machine of its node, and made there once its request has arrived.

ghost use Rattle.std.specs.Prelude.{◌≡◌, ◌≢◌, ◌<◌, ◌^◌, ℕ, List, IfSome, None, length, true, false};
ghost use Rattle.file_frames.specs.declared.call.FileCall.{FileCall as ACall};
ghost use Rattle.script_meaning.specs.Stack.{is_far};
ghost use Rattle.client_objects.specs.Objects.{OpenObject};
ghost use Rattle.client_replicas.specs.declared.replicas.OpenReplicon.{OpenReplicon};
ghost use Rattle.script_meaning.specs.Plan.{asking, asking_at, carrying};
ghost use Rattle.spr_client.specs.Calls.{CallDone, MayCall};
ghost use Rattle.spr_client.specs.Serving.{CallMade, FitsFile, IsReceivedAs, IsRequestOf, IsRoute, IsCarried, IsWayTo, MayServe, Serves, ask_by, asked_in, heard_here, having, heard_there, keep_of, volume_answer};
ghost use Rattle.spr_volume.specs.Passes.{as_known};

use crate::calls::{access_at, sync_at};
use crate::client::{Client, Common};
use crate::line::refused;
use client_objects::{Target, Way, file_by};
use dfs_layer::{put_packet, read_packet};
use file_frames::{CallWhy, FileCall, Received, put_call, read_call, through_frame};
use hist_plain::{Answer, Gate, Keep};
use link_lossy::{Carrier, LinkErr, Request, ServeErr, Served, read_request};
use marshal_buf::Buf;
use page_ground::Ground;
use script_text::Reply;
use spr_volume::{Answered, CallErr, Pass};
use stack_accept::Mounted;
use std::alloc::Global;
use std::sync::Wait;

/// The machine of a node, if it is another one than this.
fn far_machine(mount: &Mounted, machine: u32, node: u32) -> Option<u32>
    ensures far { IfSome result (λ other. (other ≢ machine) × (is_far mount.now machine node ≡ true)) }
    ensures here { result ≡ None → is_far mount.now machine node ≡ false }
{
    match mount.nodes().get(node as usize) {
        Some(entry) if entry.machine != machine => Some(entry.machine),
        _ => None,
    }
}

/// Which right a sync keeps, by the number that its request has in place of a life.
fn keep_of(life: u32) -> Keep
    ensures { result ≡ keep_of life }
{
    if life == 0 { Keep::Write } else { Keep::Read }
}

/// Makes a call that was read from its frame, at the object's file and a node.
fn call_at<R: Wait, G: Ground, T: Gate>(
    rt: &R,
    common: &Common<'_, G, T>,
    pass: &mut Pass<G>,
    caller: u32,
    received: Received,
    way: Way,
    node: u32,
    life: u32,
    out: &mut [u8],
) -> Result<Answered, CallErr>
    requires may { MayCall common.now.mount.now common.now.volume.now pass.old caller }
    requires route { IsWayTo common.now.mount.now way node }
    requires object { IsReceivedAs way received.call received }
    requires fits { FitsFile common.now.mount.now way.file received.call }
    requires long { length out.old ≡ asked_in received.call }
    ensures { CallDone caller (asking way.file (ask_by node life received.call)) pass.old pass.new out.new result }
{
    let file = file_by(received.subcontract(), way.door, received.tag());
    match received.into_call() {
        FileCall::Access { op } => access_at(rt, common, pass, caller, file, node, life, &op, out),
        FileCall::Sync => sync_at(rt, common, pass, caller, file, node, keep_of(life)),
    }
}

/// Makes a call on the client's machine: it goes through a frame of the object's subcontract. None is that memory ran out for the frame.
fn call_here<R: Wait, G: Ground, T: Gate>(
    rt: &R,
    alloc: Global,
    common: &Common<'_, G, T>,
    pass: &mut Pass<G>,
    caller: u32,
    way: Way,
    node: u32,
    life: u32,
    call: &FileCall,
    out: &mut [u8],
) -> Option<Result<Answered, CallErr>>
    requires may { MayCall common.now.mount.now common.now.volume.now pass.old caller }
    requires route { IsWayTo common.now.mount.now way node }
    requires fits { FitsFile common.now.mount.now way.file call.now }
    requires long { length out.old ≡ asked_in call.now }
    ensures made { IfSome result (λ r. CallDone caller (asking way.file (ask_by node life call.now)) pass.old pass.new out.new r) }
    ensures none { result ≡ None → pass.new ≡ pass.old }
{
    let page_size = common.mount.page_size();
    let mut frame = Buf::new(alloc);
    let Ok(received) = through_frame(
        alloc, common.ops, page_size, way.sub, way.tag, call, &mut frame,
    ) else {
        return None;
    };
    Some(call_at(rt, common, pass, caller, received, way, node, life, out))
}

/// What the volume answered, as what serving answers.
fn served(answered: Result<Answered, CallErr>) -> Result<Served, ServeErr>
    ensures { volume_answer result ≡ answered }
{
    match answered {
        Ok(answered) => Ok(Served {
            answer: answered.answer,
            place: answered.place,
        }),
        Err(CallErr::StoreFault { disk, count }) => Err(ServeErr::StoreFault { disk, count }),
        Err(CallErr::TrailFull) => Err(ServeErr::TrailFull),
        Err(CallErr::Memory) => Err(ServeErr::Memory),
    }
}

/// Serves a request that arrived, for an object: the call is read from the request's frame, and made at the object's file and a node.
fn serve<R: Wait, G: Ground, T: Gate>(
    rt: &R,
    alloc: Global,
    common: &Common<'_, G, T>,
    pass: &mut Pass<G>,
    way: Way,
    node: u32,
    bytes: &[u8],
    out: &mut [u8],
) -> Result<Served, ServeErr>
    requires few { length bytes.now < 2 ^ 32 }
    requires request { MayServe common.now.mount.now common.now.ops.now common.now.volume.now pass.old way bytes.now (length out.old) }
    requires route { IsWayTo common.now.mount.now way node }
    ensures { (caller life : ℕ) (call : ACall) → IsRequestOf common.now.mount.now common.now.ops.now caller life way call bytes.now → FitsFile common.now.mount.now way.file call
        → Serves caller (asking way.file (ask_by node life call)) pass.old pass.new out.new result }
{
    let Ok((_number, request)) = read_request(bytes) else {
        unreachable!();
    };
    let page_size = common.mount.page_size();
    match read_call(alloc, common.ops, page_size, request.packet.frame()) {
        Ok(received) => served(call_at(
            rt,
            common,
            pass,
            request.caller,
            received,
            way,
            node,
            request.life,
            out,
        )),
        Err(CallWhy::Memory) => Err(ServeErr::Memory),
        Err(CallWhy::Frame { .. }) => unreachable!(),
        Err(CallWhy::NoCall) => unreachable!(),
    }
}

/// Carries a call to the machine of its node: the call goes in a frame of the object's subcontract, the frame in a packet from one machine to the
/// other, and the packet in a request, which is tried until its reply comes.
fn carry<R: Wait, G: Ground, T: Gate>(
    rt: &R,
    alloc: Global,
    common: &Common<'_, G, T>,
    pass: &mut Pass<G>,
    caller: u32,
    carrier: &mut Carrier,
    from: u32,
    to: u32,
    way: Way,
    node: u32,
    life: u32,
    call: &FileCall,
    out: &mut [u8],
) -> Result<Served, LinkErr>
    requires may { MayCall common.now.mount.now common.now.volume.now pass.old caller }
    requires machines { from ≢ to }
    requires route { IsWayTo common.now.mount.now way node }
    requires fits { FitsFile common.now.mount.now way.file call.now }
    requires long { length out.old ≡ asked_in call.now }
    ensures { IsCarried caller (asking way.file (ask_by node life call.now)) pass.old pass.new carrier.old carrier.new out.new result }
{
    let page_size = common.mount.page_size();
    let mut frame = Buf::new(alloc);
    let Ok(()) = put_call(common.ops, page_size, way.sub, way.tag, call, &mut frame) else {
        return Err(LinkErr::Memory);
    };
    let mut packed = Buf::new(alloc);
    let Ok(()) = put_packet(from, to, frame.as_slice(), &mut packed) else {
        return Err(LinkErr::Memory);
    };
    let Ok(packet) = read_packet(packed.as_slice()) else {
        unreachable!();
    };
    let request = Request {
        caller,
        life,
        packet,
    };
    let asked = match carrier.ask(alloc, &request) {
        Ok(asked) => asked,
        Err(err) => return Err(err),
    };
    let served = serve(rt, alloc, common, pass, way, node, asked.bytes(), out);
    carrier.answer(&asked, &served, out)
}

/// What a call at the volume answered, or the answer of the line that it ends.
fn answered_here(answered: Option<Result<Answered, CallErr>>) -> Result<Answer, Reply>
    ensures { result ≡ heard_here answered }
{
    match answered {
        Some(Ok(answered)) => Ok(answered.answer),
        Some(Err(err)) => Err(refused(err)),
        None => Err(Reply::Memory),
    }
}

/// What a call that was carried answered, or the answer of the line that it ends.
fn answered_there(answered: Result<Served, LinkErr>) -> Result<Answer, Reply>
    ensures { result ≡ heard_there answered }
{
    match answered {
        Ok(served) => Ok(served.answer),
        Err(LinkErr::Link { count }) => Err(Reply::Link { count }),
        Err(LinkErr::StoreFault { disk, count }) => Err(Reply::Store { disk, count }),
        Err(LinkErr::TrailFull) => Err(Reply::TrailFull),
        Err(LinkErr::Memory) => Err(Reply::Memory),
    }
}

/// Makes a call of a client on an open object whose frames say this of it, at its file and a node; an error is the answer that ends the line. Of
/// a sync `life` is 0 if it keeps the right for writing, and 1 if it keeps that for reading.
pub(crate) fn call_way<R: Wait, G: Ground, T: Gate>(
    rt: &R,
    alloc: Global,
    common: &Common<'_, G, T>,
    pass: &mut Pass<G>,
    client: &mut Client,
    way: Way,
    node: u32,
    life: u32,
    call: &FileCall,
    out: &mut [u8],
) -> Result<Answer, Reply>
    requires may { MayCall common.now.mount.now common.now.volume.now pass.old client.old.caller }
    requires route { IsWayTo common.now.mount.now way node }
    requires fits { FitsFile common.now.mount.now way.file call.now }
    requires long { length out.old ≡ asked_in call.now }
    // The open objects have no part in it: so it is for whichever there are, of one door and of several.
    ensures made { (objects : List OpenObject) (replicas : List OpenReplicon) → CallMade common.now.mount.now client.old.caller (asking_at common.now.mount.now client.old.state node way.file (ask_by node life call.now)) pass.old pass.new (having objects replicas client.old.state) (having objects replicas client.new.state) out.new result }
    ensures same { client.new ≡ record client.old { state = carrying client.old.state client.new.state.carrier } }
    ensures pass { pass.new ≡ as_known pass.old pass.new }
{
    let (caller, from) = (client.caller, client.state.machine);
    let Some(to) = far_machine(common.mount, from, node) else {
        return answered_here(call_here(
            rt, alloc, common, pass, caller, way, node, life, call, out,
        ));
    };
    match &mut client.state.carrier {
        Some(carrier) => answered_there(carry(
            rt, alloc, common, pass, caller, carrier, from, to, way, node, life, call, out,
        )),
        None => answered_here(call_here(
            rt, alloc, common, pass, caller, way, node, life, call, out,
        )),
    }
}

/// Makes a call of a client on an open object of one door, as `call_way` does.
pub(crate) fn call_object<R: Wait, G: Ground, T: Gate>(
    rt: &R,
    alloc: Global,
    common: &Common<'_, G, T>,
    pass: &mut Pass<G>,
    client: &mut Client,
    target: Target,
    node: u32,
    life: u32,
    call: &FileCall,
    out: &mut [u8],
) -> Result<Answer, Reply>
    requires may { MayCall common.now.mount.now common.now.volume.now pass.old client.old.caller }
    requires route { IsRoute common.now.mount.now target node }
    requires fits { FitsFile common.now.mount.now target.file call.now }
    requires long { length out.old ≡ asked_in call.now }
    ensures made { (objects : List OpenObject) (replicas : List OpenReplicon) → CallMade common.now.mount.now client.old.caller (asking_at common.now.mount.now client.old.state node target.file (ask_by node life call.now)) pass.old pass.new (having objects replicas client.old.state) (having objects replicas client.new.state) out.new result }
    ensures same { client.new ≡ record client.old { state = carrying client.old.state client.new.state.carrier } }
    ensures pass { pass.new ≡ as_known pass.old pass.new }
{
    let way = target.way();
    call_way(rt, alloc, common, pass, client, way, node, life, call, out)
}
