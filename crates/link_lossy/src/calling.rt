//! A call over a link.

ghost use Rattle.std.specs.Prelude.{◌≡◌, ◌≢◌, ◌⊎◌, ◌+◌, ◌*◌, ◌<◌, ◌≤◌, ◌^◌, ℕ, Ok, Some, Option, IsOk, true, length};
ghost use Rattle.link_lossy.specs.declared.TheConstants.{MAX_OUT};
ghost use Rattle.link_lossy.specs.declared.request.Request.{Request};
ghost use Rattle.link_lossy.specs.Reading.{request_at};
ghost use Rattle.link_lossy.specs.Services.{Service};
ghost use Rattle.link_lossy.specs.Ends.{is_new};
ghost use Rattle.link_lossy.specs.Attempts.{MayTry, Tries};
ghost use Rattle.link_lossy.specs.Calls.{IsCall, IsSent, IsTold, call_of, wire_of};

use crate::ends::{CallerEnd, ServerEnd};
use crate::link::Link;
use crate::refusal::LinkErr;
use crate::reply::answer_of;
use crate::request::Request;
use crate::serve::{Serve, Served};
use crate::writing::put_request;
use marshal_buf::Buf;
use std::alloc::Global;
use std::sync::Wait;

/// How often a call is tried.
pub const TRIES: u32 = 8;

/// Tries a call once: the request is sent; where it arrives, it is served, if it was not, and the reply is sent. None is that one of
/// the two was lost.
fn try_once<R: Wait, L: Link, F: Serve>(
    rt: &R,
    link: &mut L,
    far: &mut ServerEnd,
    serve: &mut F,
    bytes: &[u8],
    out: &mut [u8],
) -> Option<Result<Served, LinkErr>>
    requires few { length bytes.now < 2 ^ 32 }
    requires packets { (L.seen link.old).packets + 2 < 2 ^ 64 }
    requires form { IsOk (request_at bytes.now) }
    requires tried { (number : ℕ) (request : Request) → request_at bytes.now ≡ Ok (number, request) → MayTry number (length out.old) far.old }
    requires may { (number : ℕ) (request : Request) → request_at bytes.now ≡ Ok (number, request) → is_new number far.old.last ≡ true → F.may_serve serve.old request (length out.old) }
    requires out { length out.old ≤ MAX_OUT }
    ensures { (number : ℕ) (request : Request) → request_at bytes.now ≡ Ok (number, request) →
        Tries F.served number request (record { link = L.seen link.old; far = far.old; value = serve.old }) (record { link = L.seen link.new; far = far.new; value = serve.new }) out.old out.new result }
{
    if link.request(bytes).is_err() {
        return None;
    }
    if far.take(rt, bytes, out.len(), serve).is_err() {
        return Some(Err(LinkErr::Memory));
    }
    if link.reply(far.reply()).is_err() {
        return None;
    }
    match answer_of(far.reply(), out) {
        Some(answer) => Some(answer),
        None => unreachable!(),
    }
}

/// Tries a call until its reply comes, but no more than eight times.
fn try_all<R: Wait, L: Link, F: Serve>(
    rt: &R,
    link: &mut L,
    far: &mut ServerEnd,
    serve: &mut F,
    bytes: &[u8],
    out: &mut [u8],
) -> Result<Served, LinkErr>
    requires few { length bytes.now < 2 ^ 32 }
    requires packets { (L.seen link.old).packets + 16 < 2 ^ 64 }
    requires form { IsOk (request_at bytes.now) }
    requires new { (number : ℕ) (request : Request) → request_at bytes.now ≡ Ok (number, request) → is_new number far.old.last ≡ true }
    requires may { (number : ℕ) (request : Request) → request_at bytes.now ≡ Ok (number, request) → F.may_serve serve.old request (length out.old) }
    requires out { length out.old ≤ MAX_OUT }
    ensures sent { (number : ℕ) (request : Request) → request_at bytes.now ≡ Ok (number, request) → (service : Option Service) ×
        IsSent F.served (call_of request service result (record { link = L.seen link.old; next = number; last = far.old.last })
        (record { link = L.seen link.new; next = number + 1; last = far.new.last }) serve.old serve.new out.old out.new) }
    ensures caller { far.new.caller ≡ far.old.caller }
{
    for _try in 0..TRIES {
        if let Some(answer) = try_once(rt, link, far, serve, bytes, out) {
            return answer;
        }
    }
    Err(LinkErr::Link {
        count: link.count(),
    })
}

/// Makes a call over a link, with the next number of its caller's end, in at most eight tries. In each the request is sent; where it
/// arrives, it is served, unless it was; and the reply is sent, that of its one service. If memory ran out before the first try, nothing
/// was sent; if it ran out in serving, no reply is kept, and the call is not tried again.
pub fn call<R: Wait, L: Link, F: Serve>(
    rt: &R,
    alloc: Global,
    link: &mut L,
    near: &mut CallerEnd,
    far: &mut ServerEnd,
    serve: &mut F,
    request: &Request<'_>,
    out: &mut [u8],
) -> Result<Served, LinkErr>
    requires ends { (near.old.caller ≡ request.now.caller) × (far.old.caller ≡ request.now.caller) }
    requires machines { request.now.packet.from ≢ request.now.packet.to }
    requires few { 24 + length request.now.packet.frame < 2 ^ 32 }
    requires calls { near.old.next < 2 ^ 63 }
    requires packets { (L.seen link.old).packets < 2 ^ 63 }
    requires new { is_new near.old.next far.old.last ≡ true }
    requires may { F.may_serve serve.old request.now (length out.old) }
    requires out { length out.old ≤ MAX_OUT }
    // What it did, and how it ended.
    ensures call { (service : Option Service) × IsCall F.served (call_of request.now service result (wire_of (L.seen link.old) near.old far.old)
        (wire_of (L.seen link.new) near.new far.new) serve.old serve.new out.old out.new) }
    // If the link tells which packets it loses: exactly where the answer is that it lost the call.
    ensures told { IsTold (L.seen link.old) result }
    // The ends and the link serve for another call.
    ensures new { is_new near.new.next far.new.last ≡ true }
    ensures near { near.new ≡ record { caller = near.old.caller; next = near.old.next + 1 } }
    ensures far { far.new.caller ≡ far.old.caller }
    ensures packets { ((L.seen link.old).packets ≤ (L.seen link.new).packets) × ((L.seen link.new).packets ≤ (L.seen link.old).packets + 2 * TRIES) }
    ensures test { (L.seen link.new).loses ≡ (L.seen link.old).loses }
    ensures count { (L.seen link.old).count ≤ (L.seen link.new).count }
{
    let number = near.take_number();
    let mut sent = Buf::new(alloc);
    match put_request(number, request, &mut sent) {
        Ok(()) => try_all(rt, link, far, serve, sent.as_slice(), out),
        Err(_) => Err(LinkErr::Memory),
    }
}
