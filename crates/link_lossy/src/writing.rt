//! Writing a request and a reply.

ghost use Rattle.std.specs.Prelude.{◌≡◌, ◌≢◌, ◌+◌, ◌<◌, ◌≤◌, ◌^◌, [], IsOk, OnOk, OnErr, length};
ghost use Rattle.marshal_buf.specs.Held.{Puts, IsAsBefore};
ghost use Rattle.link_lossy.specs.Forms.{IsRequest, first_part, reply_bytes, request_bytes, second_part};

use crate::{Request, Returned};
use dfs_layer::put_packet;
use marshal_buf::Buf;
use std::alloc::AllocError;

/// Puts the parts of a request in their order. It cannot be refused where there is room.
#[tactic(auto, unfolding(crate::specs::Forms::request_bytes))]
fn put_request_parts(number: u64, request: &Request<'_>, buf: &mut Buf) -> Result<(), AllocError>
    requires machines { request.now.packet.from ≢ request.now.packet.to }
    requires few { length buf.old.bytes + 24 + length request.now.packet.frame < 2 ^ 32 }
    ensures ok { OnOk result (Puts (request_bytes number request.now) [] buf.old buf.new) }
    ensures form { OnOk result (IsRequest number request.now) }
    ensures room { 24 + length request.now.packet.frame ≤ buf.old.spare → IsOk result }
{
    let packet = &request.packet;
    let (from, to, frame) = (packet.from(), packet.to(), packet.frame());
    let (caller, life) = (request.caller, request.life);
    buf.put_u64(number)?;
    buf.put_u32(caller)?;
    buf.put_u32(life)?;
    put_packet(from, to, frame, buf)
}

/// Puts the request of the call of a number. It cannot be refused where there is room for it; want of memory leaves the bytes as they
/// were.
pub fn put_request(number: u64, request: &Request<'_>, buf: &mut Buf) -> Result<(), AllocError>
    requires machines { request.now.packet.from ≢ request.now.packet.to }
    requires few { length buf.old.bytes + 24 + length request.now.packet.frame < 2 ^ 32 }
    ensures ok { OnOk result (Puts (request_bytes number request.now) [] buf.old buf.new) }
    ensures form { OnOk result (IsRequest number request.now) }
    ensures err { OnErr result (IsAsBefore buf.old buf.new) }
    ensures room { 24 + length request.now.packet.frame ≤ buf.old.spare → IsOk result }
{
    let frame = request.packet.frame();
    buf.reserve(24 + frame.len() as u32)?;
    match put_request_parts(number, request, buf) {
        Ok(()) => Ok(()),
        Err(_) => unreachable!(),
    }
}

/// Puts the first thirteen bytes of a reply.
#[tactic(auto, unfolding(crate::specs::Forms::first_part))]
fn put_first(reply: &Returned<'_>, buf: &mut Buf) -> Result<(), AllocError>
    requires { length buf.old.bytes + 13 < 2 ^ 32 }
    ensures ok { OnOk result (Puts (first_part reply.now) [] buf.old buf.new) }
    ensures len { OnOk result (length buf.new.bytes ≡ length buf.old.bytes + 13) }
    ensures room { 13 ≤ buf.old.spare → IsOk result }
{
    buf.put_u64(reply.number)?;
    buf.put_u32(reply.caller)?;
    buf.put_bytes(&[reply.kind])
}

/// Puts the other twenty.
#[tactic(auto, unfolding(crate::specs::Forms::second_part))]
fn put_second(reply: &Returned<'_>, buf: &mut Buf) -> Result<(), AllocError>
    requires { length buf.old.bytes + 20 < 2 ^ 32 }
    ensures ok { OnOk result (Puts (second_part reply.now) [] buf.old buf.new) }
    ensures len { OnOk result (length buf.new.bytes ≡ length buf.old.bytes + 20) }
    ensures room { 20 ≤ buf.old.spare → IsOk result }
{
    buf.put_u64(reply.value)?;
    buf.put_u32(reply.disk)?;
    buf.put_u64(reply.place)
}

/// Puts the fields of a reply in their order, and its data. It cannot be refused where there is room.
#[tactic(auto, unfolding(crate::specs::Forms::reply_bytes))]
fn put_reply_parts(reply: &Returned<'_>, buf: &mut Buf) -> Result<(), AllocError>
    requires { length buf.old.bytes + 33 + length reply.now.rest < 2 ^ 32 }
    ensures ok { OnOk result (Puts (reply_bytes reply.now) [] buf.old buf.new) }
    ensures room { 33 + length reply.now.rest ≤ buf.old.spare → IsOk result }
{
    put_first(reply, buf)?;
    put_second(reply, buf)?;
    buf.put_bytes(reply.rest)
}

/// Puts a reply. It cannot be refused where there is room for it; want of memory leaves the bytes as they were.
pub fn put_reply(reply: &Returned<'_>, buf: &mut Buf) -> Result<(), AllocError>
    requires few { length buf.old.bytes + 33 + length reply.now.rest < 2 ^ 32 }
    ensures ok { OnOk result (Puts (reply_bytes reply.now) [] buf.old buf.new) }
    ensures err { OnErr result (IsAsBefore buf.old buf.new) }
    ensures room { 33 + length reply.now.rest ≤ buf.old.spare → IsOk result }
{
    let rest = reply.rest;
    buf.reserve(33 + rest.len() as u32)?;
    match put_reply_parts(reply, buf) {
        Ok(()) => Ok(()),
        Err(_) => unreachable!(),
    }
}
