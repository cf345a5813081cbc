//! The two ends of a caller: one counts its calls, and one keeps the reply of the last that it served.

ghost use Rattle.std.specs.Prelude.{◌≡◌, ◌+◌, ◌<◌, ◌≤◌, ◌^◌, ℕ, [], Ok, IsOk, IfOk, Some, None, is_err, length, true};
ghost use Rattle.link_lossy.specs.declared.request.Request.{Request};
ghost use Rattle.link_lossy.specs.Forms.{reply_bytes};
ghost use Rattle.link_lossy.specs.Reading.{request_at};
ghost use Rattle.link_lossy.specs.Services.{Service};
ghost use Rattle.link_lossy.specs.Ends.{EndsWith, KeepsIf, Takes, is_new};

use crate::reply::reply_of;
use crate::{MAX_OUT, MAX_REPLY, Request, Returned, Serve, put_reply, read_request};
use marshal_buf::Buf;
use std::alloc::{AllocError, Global};
use std::marker::Model;
use std::sync::Wait;

/// The end at a caller, which numbers its calls from 0.
#[derive(Debug, Drop)]
pub struct CallerEnd {
    caller: u32,
    next: u64,
}

impl Model for CallerEnd {
    ghost use Rattle.link_lossy.specs.Ends.{CallerSeen};

    ghost Value = { CallerSeen };

    ghost view = { λ e. record { caller = e.caller; next = e.next } };
}

impl CallerEnd {
    /// The end of a caller that has made no call.
    pub fn new(caller: u32) -> CallerEnd
        ensures { result ≡ record { caller = caller; next = 0 } }
    {
        CallerEnd { caller, next: 0 }
    }

    /// How many numbers it has taken.
    pub(crate) fn taken(&self) -> u64
        ensures { result ≡ self.now.next }
    {
        self.next
    }

    /// Takes the number of the next call.
    pub(crate) fn take_number(&mut self) -> u64
        requires { self.old.next + 1 < 2 ^ 64 }
        ensures number { result ≡ self.old.next }
        ensures next { self.new ≡ record { caller = self.old.caller; next = self.old.next + 1 } }
    {
        let number = self.next;
        self.next += 1;
        number
    }
}

/// The end at the server of a caller. It keeps the number and the reply of the last call that it served, and has room for the largest
/// reply, so that it takes no memory to keep one or to send it.
#[derive(Debug, Drop)]
pub struct ServerEnd {
    caller: u32,
    last: Option<u64>,
    /// Where calls are served into.
    room: Vec<u8>,
    reply: Buf,
}

impl Model for ServerEnd {
    ghost use Rattle.std.specs.Prelude.{◌≡◌, ◌+◌, ◌≤◌, length};
    ghost use Rattle.link_lossy.specs.declared.TheConstants.{MAX_OUT, MAX_REPLY};
    ghost use Rattle.link_lossy.specs.Ends.{ServerSeen};

    ghost Value = { ServerSeen };

    ghost view = { λ e. record { caller = e.caller; last = e.last; reply = e.reply.bytes } };

    ghost invariant = { λ e. (length e.room.items ≡ MAX_OUT) × (MAX_REPLY ≤ e.reply.spare + length e.reply.bytes) × (length e.reply.bytes ≤ MAX_REPLY) };
}

/// Puts a reply in place of another. There is room for it.
fn keep(reply: &Returned<'_>, kept: &mut Buf)
    requires small { length reply.now.rest ≤ MAX_OUT }
    requires room { MAX_REPLY ≤ kept.old.spare + length kept.old.bytes }
    ensures bytes { kept.new.bytes ≡ reply_bytes reply.now }
    ensures room { MAX_REPLY ≤ kept.new.spare + length kept.new.bytes }
    ensures small { length kept.new.bytes ≤ MAX_REPLY }
{
    kept.clear();
    match put_reply(reply, kept) {
        Ok(()) => (),
        Err(_) => unreachable!(),
    }
}

/// Serves a call of this number and caller into so many bytes of a room, and keeps its reply. If serving it lacks memory, the reply is
/// the one that was kept.
fn serve_into<R: Wait, F: Serve>(
    rt: &R,
    number: u64,
    caller: u32,
    request: &Request<'_>,
    serve: &mut F,
    room: &mut [u8],
    len: usize,
    kept: &mut Buf,
) -> Result<(), AllocError>
    requires may { F.may_serve serve.old request.now len }
    requires len { len ≤ length room.old }
    requires small { len ≤ MAX_OUT }
    requires room { MAX_REPLY ≤ kept.old.spare + length kept.old.bytes }
    requires kept { length kept.old.bytes ≤ MAX_REPLY }
    ensures served { (s : Service) × F.served serve.old request.now s.answer s.bytes serve.new × (length s.bytes ≡ len) ×
        KeepsIf number caller s (is_err result) kept.old.bytes kept.new.bytes }
    ensures room { MAX_REPLY ≤ kept.new.spare + length kept.new.bytes }
    ensures small { length kept.new.bytes ≤ MAX_REPLY }
{
    let out = &mut room[..len];
    let served = serve.serve(rt, request, out);
    match reply_of(number, caller, &served, out) {
        Some(reply) => {
            keep(&reply, kept);
            Ok(())
        }
        None => Err(AllocError),
    }
}

impl ServerEnd {
    /// The end of a caller none of whose calls was served. An error is want of memory.
    pub fn new(alloc: Global, caller: u32) -> Result<ServerEnd, AllocError>
        ensures { IfOk result (λ end. end ≡ record { caller = caller; last = None; reply = [] }) }
    {
        let mut reply = Buf::new(alloc);
        reply.reserve(MAX_REPLY as u32)?;
        Ok(ServerEnd {
            caller,
            last: None,
            room: vec![in alloc; 0; MAX_OUT]?,
            reply,
        })
    }

    /// Keeps the reply to a call of this number.
    pub(crate) fn keep_reply(&mut self, number: u64, reply: &Returned<'_>)
        requires { length reply.now.rest ≤ MAX_OUT }
        ensures { self.new ≡ record { caller = self.old.caller; last = Some number; reply = reply_bytes reply.now } }
    {
        keep(reply, &mut self.reply);
        self.last = Some(number);
    }

    /// Lends the bytes of the reply that it keeps.
    pub(crate) fn reply(&self) -> &[u8]
        ensures bytes { result.now ≡ self.now.reply }
        ensures few { length result.now < 2 ^ 32 }
    {
        self.reply.as_slice()
    }

    /// Whether a number is above that of the last call that was served.
    fn is_new(&self, number: u64) -> bool
        ensures { result ≡ is_new number self.now.last }
    {
        match self.last {
            Some(last) => last < number,
            None => true,
        }
    }

    /// Serves a call of a number, and keeps its reply. If serving it lacks memory, the end is as it was.
    fn serve<R: Wait, F: Serve>(
        &mut self,
        rt: &R,
        number: u64,
        request: &Request<'_>,
        len: usize,
        serve: &mut F,
    ) -> Result<(), AllocError>
        requires may { F.may_serve serve.old request.now len }
        requires len { len ≤ MAX_OUT }
        ensures { (s : Service) × F.served serve.old request.now s.answer s.bytes serve.new × (length s.bytes ≡ len) ×
            EndsWith number s (is_err result) self.old self.new }
    {
        let caller = self.caller;
        let (room, kept) = (&mut self.room, &mut self.reply);
        serve_into(rt, number, caller, request, serve, room, len, kept)?;
        self.last = Some(number);
        Ok(())
    }

    /// Takes a request that arrives, for a call with an `out` of so many bytes. It is served if its number is new; else the reply that is
    /// kept is the one to it. An error is that serving it lacked memory.
    pub(crate) fn take<R: Wait, F: Serve>(
        &mut self,
        rt: &R,
        bytes: &[u8],
        len: usize,
        serve: &mut F,
    ) -> Result<(), AllocError>
        requires few { length bytes.now < 2 ^ 32 }
        requires form { IsOk (request_at bytes.now) }
        requires may { (number : ℕ) (request : Request) → request_at bytes.now ≡ Ok (number, request) → is_new number self.old.last ≡ true → F.may_serve serve.old request len }
        requires len { len ≤ MAX_OUT }
        ensures { (number : ℕ) (request : Request) → request_at bytes.now ≡ Ok (number, request) →
            Takes F.served number request len (is_err result) self.old self.new serve.old serve.new }
    {
        match read_request(bytes) {
            Ok((number, request)) => {
                if self.is_new(number) {
                    self.serve(rt, number, &request, len, serve)
                } else {
                    Ok(())
                }
            }
            Err(_) => unreachable!(),
        }
    }
}
