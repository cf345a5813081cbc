//! Requests and replies over a link.

use crate::laws::{Found, Law, read_if, refused_if};
use link_lossy::{LinkWhy, Request, Returned, put_reply, put_request, read_reply, read_request};
use marshal_buf::Buf;
use std::alloc::{AllocError, Global};

/// A request that is read is put as it was; what is refused is refused at a byte of it or at its end.
#[derive(Drop)]
pub struct RequestLaw;

/// A reply that is read is put as it was; what is refused is refused at its kind or at its end.
#[derive(Drop)]
pub struct ReplyLaw;

/// Whether the request of a number is put as bytes.
fn is_request(
    alloc: Global,
    number: u64,
    request: &Request<'_>,
    bytes: &[u8],
) -> Result<bool, AllocError> {
    let packet = &request.packet;
    let (from, to, frame) = (packet.from(), packet.to(), packet.frame());
    if from == to || frame.len() > 10_000 {
        return Ok(false);
    }
    let mut buf = Buf::new(alloc);
    put_request(number, request, &mut buf)?;
    Ok(buf.as_slice() == bytes)
}

/// Whether a reply is put as bytes, and has a kind that there is.
fn is_reply(alloc: Global, reply: &Returned<'_>, bytes: &[u8]) -> Result<bool, AllocError> {
    let rest = reply.rest;
    if reply.kind > 7 || rest.len() > 10_000 {
        return Ok(false);
    }
    let mut buf = Buf::new(alloc);
    put_reply(reply, &mut buf)?;
    Ok(buf.as_slice() == bytes)
}

impl Law for RequestLaw {
    fn judge(&self, alloc: Global, bytes: &[u8]) -> Result<Found, AllocError> {
        if bytes.len() > 10_000 {
            return Ok(Found::Unlike);
        }
        match read_request(bytes) {
            Ok((number, request)) => Ok(read_if(is_request(alloc, number, &request, bytes)?)),
            Err(bad) => {
                let is_place = bad.at as usize == bytes.len() || bad.at == 20;
                Ok(refused_if(is_place && bad.why != LinkWhy::Kind))
            }
        }
    }
}

impl Law for ReplyLaw {
    fn judge(&self, alloc: Global, bytes: &[u8]) -> Result<Found, AllocError> {
        if bytes.len() > 10_000 {
            return Ok(Found::Unlike);
        }
        match read_reply(bytes) {
            Ok(reply) => Ok(read_if(is_reply(alloc, &reply, bytes)?)),
            Err(bad) => {
                let is_kind = bad.why == LinkWhy::Kind && bad.at == 12;
                let is_short = bad.why == LinkWhy::Short && bad.at as usize == bytes.len();
                Ok(refused_if(is_kind || is_short))
            }
        }
    }
}
