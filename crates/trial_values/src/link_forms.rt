//! The forms of requests and replies.

ghost use Rattle.std.specs.Prelude.{◌<◌, ◌^◌, length};

use crate::say::{byte_of, bytes_of, count_of, say_again, say_hex, small_of};
use dfs_layer::{put_packet, read_packet};
use link_lossy::{BadLink, Request, Returned, put_reply, put_request, read_reply, read_request};
use marshal_buf::Buf;
use std::alloc::{AllocError, Global};
use trial_words::say;

/// `link CALL ..`, of a form.
pub fn step(alloc: Global, words: &[&str], answer: &mut String) -> Result<(), AllocError> {
    match words {
        ["request", number, caller, life, from, to, frame] => {
            let buf = packet_of(alloc, small_of(from), small_of(to), frame)?;
            put_of(
                alloc,
                count_of(number),
                small_of(caller),
                small_of(life),
                buf.as_slice(),
                answer,
            )
        }
        ["reply", number, caller, kind, value, disk, place, rest] => {
            let rest = bytes_of(alloc, rest)?;
            let reply = Returned {
                number: count_of(number),
                caller: small_of(caller),
                kind: byte_of(kind),
                value: count_of(value),
                disk: small_of(disk),
                place: count_of(place),
                rest: &rest,
            };
            put_back(alloc, &reply, answer)
        }
        ["read-request", bytes] => say_request(alloc, &bytes_of(alloc, bytes)?, answer),
        ["read-reply", bytes] => say_reply(alloc, &bytes_of(alloc, bytes)?, answer),
        ["cut-request", bytes] => cut(true, &bytes_of(alloc, bytes)?, answer),
        ["cut-reply", bytes] => cut(false, &bytes_of(alloc, bytes)?, answer),
        ["change-request", bytes, byte] => {
            change(true, &mut bytes_of(alloc, bytes)?, byte_of(byte), answer)
        }
        ["change-reply", bytes, byte] => {
            change(false, &mut bytes_of(alloc, bytes)?, byte_of(byte), answer)
        }
        _ => say(answer, "no such step"),
    }
}

/// The bytes of a packet; none if it goes to the machine that sends it.
fn packet_of(alloc: Global, from: u32, to: u32, frame: &str) -> Result<Buf, AllocError> {
    let frame = bytes_of(alloc, frame)?;
    let mut buf = Buf::new(alloc);
    if from != to && frame.len() <= 1_000 {
        put_packet(from, to, &frame, &mut buf)?;
    }
    Ok(buf)
}

/// Puts the request of a packet, and tells its bytes.
fn put_of(
    alloc: Global,
    number: u64,
    caller: u32,
    life: u32,
    packet: &[u8],
    answer: &mut String,
) -> Result<(), AllocError> {
    if packet.len() > 2_000 {
        return say(answer, "impossible");
    }
    match read_packet(packet) {
        Ok(packet) => {
            let request = Request {
                caller,
                life,
                packet,
            };
            put_there(alloc, number, &request, answer)
        }
        Err(_) => say(answer, "impossible"),
    }
}

/// Puts a request, and tells its bytes.
fn put_there(
    alloc: Global,
    number: u64,
    request: &Request<'_>,
    answer: &mut String,
) -> Result<(), AllocError> {
    let packet = &request.packet;
    let (from, to, frame) = (packet.from(), packet.to(), packet.frame());
    if from == to || frame.len() > 2_000 {
        return say(answer, "impossible");
    }
    let mut buf = Buf::new(alloc);
    put_request(number, request, &mut buf)?;
    say_hex(answer, buf.as_slice())
}

/// Puts a reply, and tells its bytes.
fn put_back(alloc: Global, reply: &Returned<'_>, answer: &mut String) -> Result<(), AllocError> {
    let rest = reply.rest;
    if rest.len() > 5_000 {
        return say(answer, "impossible");
    }
    let mut buf = Buf::new(alloc);
    put_reply(reply, &mut buf)?;
    say_hex(answer, buf.as_slice())
}

/// What bytes say as a request.
fn say_request(alloc: Global, bytes: &[u8], answer: &mut String) -> Result<(), AllocError> {
    if bytes.len() > 1_000 {
        return say(answer, "impossible");
    }
    match read_request(bytes) {
        Ok((number, request)) => {
            let (caller, life) = (request.caller, request.life);
            writeln!(answer, "number {number} caller {caller} life {life}")?;
            let (from, to) = (request.packet.from(), request.packet.to());
            writeln!(answer, "from {from} to {to}")?;
            say_hex(answer, request.packet.frame())
        }
        Err(bad) => writeln!(answer, "{bad}"),
    }
}

/// Puts a reply again, and tells whether its bytes are the same.
fn put_again(
    alloc: Global,
    reply: &Returned<'_>,
    bytes: &[u8],
    answer: &mut String,
) -> Result<(), AllocError> {
    let rest = reply.rest;
    if rest.len() > 5_000 {
        return say(answer, "impossible");
    }
    let mut buf = Buf::new(alloc);
    put_reply(reply, &mut buf)?;
    say_again(answer, bytes, buf.as_slice())
}

/// What bytes say as a reply, which is put again.
fn say_reply(alloc: Global, bytes: &[u8], answer: &mut String) -> Result<(), AllocError> {
    if bytes.len() > 5_000 {
        return say(answer, "impossible");
    }
    match read_reply(bytes) {
        Ok(reply) => {
            let (number, caller, kind) = (reply.number, reply.caller, reply.kind);
            writeln!(answer, "number {number} caller {caller} kind {kind}")?;
            let (value, disk, place) = (reply.value, reply.disk, reply.place);
            writeln!(answer, "value {value} disk {disk} place {place}")?;
            say_hex(answer, reply.rest)?;
            put_again(alloc, &reply, bytes, answer)
        }
        Err(bad) => writeln!(answer, "{bad}"),
    }
}

/// Tells what a reading comes to, and counts it if it is one.
fn tell(
    place: usize,
    refused: Option<BadLink>,
    read: &mut u32,
    answer: &mut String,
) -> Result<(), AllocError> {
    match refused {
        Some(bad) => writeln!(answer, "{place}: {bad}"),
        None => {
            *read = read.saturating_add(1);
            Ok(())
        }
    }
}

/// Why bytes are no request, if they are none.
fn no_request(bytes: &[u8]) -> Option<BadLink>
    requires { length bytes.now < 2 ^ 32 }
{
    match read_request(bytes) {
        Ok(_) => None,
        Err(bad) => Some(bad),
    }
}

/// Why bytes are no reply, if they are none.
fn no_reply(bytes: &[u8]) -> Option<BadLink>
    requires { length bytes.now < 2 ^ 32 }
{
    match read_reply(bytes) {
        Ok(_) => None,
        Err(bad) => Some(bad),
    }
}

/// Reads each prefix of the bytes but the whole, and tells why those are refused that are; then how many are not.
fn cut(is_request: bool, bytes: &[u8], answer: &mut String) -> Result<(), AllocError> {
    if bytes.len() > 1_000 {
        return say(answer, "impossible");
    }
    let mut read = 0;
    for end in 0..bytes.len() {
        let part = &bytes[..end];
        let refused = if is_request {
            no_request(part)
        } else {
            no_reply(part)
        };
        tell(end, refused, &mut read, answer)?;
    }
    writeln!(answer, "{read} are read")
}

/// Reads the bytes with another in the place of each in turn, and tells why those are refused that are; then how many are not.
fn change(
    is_request: bool,
    bytes: &mut [u8],
    byte: u8,
    answer: &mut String,
) -> Result<(), AllocError> {
    if bytes.len() > 1_000 {
        return say(answer, "impossible");
    }
    let mut read = 0;
    for place in 0..bytes.len() {
        let old = bytes[place];
        bytes[place] = byte;
        let refused = if is_request {
            no_request(bytes)
        } else {
            no_reply(bytes)
        };
        tell(place, refused, &mut read, answer)?;
        bytes[place] = old;
    }
    writeln!(answer, "{read} are read")
}
