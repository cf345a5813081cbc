//! Reading a request and a reply.

ghost use Rattle.std.specs.Prelude.{◌≡◌, ◌+◌, ◌<◌, ◌≤◌, ◌^◌, ℕ, IfOk, IfErr, Ok, length};
ghost use Rattle.marshal_buf.specs.Numbers.{number_of as big_number_of};
ghost use Rattle.link_lossy.specs.declared.request.Request.{Request};
ghost use Rattle.link_lossy.specs.Seen.{ReturnedSeen};
ghost use Rattle.link_lossy.specs.Forms.{IsReply, IsRequest, reply_bytes, request_bytes};
ghost use Rattle.link_lossy.specs.Reading.{fields_at, reply_at, request_at, request_of};

use crate::{BadLink, LinkWhy, Request, Returned};
use byteorder::{BigEndian, ByteOrder};
use dfs_layer::{BadPacket, Packet, read_packet};

/// How many bytes a request has in front of its packet.
const REQUEST: usize = 16;

/// How many bytes a reply has in front of its data.
const REPLY: usize = 33;

/// The greatest kind of a reply.
const MOST: u8 = 7;

/// The number that the first four bytes are.
#[tactic(auto, unfolding(marshal_buf::specs::Numbers::number_of))]
fn four_of(bytes: &[u8]) -> u32
    requires { 4 ≤ length bytes.now }
    ensures { result ≡ big_number_of 4 bytes.now }
{
    BigEndian::read_u32(bytes)
}

/// The number that the first eight bytes are.
#[tactic(auto, unfolding(marshal_buf::specs::Numbers::number_of))]
fn eight_of(bytes: &[u8]) -> u64
    requires { 8 ≤ length bytes.now }
    ensures { result ≡ big_number_of 8 bytes.now }
{
    BigEndian::read_u64(bytes)
}

/// The request that a packet makes whole.
fn whole(
    number: u64,
    caller: u32,
    life: u32,
    packet: Result<Packet<'_>, BadPacket>,
) -> Result<(u64, Request<'_>), BadLink>
    requires { IfErr packet (λ bad. bad.at + 16 < 2 ^ 32) }
    ensures { result ≡ request_of number caller life packet.entry }
{
    match packet {
        Ok(packet) => Ok((
            number,
            Request {
                caller,
                life,
                packet,
            },
        )),
        Err(bad) => Err(BadLink {
            at: bad.at + REQUEST as u32,
            why: LinkWhy::Packet,
        }),
    }
}

/// The number and the request that the bytes are.
fn request_from(bytes: &[u8]) -> Result<(u64, Request<'_>), BadLink>
    requires { length bytes.now < 2 ^ 32 }
    ensures { result ≡ request_at bytes.now }
{
    if bytes.len() < REQUEST {
        return Err(BadLink {
            at: bytes.len() as u32,
            why: LinkWhy::Short,
        });
    }
    whole(
        eight_of(bytes),
        four_of(&bytes[8..]),
        four_of(&bytes[12..]),
        read_packet(&bytes[REQUEST..]),
    )
}

/// The fields of a reply, and what follows them.
fn fields_of(bytes: &[u8]) -> Returned<'_>
    requires { 33 ≤ length bytes.now }
    ensures { result ≡ fields_at bytes.now }
{
    Returned {
        number: eight_of(bytes),
        caller: four_of(&bytes[8..]),
        kind: bytes[12],
        value: eight_of(&bytes[13..]),
        disk: four_of(&bytes[21..]),
        place: eight_of(&bytes[25..]),
        rest: &bytes[REPLY..],
    }
}

/// The reply that the bytes are.
fn reply_from(bytes: &[u8]) -> Result<Returned<'_>, BadLink>
    requires { length bytes.now < 2 ^ 32 }
    ensures { result ≡ reply_at bytes.now }
{
    if bytes.len() < REPLY {
        return Err(BadLink {
            at: bytes.len() as u32,
            why: LinkWhy::Short,
        });
    }
    if bytes[12] > MOST {
        return Err(BadLink {
            at: 12,
            why: LinkWhy::Kind,
        });
    }
    Ok(fields_of(bytes))
}

/// The number of a call and its request, which the bytes are, all of them, or the first test that fails. It takes no memory, and the
/// request lends its frame from the bytes. Whether that is a frame of a call, and for whom, is for its reader to see.
pub fn read_request(bytes: &[u8]) -> Result<(u64, Request<'_>), BadLink>
    requires few { length bytes.now < 2 ^ 32 }
    // Which request it is, or which test fails.
    ensures exact { result ≡ request_at bytes.now }
    // What was read is a request, and the bytes are its bytes.
    ensures found { IfOk result (λ read. IsRequest read.0 read.1 × (bytes.now ≡ request_bytes read.0 read.1)) }
    // The bytes of such a request are read as it.
    ensures only { (number : ℕ) (r : Request) → IsRequest number r → bytes.now ≡ request_bytes number r → result ≡ Ok (number, r) }
{
    request_from(bytes)
}

/// The reply that the bytes are, all of them, or the first test that fails. It takes no memory, and the reply lends its data from the
/// bytes. It refuses no value and no disk that the kind does not use.
pub fn read_reply(bytes: &[u8]) -> Result<Returned<'_>, BadLink>
    requires few { length bytes.now < 2 ^ 32 }
    // Which reply it is, or which test fails.
    ensures exact { result ≡ reply_at bytes.now }
    // What was read is a reply, and the bytes are its bytes.
    ensures found { IfOk result (λ r. IsReply r × (bytes.now ≡ reply_bytes r)) }
    // The bytes of such a reply are read as it.
    ensures only { (r : ReturnedSeen) → IsReply r → bytes.now ≡ reply_bytes r → result ≡ Ok r }
{
    reply_from(bytes)
}
