//! The reply to a service, and what its caller has of it.

ghost use Rattle.std.specs.Prelude.{◌≡◌, ◌⊎◌, ◌<◌, ◌≤◌, ◌^◌, ℕ, [], Ok, Some, IfSome, length};
ghost use Rattle.link_lossy.specs.Seen.{ReturnedSeen};
ghost use Rattle.link_lossy.specs.Forms.{IsReply};
ghost use Rattle.link_lossy.specs.Reading.{reply_at};
ghost use Rattle.link_lossy.specs.Services.{answer_to, answered, data_of, kind_of, life_at, reply_of, result_of, shown_by, value_of};

use crate::read_reply;
use crate::refusal::LinkErr;
use crate::returned::Returned;
use crate::serve::{ServeErr, Served};
use hist_plain::Answer;

/// The kind of an answer's reply.
fn kind_of(answer: &Answer) -> u8
    ensures kind { result ≡ kind_of answer.now }
    ensures few { result ≤ 7 }
{
    match answer {
        Answer::Bytes => 0,
        Answer::Done => 1,
        Answer::Life { .. } => 2,
        Answer::Revoked { .. } => 3,
    }
}

/// The number that an answer tells.
fn value_of(answer: &Answer) -> u64
    ensures value { result ≡ value_of answer.now }
    ensures small { result < 2 ^ 32 }
{
    match answer {
        Answer::Bytes | Answer::Done => 0,
        Answer::Life { life } | Answer::Revoked { life } => u64::from(*life),
    }
}

/// The bytes that go with an answer.
fn data_of<'a>(answer: &Answer, bytes: &'a [u8]) -> &'a [u8]
    ensures { result.now ≡ data_of answer.now bytes.now }
{
    match answer {
        Answer::Bytes => bytes,
        Answer::Done | Answer::Life { .. } | Answer::Revoked { .. } => &[],
    }
}

/// The reply of a call that was served.
fn answer_reply(number: u64, caller: u32, answer: Answer, place: u64, bytes: &[u8]) -> Returned<'_>
    ensures value { Some result ≡ reply_of number caller (Ok (record { answer = answer; place = place })) bytes.now }
    ensures form { IsReply result }
    ensures answer { result_of result (length bytes.now) ≡ Some (answered answer place) }
{
    Returned {
        number,
        caller,
        kind: kind_of(&answer),
        value: value_of(&answer),
        disk: 0,
        place,
        rest: data_of(&answer, bytes),
    }
}

/// The reply of a call that was refused.
fn refusal_reply<'a>(number: u64, caller: u32, kind: u8, value: u64, disk: u32) -> Returned<'a>
    requires { kind ≤ 7 }
    ensures value { result ≡ record { number = number; caller = caller; kind = kind; value = value; disk = disk; place = 0; rest = [] } }
    ensures form { IsReply result }
{
    Returned {
        number,
        caller,
        kind,
        value,
        disk,
        place: 0,
        rest: &[],
    }
}

/// The reply to a call of this number and caller, whose service left these bytes; none if serving it lacked memory.
pub(crate) fn reply_of<'a>(
    number: u64,
    caller: u32,
    served: &Result<Served, ServeErr>,
    bytes: &'a [u8],
) -> Option<Returned<'a>>
    ensures value { result ≡ reply_of number caller served.now bytes.now }
    ensures form { IfSome result IsReply }
    // Its caller has the answer of it.
    ensures answer { IfSome result (λ r. result_of r (length bytes.now) ≡ Some (answer_to served.now)) }
{
    match served {
        Ok(Served { answer, place }) => {
            Some(answer_reply(number, caller, *answer, *place, bytes))
        }
        Err(ServeErr::StoreFault { disk, count }) => {
            Some(refusal_reply(number, caller, 4, *count, *disk))
        }
        Err(ServeErr::TrailFull) => Some(refusal_reply(number, caller, 5, 0, 0)),
        Err(ServeErr::Memory) => None,
    }
}

/// The life that a number can be.
fn life_of(value: u64) -> Option<u32>
    ensures { result ≡ life_at value }
{
    if value < 4_294_967_296 {
        Some(value as u32)
    } else {
        None
    }
}

/// What a call is answered whose reply tells a life.
fn life_answer(reply: &Returned<'_>) -> Option<Result<Served, LinkErr>>
    requires { (reply.now.kind ≡ 2) ⊎ (reply.now.kind ≡ 3) }
    ensures { result ≡ result_of reply.now 0 }
{
    let (kind, place) = (reply.kind, reply.place);
    let life = life_of(reply.value)?;
    let answer = if kind == 2 {
        Answer::Life { life }
    } else {
        Answer::Revoked { life }
    };
    Some(Ok(Served { answer, place }))
}

/// What a call with an `out` of so many bytes answers by a reply; none by a reply that nobody writes to it.
fn result_of(reply: &Returned<'_>, len: usize) -> Option<Result<Served, LinkErr>>
    ensures { result ≡ result_of reply.now len }
{
    let place = reply.place;
    match reply.kind {
        0 if reply.rest.len() == len => Some(Ok(Served {
            answer: Answer::Bytes,
            place,
        })),
        1 => Some(Ok(Served {
            answer: Answer::Done,
            place,
        })),
        2 | 3 => life_answer(reply),
        4 => Some(Err(LinkErr::StoreFault {
            disk: reply.disk,
            count: reply.value,
        })),
        5 => Some(Err(LinkErr::TrailFull)),
        _ => None,
    }
}

/// Puts the bytes of a reply into `out`, if it tells that so many were read.
fn show(reply: &Returned<'_>, out: &mut [u8])
    ensures { out.new ≡ shown_by reply.now out.old }
{
    if reply.kind == 0 && reply.rest.len() == out.len() {
        out.copy_from_slice(reply.rest);
    }
}

/// What a call answers by the bytes of its reply, of which `out` then has what was read.
pub(crate) fn answer_of(bytes: &[u8], out: &mut [u8]) -> Option<Result<Served, LinkErr>>
    requires few { length bytes.now < 2 ^ 32 }
    ensures answer { (r : ReturnedSeen) → reply_at bytes.now ≡ Ok r → result ≡ result_of r (length out.old) }
    ensures out { (r : ReturnedSeen) → reply_at bytes.now ≡ Ok r → out.new ≡ shown_by r out.old }
{
    match read_reply(bytes) {
        Ok(reply) => {
            show(&reply, out);
            result_of(&reply, out.len())
        }
        Err(_) => None,
    }
}
