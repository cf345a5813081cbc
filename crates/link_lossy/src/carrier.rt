//! What carries a caller's calls to other machines.

ghost use Rattle.std.specs.Prelude.{◌≡◌, ◌≢◌, ◌+◌, ◌*◌, ◌<◌, ◌≤◌, ◌^◌, ℕ, Ok, IfOk, IfErr, MatchOption, length, true, false};
ghost use Rattle.link_lossy.specs.declared.TheConstants.{MAX_OUT};
ghost use Rattle.link_lossy.specs.declared.calling.TheConstants.{TRIES};
ghost use Rattle.link_lossy.specs.Links.{LinkSeen, Sends};
ghost use Rattle.link_lossy.specs.Tries.{Arrives, LoseAll};
ghost use Rattle.link_lossy.specs.Reading.{request_at};
ghost use Rattle.link_lossy.specs.Services.{is_memory};
ghost use Rattle.link_lossy.specs.Carriers.{Answers, Arrived, CarrierSeen, Comes, Fails};

use crate::calling::TRIES;
use crate::ends::{CallerEnd, ServerEnd};
use crate::link::Link;
use crate::links::EveryLink;
use crate::refusal::LinkErr;
use crate::reply::{answer_of, reply_of};
use crate::request::Request;
use crate::serve::{ServeErr, Served};
use crate::writing::put_request;
use marshal_buf::Buf;
use std::alloc::{AllocError, Global};
use std::marker::Model;

/// How many packets and calls a carrier has at most, half of what the numbers of its link and ends have. A call beyond is not sent, and is
/// answered as one for which memory lacks.
const MOST: u64 = 4_611_686_018_427_387_904;

/// What carries a caller's calls to other machines: a link that loses each so-manieth packet, and the caller's two ends, one pair for all
/// machines. A call is asked, served where its request arrives, and answered.
#[derive(Debug, Drop)]
pub struct Carrier {
    link: EveryLink,
    near: CallerEnd,
    far: ServerEnd,
    /// The number of the call whose request arrived, and whose reply is not sent yet.
    pending: Option<u64>,
}

impl Model for Carrier {
    ghost use Rattle.std.specs.Prelude.{◌≡◌, ◌<◌, true, IfSome, is_some};
    ghost use Rattle.link_lossy.specs.Carriers.{CarrierSeen};
    ghost use Rattle.link_lossy.specs.Ends.{is_new};

    ghost Value = { CarrierSeen };

    ghost view = { λ c. record { every = c.link.every; packets = c.link.given; waits = is_some c.pending } };

    ghost invariant = { λ c. (is_new c.near.next c.far.last ≡ true) × IfSome c.pending (λ number. number < c.near.next) };
}

/// A request that arrived.
#[derive(Debug, Drop)]
pub struct Asked {
    caller: u32,
    tries: u32,
    sent: Buf,
}

impl Asked {
    /// Lends the bytes that arrived.
    pub fn bytes(&self) -> &[u8]
        ensures bytes { result.now ≡ self.now.sent.bytes }
        ensures few { length result.now < 2 ^ 32 }
    {
        self.sent.as_slice()
    }
}

/// Sends a request until it arrives, but no more than eight times. Tells how many tries were lost before.
fn first_arrival(link: &mut EveryLink, sent: &[u8]) -> Option<u32>
    requires { link.old.given + 8 < 2 ^ 64 }
    ensures { MatchOption result (LoseAll TRIES (⟦<EveryLink as Link>⟧.seen link.old) (⟦<EveryLink as Link>⟧.seen link.new))
        (λ tries. (tries < TRIES) × ((mid : LinkSeen) × LoseAll tries (⟦<EveryLink as Link>⟧.seen link.old) mid × Sends false mid (⟦<EveryLink as Link>⟧.seen link.new))) }
{
    for tries in 0..TRIES {
        if link.request(sent).is_ok() {
            return Some(tries);
        }
    }
    None
}

/// Sends the reply to a request that arrived behind so many lost tries, and if it is lost the request and the reply again, until the reply
/// arrives or all tries are made.
fn reply_comes(link: &mut EveryLink, sent: &[u8], reply: &[u8], tries: u32) -> bool
    requires tries { tries < TRIES }
    requires packets { link.old.given + 16 < 2 ^ 64 }
    ensures { (first mid : LinkSeen) → LoseAll tries first mid → Sends false mid (⟦<EveryLink as Link>⟧.seen link.old) → Comes first result (⟦<EveryLink as Link>⟧.seen link.new) }
{
    if link.reply(reply).is_ok() {
        return true;
    }
    for _try in tries + 1..TRIES {
        if link.request(sent).is_ok() && link.reply(reply).is_ok() {
            return true;
        }
    }
    false
}

impl Carrier {
    /// A carrier whose link loses the packets whose number `every` divides, and was given none yet. An error is want of memory.
    pub fn new(alloc: Global, every: u32) -> Result<Carrier, AllocError>
        ensures { IfOk result (λ carrier. carrier ≡ record { every = every; packets = 0; waits = false }) }
    {
        Ok(Carrier {
            link: EveryLink::new(every),
            near: CallerEnd::new(0),
            far: ServerEnd::new(alloc, 0)?,
            pending: None,
        })
    }

    /// Sends a request, with the next number, until it arrives, in at most eight tries.
    pub fn ask(&mut self, alloc: Global, request: &Request<'_>) -> Result<Asked, LinkErr>
        requires machines { request.now.packet.from ≢ request.now.packet.to }
        requires few { 24 + length request.now.packet.frame < 2 ^ 32 }
        ensures arrived { IfOk result (λ asked. Arrived self.old asked.tries self.new) }
        // The link takes the packets of the other tries.
        ensures few { IfOk result (λ asked. self.new.packets + 16 < 2 ^ 64) }
        // The bytes that arrived are the request.
        ensures read { IfOk result (λ asked. (number : ℕ) × (request_at asked.sent.bytes ≡ Ok (number, request.now))) }
        ensures err { IfErr result (Fails self.old self.new) }
    {
        if self.near.taken() >= MOST || self.link.given >= MOST {
            return Err(LinkErr::Memory);
        }
        let number = self.near.take_number();
        let mut sent = Buf::new(alloc);
        let Ok(()) = put_request(number, request, &mut sent) else {
            return Err(LinkErr::Memory);
        };
        match first_arrival(&mut self.link, sent.as_slice()) {
            Some(tries) => {
                self.pending = Some(number);
                Ok(Asked {
                    caller: request.caller,
                    tries,
                    sent,
                })
            }
            None => {
                self.pending = None;
                Err(LinkErr::Link {
                    count: self.link.count(),
                })
            }
        }
    }

    /// Keeps the reply to a request that arrived, by what serving it gave and left in `out`, and sends it; if it is lost, the request is
    /// tried again, and answered by the reply that is kept. If serving it lacked memory no reply is sent.
    pub fn answer(
        &mut self,
        asked: &Asked,
        served: &Result<Served, ServeErr>,
        out: &mut [u8],
    ) -> Result<Served, LinkErr>
        requires waits { self.old.waits ≡ true }
        requires packets { self.old.packets + 16 < 2 ^ 64 }
        requires tries { asked.now.tries < TRIES }
        requires small { length out.old ≤ MAX_OUT }
        ensures { (old : CarrierSeen) → Arrived old asked.now.tries self.old → Answers (is_memory served.now) old self.new served.now out.old out.new result }
    {
        let Some(number) = self.pending else {
            unreachable!()
        };
        self.pending = None;
        let Some(reply) = reply_of(number, asked.caller, served, out) else {
            return Err(LinkErr::Memory);
        };
        self.far.keep_reply(number, &reply);
        if !reply_comes(&mut self.link, asked.bytes(), self.far.reply(), asked.tries) {
            return Err(LinkErr::Link {
                count: self.link.count(),
            });
        }
        match answer_of(self.far.reply(), out) {
            Some(answer) => answer,
            None => unreachable!(),
        }
    }
}
