//! The two ends of a caller with a link between them.

ghost use Rattle.std.specs.Prelude.{◌≡◌, ◌*◌, ◌≤◌, true};
ghost use Rattle.link_lossy.specs.Ends.{is_new};

use crate::bench::Bench;
use dfs_layer::Packet;
use link_lossy::{CallerEnd, Link, LinkErr, Request, Served, ServerEnd, call};
use std::alloc::{AllocError, Global};
use std::sync::Wait;

/// The caller of a case.
pub const CALLER: u32 = 5;

/// The most calls of a case.
const CALLS: u32 = 1_000;

/// A link, the two ends of a caller at it, and what serves its calls.
#[derive(Drop)]
pub struct Wired<L: Link + Drop> {
    link: L,
    near: CallerEnd,
    far: ServerEnd,
    bench: Bench,
    calls: u32,
    ghost near_is: { near.caller ≡ 5 },
    ghost far_is: { far.caller ≡ 5 },
    ghost next: { near.next ≡ calls },
    ghost new: { is_new near.next far.last ≡ true },
    ghost packets: { (L.seen link).packets ≤ calls * 16 },
    ghost few: { calls ≤ 1000 },
}

impl<L: Link + Drop> Wired<L> {
    /// Both ends, of which no call was made, over a link that was given nothing.
    pub fn new(alloc: Global, link: L) -> Result<Self, AllocError>
        requires { (L.seen link).packets ≡ 0 }
    {
        Ok(Wired {
            link,
            near: CallerEnd::new(CALLER),
            far: ServerEnd::new(alloc, CALLER)?,
            bench: Bench::new(),
            calls: 0,
        })
    }

    /// Makes a call, if it is one that may be made.
    pub fn call<R: Wait>(
        &mut self,
        rt: &R,
        alloc: Global,
        life: u32,
        packet: Packet<'_>,
        out: &mut [u8],
    ) -> Option<Result<Served, LinkErr>> {
        let (from, to, frame) = (packet.from(), packet.to(), packet.frame());
        if self.calls >= CALLS || from == to || frame.len() > 1_000 || out.len() > 1_000 {
            return None;
        }
        let request = Request {
            caller: CALLER,
            life,
            packet,
        };
        self.calls += 1;
        let (near, far, bench) = (&mut self.near, &mut self.far, &mut self.bench);
        Some(call(rt, alloc, &mut self.link, near, far, bench, &request, out))
    }

    /// How many calls were served.
    pub fn served(&self) -> u32 {
        self.bench.served()
    }

    /// The link's count.
    pub fn count(&self) -> u64 {
        self.link.count()
    }
}
