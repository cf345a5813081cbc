//! Two links: one that loses nothing, and one that loses each so-manieth packet.

ghost use Rattle.std.specs.Prelude.{◌≡◌, ◌+◌, ◌<◌, ◌/◌, ◌%◌, ◌==◌, ◌^◌, is_err};
ghost use Rattle.link_lossy.specs.Links.{every_seen, sure_seen};

use crate::link::{Link, Lost};

/// A link that loses no packet.
#[derive(Debug, Drop)]
pub struct SureLink {
    given: u64,
}

impl SureLink {
    /// A link that was given no packet yet.
    pub fn new() -> SureLink
        ensures { ⟦<SureLink as Link>⟧.seen result ≡ sure_seen 0 }
    {
        SureLink { given: 0 }
    }
}

impl Link for SureLink {
    ghost use Rattle.link_lossy.specs.Links.{sure_seen};

    ghost seen = { λ l. sure_seen l.given };

    fn request(&mut self, _bytes: &[u8]) -> Result<(), Lost> {
        self.given += 1;
        Ok(())
    }

    fn reply(&mut self, _bytes: &[u8]) -> Result<(), Lost> {
        self.given += 1;
        Ok(())
    }

    fn count(&self) -> u64 {
        0
    }
}

/// A link that loses exactly the packets whose number, counted from 1 over both ways, a number divides.
#[derive(Debug, Drop)]
pub struct EveryLink {
    pub(crate) every: u32,
    pub(crate) given: u64,
}

/// Whether a number divides that of a packet, which is not 0.
fn divides(every: u32, packet: u64) -> bool
    requires { 0 < packet }
    ensures { result ≡ (packet % every == 0) }
{
    every != 0 && packet % u64::from(every) == 0
}

impl EveryLink {
    /// A link that loses the packets whose number `n` divides, and was given none yet. With 0 it loses none.
    pub fn new(n: u32) -> EveryLink
        ensures seen { ⟦<EveryLink as Link>⟧.seen result ≡ every_seen n 0 }
        ensures is { result ≡ record { every = n; given = 0 } }
    {
        EveryLink { every: n, given: 0 }
    }

    /// Sends a packet one way or the other.
    fn send(&mut self) -> Result<(), Lost>
        requires { self.old.given + 1 < 2 ^ 64 }
        ensures given { self.new.given ≡ self.old.given + 1 }
        ensures every { self.new.every ≡ self.old.every }
        ensures lost { is_err result ≡ (self.new.given % self.new.every == 0) }
    {
        self.given += 1;
        if divides(self.every, self.given) {
            Err(Lost)
        } else {
            Ok(())
        }
    }
}

impl Link for EveryLink {
    ghost use Rattle.link_lossy.specs.Links.{every_seen};

    ghost seen = { λ l. every_seen l.every l.given };

    #[tactic(auto, using(crate::proofs::Divisions::every_sends))]
    fn request(&mut self, _bytes: &[u8]) -> Result<(), Lost> {
        self.send()
    }

    #[tactic(auto, using(crate::proofs::Divisions::every_sends))]
    fn reply(&mut self, _bytes: &[u8]) -> Result<(), Lost> {
        self.send()
    }

    fn count(&self) -> u64 {
        if self.every == 0 {
            0
        } else {
            self.given / u64::from(self.every)
        }
    }
}
