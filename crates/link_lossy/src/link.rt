//! A link between two machines.

ghost use Rattle.std.specs.Prelude.{◌≡◌, ◌+◌, ◌<◌, ◌^◌, is_err};
ghost use Rattle.link_lossy.specs.Links.{LinkSeen, Sends};

use thiserror::Error;

/// A packet was lost.
#[derive(Clone, Copy, Debug, PartialEq, Eq, Error)]
#[error("a packet was lost")]
pub struct Lost;

/// A link between two machines, which may lose what it is given.
///
/// It tells contracts how many packets it was given, over both ways, its count of losses, and, if it knows, which packets it loses, by
/// their numbers from 1. The count never falls, and a packet is lost only if it rose.
pub trait Link {
    /// What it tells.
    ghost seen: { Self → LinkSeen };

    /// Sends the bytes of a request; an error is that they are lost.
    fn request(&mut self, bytes: &[u8]) -> Result<(), Lost>
        requires { (seen self.old).packets + 1 < 2 ^ 64 }
        ensures { Sends (is_err result) (seen self.old) (seen self.new) };

    /// Sends the bytes of a reply back; an error is that they are lost.
    fn reply(&mut self, bytes: &[u8]) -> Result<(), Lost>
        requires { (seen self.old).packets + 1 < 2 ^ 64 }
        ensures { Sends (is_err result) (seen self.old) (seen self.new) };

    /// Its count of losses.
    fn count(&self) -> u64
        ensures { result ≡ (seen self.now).count };
}
