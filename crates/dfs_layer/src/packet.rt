//! A packet that was read.

ghost use Rattle.std.specs.Prelude.{◌≡◌};

use std::marker::Model;

/// A packet that was read. Its frame is lent by the bytes that it was read from. Only [`crate::read_packet`] makes one.
#[derive(Debug, Drop)]
pub struct Packet<'a> {
    from: u32,
    to: u32,
    frame: &'a [u8],
}

impl<'a> Model for Packet<'a> {
    ghost use Rattle.dfs_layer.specs.Packets.{PacketSeen};

    ghost Value = { PacketSeen };

    ghost view = { λ p. record { from = p.from; to = p.to; frame = p.frame.now } };
}

impl<'a> Packet<'a> {
    pub(crate) fn new(from: u32, to: u32, frame: &'a [u8]) -> Packet<'a>
        ensures { result ≡ record { from = from; to = to; frame = frame.now } }
    {
        Packet { from, to, frame }
    }

    /// The number of the machine that sends it.
    pub fn from(&self) -> u32
        ensures { result ≡ self.now.from }
    {
        self.from
    }

    /// The number of the machine that receives it.
    pub fn to(&self) -> u32
        ensures { result ≡ self.now.to }
    {
        self.to
    }

    /// Lends the bytes of its frame.
    pub fn frame(&self) -> &'a [u8]
        ensures { result.now ≡ self.now.frame }
    {
        self.frame
    }
}
