//! What the frames of an exchange and their packets are written in.

ghost use Rattle.std.specs.Prelude.{◌≡◌, ◌≤◌, ◌+◌, [], IfOk, length};

use marshal_buf::Buf;
use pager_channel::Ops;
use std::alloc::{AllocError, Global};
use std::marker::Model;

/// The most bytes of a frame: a head and a page.
const FRAME: u32 = 24 + 4096;

/// The most bytes of a packet: the numbers of two machines, and a frame.
const PACKET: u32 = 8 + FRAME;

/// The numbers of the machines at the two ends of a channel: that of a node, and that of its parent.
#[derive(Clone, Copy, Debug, PartialEq, Eq)]
pub struct Ends {
    /// The node's.
    pub node: u32,
    /// Its parent's.
    pub parent: u32,
}

/// The numbers of the operations, the two frames of the last exchange, and their packets, which are empty if it was on one
/// machine. Their room was taken beforehand, so no exchange takes memory for a frame.
#[derive(Debug, Drop)]
pub struct Wire {
    pub(crate) ops: Ops,
    pub(crate) first: Buf,
    pub(crate) second: Buf,
    pub(crate) first_packet: Buf,
    pub(crate) second_packet: Buf,
}

impl Model for Wire {
    ghost use Rattle.page_exchange.specs.Wire.{HasPacketRoom, HasRoom, WireSeen};

    ghost Value = { WireSeen };

    ghost view = { λ w. record { ops = w.ops; first = w.first.bytes; second = w.second.bytes; first_packet = w.first_packet.bytes; second_packet = w.second_packet.bytes } };

    ghost invariant = { λ w. HasRoom w.first × HasRoom w.second × HasPacketRoom w.first_packet × HasPacketRoom w.second_packet };
}

/// An empty buffer that has room for so many bytes.
fn roomy(alloc: Global, room: u32) -> Result<Buf, AllocError>
    ensures room { IfOk result (λ buf. room ≤ buf.spare + length buf.bytes) }
    ensures empty { IfOk result (λ buf. buf.bytes ≡ []) }
{
    let mut buf = Buf::new(alloc);
    buf.reserve(room)?;
    Ok(buf)
}

impl Wire {
    /// Takes the room, for frames of these numbers. An error is want of memory.
    pub fn new(alloc: Global, ops: Ops) -> Result<Wire, AllocError>
        ensures { IfOk result (λ w. w ≡ record { ops = ops; first = []; second = []; first_packet = []; second_packet = [] }) }
    {
        let first = roomy(alloc, FRAME)?;
        let second = roomy(alloc, FRAME)?;
        let first_packet = roomy(alloc, PACKET)?;
        let second_packet = roomy(alloc, PACKET)?;
        Ok(Wire {
            ops,
            first,
            second,
            first_packet,
            second_packet,
        })
    }

    /// Lends the bytes of the two frames that were written last: a question or an order, and its answer.
    pub fn frames(&self) -> (&[u8], &[u8])
        ensures first { result.0.now ≡ self.now.first }
        ensures second { result.1.now ≡ self.now.second }
    {
        (self.first.as_slice(), self.second.as_slice())
    }

    /// Lends the bytes of the packets of these two frames: empty if the last exchange was on one machine.
    pub fn packets(&self) -> (&[u8], &[u8])
        ensures first { result.0.now ≡ self.now.first_packet }
        ensures second { result.1.now ≡ self.now.second_packet }
    {
        (self.first_packet.as_slice(), self.second_packet.as_slice())
    }
}
