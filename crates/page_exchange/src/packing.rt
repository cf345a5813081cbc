//! How a frame goes from one machine to another, and how its receiver reads it.

ghost use Rattle.std.specs.Prelude.{◌≡◌, ◌≤◌, ◌<◌, ◌+◌, ◌^◌, ℕ, List, length};
ghost use Rattle.dfs_layer.specs.Packets.{IsPacket, PacketSeen, packet_bytes};
ghost use Rattle.pager_channel.specs.Seen.{FrameSeen};
ghost use Rattle.page_exchange.specs.Wire.{AreSent, HasPacketRoom, bytes_between, packet_between};

use dfs_layer::{put_packet, read_packet};
use marshal_buf::Buf;
use pager_channel::{Frame, Ops, read_frame};

/// Puts the packet of a frame that goes from a machine to a machine, in the place of the one before. If the two are the same
/// there is none.
pub(crate) fn pack(from: u32, to: u32, frame: &Buf, packet: &mut Buf)
    requires few { length frame.now.bytes ≤ 24 + 4096 }
    requires room { HasPacketRoom packet.old }
    ensures packet { packet.new.bytes ≡ packet_between from to frame.now.bytes }
    ensures room { HasPacketRoom packet.new }
{
    packet.clear();
    if from == to {
        return;
    }
    match put_packet(from, to, frame.as_slice(), packet) {
        Ok(()) => {}
        Err(_) => unreachable!(),
    }
}

/// What comes to the receiver of a frame: its packet, or the frame itself if both are on one machine.
fn arrived<'a>(from: u32, to: u32, frame: &'a Buf, packet: &'a Buf) -> &'a [u8]
    requires packet { packet.now.bytes ≡ packet_between from to frame.now.bytes }
    ensures bytes { result.now ≡ bytes_between from to frame.now.bytes }
    ensures few { length result.now < 2 ^ 32 }
{
    if from == to {
        frame.as_slice()
    } else {
        packet.as_slice()
    }
}

/// The bytes of the frame in a packet.
fn unpacked(bytes: &[u8]) -> &[u8]
    requires few { length bytes.now < 2 ^ 32 }
    requires packet { (p : PacketSeen) × IsPacket p × (bytes.now ≡ packet_bytes p.from p.to p.frame) }
    ensures { (p : PacketSeen) → IsPacket p → bytes.now ≡ packet_bytes p.from p.to p.frame → result.now ≡ p.frame }
{
    match read_packet(bytes) {
        Ok(packet) => packet.frame(),
        Err(_) => unreachable!(),
    }
}

/// The bytes of the frame in what came from a machine to a machine.
fn frame_in(from: u32, to: u32, bytes: &[u8]) -> &[u8]
    requires few { length bytes.now < 2 ^ 32 }
    requires came { (frame : List ℕ) × (bytes.now ≡ bytes_between from to frame) }
    ensures { (frame : List ℕ) → bytes.now ≡ bytes_between from to frame → result.now ≡ frame }
{
    if from == to { bytes } else { unpacked(bytes) }
}

/// The frame that was written and sent from a machine to a machine, as its receiver reads it from what came.
pub(crate) fn sent<'a>(ops: &Ops, from: u32, to: u32, frame: &'a Buf, packet: &'a Buf) -> Frame<'a>
    requires sent { (f : FrameSeen) × AreSent ops.now frame.now.bytes f }
    requires packet { packet.now.bytes ≡ packet_between from to frame.now.bytes }
    ensures { (f : FrameSeen) → AreSent ops.now frame.now.bytes f → result ≡ f }
{
    let bytes = frame_in(from, to, arrived(from, to, frame, packet));
    match read_frame(ops, bytes) {
        Ok(frame) => frame,
        Err(_) => unreachable!(),
    }
}
