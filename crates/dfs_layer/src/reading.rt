//! Reading a packet.

ghost use Rattle.std.specs.Prelude.{◌≡◌, ◌<◌, ◌≤◌, ◌^◌, IfOk, Ok, drop, length};
ghost use Rattle.marshal_buf.specs.Numbers.{number_of};
ghost use Rattle.dfs_layer.specs.Packets.{IsPacket, PacketSeen, packet_at, packet_bytes};

use crate::{BadPacket, Packet, PacketWhy};
use byteorder::{BigEndian, ByteOrder};

/// The number that the first four bytes are.
#[tactic(auto, unfolding(marshal_buf::specs::Numbers::number_of))]
fn number_of(bytes: &[u8]) -> u32
    requires { 4 ≤ length bytes.now }
    ensures { result ≡ number_of 4 bytes.now }
{
    BigEndian::read_u32(bytes)
}

/// The packet that the bytes are, all of them, or the first test that fails.
fn packet_of(bytes: &[u8]) -> Result<Packet<'_>, BadPacket>
    requires { length bytes.now < 2 ^ 32 }
    ensures { result ≡ packet_at bytes.now }
{
    if bytes.len() < 8 {
        return Err(BadPacket {
            at: bytes.len() as u32,
            why: PacketWhy::Short,
        });
    }
    let (from, to) = (number_of(bytes), number_of(&bytes[4..]));
    if from == to {
        return Err(BadPacket {
            at: 4,
            why: PacketWhy::Same,
        });
    }
    Ok(Packet::new(from, to, &bytes[8..]))
}

/// The packet that the bytes are, all of them, or the first test that fails. It takes no memory, and the packet lends its frame
/// from the bytes. Whether that is a frame, and for whom, is for its reader to see.
pub fn read_packet(bytes: &[u8]) -> Result<Packet<'_>, BadPacket>
    requires few { length bytes.now < 2 ^ 32 }
    ensures value { result ≡ packet_at bytes.now }
    // What was read is a packet between two machines, and the bytes are its bytes.
    ensures found { IfOk result (λ p. IsPacket p × (bytes.now ≡ packet_bytes p.from p.to p.frame)) }
    // The bytes of such a packet are read as it.
    ensures only { (p : PacketSeen) → IsPacket p → bytes.now ≡ packet_bytes p.from p.to p.frame → result ≡ Ok p }
{
    packet_of(bytes)
}
