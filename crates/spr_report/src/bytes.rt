//! The bytes of a head.

ghost use Rattle.std.specs.Prelude.{◌≡◌, ◌≤◌, ◌++◌, length, drop};
ghost use Rattle.pager_channel.specs.Frame.{first_part, second_part};
ghost use Rattle.spr_report.specs.Heads.{head_bytes};

use byteorder::{BigEndian, ByteOrder};
use pager_channel::Head;

/// Writes the first sixteen bytes of a head.
#[tactic(auto, unfolding(pager_channel::specs::Frame::first_part, marshal_buf::specs::Numbers::number_bytes))]
fn write_first(head: &Head, out: &mut [u8])
    requires { 16 ≤ length out.old }
    ensures bytes { out.new ≡ first_part head.now ++ drop 16 out.old }
    ensures len { length (first_part head.now) ≡ 16 }
{
    BigEndian::write_u16(out, head.subcontract);
    BigEndian::write_u16(&mut out[2..], head.operation);
    BigEndian::write_u32(&mut out[4..], head.tag);
    BigEndian::write_u64(&mut out[8..], head.offset);
}

/// Writes the other eight.
#[tactic(auto, unfolding(pager_channel::specs::Frame::second_part, marshal_buf::specs::Numbers::number_bytes))]
fn write_second(head: &Head, out: &mut [u8])
    requires { length out.old ≡ 8 }
    ensures { out.new ≡ second_part head.now }
{
    BigEndian::write_u32(out, head.size);
    out[4..].copy_from_slice(&[head.access, head.flags, 0, 0]);
}

/// The bytes of a head, as it stands at the front of its frame.
pub fn head_bytes(head: &Head) -> [u8; 24]
    ensures { result ≡ head_bytes head.now }
{
    let mut bytes = [0; 24];
    write_first(head, &mut bytes);
    write_second(head, &mut bytes[16..]);
    bytes
}
