//! Writing a packet.

ghost use Rattle.std.specs.Prelude.{◌≡◌, ◌≢◌, ◌+◌, ◌<◌, ◌≤◌, ◌^◌, [], IsOk, OnOk, OnErr, length};
ghost use Rattle.marshal_buf.specs.Held.{Puts, IsAsBefore};
ghost use Rattle.dfs_layer.specs.Packets.{packet_bytes};

use marshal_buf::Buf;
use std::alloc::AllocError;

/// Puts the packet of a frame that goes from one machine to another. It cannot be refused where there is room for it; want of
/// memory leaves the bytes as they were.
pub fn put_packet(from: u32, to: u32, frame: &[u8], buf: &mut Buf) -> Result<(), AllocError>
    requires machines { from ≢ to }
    requires few { length buf.old.bytes + 8 + length frame.now < 2 ^ 32 }
    ensures ok { OnOk result (Puts (packet_bytes from to frame.now) [] buf.old buf.new) }
    ensures len { OnOk result (length buf.new.bytes ≡ length buf.old.bytes + 8 + length frame.now) }
    ensures err { OnErr result (IsAsBefore buf.old buf.new) }
    ensures room { 8 + length frame.now ≤ buf.old.spare → IsOk result }
{
    buf.reserve(8 + frame.len() as u32)?;
    buf.put_u32(from)?;
    buf.put_u32(to)?;
    buf.put_bytes(frame)
}
