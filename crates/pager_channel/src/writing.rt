//! Writing a frame.

ghost use Rattle.std.specs.Prelude.{◌≡◌, ◌+◌, ◌<◌, ◌≤◌, ◌^◌, [], length, OnOk, OnErr, IsOk};
ghost use Rattle.marshal_buf.specs.Held.{Puts, IsAsBefore};
ghost use Rattle.pager_channel.specs.Size.{data_size};
ghost use Rattle.pager_channel.specs.Frame.{IsHead, first_part, second_part, frame_bytes};

use crate::Head;
use marshal_buf::Buf;
use std::alloc::AllocError;

/// Puts the first sixteen bytes of a head.
#[tactic(auto, unfolding(crate::specs::Frame::first_part))]
fn put_first(head: &Head, buf: &mut Buf) -> Result<(), AllocError>
    requires { length buf.old.bytes + 16 < 2 ^ 32 }
    ensures ok { OnOk result (Puts (first_part head.now) [] buf.old buf.new) }
    ensures len { OnOk result (length buf.new.bytes ≡ length buf.old.bytes + 16) }
    ensures room { 16 ≤ buf.old.spare → IsOk result }
{
    buf.put_u16(head.subcontract)?;
    buf.put_u16(head.operation)?;
    buf.put_u32(head.tag)?;
    buf.put_u64(head.offset)
}

/// Puts the other eight.
#[tactic(auto, unfolding(crate::specs::Frame::second_part))]
fn put_second(head: &Head, buf: &mut Buf) -> Result<(), AllocError>
    requires { length buf.old.bytes + 8 < 2 ^ 32 }
    ensures ok { OnOk result (Puts (second_part head.now) [] buf.old buf.new) }
    ensures len { OnOk result (length buf.new.bytes ≡ length buf.old.bytes + 8) }
    ensures room { 8 ≤ buf.old.spare → IsOk result }
{
    buf.put_u32(head.size)?;
    buf.put_bytes(&[head.access, head.flags])?;
    buf.put_u16(0)
}

/// Puts the parts in their order. It cannot be refused where there is room.
#[tactic(auto, unfolding(crate::specs::Frame::frame_bytes))]
fn put_parts(head: &Head, body: &[u8], buf: &mut Buf) -> Result<(), AllocError>
    requires { length buf.old.bytes + 24 + length body.now < 2 ^ 32 }
    ensures ok { OnOk result (Puts (frame_bytes head.now body.now) [] buf.old buf.new) }
    ensures room { 24 + length body.now ≤ buf.old.spare → IsOk result }
{
    put_first(head, buf)?;
    put_second(head, buf)?;
    buf.put_bytes(body)
}

/// Puts the frame of this head and these data. It cannot be refused where there is room for it; want of memory leaves
/// the bytes as they were.
pub fn put_frame(head: &Head, body: &[u8], buf: &mut Buf) -> Result<(), AllocError>
    requires head { IsHead head.now }
    requires body { length body.now ≡ data_size head.now }
    requires few { length buf.old.bytes + 24 + length body.now < 2 ^ 32 }
    ensures ok { OnOk result (Puts (frame_bytes head.now body.now) [] buf.old buf.new) }
    ensures err { OnErr result (IsAsBefore buf.old buf.new) }
    ensures room { 24 + length body.now ≤ buf.old.spare → IsOk result }
{
    buf.reserve(24 + body.len() as u32)?;
    match put_parts(head, body, buf) {
        Ok(()) => Ok(()),
        Err(_) => unreachable!(),
    }
}
