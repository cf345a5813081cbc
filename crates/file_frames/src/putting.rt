//! A call is put into a frame.

ghost use Rattle.std.specs.Prelude.{◌≡◌, ◌<◌, ◌≤◌, ◌+◌, ◌^◌, length, [], OnOk, OnErr, IsOk};
ghost use Rattle.marshal_buf.specs.Held.{Puts, IsAsBefore};
ghost use Rattle.pager_channel.specs.Frame.{IsFrame};
ghost use Rattle.hist_plain.specs.Plain.{IsPageSize};
ghost use Rattle.file_frames.specs.Calls.{IsOnePage, data_of};
ghost use Rattle.file_frames.specs.Frames.{head_of_call, frame_of_call, call_bytes};

use crate::FileCall;
use marshal_buf::Buf;
use pager_channel::{Head, Ops, put_frame};
use std::alloc::AllocError;

/// The head of the frame of a call on the object of this subcontract and tag.
pub(crate) fn head_of(
    ops: &Ops,
    page_size: u32,
    subcontract: u16,
    tag: u32,
    call: &FileCall,
) -> Head
    requires size { IsPageSize page_size }
    requires subcontract { (1 ≤ subcontract) × (subcontract ≤ 5) }
    requires call { IsOnePage page_size call.now }
    ensures is { result ≡ head_of_call ops.now page_size subcontract tag call.now }
    ensures frame { IsFrame ops.now (frame_of_call ops.now page_size subcontract tag call.now) }
{
    Head {
        subcontract,
        operation: ops.number(call.operation()),
        tag,
        offset: call.offset(page_size),
        size: call.size(page_size),
        access: 0,
        flags: call.flags(),
    }
}

/// Puts the frame of a call on the object of this subcontract and tag. It cannot be refused where
/// there is room for it; want of memory leaves the bytes as they were.
pub fn put_call(
    ops: &Ops,
    page_size: u32,
    subcontract: u16,
    tag: u32,
    call: &FileCall,
    buf: &mut Buf,
) -> Result<(), AllocError>
    requires size { IsPageSize page_size }
    requires subcontract { (1 ≤ subcontract) × (subcontract ≤ 5) }
    requires call { IsOnePage page_size call.now }
    requires few { length buf.old.bytes < 2 ^ 31 }
    ensures ok { OnOk result
        (Puts (call_bytes ops.now page_size subcontract tag call.now) [] buf.old buf.new) }
    ensures frame { IsFrame ops.now (frame_of_call ops.now page_size subcontract tag call.now) }
    ensures err { OnErr result (IsAsBefore buf.old buf.new) }
    ensures room { 24 + length (data_of call.now) ≤ buf.old.spare → IsOk result }
{
    let head = head_of(ops, page_size, subcontract, tag, call);
    put_frame(&head, call.data(), buf)
}
