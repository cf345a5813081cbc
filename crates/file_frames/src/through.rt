//! A call goes through a frame.

ghost use Rattle.std.specs.Prelude.{◌≡◌, ◌≤◌, IfOk, OnOk};
ghost use Rattle.hist_plain.specs.Plain.{IsPageSize};
ghost use Rattle.file_frames.specs.Calls.{IsOnePage};
ghost use Rattle.file_frames.specs.Frames.{call_bytes};

use crate::putting::put_call;
use crate::reading::read_call;
use crate::{CallWhy, FileCall, Received};
use marshal_buf::Buf;
use pager_channel::Ops;
use std::alloc::{AllocError, Global};

/// Puts a call on the object of this subcontract and tag into a frame, reads it from there again,
/// and gives what was read. The buffer has the frame, and nothing of what it had. The call's data are
/// copied twice. An error is want of memory.
pub fn through_frame(
    alloc: Global,
    ops: &Ops,
    page_size: u32,
    subcontract: u16,
    tag: u32,
    call: &FileCall,
    buf: &mut Buf,
) -> Result<Received, AllocError>
    requires size { IsPageSize page_size }
    requires subcontract { (1 ≤ subcontract) × (subcontract ≤ 5) }
    requires call { IsOnePage page_size call.now }
    ensures read { IfOk result (λ read. read ≡ record { subcontract = subcontract; tag = tag; call = call.now }) }
    ensures framed { OnOk result (buf.new.bytes ≡ call_bytes ops.now page_size subcontract tag call.now) }
{
    buf.clear();
    put_call(ops, page_size, subcontract, tag, call, buf)?;
    match read_call(alloc, ops, page_size, buf.as_slice()) {
        Ok(received) => Ok(received),
        Err(CallWhy::Memory) => Err(AllocError),
        Err(CallWhy::Frame { .. }) => unreachable!(),
        Err(CallWhy::NoCall) => unreachable!(),
    }
}
