//! A call is read from a frame.

ghost use Rattle.std.specs.Prelude.{◌≡◌, ◌<◌, ◌^◌, ◌↔◌, IsTrue, length, IfOk, IfErr, MatchResult};
ghost use Rattle.hist_plain.specs.Plain.{IsPageSize};
ghost use Rattle.pager_channel.specs.Frame.{IsHead, IsFrame};
ghost use Rattle.pager_channel.specs.Numbers.{number_of};
ghost use Rattle.file_frames.specs.Calls.{IsOnePage, operation_of};
ghost use Rattle.file_frames.specs.declared.call.FileCall.{FileCall as ACall};
ghost use Rattle.file_frames.specs.declared.call.Received.{Received as AReceived};
ghost use Rattle.file_frames.specs.Frames.{head_of_call, received_bytes, received_frame, IsReceived};
ghost use Rattle.file_frames.specs.Reading.{call_of, call_in, IsCause, IsOfFrame};

use crate::putting::head_of;
use crate::{CallWhy, FileCall, Received};
use hist_plain::{Bytes, MAX_PAGES, Op};
use pager_channel::{Frame, Head, Operation, Ops, read_frame};
use std::alloc::{AllocError, Global};

/// The call of this operation, at a place of a page, if files have the operation.
fn call_of(
    alloc: Global,
    which: Operation,
    page: u32,
    off: u32,
    size: u32,
    data: &[u8],
) -> Result<Option<FileCall>, AllocError>
    ensures { IfOk result (λ call. call ≡ call_of which page off size data.now) }
{
    let op = match which {
        Operation::Bind => Op::Open,
        Operation::Read => Op::Read {
            page,
            off,
            len: size,
        },
        Operation::Write => Op::Write {
            page,
            off,
            bytes: Bytes::of(alloc, data)?,
        },
        Operation::Clear => Op::Clear { page },
        Operation::FileSync => return Ok(Some(FileCall::Sync)),
        _ => return Ok(None),
    };
    Ok(Some(FileCall::Access { op }))
}

/// The one call that the frame can be.
fn call_in(alloc: Global, page_size: u32, frame: &Frame<'_>) -> Result<Option<FileCall>, AllocError>
    requires { IsPageSize page_size }
    ensures { IfOk result (λ call. call ≡ call_in page_size frame.now) }
{
    let head = frame.head();
    let size = u64::from(page_size);
    let page = head.offset / size;
    if page >= u64::from(MAX_PAGES) {
        return Ok(None);
    }
    let off = (head.offset % size) as u32;
    call_of(
        alloc,
        frame.which(),
        page as u32,
        off,
        head.size,
        frame.body(),
    )
}

/// Only for the proof: the number of each call's operation has 16 bits.
fn know_numbers(ops: &Ops)
    ensures { (call : ACall) → number_of ops.now (operation_of call) < 2 ^ 16 }
{
    let _bind = ops.number(Operation::Bind);
    let _read = ops.number(Operation::Read);
    let _write = ops.number(Operation::Write);
    let _clear = ops.number(Operation::Clear);
    let _sync = ops.number(Operation::FileSync);
}

/// Whether the call is within one page, and the head is that of its frame.
fn is_head_of(ops: &Ops, page_size: u32, head: &Head, call: &FileCall) -> bool
    requires size { IsPageSize page_size }
    requires head { IsHead head.now }
    ensures { IsTrue result ↔ (IsOnePage page_size call.now ×
        (head.now ≡ head_of_call ops.now page_size head.now.subcontract head.now.tag call.now)) }
{
    call.is_one_page(page_size)
        && *head == head_of(ops, page_size, head.subcontract, head.tag, call)
}

/// The call that the frame is, and of which object.
#[tactic(auto, using(crate::proofs::ReadLaws::none_is, crate::proofs::ReadLaws::other_is))]
fn received(
    alloc: Global,
    ops: &Ops,
    page_size: u32,
    frame: &Frame<'_>,
) -> Result<Received, CallWhy>
    requires size { IsPageSize page_size }
    requires frame { IsFrame ops.now frame.now }
    ensures found { IfOk result
        (λ r. IsReceived page_size r × (frame.now ≡ received_frame ops.now page_size r)) }
    ensures refused { IfErr result (IsOfFrame ops.now page_size frame.now) }
{
    let head = frame.head();
    let call = match call_in(alloc, page_size, frame) {
        Ok(Some(call)) => call,
        Ok(None) => return Err(CallWhy::NoCall),
        Err(_) => return Err(CallWhy::Memory),
    };
    if !is_head_of(ops, page_size, &head, &call) {
        return Err(CallWhy::NoCall);
    }
    Ok(Received::new(head.subcontract, head.tag, call))
}

/// The call whose frame the bytes are, all of them, where a page has so many bytes; or why it is
/// refused. Its data are copied once.
pub fn read_call(
    alloc: Global,
    ops: &Ops,
    page_size: u32,
    bytes: &[u8],
) -> Result<Received, CallWhy>
    requires size { IsPageSize page_size }
    requires few { length bytes.now < 2 ^ 32 }
    // What was read is a call within one page, and its frame is the bytes.
    ensures found { IfOk result
        (λ r. IsReceived page_size r × (bytes.now ≡ received_bytes ops.now page_size r)) }
    // The frame of such a call is read as that call, unless memory runs out.
    ensures only { (r : AReceived) → IsReceived page_size r →
        bytes.now ≡ received_bytes ops.now page_size r →
        MatchResult result (λ read. read ≡ r) (λ why. why ≡ CallWhy.Memory) }
    // The cause of a refusal.
    ensures refused { IfErr result (IsCause ops.now page_size bytes.now) }
{
    know_numbers(ops);
    match read_frame(ops, bytes) {
        Ok(frame) => received(alloc, ops, page_size, &frame),
        Err(bad) => Err(CallWhy::Frame { bad }),
    }
}
