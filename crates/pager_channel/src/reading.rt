//! Reading a frame.

ghost use Rattle.std.specs.Prelude.{◌≡◌, ◌<◌, ◌≤◌, ◌^◌, ◌&&◌, nat_lt, not, IsTrue, length, drop, IfOk, OnOk, Ok};
ghost use Rattle.pager_channel.specs.Flags.{is_to_cache, is_to_file};
ghost use Rattle.pager_channel.specs.Size.{data_size};
ghost use Rattle.pager_channel.specs.Frame.{frame_bytes, IsFrame};
ghost use Rattle.pager_channel.specs.Seen.{FrameSeen};
ghost use Rattle.pager_channel.specs.Reading.{head_at, pad_at, wants, finds, head_tested, rest_tested, frame_from, frame_at};

use crate::flags::{TO_CACHE, TO_FILE, has_flag};
use crate::{BadFrame, Frame, FrameWhy, Head, Operation, Ops};
use byteorder::{BigEndian, ByteOrder};

/// How many bytes a head has.
const HEAD: usize = 24;

/// The greatest size.
const MOST: u32 = 4096;

/// The fields at the front.
#[tactic(auto, unfolding(marshal_buf::specs::Numbers::number_of))]
fn head_of(bytes: &[u8]) -> Head
    requires { 24 ≤ length bytes.now }
    ensures { result ≡ head_at bytes.now }
{
    Head {
        subcontract: BigEndian::read_u16(bytes),
        operation: BigEndian::read_u16(&bytes[2..]),
        tag: BigEndian::read_u32(&bytes[4..]),
        offset: BigEndian::read_u64(&bytes[8..]),
        size: BigEndian::read_u32(&bytes[16..]),
        access: bytes[20],
        flags: bytes[21],
    }
}

/// The number where two zeros stand.
#[tactic(auto, unfolding(marshal_buf::specs::Numbers::number_of))]
fn pad_of(bytes: &[u8]) -> u16
    requires { 24 ≤ length bytes.now }
    ensures { result ≡ pad_at bytes.now }
{
    BigEndian::read_u16(&bytes[22..])
}

fn test(holds: bool, why: FrameWhy, at: u32) -> Result<(), BadFrame>
    ensures gives { result ≡ wants holds why at }
    ensures holds { OnOk result (IsTrue holds) }
{
    if holds {
        Ok(())
    } else {
        Err(BadFrame { at, why })
    }
}

fn find(found: Option<Operation>, why: FrameWhy, at: u32) -> Result<Operation, BadFrame>
    ensures { result ≡ finds found why at }
{
    match found {
        Some(which) => Ok(which),
        None => Err(BadFrame { at, why }),
    }
}

/// Whether the flags are known, and name one object.
fn is_known(flags: u8) -> bool
    ensures { result ≡ (nat_lt flags 16 && not (is_to_cache flags && is_to_file flags)) }
{
    flags < 16 && !(has_flag(flags, TO_CACHE) && has_flag(flags, TO_FILE))
}

/// Tests a head, and the number where two zeros stand.
#[tactic(auto, unfolding(crate::specs::Reading::head_tested))]
fn test_head(ops: &Ops, head: &Head, pad: u16) -> Result<Operation, BadFrame>
    ensures gives { result ≡ head_tested ops.now head.now pad }
    ensures small { OnOk result (head.now.size ≤ 4096) }
{
    let subcontract = head.subcontract;
    test(
        1 <= subcontract && subcontract <= 5,
        FrameWhy::Subcontract,
        0,
    )?;
    test(is_known(head.flags), FrameWhy::Flags, 21)?;
    let which = find(
        ops.which(head.flags, head.operation),
        FrameWhy::Operation,
        2,
    )?;
    test(head.size <= MOST, FrameWhy::Size, 16)?;
    test(head.access <= 2, FrameWhy::Access, 20)?;
    test(pad == 0, FrameWhy::Pad, 22)?;
    Ok(which)
}

/// Tests that what follows the head is the data, and no more. There are so many bytes in all.
#[tactic(auto, unfolding(crate::specs::Reading::rest_tested))]
fn test_rest(all: u32, head: &Head, rest: &[u8]) -> Result<(), BadFrame>
    requires { head.now.size ≤ 4096 }
    ensures gives { result ≡ rest_tested all head.now (length rest.now) }
    ensures sized { OnOk result (length rest.now ≡ data_size head.now) }
{
    let size = head.data_size();
    test(size as usize <= rest.len(), FrameWhy::Short, all)?;
    test(rest.len() <= size as usize, FrameWhy::Rest, 24 + size)
}

/// The frame of a head, of what stands where two zeros do, and of what follows.
#[tactic(auto, unfolding(crate::specs::Reading::frame_from))]
fn frame_of_parts<'a>(
    ops: &Ops,
    all: u32,
    head: Head,
    pad: u16,
    rest: &'a [u8],
) -> Result<Frame<'a>, BadFrame>
    ensures { result ≡ frame_from ops.now all head pad rest.now }
{
    let which = test_head(ops, &head, pad)?;
    test_rest(all, &head, rest)?;
    Ok(Frame::new(head, which, rest))
}

/// The frame that the bytes are.
#[tactic(auto, unfolding(crate::specs::Reading::frame_at))]
fn frame_of<'a>(ops: &Ops, bytes: &'a [u8]) -> Result<Frame<'a>, BadFrame>
    requires { length bytes.now < 2 ^ 32 }
    ensures { result ≡ frame_at ops.now bytes.now }
{
    let all = bytes.len() as u32;
    test(bytes.len() >= HEAD, FrameWhy::Short, all)?;
    let head = head_of(bytes);
    let pad = pad_of(bytes);
    let (_, rest) = bytes.split_at(HEAD);
    frame_of_parts(ops, all, head, pad, rest)
}

/// The frame that the bytes are, all of them, or the first test that fails. It takes no memory, and the frame lends
/// its data from the bytes.
pub fn read_frame<'a>(ops: &Ops, bytes: &'a [u8]) -> Result<Frame<'a>, BadFrame>
    requires { length bytes.now < 2 ^ 32 }
    // Which frame it is, or which test fails.
    ensures exact { result ≡ frame_at ops.now bytes.now }
    // What is read is a frame, and its head and data, joined, are the bytes.
    ensures found { IfOk result (λ f. IsFrame ops.now f × (bytes.now ≡ frame_bytes f.head f.body)) }
    // What are the bytes of a frame is read as that frame.
    ensures only { (f : FrameSeen) → IsFrame ops.now f → bytes.now ≡ frame_bytes f.head f.body → result ≡ Ok f }
    // The data are what follows the head.
    ensures body { IfOk result (λ f. f.body ≡ drop 24 bytes.now) }
{
    frame_of(ops, bytes)
}
