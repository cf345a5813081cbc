//! Frames over a channel, and frames of calls on a file.

ghost use Rattle.std.specs.Prelude.{IsTrue};
ghost use Rattle.hist_plain.specs.Plain.{IsPageSize};
ghost use Rattle.file_frames.specs.Calls.{IsOnePage};
ghost use Rattle.pager_channel.specs.Frame.{IsFrame};

use crate::say::{byte_of, bytes_of, count_of, say_again, say_hex, small_of};
use file_frames::{FileCall, put_call, read_call, through_frame};
use hist_plain::{Bytes, MAX_PAGES, Op, fits};
use marshal_buf::Buf;
use pager_channel::{Frame, FrameWhy, Ops, put_frame, read_frame};
use std::alloc::{AllocError, Global};
use trial_words::say;

/// The bytes of a case.
#[derive(Drop)]
pub struct Frames {
    bytes: Vec<u8>,
}

/// The numbers of an interface text that declares the operations in this order, those of the length first.
fn numbers() -> Ops {
    Ops::new([0, 1, 2, 3, 4], [0, 1, 2, 3, 4, 5], [2, 3, 4, 5, 6, 0, 1])
}

/// The size of a page.
fn sixty_four() -> u32
    ensures { IsPageSize result }
{
    64
}

impl Frames {
    /// No bytes.
    pub fn new(alloc: Global) -> Self {
        Frames {
            bytes: Vec::new(alloc),
        }
    }

    /// `frame CALL ..`
    pub fn step(
        &mut self,
        alloc: Global,
        words: &[&str],
        answer: &mut String,
    ) -> Result<(), AllocError> {
        match words {
            ["bytes", word] => {
                self.bytes = bytes_of(alloc, word)?;
                Ok(())
            }
            ["read"] => read(alloc, &self.bytes, answer),
            ["cut"] => cut(&self.bytes, answer),
            ["change", place, byte] => {
                let bytes = self.changed(alloc, place, byte)?;
                say_frame(&bytes, answer)
            }
            ["call"] => say_call(alloc, &self.bytes, answer),
            ["change-call", place, byte] => {
                let bytes = self.changed(alloc, place, byte)?;
                say_call(alloc, &bytes, answer)
            }
            _ => match call_of(alloc, words)? {
                Some(call) => call_frame(alloc, call, answer),
                None => say(answer, "no such step"),
            },
        }
    }

    /// The bytes, with another byte at a place.
    fn changed(&self, alloc: Global, place: &str, byte: &str) -> Result<Vec<u8>, AllocError> {
        let mut bytes = Vec::from_slice(alloc, &self.bytes)?;
        if let Some(changed) = bytes.get_mut(count_of(place) as usize) {
            *changed = byte_of(byte);
        }
        Ok(bytes)
    }
}

/// The head, the operation and the data of a frame, which is put again.
fn say_parts(
    alloc: Global,
    ops: &Ops,
    frame: &Frame<'_>,
    bytes: &[u8],
    answer: &mut String,
) -> Result<(), AllocError>
    requires { IsFrame ops.now frame.now }
{
    let (head, which) = (frame.head(), frame.which());
    let (subcontract, operation, tag) = (head.subcontract, head.operation, head.tag);
    writeln!(
        answer,
        "subcontract {subcontract} operation {operation} tag {tag}"
    )?;
    let (offset, size) = (head.offset, head.size);
    let (access, flags) = (head.access, head.flags);
    writeln!(
        answer,
        "offset {offset} size {size} access {access} flags {flags}"
    )?;
    let number = ops.number(which);
    writeln!(answer, "{which:?} has number {number}")?;
    match frame.data() {
        Some(data) => say_hex(answer, data)?,
        None => say(answer, "no data")?,
    }
    put_again(alloc, ops, frame, bytes, answer)
}

/// Puts a frame again, and tells whether its bytes are the same.
fn put_again(
    alloc: Global,
    ops: &Ops,
    frame: &Frame<'_>,
    bytes: &[u8],
    answer: &mut String,
) -> Result<(), AllocError>
    requires { IsFrame ops.now frame.now }
{
    let body = frame.body();
    if body.len() > 1_000 {
        return say(answer, "impossible");
    }
    let mut buf = Buf::new(alloc);
    put_frame(&frame.head(), body, &mut buf)?;
    say_again(answer, bytes, buf.as_slice())
}

/// What the bytes say as a frame.
fn read(alloc: Global, bytes: &[u8], answer: &mut String) -> Result<(), AllocError> {
    if bytes.len() > 1_000 {
        return say(answer, "impossible");
    }
    let ops = numbers();
    match read_frame(&ops, bytes) {
        Ok(frame) => say_parts(alloc, &ops, &frame, bytes, answer),
        Err(bad) => writeln!(answer, "{bad}"),
    }
}

/// Whether bytes are a frame.
fn say_frame(bytes: &[u8], answer: &mut String) -> Result<(), AllocError> {
    if bytes.len() > 1_000 {
        return say(answer, "impossible");
    }
    match read_frame(&numbers(), bytes) {
        Ok(_) => say(answer, "a frame"),
        Err(bad) => writeln!(answer, "{bad}"),
    }
}

/// Reads each prefix of the bytes but the whole, and tells those that are not too short where they end.
fn cut(bytes: &[u8], answer: &mut String) -> Result<(), AllocError> {
    if bytes.len() > 1_000 {
        return say(answer, "impossible");
    }
    let ops = numbers();
    let mut short = 0u32;
    for end in 0..bytes.len() {
        match read_frame(&ops, &bytes[..end]) {
            Err(bad) if bad.why == FrameWhy::Short && bad.at as usize == end => {
                short = short.saturating_add(1);
            }
            _ => writeln!(answer, "{end} bytes: another answer")?,
        }
    }
    writeln!(answer, "{short} are short where they end")
}

/// Whether bytes are the frame of a call on a file.
fn say_call(alloc: Global, bytes: &[u8], answer: &mut String) -> Result<(), AllocError> {
    if bytes.len() > 1_000 {
        return say(answer, "impossible");
    }
    match read_call(alloc, &numbers(), sixty_four(), bytes) {
        Ok(_) => say(answer, "a call"),
        Err(why) => writeln!(answer, "{why}"),
    }
}

/// The call on a file that words say.
fn call_of(alloc: Global, words: &[&str]) -> Result<Option<FileCall>, AllocError> {
    let op = match words {
        ["read", page, off, len] => Op::Read {
            page: small_of(page),
            off: small_of(off),
            len: small_of(len),
        },
        ["write", page, off, bytes] => Op::Write {
            page: small_of(page),
            off: small_of(off),
            bytes: Bytes::from_vec(bytes_of(alloc, bytes)?),
        },
        ["clear", page] => Op::Clear {
            page: small_of(page),
        },
        ["open"] => Op::Open,
        ["sync"] => return Ok(Some(FileCall::Sync)),
        _ => return Ok(None),
    };
    Ok(Some(FileCall::Access { op }))
}

/// Whether a call is within one page of a file that can be.
fn is_one_page(page_size: u32, call: &FileCall) -> bool
    ensures { IsTrue result → IsOnePage page_size call.now }
{
    match call {
        FileCall::Access { op } => fits(op, page_size, MAX_PAGES),
        FileCall::Sync => true,
    }
}

/// The frame of a call on a file with the subcontract 2 and the tag 5, which is read and put again.
fn call_frame(alloc: Global, call: FileCall, answer: &mut String) -> Result<(), AllocError> {
    let (ops, page_size) = (numbers(), sixty_four());
    if !is_one_page(page_size, &call) {
        return say(answer, "impossible");
    }
    let mut buf = Buf::new(alloc);
    put_call(&ops, page_size, 2, 5, &call, &mut buf)?;
    say_hex(answer, buf.as_slice())?;
    match read_call(alloc, &ops, page_size, buf.as_slice()) {
        Ok(received) => {
            let (subcontract, tag) = (received.subcontract(), received.tag());
            writeln!(answer, "subcontract {subcontract} tag {tag}")?;
            let (call, mut frame) = (received.into_call(), Buf::new(alloc));
            let read = through_frame(alloc, &ops, page_size, 1, 0, &call, &mut frame)?;
            let (subcontract, tag) = (read.subcontract(), read.tag());
            writeln!(
                answer,
                "through a frame: subcontract {subcontract} tag {tag}"
            )?;
            let mut again = Buf::new(alloc);
            put_call(&ops, page_size, 2, 5, &read.into_call(), &mut again)?;
            say_again(answer, buf.as_slice(), again.as_slice())
        }
        Err(why) => writeln!(answer, "{why}"),
    }
}
