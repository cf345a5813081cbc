//! Frames over a channel.

ghost use Rattle.pager_channel.specs.Frame.{IsFrame};

use crate::laws::{Found, Law, read_if, refused_if};
use marshal_buf::Buf;
use pager_channel::{Frame, Ops, put_frame, read_frame};
use std::alloc::{AllocError, Global};

/// A frame that is read is put as it was; what is refused is refused at a byte of it or at its end.
#[derive(Drop)]
pub struct FrameLaw;

/// The numbers of an interface text that declares the operations in this order, those of the length first.
fn numbers() -> Ops {
    Ops::new([0, 1, 2, 3, 4], [0, 1, 2, 3, 4, 5], [2, 3, 4, 5, 6, 0, 1])
}

/// Whether a frame is put as bytes.
fn is_put_as(alloc: Global, _ops: &Ops, frame: &Frame<'_>, bytes: &[u8]) -> Result<bool, AllocError>
    requires { IsFrame _ops.now frame.now }
{
    let body = frame.body();
    if body.len() > 10_000 {
        return Ok(false);
    }
    let mut buf = Buf::new(alloc);
    put_frame(&frame.head(), body, &mut buf)?;
    Ok(buf.as_slice() == bytes)
}

impl Law for FrameLaw {
    fn judge(&self, alloc: Global, bytes: &[u8]) -> Result<Found, AllocError> {
        if bytes.len() > 10_000 {
            return Ok(Found::Unlike);
        }
        let ops = numbers();
        match read_frame(&ops, bytes) {
            Ok(frame) => Ok(read_if(is_put_as(alloc, &ops, &frame, bytes)?)),
            Err(bad) => Ok(refused_if(bad.at as usize <= bytes.len())),
        }
    }
}
