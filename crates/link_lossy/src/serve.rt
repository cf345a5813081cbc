//! What serves a call on the other machine.

ghost use Rattle.std.specs.Prelude.{ℕ, List, Result, length};
ghost use Rattle.link_lossy.specs.declared.request.Request.{Request};
ghost use Rattle.link_lossy.specs.declared.serve.Served.{Served};
ghost use Rattle.link_lossy.specs.declared.serve.ServeErr.{ServeErr};

use crate::Request;
use hist_plain::Answer;
use std::sync::Wait;
use thiserror::Error;

/// What a call is answered, and where its event stands.
#[derive(Clone, Copy, Debug, PartialEq, Eq)]
pub struct Served {
    /// What the plain file answers at the place.
    pub answer: Answer,
    /// The place of the call's event in the file's trail, counted from 0.
    pub place: u64,
}

/// Why serving a call entered no event of it.
#[derive(Clone, Copy, Debug, PartialEq, Eq, Error)]
pub enum ServeErr {
    /// A disk's store failed in it.
    #[error("the store of disk {disk} failed, its fault {count}")]
    StoreFault {
        /// The number of the disk.
        disk: u32,
        /// The store's count of faults after the failure.
        count: u64,
    },
    /// The file's trail has all the events that it may have.
    #[error("the trail is full")]
    TrailFull,
    /// Memory ran out.
    #[error("out of memory")]
    Memory,
}

/// What serves the calls of a caller on another machine.
///
/// It tells contracts which requests it may be given, with an `out` of so many bytes, and what serving one does: how the value before,
/// the request, the answer or refusal, the bytes that `out` then has, and the value after go together. If the answer is Bytes, they
/// are all of `out`. It may wait for other callers.
pub trait Serve {
    /// Whether it may serve the request, with an `out` of so many bytes.
    ghost may_serve: { Self → Request → ℕ → Type 0 };

    /// What serving the request does.
    ghost served: { Self → Request → Result Served ServeErr → List ℕ → Self → Type 0 };

    /// Serves a request.
    fn serve<R: Wait>(
        &mut self,
        rt: &R,
        request: &Request<'_>,
        out: &mut [u8],
    ) -> Result<Served, ServeErr>
        requires { may_serve self.old request.now (length out.old) }
        ensures { served self.old request.now result out.new self.new };
}
