//! Why bytes are no call on a file object.

use pager_channel::BadFrame;
use thiserror::Error;

/// Why bytes are not read as a call on a file object.
#[derive(Clone, Copy, Debug, PartialEq, Eq, Error)]
pub enum CallWhy {
    /// They are no frame.
    #[error("{bad}")]
    Frame {
        /// The first test of a frame that fails.
        bad: BadFrame,
    },
    /// They are a frame that no call within one page has: the operation is none of `bind`, `read`,
    /// `write`, `clear` and `sync` of a file, or the offset, the size, the right or the flags are
    /// not those of the call.
    #[error("no call on a file")]
    NoCall,
    /// Memory ran out; this says nothing of the bytes.
    #[error("out of memory")]
    Memory,
}
