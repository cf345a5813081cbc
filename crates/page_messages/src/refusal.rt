//! Why a node refuses a frame.

use thiserror::Error;

/// Why a node refuses a frame. Its table is as before.
#[derive(Clone, Copy, Debug, PartialEq, Eq, Error)]
pub enum NodeErr {
    /// The node's own table forbids it.
    #[error("not allowed at page {page}")]
    NotAllowed {
        /// The page in which the frame's offset stands; the greatest number of 32 bits where that is greater.
        page: u32,
    },
    /// Memory ran out.
    #[error("out of memory")]
    Memory,
}
