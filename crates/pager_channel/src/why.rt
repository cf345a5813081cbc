//! Why bytes are no frame.

use thiserror::Error;

/// Why bytes are no frame. They are tested in this order, and the first counts; whether the data are cut is tested
/// after the padding.
#[derive(Clone, Copy, Debug, PartialEq, Eq, Error)]
pub enum FrameWhy {
    /// The bytes end within the head or the data.
    #[error("short")]
    Short,
    /// The subcontract is none of 1 to 5.
    #[error("subcontract")]
    Subcontract,
    /// A flag above 8 is set, or the flags name two objects.
    #[error("flags")]
    Flags,
    /// The number is none of an operation of the object that the flags name.
    #[error("operation")]
    Operation,
    /// The size is above 4,096.
    #[error("size")]
    Size,
    /// The right is none of 0 to 2.
    #[error("access")]
    Access,
    /// The last two bytes of the head are not zeros.
    #[error("pad")]
    Pad,
    /// Bytes follow the frame.
    #[error("rest")]
    Rest,
}

/// The first test of a frame's bytes that fails.
#[derive(Clone, Copy, Debug, PartialEq, Eq, Error)]
#[error("{why} at byte {at}")]
pub struct BadFrame {
    /// Where the field begins that cannot stand, in bytes from the start: the length of the whole input where it is
    /// too short, and the end of the frame where bytes follow it.
    pub at: u32,
    /// Why it cannot stand.
    pub why: FrameWhy,
}
