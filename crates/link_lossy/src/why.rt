//! Why bytes are no request or no reply.

use thiserror::Error;

/// Why bytes are no request or no reply. They are tested in this order, and the first counts.
#[derive(Clone, Copy, Debug, PartialEq, Eq, Error)]
pub enum LinkWhy {
    /// The bytes end within the fields that each request and each reply has.
    #[error("short")]
    Short,
    /// The kind of a reply is above 7.
    #[error("kind")]
    Kind,
    /// What follows the fields of a request is no packet.
    #[error("packet")]
    Packet,
}

/// The first test of a request's or a reply's bytes that fails.
#[derive(Clone, Copy, Debug, PartialEq, Eq, Error)]
#[error("{why} at byte {at}")]
pub struct BadLink {
    /// Where the field begins that cannot stand, in bytes from the start: the length of the whole input where it is too short.
    pub at: u32,
    /// Why it cannot stand.
    pub why: LinkWhy,
}
