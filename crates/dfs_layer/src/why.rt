//! Why bytes are no packet.

use thiserror::Error;

/// Why bytes are no packet. They are tested in this order, and the first counts.
#[derive(Clone, Copy, Debug, PartialEq, Eq, Error)]
pub enum PacketWhy {
    /// The bytes end within the numbers of the machines.
    #[error("short")]
    Short,
    /// The machine that sends is the one that receives.
    #[error("same")]
    Same,
}

/// The first test of a packet's bytes that fails.
#[derive(Clone, Copy, Debug, PartialEq, Eq, Error)]
#[error("{why} at byte {at}")]
pub struct BadPacket {
    /// Where the field begins that cannot stand, in bytes from the start: the length of the whole input where it is too short.
    pub at: u32,
    /// Why it cannot stand.
    pub why: PacketWhy,
}
