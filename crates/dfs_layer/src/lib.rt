//! Packets: how a distributed layer brings a frame from a machine to another. That the frames of a distributed layer go over a
//! network is the Spring papers' rule; the form of a packet is this project's own.
#![tactic(auto)]

mod packet;
mod reading;
mod why;
mod writing;

pub use packet::Packet;
pub use reading::read_packet;
pub use why::{BadPacket, PacketWhy};
pub use writing::put_packet;
