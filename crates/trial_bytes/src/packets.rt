//! Packets between machines.

use crate::laws::{Found, Law, read_if, refused_if};
use dfs_layer::{Packet, put_packet, read_packet};
use marshal_buf::Buf;
use std::alloc::{AllocError, Global};

/// A packet that is read is put as it was; what is refused is refused at a byte of it or at its end.
#[derive(Drop)]
pub struct PacketLaw;

/// Whether a packet is put as bytes.
fn is_put_as(alloc: Global, packet: &Packet<'_>, bytes: &[u8]) -> Result<bool, AllocError> {
    let (from, to, frame) = (packet.from(), packet.to(), packet.frame());
    if from == to || frame.len() > 10_000 {
        return Ok(false);
    }
    let mut buf = Buf::new(alloc);
    put_packet(from, to, frame, &mut buf)?;
    Ok(buf.as_slice() == bytes)
}

impl Law for PacketLaw {
    fn judge(&self, alloc: Global, bytes: &[u8]) -> Result<Found, AllocError> {
        if bytes.len() > 10_000 {
            return Ok(Found::Unlike);
        }
        match read_packet(bytes) {
            Ok(packet) => Ok(read_if(is_put_as(alloc, &packet, bytes)?)),
            Err(bad) => Ok(refused_if(bad.at as usize <= bytes.len())),
        }
    }
}
