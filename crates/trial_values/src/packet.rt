//! Packets: frames that go from one machine to another.

use crate::say::{bytes_of, say_hex, small_of};
use dfs_layer::{put_packet, read_packet};
use marshal_buf::Buf;
use std::alloc::{AllocError, Global};
use trial_words::say;

/// `packet CALL ..`
pub fn step(alloc: Global, words: &[&str], answer: &mut String) -> Result<(), AllocError> {
    match words {
        ["put", from, to, frame] => put(alloc, small_of(from), small_of(to), frame, answer),
        ["read", bytes] => read(alloc, bytes, answer),
        _ => say(answer, "no such step"),
    }
}

/// Puts a packet, and tells its bytes.
fn put(
    alloc: Global,
    from: u32,
    to: u32,
    frame: &str,
    answer: &mut String,
) -> Result<(), AllocError> {
    let frame = bytes_of(alloc, frame)?;
    if from == to || frame.len() > 10_000 {
        return say(answer, "impossible");
    }
    let mut buf = Buf::new(alloc);
    put_packet(from, to, &frame, &mut buf)?;
    say_hex(answer, buf.as_slice())
}

/// Reads a packet, and tells its machines and its frame, or why the bytes are none.
fn read(alloc: Global, bytes: &str, answer: &mut String) -> Result<(), AllocError> {
    let bytes = bytes_of(alloc, bytes)?;
    if bytes.len() > 10_000 {
        return say(answer, "impossible");
    }
    match read_packet(&bytes) {
        Ok(packet) => {
            let (from, to) = (packet.from(), packet.to());
            writeln!(answer, "from {from} to {to}")?;
            say_hex(answer, packet.frame())
        }
        Err(bad) => writeln!(answer, "{bad}"),
    }
}
