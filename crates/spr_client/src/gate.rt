//! What is called behind each line of a client.

use hist_plain::{Gate, OpenGate};

/// A gate that is called behind each line of a client too.
pub trait LineGate: Gate {
    /// Is called after each line of `caller` that has its answer, while no lock is held.
    fn after_line(&self, caller: u32);
}

impl LineGate for OpenGate {
    fn after_line(&self, _caller: u32) {}
}
