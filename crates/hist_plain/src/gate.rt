//! What happens between two steps of a caller.

use crate::event::Event;

/// What may happen between two steps of a caller; it tells nothing.
pub trait Gate: Sync {
    /// Is called after each hold that entered one other event on the way to an access of `caller` in a file, with that
    /// event, while no lock is held.
    fn between(&self, caller: u32, file: u32, event: &Event);
}

/// A gate that does nothing.
#[derive(Clone, Copy, Debug)]
pub struct OpenGate;

impl Gate for OpenGate {
    fn between(&self, _caller: u32, _file: u32, _event: &Event) {}
}
