//! The standard error, where the notices go.
//!
//! As the standard output, it is at the trusted edge: it tells nothing of what was written.

ghost use Rattle.std.specs.Prelude.{◌≡◌, ◌≤◌, None};
ghost use Rattle.spr_io.specs.Causes.{Rose};

use spr_io::{Failed, Sink};

/// Adds one to a count of faults, which stays at the end of its type.
fn count_fault(count: &mut u64)
    ensures later { count.old ≤ count.new }
    ensures rose { Rose count.old count.new }
{
    *count = count.saturating_add(1);
}

/// The standard error.
#[derive(Drop)]
pub struct ErrSink<P> {
    stderr: P,
    faults: u64,
}

impl<P: Print + Drop> ErrSink<P> {
    /// What prints to the standard error.
    pub fn new(stderr: P) -> ErrSink<P>
        ensures { result.faults ≡ 0 }
    {
        ErrSink { stderr, faults: 0 }
    }
}

impl<P: Print + Drop> Sink for ErrSink<P> {
    ghost told = { λ s. record { written = None; faults = s.faults } };

    fn write(&mut self, bytes: &[u8]) -> Result<usize, Failed> {
        match self.stderr.write_some(bytes) {
            Ok(count) if count > 0 || bytes.is_empty() => return Ok(count),
            _ => {}
        }
        count_fault(&mut self.faults);
        Err(Failed)
    }
}
