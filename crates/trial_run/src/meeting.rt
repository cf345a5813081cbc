//! Gates at which two clients that run at once wait for each other, and one that counts their lines.

use hist_plain::{Event, Gate};
use spr_client::LineGate;
use std::sync::atomic::{AtomicBool, AtomicU32, Ordering};
use std::thread::yield_now;

/// How often a client looks at most for what another does.
const LOOKS: u32 = 10_000_000;

/// Waits until a count is that high, and tells whether it was in time.
fn comes_in_time(count: &AtomicU32, wanted: u32) -> bool {
    for _look in 0..LOOKS {
        if count.load(Ordering::SeqCst) >= wanted {
            return true;
        }
        yield_now();
    }
    false
}

/// A gate that holds the first client in its miss until the second one is in its own.
#[derive(Drop)]
pub struct MeetingGate {
    /// How many messages the second client sent.
    second: AtomicU32,
    /// It was not in time.
    late: AtomicBool,
}

impl MeetingGate {
    /// A gate that nobody has come to.
    pub fn new() -> MeetingGate {
        MeetingGate {
            second: AtomicU32::new(0),
            late: AtomicBool::new(false),
        }
    }

    /// Whether the first client waited for the second one in vain.
    pub fn is_late(&self) -> bool {
        self.late.load(Ordering::SeqCst)
    }
}

impl Gate for MeetingGate {
    fn between(&self, caller: u32, _file: u32, _event: &Event) {
        if caller == 1 {
            self.second.fetch_add(1, Ordering::SeqCst);
        }
        if caller == 0 && !comes_in_time(&self.second, 1) {
            self.late.store(true, Ordering::SeqCst);
        }
    }
}

impl LineGate for MeetingGate {
    fn after_line(&self, _caller: u32) {}
}

/// A gate of so many rounds. In each one the second client, which was granted a page, is held until the first one was granted one
/// too; and that is held until the second one was granted its next, so that what the second one does between two misses is done in
/// the first one's miss.
#[derive(Drop)]
pub struct RoundsGate {
    rounds: u32,
    /// How many grants the first client had.
    first: AtomicU32,
    /// How many grants the second client had.
    second: AtomicU32,
    /// One of them was not in time.
    late: AtomicBool,
}

impl RoundsGate {
    /// A gate of so many rounds, to which nobody has come.
    pub fn new(rounds: u32) -> RoundsGate {
        RoundsGate {
            rounds,
            first: AtomicU32::new(0),
            second: AtomicU32::new(0),
            late: AtomicBool::new(false),
        }
    }

    /// Whether one client waited for the other in vain.
    pub fn is_late(&self) -> bool {
        self.late.load(Ordering::SeqCst)
    }

    /// Counts a client's grant, and holds the client. Tells whether the other was in time.
    fn meets_in_time(&self, caller: u32) -> bool {
        let (own, other, ahead) = match caller {
            0 => (&self.first, &self.second, 2),
            1 => (&self.second, &self.first, 1),
            _ => return true,
        };
        let round = own.fetch_add(1, Ordering::SeqCst);
        round >= self.rounds || comes_in_time(other, round.saturating_add(ahead))
    }
}

impl Gate for RoundsGate {
    fn between(&self, caller: u32, _file: u32, event: &Event) {
        let is_grant = matches!(event, Event::PageIn { .. } | Event::ZeroFill { .. });
        if is_grant && !self.meets_in_time(caller) {
            self.late.store(true, Ordering::SeqCst);
        }
    }
}

impl LineGate for RoundsGate {
    fn after_line(&self, _caller: u32) {}
}

/// A gate that counts the lines that it is called behind.
#[derive(Drop)]
pub struct CountingGate {
    lines: AtomicU32,
}

impl CountingGate {
    /// A gate that was called behind no line.
    pub fn new() -> CountingGate {
        CountingGate {
            lines: AtomicU32::new(0),
        }
    }

    /// How many lines it was called behind.
    pub fn lines(&self) -> u32 {
        self.lines.load(Ordering::SeqCst)
    }
}

impl Gate for CountingGate {
    fn between(&self, _caller: u32, _file: u32, _event: &Event) {}
}

impl LineGate for CountingGate {
    fn after_line(&self, _caller: u32) {
        self.lines.fetch_add(1, Ordering::SeqCst);
    }
}
