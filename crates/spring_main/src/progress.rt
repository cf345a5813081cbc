//! The line of progress: how many calls a long run has made so far, on a terminal.

use hist_plain::{Event, Gate};
use spr_client::LineGate;
use spr_io::{Failed, Sink};
use std::rt::Clock;
use std::sync::atomic::{AtomicBool, AtomicU64, Ordering};
use std::time::Instant;

/// How many calls are made from one look at the clock to the next.
const CALLS_A_LOOK: u64 = 64;

/// A gate that counts the lines of a run, and once in a second writes their number to the standard error.
#[derive(Drop)]
pub struct Progress<'a, R> {
    rt: &'a R,
    /// When the run began, if its progress is shown.
    began: Option<Instant>,
    calls: AtomicU64,
    /// How many seconds had passed when the line was last written.
    second: AtomicU64,
    /// The line stands on the terminal.
    stands: AtomicBool,
}

impl<'a, R: Clock + Eprint> Progress<'a, R> {
    /// The progress of a run that begins now, and whether it is shown.
    pub fn new(rt: &'a R, is_shown: bool) -> Progress<'a, R> {
        let began = if is_shown {
            Instant::now(rt).ok()
        } else {
            None
        };
        Progress {
            rt,
            began,
            calls: AtomicU64::new(0),
            second: AtomicU64::new(0),
            stands: AtomicBool::new(false),
        }
    }

    /// Takes the line off the terminal, if it stands there.
    pub fn clear(&self) {
        if self.stands.swap(false, Ordering::SeqCst) {
            let _ = eprint!(self.rt; "\r\x1b[K");
        }
    }

    /// Writes the line anew if another second has passed.
    fn show(&self, began: &Instant, calls: u64) {
        let Ok(passed) = began.elapsed(self.rt) else {
            return;
        };
        let (shown, now) = (self.second.load(Ordering::SeqCst), passed.as_secs());
        let is_next = shown < now
            && self
                .second
                .compare_exchange(shown, now, Ordering::SeqCst, Ordering::SeqCst)
                .is_ok();
        if is_next {
            self.stands.store(true, Ordering::SeqCst);
            let _ = eprint!(self.rt; "\r{calls} calls");
        }
    }
}

impl<'a, R: Clock + Eprint + Sync> Gate for Progress<'a, R> {
    fn between(&self, _caller: u32, _file: u32, _event: &Event) {}
}

impl<'a, R: Clock + Eprint + Sync> LineGate for Progress<'a, R> {
    fn after_line(&self, _caller: u32) {
        let Some(began) = &self.began else { return };
        let calls = self.calls.fetch_add(1, Ordering::SeqCst).saturating_add(1);
        if calls % CALLS_A_LOOK == 0 {
            self.show(began, calls);
        }
    }
}

/// A sink that takes the line of progress off the terminal before it writes.
#[derive(Drop)]
pub struct ClearSink<'a, S, R> {
    sink: S,
    progress: &'a Progress<'a, R>,
}

impl<'a, S: Sink + Drop, R: Clock + Eprint> ClearSink<'a, S, R> {
    /// What writes to a sink, over this progress.
    pub fn new(sink: S, progress: &'a Progress<'a, R>) -> ClearSink<'a, S, R> {
        ClearSink { sink, progress }
    }
}

impl<'a, S: Sink + Drop, R: Clock + Eprint> Sink for ClearSink<'a, S, R> {
    ghost told = { λ s. S.told s.sink };

    fn write(&mut self, bytes: &[u8]) -> Result<usize, Failed> {
        self.progress.clear();
        self.sink.write(bytes)
    }
}
