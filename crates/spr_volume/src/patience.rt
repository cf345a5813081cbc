//! How a call that another caller is before lets others go first. No clause speaks of it.

ghost use Rattle.std.specs.Prelude.{◌≤◌};
ghost use Rattle.spr_volume.specs.declared.patience.TheConstants.{LONGEST};

use std::thread::yield_now;

/// How many yields a pause has at most, beside those by which callers differ.
const LONGEST: u32 = 64;

/// How many callers a volume has at most: the clients of a script, and who makes the closing syncs.
const CALLERS: u32 = 17;

/// The pauses of one call. Where another caller is before it, it pauses before its next hold, each time twice as long, up to a limit,
/// and a caller of another number pauses for another time. Behind a step it does not pause.
#[derive(Drop)]
pub(crate) struct Patience {
    caller: u32,
    yields: u32,
    ghost few: { yields ≤ LONGEST },
}

impl Patience {
    /// The patience of a caller in a call that nobody was before yet.
    pub(crate) fn new(caller: u32) -> Patience {
        Patience { caller, yields: 1 }
    }

    /// After a hold that another caller was before: yields some times.
    pub(crate) fn pause(&mut self) {
        for _ in 0..self.yields + self.caller % CALLERS {
            yield_now();
        }
        self.yields = (self.yields * 2).min(LONGEST);
    }
}
