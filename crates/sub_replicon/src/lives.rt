//! The lives that an object keeps.

ghost use Rattle.std.specs.Prelude.{◌≡◌, ◌≤◌, length};
ghost use Rattle.sub_replicon.specs.Replicas.{new_lives};

use crate::MAX_DOORS;
use arrayvec::ArrayVec;

/// The life of each of at most eight doors, in order.
pub(crate) type Lives = ArrayVec<u32, MAX_DOORS>;

/// A life 0 for each of the doors.
pub(crate) fn new_lives(doors: &[usize]) -> Lives
    requires { length doors.now ≤ MAX_DOORS }
    ensures { result.items ≡ new_lives doors.now }
{
    let mut lives = ArrayVec::new();
    for _ in doors {
        lives.push(0);
    }
    lives
}

/// The same lives once more.
pub(crate) fn same_lives(lives: &[u32]) -> Lives
    requires { length lives.now ≤ MAX_DOORS }
    ensures { result.items ≡ lives.now }
{
    let mut copy = ArrayVec::new();
    for life in lives {
        copy.push(*life);
    }
    copy
}
