//! Which doors an object may have.

ghost use Rattle.std.specs.Prelude.{◌≡◌, true};
ghost use Rattle.sub_replicon.specs.Replicas.{AreReplicas, AreOfOneFile};
ghost use Rattle.sub_replicon.specs.Doors.{may_follow, may_have};

use crate::MAX_DOORS;
use marshal_buf::Door;

/// Whether these are one to eight doors, of one file.
pub fn are_replicas(doors: &[Door]) -> bool
    ensures yes { result ≡ true → AreReplicas doors.now }
    ensures no { AreReplicas doors.now → result ≡ true }
{
    !doors.is_empty() && doors.len() <= MAX_DOORS && are_of_one_file(doors)
}

/// Whether each door is of the first one's file.
fn are_of_one_file(doors: &[Door]) -> bool
    ensures yes { result ≡ true → AreOfOneFile doors.now }
    ensures no { AreOfOneFile doors.now → result ≡ true }
{
    for (k, door) in doors.iter().enumerate() {
        if !may_follow(&doors[..k], *door) {
            return false;
        }
    }
    true
}

/// Whether an object may have so many doors.
pub(crate) fn may_have(number: u32) -> bool
    ensures { result ≡ may_have number }
{
    1 <= number && number as usize <= MAX_DOORS
}

/// Whether the door may stand behind these: it is the first, or of the first one's file.
pub(crate) fn may_follow(doors: &[Door], door: Door) -> bool
    ensures { result ≡ may_follow doors.now door }
{
    match doors.first() {
        Some(first) => door.file == first.file,
        None => true,
    }
}
