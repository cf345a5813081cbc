//! Laws of what lines do.

ghost use Rattle.script_meaning.specs.Doors.{DropsOver, EachIsTold, RevokedByEach};

/// A line of an access on a replicon object is answered `revoked` exactly if the access was made by each door that the object had, and each
/// was answered with a life that is over, unless the last call was lost; the life is the last door's. A door is dropped only if it was answered so in
/// that line. It does no work.
pub fn revoked_by_each_door()
    ensures revoked { RevokedByEach }
    ensures told { EachIsTold }
    ensures drops { DropsOver }
{}
