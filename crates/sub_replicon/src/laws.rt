//! Laws of every replicon object that is sent.

ghost use Rattle.sub_replicon.specs.Laws.{IdIsRead, DoorsAreRead, RefusedAtAPlace, SentComesNext, RoutesArrive};

/// What an object's bytes say is read again, whatever follows them: its identifier, and its doors, if they are one to eight of one
/// file. It does no work.
pub fn written_is_read()
    ensures id { IdIsRead }
    ensures doors { DoorsAreRead }
    ensures sent { SentComesNext }
{}

/// An object that is sent and received has the routes that it had, in the same order. It does no work.
pub fn routes_arrive()
    ensures { RoutesArrive }
{}

/// What cannot stand in an object's bytes is told at the input's end, at the place of the number of doors, or at that of the index
/// of a door. It does no work.
pub fn refused_at_a_place()
    ensures { RefusedAtAPlace }
{}
