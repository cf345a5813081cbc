//! Laws of objects that are bound and received.

ghost use Rattle.client_objects.specs.Laws.{BoundIsReceived, StartsBound, ReceivedLeads, FoundLeads};

/// What is bound for a file of the stack at a view is received and leads there, and the names start with such
/// objects.
pub fn bound_is_received()
    ensures bound { BoundIsReceived }
    ensures starts { StartsBound }
{}

/// What is received leads to a view and a file of the stack.
pub fn received_leads()
    ensures { ReceivedLeads }
{}

/// From each machine, the calls of what leads to a view of a mounted stack go to a node above the ground.
pub fn found_leads()
    ensures { FoundLeads }
{}
