//! What a trace prints of a page message, and what went over the wire for it.

ghost use Rattle.std.specs.Prelude.{IsSomeAnd};
ghost use Rattle.hist_plain.specs.declared.event.Event.{Event as AnEvent};
ghost use Rattle.spr_report.specs.Heads.{heads_of};
ghost use Rattle.spr_report.specs.Letters.{BeginBoth};
ghost use Rattle.stack_engine.specs.Engine.{EngineSeen, file_in, state_in, tree_in, wire_in};
ghost use Rattle.stack_engine.specs.Moves.{Sends};

use spr_report::heads_are_of_the_frames;

/// The heads that a trace prints for a page message of a tower begin the two frames in which the tower sent it.
///
/// It does nothing.
pub fn traced_heads_are_of_the_frames()
    ensures { (asked event : AnEvent) (old new : EngineSeen) → Sends asked old new event →
        IsSomeAnd (heads_of (tree_in old) (file_in old) (wire_in new).ops (state_in old) event) (BeginBoth (wire_in new).first (wire_in new).second) }
{
    heads_are_of_the_frames();
}
