//! The heads are those of the letters that nodes write.

ghost use Rattle.std.specs.Prelude.{◌≡◌, ℕ, IsSomeAnd, List};
ghost use Rattle.std.specs.Option.{option_map};
ghost use Rattle.hist_plain.specs.declared.event.Event.{Event as AnEvent};
ghost use Rattle.pager_channel.specs.declared.numbers.Ops.{Ops as Numbers};
ghost use Rattle.page_messages.specs.declared.paged.PagedFile.{PagedFile as AFile};
ghost use Rattle.page_messages.specs.Written.{AreFramesFor};
ghost use Rattle.tower_core.specs.TreeShape.{TreeShape};
ghost use Rattle.tower_core.specs.Trail.{State};
ghost use Rattle.layer_laws.specs.Side.{Side};
ghost use Rattle.spr_report.specs.Heads.{heads_of};
ghost use Rattle.spr_report.specs.Letters.{BeginBoth, Letters, IsWritten, letters_of, written_heads};

/// What nodes write for an event, by their own tables, has the heads that the table of messages gives.
pub fn heads_are_of_the_letters()
    ensures { (shape : TreeShape) (file : AFile) (ops : Numbers) (state : State) (s : Side) (above : List ℕ) (event : AnEvent) →
        IsWritten shape state s above event →
        heads_of shape file ops state event ≡ option_map {T = Letters} (written_heads file ops) (letters_of s above event) }
{}

/// The heads that are printed for an event are those of the two frames that went for it.
pub fn heads_are_of_the_frames()
    ensures { (shape : TreeShape) (file : AFile) (ops : Numbers) (state : State) (s : Side) (above : List ℕ) (event : AnEvent) (first second : List ℕ) →
        AreFramesFor shape state ops file s above event first second →
        IsSomeAnd (heads_of shape file ops state event) (BeginBoth first second) }
{
    // Only the proof needs this: the law above.
    heads_are_of_the_letters();
}
