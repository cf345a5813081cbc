//! What holds of every trail, whoever made it. Each law is the contract of a function that does
//! nothing.

ghost use Rattle.std.specs.Prelude.{List, Some, filter, length, slice_index, ℕ, ◌*◌, ◌+◌, ◌<◌, ◌≡◌, ◌≤◌};
ghost use Rattle.std.specs.List.{fold};
ghost use Rattle.hist_plain.specs.declared.event.Event.{Event as AnEvent};
ghost use Rattle.hist_plain.specs.declared.event.Op.{Op as AnOp};
ghost use Rattle.hist_plain.specs.Event.{page_of_op};
ghost use Rattle.hist_plain.specs.History.{AllSuit};
ghost use Rattle.hist_plain.specs.Plain.{fresh};
ghost use Rattle.tower_core.specs.declared.right.Right.{Right};
ghost use Rattle.tower_core.specs.declared.step.Step.{Step as AStep};
ghost use Rattle.tower_core.specs.declared.step.Step.TheVariants.{Untouched};
ghost use Rattle.tower_core.specs.Column.{Column, IsCoherent, IsStepOf, MayStep, column_after, right_at_start};
ghost use Rattle.tower_core.specs.Legal.{IsLegal, file_after, plain_shape};
ghost use Rattle.tower_core.specs.Messages.{is_message_of, right_after_message};
ghost use Rattle.tower_core.specs.TreeShape.{IsTree, TreeShape, nodes};
ghost use Rattle.tower_core.specs.Trail.{IsAllowed, IsCoherentState, IsFramed, IsOldest, IsRun, State, at_of, newest_of, right_of, start, state_after, state_of};

/// The law of one step. From any coherent column each allowed step of the table gives a coherent
/// column, and so does an event that does not touch it. Nothing is asked of how a column starts.
pub fn step_keeps_coherence()
    ensures step { (shape : TreeShape) (len : ℕ) (col : Column) (step : AStep) →
        IsTree shape → IsStepOf shape step → IsCoherent shape len col → MayStep shape col step →
        IsCoherent shape (len + 1) (column_after shape len col step) }
    ensures other_event { (shape : TreeShape) (len : ℕ) (col : Column) →
        IsTree shape → IsCoherent shape len col →
        IsCoherent shape (len + 1) (column_after shape len col Untouched) }
{}

/// The law of frames, over the pages that a leaf holds: no allowed event makes them more than its
/// frames.
pub fn event_keeps_frames()
    ensures { (shape : TreeShape) (pages : ℕ) (s : State) (event : AnEvent) →
        IsTree shape → IsFramed shape pages s → IsAllowed shape pages s event →
        IsFramed shape pages (state_after shape s event) }
{}

/// A file with no event is coherent, and each allowed event keeps it so.
pub fn event_keeps_coherence()
    ensures start { (shape : TreeShape) (pages : ℕ) → IsCoherentState shape pages start }
    ensures event { (shape : TreeShape) (pages : ℕ) (s : State) (event : AnEvent) →
        IsTree shape → IsCoherentState shape pages s → IsAllowed shape pages s event →
        IsCoherentState shape pages (state_after shape s event) }
    ensures ground { (shape : TreeShape) (pages : ℕ) (s : State) (event : AnEvent) (page : ℕ) →
        IsTree shape → IsAllowed shape pages s event →
        ((state_after shape s event).column page).right 0 ≡ (s.column page).right 0 }
{}

/// The ground has Write on every page after every trail of allowed events.
pub fn ground_keeps_write()
    ensures { (shape : TreeShape) (pages : ℕ) (trail : List AnEvent) →
        IsTree shape → IsRun shape pages start trail → (page : ℕ) →
        right_of shape trail 0 page ≡ Right.Write }
{}

/// Every legal trail is coherent, for every tree and every file that it starts with. The same holds
/// of every trail of allowed events, whatever the bytes say.
pub fn trail_is_coherent()
    ensures legal { (shape : TreeShape) (size pages : ℕ) (bytes : List ℕ) (trail : List AnEvent) →
        IsTree shape → IsLegal shape size pages bytes trail →
        IsCoherentState shape pages (state_of shape trail) }
    ensures allowed { (shape : TreeShape) (pages : ℕ) (trail : List AnEvent) →
        IsTree shape → IsRun shape pages start trail →
        IsCoherentState shape pages (state_of shape trail) }
    ensures legal_is_allowed { (shape : TreeShape) (size pages : ℕ) (bytes : List ℕ)
        (trail : List AnEvent) →
        IsLegal shape size pages bytes trail → IsRun shape pages start trail }
    ensures len { (shape : TreeShape) (trail : List AnEvent) →
        (state_of shape trail).len ≡ length trail }
{}

/// After a legal trail an access of its node's life that is allowed finds a copy whose place is not
/// before the newest write of the page.
pub fn access_sees_newest()
    ensures { (shape : TreeShape) (size pages : ℕ) (bytes : List ℕ) (trail : List AnEvent) →
        IsTree shape → IsLegal shape size pages bytes trail →
        (caller number node page : ℕ) (op : AnOp) → page_of_op op ≡ Some page →
        IsAllowed shape pages (state_of shape trail)
        (AnEvent.Access caller number node ((state_of shape trail).life node) op) →
        newest_of shape trail page ≤ at_of shape trail node page }
{}

/// After a trail of allowed events a node has one least recently used page, if it holds any.
pub fn oldest_page_is_one()
    ensures { (shape : TreeShape) (pages : ℕ) (trail : List AnEvent) →
        IsTree shape → IsRun shape pages start trail → (node a b : ℕ) → 0 < node →
        IsOldest pages (state_of shape trail) node a → IsOldest pages (state_of shape trail) node b →
        a ≡ b }
{}

/// A node's right is what the column of rights makes of the node's own messages alone.
pub fn right_is_its_own_messages()
    ensures { (shape : TreeShape) (trail : List AnEvent) (node page : ℕ) →
        right_of shape trail node page ≡
        fold right_after_message (right_at_start node) (filter (is_message_of node page) trail) }
{}

/// The lives of the plain file are those of the nodes, after every trail.
pub fn lives_are_the_plain_files()
    ensures { (shape : TreeShape) (size : ℕ) (bytes : List ℕ) (trail : List AnEvent) (node : ℕ) →
        node < nodes shape →
        slice_index (file_after shape size bytes trail).lives node ≡ (state_of shape trail).life node }
{}

/// Each event of a legal trail names a node of the tree and stays in the plain file.
pub fn legal_trail_suits_the_file()
    ensures { (shape : TreeShape) (size pages : ℕ) (bytes : List ℕ) (trail : List AnEvent) →
        length bytes ≡ pages * size → IsLegal shape size pages bytes trail →
        AllSuit (plain_shape shape size) (fresh shape.parents bytes) trail }
{}
