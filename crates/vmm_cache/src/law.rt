//! What holds of a leaf along every trail. Each law is the contract of a function that does nothing.

ghost use Rattle.std.specs.Prelude.{◌≡◌, ◌≢◌, ◌<◌, ◌++◌, ◌∷◌, [], All, Bool, List, None, Some, length, ℕ};
ghost use Rattle.hist_plain.specs.declared.event.Event.{Event as AnEvent};
ghost use Rattle.tower_core.specs.declared.step.Step.{Step as AStep};
ghost use Rattle.tower_core.specs.declared.step.Step.TheVariants.{Reads, Writes};
ghost use Rattle.tower_core.specs.Column.{Column};
ghost use Rattle.tower_core.specs.TreeShape.{IsTree, TreeShape, frames_of};
ghost use Rattle.tower_core.specs.Trail.{HoldsNothing, IsAllowed, IsOldest, State, held_below, of_page, start, state_of, step_of};
ghost use Rattle.layer_laws.specs.Side.{Side};
ghost use Rattle.layer_laws.specs.Shown.{AreCopies, AreRights};
ghost use Rattle.page_messages.specs.declared.kinds.Answer.{Answer as AnAnswer};
ghost use Rattle.page_messages.specs.declared.kinds.Called.{Called as AnOrder};
ghost use Rattle.vmm_cache.specs.Uses.{oldest, used_last, uses_answered, uses_called};
ghost use Rattle.vmm_cache.specs.Used.{AreUses, answer_step, framed_at, order_step, uses_after};

/// The list of uses follows the trail: after each allowed event it is the list of the state after it, if it was that of the
/// state before.
pub fn uses_follow_the_trail()
    ensures start { (node : ℕ) → 0 < node → AreUses start node [] }
    ensures event { (shape : TreeShape) (pages : ℕ) (trail : List AnEvent) (event : AnEvent)
        (node page : ℕ) (step : AStep) (uses : List ℕ) →
        IsTree shape → IsAllowed shape pages (state_of shape trail) event →
        ((p : ℕ) → step_of (state_of shape trail).life p event ≡ of_page p page step) →
        AreUses (state_of shape trail) node uses →
        AreUses (state_of shape (trail ++ event ∷ [])) node (uses_after node step page uses) }
{}

/// Each message, and each access, makes of the list what its step in the trail does.
pub fn messages_list_as_their_steps()
    ensures answers { (node page : ℕ) (write : Bool) (what : AnAnswer) (uses : List ℕ) →
        uses_after node (answer_step node write what) page uses ≡ uses_answered what page uses }
    ensures orders { (node page : ℕ) (what : AnOrder) (uses : List ℕ) →
        uses_after node (order_step node what) page uses ≡ uses_called what page uses }
    ensures reads { (node page : ℕ) (uses : List ℕ) →
        uses_after node (Reads node) page uses ≡ used_last page uses }
    ensures writes { (node page : ℕ) (uses : List ℕ) →
        uses_after node (Writes node) page uses ≡ used_last page uses }
{}

/// The first page of the list is the least recently used one of the table of events, and there are as many pages in it as
/// the node holds.
pub fn victim_is_least_recently_used()
    ensures oldest { (s : State) (pages node page : ℕ) (uses : List ℕ) →
        AreUses s node uses → oldest uses ≡ Some page → page < pages → IsOldest pages s node page }
    ensures none { (s : State) (pages node : ℕ) (uses : List ℕ) →
        AreUses s node uses → oldest uses ≡ None → HoldsNothing pages s node }
    ensures many { (s : State) (pages node : ℕ) (uses : List ℕ) →
        AreUses s node uses → All (λ page. page < pages) uses →
        held_below s node pages ≡ length uses }
{}

/// That a leaf keeps nothing of a page on which it has no right leaves the tables true.
pub fn framed_tables_stay_true()
    ensures rights { (shape : TreeShape) (leaf : ℕ) (col : Column) (sides : ℕ → Side) →
        IsTree shape → frames_of shape leaf ≢ 0 →
        AreRights shape col sides → AreRights shape col (framed_at leaf sides) }
    ensures copies { (shape : TreeShape) (leaf : ℕ) (col : Column) (content : ℕ → List ℕ)
        (sides : ℕ → Side) (base : List ℕ) →
        AreRights shape col sides → AreCopies shape col content sides base →
        AreCopies shape col content (framed_at leaf sides) base }
{}
