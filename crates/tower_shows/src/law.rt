//! What holds along every trail. Each law is the contract of a function that does nothing.

ghost use Rattle.std.specs.Prelude.{Bool, IfSome, List, Option, Some, drop, false, length, replicate, take, ℕ, [], ◌*◌, ◌++◌, ◌≡◌, ◌≢◌, ◌≤◌, ◌∷◌};
ghost use Rattle.hist_plain.specs.declared.event.Answer.TheVariants.{Done, Life, Revoked};
ghost use Rattle.hist_plain.specs.declared.event.Event.{Event as AnEvent};
ghost use Rattle.hist_plain.specs.declared.event.Keep.{Keep as AKeep};
ghost use Rattle.hist_plain.specs.declared.event.Op.{Op as AnOp};
ghost use Rattle.hist_plain.specs.History.{IsZeroPage, page_in};
ghost use Rattle.hist_plain.specs.Plain.{overwritten, plainly};
ghost use Rattle.tower_core.specs.declared.right.Right.{Right as ARight};
ghost use Rattle.tower_core.specs.declared.step.Step.{Step as AStep};
ghost use Rattle.tower_core.specs.declared.step.Step.TheVariants.{Grants};
ghost use Rattle.tower_core.specs.Legal.{IsFilled};
ghost use Rattle.tower_core.specs.TreeShape.{IsTree, IsUpper, TreeShape, parent};
ghost use Rattle.tower_core.specs.Trail.{right_of, state_of};
ghost use Rattle.layer_laws.specs.Sent.{AreBrought};
ghost use Rattle.layer_laws.specs.Side.{Side};
ghost use Rattle.layer_laws.specs.Tables.{AreBare};
ghost use Rattle.layer_laws.specs.Granted.{is_granted_in};
ghost use Rattle.layer_laws.specs.PlacesShown.{access_next, answer_next, page_next, told_bytes};
ghost use Rattle.page_exchange.specs.Ground.{Tells, pages_given};
ghost use Rattle.page_exchange.specs.Steps.{AreSentAt, IsSent, given_up};
ghost use Rattle.tower_shows.specs.Began.{ArePagesOf, AreSame, BeganWith, IsNextIn, IsStepOn, IsTrueTo};
ghost use Rattle.tower_shows.specs.Since.{AreSince, GroundIsSince};

/// The rights are true to the trail before the first event, and after each that is allowed, if it moved the tables by its
/// step on its page; and so they are in tables that differ nowhere.
pub fn events_keep_rights()
    ensures start { (shape : TreeShape) (size pages : ℕ) (sides : ℕ → ℕ → Side) →
        IsTree shape → AreBare sides → IsTrueTo shape size pages [] sides }
    ensures step { (shape : TreeShape) (size pages : ℕ) (trail : List AnEvent) (event : AnEvent)
        (page : ℕ) (step : AStep) (brings : Option (List ℕ)) (old new : ℕ → ℕ → Side) →
        IsTrueTo shape size pages trail old → IsNextIn shape size pages trail event →
        IsStepOn shape trail event page step → AreSentAt shape page brings step old new →
        IsTrueTo shape size pages (trail ++ event ∷ []) new }
    ensures same { (shape : TreeShape) (size pages : ℕ) (trail : List AnEvent)
        (old new : ℕ → ℕ → Side) →
        IsTrueTo shape size pages trail old → AreSame old new → IsTrueTo shape size pages trail new }
{}

/// The bytes are those of the file that the trail began with, as long as the ground tells its pages: before the first
/// event, and after each that is legal and brought its bytes. What an event brings to the ground is the ground's page from
/// then on.
pub fn events_keep_bytes()
    ensures start { (shape : TreeShape) (size pages : ℕ) (opening : List ℕ)
        (sides : ℕ → ℕ → Side) (told : List (List ℕ)) →
        IsTree shape → AreBare sides → length opening ≡ pages * size →
        ArePagesOf size pages opening told →
        BeganWith shape size pages opening [] sides (Some told) }
    ensures step { (shape : TreeShape) (size pages : ℕ) (opening : List ℕ)
        (trail : List AnEvent) (event : AnEvent) (page : ℕ) (step : AStep)
        (brings : Option (List ℕ)) (old new : ℕ → ℕ → Side) (told told' : Option (List (List ℕ))) →
        IsTrueTo shape size pages trail old → IsNextIn shape size pages trail event →
        IsStepOn shape trail event page step → AreSentAt shape page brings step old new →
        BeganWith shape size pages opening trail old told →
        IsFilled shape size opening trail event →
        ((base : ℕ → List ℕ) → Tells told base → AreBrought shape brings step (old page) (base page)
        (page_next shape size opening trail event page)) →
        told' ≡ pages_given page (given_up shape step (old page)) told →
        BeganWith shape size pages opening (trail ++ event ∷ []) new told' }
    ensures same { (shape : TreeShape) (size pages : ℕ) (opening : List ℕ)
        (trail : List AnEvent) (old new : ℕ → ℕ → Side) (told : Option (List (List ℕ))) →
        BeganWith shape size pages opening trail old told → AreSame old new →
        BeganWith shape size pages opening trail new told }
{}

/// A grant to a node that has nothing. Its copy is then the page as its parent showed it, so whether that is zeros says
/// whether the grant is a ZeroFill. The first grant of a page is to a node above the ground, and its copy is the page
/// of the file that the trail began with.
pub fn grants_find_their_page()
    ensures zeros { (shape : TreeShape) (size pages : ℕ) (opening : List ℕ)
        (trail : List AnEvent) (node page : ℕ) (write : Bool) (old new : ℕ → ℕ → Side)
        (told : Option (List (List ℕ))) →
        IsTrueTo shape size pages trail old →
        IsNextIn shape size pages trail (AnEvent.PageIn node page write) →
        right_of shape trail node page ≡ ARight.Nothing →
        IsSent shape told page (Grants node write) old new →
        BeganWith shape size pages opening trail old told →
        IsZeroPage size (new page node).copy →
        IsFilled shape size opening trail (AnEvent.ZeroFill node page write) }
    ensures others { (shape : TreeShape) (size pages : ℕ) (opening : List ℕ)
        (trail : List AnEvent) (node page : ℕ) (write : Bool) (old new : ℕ → ℕ → Side)
        (told : Option (List (List ℕ))) →
        IsTrueTo shape size pages trail old →
        IsNextIn shape size pages trail (AnEvent.PageIn node page write) →
        IsSent shape told page (Grants node write) old new →
        BeganWith shape size pages opening trail old told →
        (right_of shape trail node page ≡ ARight.Nothing → IsZeroPage size (new page node).copy → ⊥) →
        IsFilled shape size opening trail (AnEvent.PageIn node page write) }
    ensures first { (shape : TreeShape) (size pages : ℕ) (trail : List AnEvent)
        (node page : ℕ) (write : Bool) (sides : ℕ → ℕ → Side) →
        IsTrueTo shape size pages trail sides →
        IsNextIn shape size pages trail (AnEvent.PageIn node page write) →
        is_granted_in page trail ≡ false →
        (parent shape node ≡ 0) × (right_of shape trail node page ≡ ARight.Nothing) }
    ensures kept { (shape : TreeShape) (size pages : ℕ) (opening : List ℕ)
        (trail : List AnEvent) (node page : ℕ) (write : Bool) (old new : ℕ → ℕ → Side)
        (told : Option (List (List ℕ))) →
        IsTrueTo shape size pages trail old →
        IsNextIn shape size pages trail (AnEvent.PageIn node page write) →
        is_granted_in page trail ≡ false →
        IsSent shape told page (Grants node write) old new →
        BeganWith shape size pages opening trail old told →
        (new page node).copy ≡ page_in size opening page }
{}

/// What an access is answered, where it comes next. A read that counts is answered with its range of the node's copy, and
/// a write or clear makes of the page what it makes of the copy. An Open tells the life, and an access of another
/// life is revoked.
pub fn tables_tell_answers()
    ensures read { (shape : TreeShape) (size pages : ℕ) (opening : List ℕ) (trail : List AnEvent)
        (sides : ℕ → ℕ → Side) (told : Option (List (List ℕ)))
        (caller number node page off len : ℕ) →
        IsTrueTo shape size pages trail sides → BeganWith shape size pages opening trail sides told →
        IsNextIn shape size pages trail
        (access_next shape trail caller number node (AnOp.Read page off len)) →
        answer_next shape size opening trail
        (access_next shape trail caller number node (AnOp.Read page off len)) ≡
        Some (told_bytes (take len (drop off (sides page node).copy))) }
    ensures write { (shape : TreeShape) (size pages : ℕ) (opening : List ℕ) (trail : List AnEvent)
        (sides : ℕ → ℕ → Side) (told : Option (List (List ℕ)))
        (caller number node page off : ℕ) (new : List ℕ) →
        IsTrueTo shape size pages trail sides → BeganWith shape size pages opening trail sides told →
        IsNextIn shape size pages trail
        (access_next shape trail caller number node (AnOp.Write page off new)) →
        page_next shape size opening trail
        (access_next shape trail caller number node (AnOp.Write page off new)) page ≡
        overwritten (sides page node).copy off new }
    ensures clear { (shape : TreeShape) (size pages : ℕ) (opening : List ℕ) (trail : List AnEvent)
        (sides : ℕ → ℕ → Side) (told : Option (List (List ℕ)))
        (caller number node page : ℕ) →
        IsTrueTo shape size pages trail sides → BeganWith shape size pages opening trail sides told →
        IsNextIn shape size pages trail
        (access_next shape trail caller number node (AnOp.Clear page)) →
        page_next shape size opening trail
        (access_next shape trail caller number node (AnOp.Clear page)) page ≡ replicate size 0 }
    ensures open { (shape : TreeShape) (size : ℕ) (opening : List ℕ) (trail : List AnEvent)
        (caller number node life : ℕ) → IsUpper shape node →
        answer_next shape size opening trail (AnEvent.Access caller number node life AnOp.Open) ≡
        Some (plainly (Life ((state_of shape trail).life node))) }
    ensures revoked { (shape : TreeShape) (size : ℕ) (opening : List ℕ) (trail : List AnEvent)
        (caller number node life : ℕ) (op : AnOp) → IsUpper shape node → op ≢ AnOp.Open →
        life ≢ (state_of shape trail).life node →
        answer_next shape size opening trail (AnEvent.Access caller number node life op) ≡
        Some (plainly (Revoked ((state_of shape trail).life node))) }
    ensures done { (shape : TreeShape) (size : ℕ) (opening : List ℕ) (trail : List AnEvent)
        (caller number node : ℕ) (op : AnOp) → IsUpper shape node → op ≢ AnOp.Open →
        ((page off len : ℕ) → op ≢ AnOp.Read page off len) →
        answer_next shape size opening trail (access_next shape trail caller number node op) ≡
        Some (plainly Done) }
{}

/// A completed sync. From then on each page of the ground, and each that a message brings it later, is the page as it was
/// at a place from the sync's own on; and pages that were so stay so.
pub fn synced_pages_stay()
    ensures synced { (shape : TreeShape) (size pages : ℕ) (opening : List ℕ) (trail : List AnEvent)
        (sides : ℕ → ℕ → Side) (told : Option (List (List ℕ)))
        (caller number node from : ℕ) (keep : AKeep) →
        IsTrueTo shape size pages trail sides → BeganWith shape size pages opening trail sides told →
        IsNextIn shape size pages trail (AnEvent.Synced caller number node from keep) →
        GroundIsSince shape size pages opening (trail ++ AnEvent.Synced caller number node from keep ∷ []) from }
    ensures ground { (shape : TreeShape) (size pages : ℕ) (opening : List ℕ) (trail : List AnEvent)
        (sides : ℕ → ℕ → Side) (event : AnEvent) (from : ℕ) →
        IsTrueTo shape size pages trail sides → IsNextIn shape size pages trail event →
        from ≤ length trail → GroundIsSince shape size pages opening trail from →
        GroundIsSince shape size pages opening (trail ++ event ∷ []) from }
    ensures told { (shape : TreeShape) (size pages : ℕ) (opening : List ℕ) (trail : List AnEvent)
        (sides : ℕ → ℕ → Side) (told : Option (List (List ℕ))) (from : ℕ) →
        IsTrueTo shape size pages trail sides → BeganWith shape size pages opening trail sides told →
        GroundIsSince shape size pages opening trail from →
        IfSome told (AreSince shape size opening trail from) }
    ensures later { (shape : TreeShape) (size : ℕ) (opening : List ℕ)
        (trail more : List AnEvent) (from : ℕ) (told : List (List ℕ)) →
        AreSince shape size opening trail from told →
        AreSince shape size opening (trail ++ more) from told }
{}
