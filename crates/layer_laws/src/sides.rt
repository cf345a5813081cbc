//! What holds of the tables along every trail. Each law is the contract of a function that does nothing.

ghost use Rattle.std.specs.Prelude.{◌≡◌, ◌≢◌, ◌+◌, ◌≤◌, ◌++◌, ◌∷◌, [], List, Option, length, ℕ};
ghost use Rattle.hist_plain.specs.declared.event.Event.{Event as AnEvent};
ghost use Rattle.tower_core.specs.declared.step.Step.{Step as AStep};
ghost use Rattle.tower_core.specs.declared.step.Step.TheVariants.{Untouched};
ghost use Rattle.tower_core.specs.Column.{Column, IsCoherent, IsStepOf, MayStep, column_after};
ghost use Rattle.tower_core.specs.TreeShape.{IsTree, TreeShape};
ghost use Rattle.tower_core.specs.Trail.{IsAllowed, IsRun, of_page, start, state_of, step_of};
ghost use Rattle.layer_laws.specs.Side.{Side};
ghost use Rattle.layer_laws.specs.Shown.{AreCopies, AreRights};
ghost use Rattle.layer_laws.specs.Sent.{AreBrought, AreSent, IsGrounded};
ghost use Rattle.layer_laws.specs.Tables.{AreAllCopies, AreAllRights, AreBare, AreBytesMoved, AreMoved};

/// The rights of one page. A step that is allowed on a coherent page, and moves the tables as it
/// must, keeps their rights true. Nothing is asked of the bytes.
pub fn step_keeps_rights()
    ensures { (shape : TreeShape) (len : ℕ) (col : Column) (brings : Option (List ℕ))
        (step : AStep) (old new : ℕ → Side) →
        IsTree shape → IsStepOf shape step → IsCoherent shape len col → MayStep shape col step →
        AreRights shape col old → AreSent shape brings step old new →
        AreRights shape (column_after shape len col step) new }
{}

/// The bytes of one page. Where the rights are true, such a step keeps each copy the page at its
/// own place, and the ground's page the one at the ground's.
pub fn step_keeps_copies()
    ensures { (shape : TreeShape) (len : ℕ) (col : Column) (content content' : ℕ → List ℕ)
        (brings : Option (List ℕ)) (step : AStep) (old new : ℕ → Side) (base base' : List ℕ) →
        IsTree shape → IsStepOf shape step → IsCoherent shape len col → MayStep shape col step →
        AreRights shape col old → AreCopies shape col content old base →
        AreSent shape brings step old new → IsGrounded shape step old base base' →
        AreBrought shape brings step old base (content' (len + 1)) →
        ((place : ℕ) → place ≤ len → content' place ≡ content place) →
        AreCopies shape (column_after shape len col step) content' new base' }
{}

/// The rights of all pages of a file, after each allowed event of any of the thirteen kinds.
pub fn event_keeps_rights()
    ensures { (shape : TreeShape) (pages : ℕ) (trail : List AnEvent) (event : AnEvent)
        (brings : Option (List ℕ)) (old new : ℕ → ℕ → Side) →
        IsTree shape → IsRun shape pages start trail →
        IsAllowed shape pages (state_of shape trail) event →
        AreAllRights shape trail old → AreMoved shape trail event brings old new →
        AreAllRights shape (trail ++ event ∷ []) new }
{}

/// The bytes of all pages of a file, after each allowed event of any of the thirteen kinds.
pub fn event_keeps_copies()
    ensures { (shape : TreeShape) (pages : ℕ) (trail : List AnEvent) (event : AnEvent)
        (brings : Option (List ℕ)) (old new : ℕ → ℕ → Side) →
        IsTree shape → IsRun shape pages start trail →
        IsAllowed shape pages (state_of shape trail) event →
        AreAllRights shape trail old → AreMoved shape trail event brings old new →
        (content content' : ℕ → ℕ → List ℕ) (base base' : ℕ → List ℕ) →
        AreAllCopies shape trail content old base →
        AreBytesMoved shape trail event brings content content' old base base' →
        AreAllCopies shape (trail ++ event ∷ []) content' new base' }
{}

/// Tables in which nobody has anything are true before the first event.
pub fn tables_at_start()
    ensures rights { (shape : TreeShape) (sides : ℕ → ℕ → Side) →
        AreBare sides → AreAllRights shape [] sides }
    ensures copies { (shape : TreeShape) (content : ℕ → ℕ → List ℕ) (sides : ℕ → ℕ → Side)
        (base : ℕ → List ℕ) →
        AreBare sides → ((page : ℕ) → base page ≡ content page 0) →
        AreAllCopies shape [] content sides base }
{}

/// What is left to show of an event's tables: a step on the event's page where it has one, and that
/// all other tables stay.
pub fn event_moves_its_page()
    ensures page { (shape : TreeShape) (trail : List AnEvent) (event : AnEvent)
        (brings : Option (List ℕ)) (old new : ℕ → ℕ → Side) (page : ℕ) (step : AStep) →
        ((p : ℕ) → step_of (state_of shape trail).life p event ≡ of_page p page step) →
        AreSent shape brings step (old page) (new page) →
        ((p node : ℕ) → p ≢ page → new p node ≡ old p node) →
        AreMoved shape trail event brings old new }
    ensures nothing { (shape : TreeShape) (trail : List AnEvent) (event : AnEvent)
        (brings : Option (List ℕ)) (old new : ℕ → ℕ → Side) →
        ((p : ℕ) → step_of (state_of shape trail).life p event ≡ Untouched) →
        ((p node : ℕ) → new p node ≡ old p node) →
        AreMoved shape trail event brings old new }
{}
