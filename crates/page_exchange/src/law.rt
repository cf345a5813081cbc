//! What joins an exchange to the trail. Each law is the contract of a function that does nothing.

ghost use Rattle.std.specs.Prelude.{Bool, IfSome, IsSome, List, Option, length, ℕ, ◌<◌, ◌≡◌, ◌≢◌};
ghost use Rattle.page_ground.specs.Seen.{ReadsPage};
ghost use Rattle.tower_core.specs.Column.{Column, IsCoherent, MayStep, NoChildHolds};
ghost use Rattle.tower_core.specs.TreeShape.{IsUpper, TreeShape, parent};
ghost use Rattle.tower_core.specs.declared.right.Right.{Right as ARight};
ghost use Rattle.tower_core.specs.declared.step.Step.TheVariants.{Deletes, Denies, Flushes, Grants, PagesOut, Pushes, Reads, Writes};
ghost use Rattle.layer_laws.specs.Shown.{AreRights};
ghost use Rattle.layer_laws.specs.Side.{Side};
ghost use Rattle.page_messages.specs.declared.kinds.Asked.{Asked as AQuestion};
ghost use Rattle.page_messages.specs.declared.kinds.Called.{Called as AnOrder};
ghost use Rattle.page_messages.specs.declared.paged.About.{About as AnAbout};
ghost use Rattle.coherency_layer.specs.declared.node.Node.{Node as ALayer};
ghost use Rattle.coherency_layer.specs.Node as layers;
ghost use Rattle.page_exchange.specs.declared.table.Table.{Table as ATable};
ghost use Rattle.page_exchange.specs.Table.{side};
ghost use Rattle.page_exchange.specs.Allowed.{AllowAsking, AllowCalling, AllowsReading, AllowsWriting, grant_asked};
ghost use Rattle.page_exchange.specs.Exchange.{IsAboveChange, IsOwnChange};
ghost use Rattle.page_exchange.specs.Ground.{Tells, base_given, pages_given};
ghost use Rattle.page_exchange.specs.Moved.{AreExchangedAt, HasTable};

/// Tables that are true to the trail. What the trail allows next, the node's table and its parent's
/// allow, and the parent's has the node's right.
pub fn tables_allow_what_the_trail_does()
    ensures known { (shape : TreeShape) (col : Column) (sides : ℕ → Side) (node : ℕ) →
        AreRights shape col sides → IsUpper shape node → IsUpper shape (parent shape node) →
        (sides (parent shape node)).kids node ≡ (sides node).right }
    ensures reads { (shape : TreeShape) (col : Column) (sides : ℕ → Side) (node : ℕ) →
        AreRights shape col sides → IsUpper shape node → MayStep shape col (Reads node) →
        AllowsReading (sides node) }
    ensures writes { (shape : TreeShape) (col : Column) (sides : ℕ → Side) (node : ℕ) →
        AreRights shape col sides → IsUpper shape node → MayStep shape col (Writes node) →
        AllowsWriting (sides node) }
    ensures grants { (shape : TreeShape) (col : Column) (sides : ℕ → Side) (node : ℕ) →
        AreRights shape col sides → IsUpper shape node → (write full : Bool) →
        MayStep shape col (Grants node write) →
        AllowAsking shape sides node full (grant_asked write) }
    ensures denies { (shape : TreeShape) (col : Column) (sides : ℕ → Side) (node : ℕ) →
        AreRights shape col sides → IsUpper shape node → (full : Bool) →
        MayStep shape col (Denies node) →
        AllowAsking shape sides node full AQuestion.WriteOut × AllowCalling shape sides node AnOrder.DenyWrites }
    ensures pushes { (shape : TreeShape) (col : Column) (sides : ℕ → Side) (node : ℕ) →
        AreRights shape col sides → IsUpper shape node → (full : Bool) →
        MayStep shape col (Pushes node) →
        AllowAsking shape sides node full AQuestion.Sync × AllowCalling shape sides node AnOrder.WriteBack }
    ensures flushes { (shape : TreeShape) (col : Column) (sides : ℕ → Side) (node : ℕ) →
        AreRights shape col sides → IsUpper shape node → MayStep shape col (Flushes node) →
        AllowCalling shape sides node AnOrder.FlushBack }
    ensures deletes { (shape : TreeShape) (col : Column) (sides : ℕ → Side) (node : ℕ) →
        AreRights shape col sides → IsUpper shape node → MayStep shape col (Deletes node) →
        AllowCalling shape sides node AnOrder.DeleteRange }
    ensures pages_out { (shape : TreeShape) (col : Column) (sides : ℕ → Side) (node : ℕ) →
        AreRights shape col sides → IsUpper shape node → (len : ℕ) → IsCoherent shape len col →
        MayStep shape col (PagesOut node) →
        AllowAsking shape sides node (sides node).changed AQuestion.PageOut }
    ensures ends { (shape : TreeShape) (col : Column) (sides : ℕ → Side) (node : ℕ) →
        AreRights shape col sides → IsUpper shape node → (full : Bool) →
        col.right node ≡ ARight.Nothing → NoChildHolds shape col node →
        AllowAsking shape sides node full AQuestion.Done × AllowCalling shape sides node AnOrder.Destroy }
{}

/// An exchange about a page, where the other nodes' tables stayed, is one of the tables of all nodes.
pub fn exchange_is_of_two_tables()
    ensures between { (shape : TreeShape) (node page : ℕ) (right : ARight) (down up : Option (List ℕ))
        (sides sides' : ℕ → ℕ → Side) (own own' : ATable) (listed : List ℕ) →
        HasTable sides node (side own) → HasTable sides' node (side own') →
        IsOwnChange own own' (AnAbout.Page page) right down listed → (above above' : ALayer) →
        HasTable sides (parent shape node) (layers.side above) → HasTable sides' (parent shape node) (layers.side above') →
        IsAboveChange above above' node (AnAbout.Page page) right up →
        ((p m : ℕ) → m ≢ node → m ≢ parent shape node → sides' p m ≡ sides p m) →
        AreExchangedAt shape node page right down up sides sides' }
    ensures ground { (shape : TreeShape) (node page : ℕ) (right : ARight) (down up : Option (List ℕ))
        (sides sides' : ℕ → ℕ → Side) (own own' : ATable) (listed : List ℕ) →
        HasTable sides node (side own) → HasTable sides' node (side own') →
        IsOwnChange own own' (AnAbout.Page page) right down listed → parent shape node ≡ 0 →
        ((p m : ℕ) → m ≢ node → sides' p m ≡ sides p m) →
        AreExchangedAt shape node page right down up sides sides' }
{}

/// What the ground tells: a read gives the page, and bytes that come up are that page from then on.
pub fn ground_tells_its_pages()
    ensures read { (pages : Option (List (List ℕ))) (base : ℕ → List ℕ) (page : ℕ) (bytes : List ℕ) →
        Tells pages base → IsSome pages → IfSome pages (λ ps. page < length ps) →
        ReadsPage pages page bytes → bytes ≡ base page }
    ensures given { (pages : Option (List (List ℕ))) (base : ℕ → List ℕ) (page : ℕ)
        (up : Option (List ℕ)) →
        Tells pages base → Tells (pages_given page up pages) (base_given page up base) }
{}
