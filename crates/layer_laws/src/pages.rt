//! What holds of every trail, whoever made it. Each law is the contract of a function that does nothing.

ghost use Rattle.std.specs.Prelude.{List, Some, false, length, replicate, true, ℕ, ◌*◌, ◌+◌, ◌++◌, ◌≡◌, ◌≢◌, ◌≤◌};
ghost use Rattle.hist_plain.specs.declared.event.Event.{Event as AnEvent};
ghost use Rattle.hist_plain.specs.declared.event.Op.{Op as AnOp};
ghost use Rattle.hist_plain.specs.Event.{page_of_op};
ghost use Rattle.hist_plain.specs.History.{page_in};
ghost use Rattle.hist_plain.specs.Plain.{bytes_at, overwritten, place_of};
ghost use Rattle.tower_core.specs.declared.right.Right.{Right as ARight};
ghost use Rattle.tower_core.specs.Legal.{IsLegal, IsLegalNext, file_after, shown};
ghost use Rattle.tower_core.specs.TreeShape.{IsTree, IsUpper, TreeShape};
ghost use Rattle.tower_core.specs.Trail.{IsAllowed, IsRun, newest_of, right_of, start, state_of};
ghost use Rattle.layer_laws.specs.Granted.{AgreeOnGranted, is_granted_in};
ghost use Rattle.layer_laws.specs.PlacesShown.{access_next, answer_next, page_next, page_shown, told_bytes};

/// A page that was never granted. No node but the ground has a right on it, and no access that
/// counts reads, writes or clears it.
pub fn no_access_before_grant()
    ensures rights { (shape : TreeShape) (pages : ℕ) (trail : List AnEvent) (page node : ℕ) →
        IsTree shape → IsRun shape pages start trail → is_granted_in page trail ≡ false →
        IsUpper shape node → right_of shape trail node page ≡ ARight.Nothing }
    ensures access { (shape : TreeShape) (pages : ℕ) (trail : List AnEvent)
        (caller number node page : ℕ) (op : AnOp) →
        IsTree shape → IsRun shape pages start trail → page_of_op op ≡ Some page →
        IsAllowed shape pages (state_of shape trail)
        (access_next shape trail caller number node op) →
        is_granted_in page trail ≡ true }
{}

/// Two files that agree on the granted pages. Each read is answered alike, and a trail that is legal
/// over the one is legal over the other. So the bytes that each page's first grant found tell every
/// answer, and nothing is asked of the other pages.
pub fn granted_pages_tell_answers()
    ensures answers { (shape : TreeShape) (size pages : ℕ) (one other : List ℕ)
        (trail : List AnEvent) (caller number node life page off len : ℕ) →
        IsTree shape → length one ≡ pages * size → length other ≡ pages * size →
        IsLegal shape size pages one trail →
        IsLegalNext shape size pages one trail
        (AnEvent.Access caller number node life (AnOp.Read page off len)) →
        AgreeOnGranted size one other trail →
        answer_next shape size one trail
        (AnEvent.Access caller number node life (AnOp.Read page off len)) ≡
        answer_next shape size other trail
        (AnEvent.Access caller number node life (AnOp.Read page off len)) }
    ensures legal { (shape : TreeShape) (size pages : ℕ) (one other : List ℕ) (trail : List AnEvent) →
        length one ≡ pages * size → length other ≡ pages * size →
        IsLegal shape size pages one trail → AgreeOnGranted size one other trail →
        IsLegal shape size pages other trail }
{}

/// A range within a page of a file. To read, write or clear it is to do so in that page's bytes, and
/// each other page stays.
pub fn range_is_of_its_page()
    ensures read { (size page off len : ℕ) (bytes : List ℕ) →
        off + len ≤ size → page * size + size ≤ length bytes →
        bytes_at bytes (place_of size page off) len ≡ bytes_at (page_in size bytes page) off len }
    ensures write { (size page off : ℕ) (bytes new : List ℕ) →
        off + length new ≤ size → page * size + size ≤ length bytes →
        page_in size (overwritten bytes (place_of size page off) new) page ≡
        overwritten (page_in size bytes page) off new }
    ensures clear { (size page : ℕ) (bytes : List ℕ) → page * size + size ≤ length bytes →
        page_in size (overwritten bytes (place_of size page 0) (replicate size 0)) page ≡
        replicate size 0 }
    ensures others { (size page other off : ℕ) (bytes new : List ℕ) →
        other ≢ page → off + length new ≤ size →
        place_of size other off + length new ≤ length bytes →
        page_in size (overwritten bytes (place_of size other off) new) page ≡
        page_in size bytes page }
{}

/// What the places of a trail show. Later events leave it, and from the newest write of a page on
/// each place shows the page as it is.
pub fn places_keep_their_pages()
    ensures earlier { (shape : TreeShape) (size : ℕ) (bytes : List ℕ)
        (before events : List AnEvent) (page place : ℕ) → place ≤ length before →
        page_shown shape size bytes (before ++ events) page place ≡
        page_shown shape size bytes before page place }
    ensures newest { (shape : TreeShape) (size pages : ℕ) (bytes : List ℕ)
        (trail : List AnEvent) (page place : ℕ) →
        length bytes ≡ pages * size → IsLegal shape size pages bytes trail →
        newest_of shape trail page ≤ place → place ≤ length trail →
        page_shown shape size bytes trail page place ≡
        page_in size (file_after shape size bytes trail).bytes page }
{}

/// An access that counts and may come next. A read is answered with a range of its node's copy, and
/// a write or clear makes of the page what it makes of the copy.
pub fn access_is_of_the_copy()
    ensures read { (shape : TreeShape) (size pages : ℕ) (bytes : List ℕ) (trail : List AnEvent)
        (caller number node : ℕ) → IsTree shape → length bytes ≡ pages * size →
        IsLegal shape size pages bytes trail →
        (page off len : ℕ) →
        IsLegalNext shape size pages bytes trail
        (access_next shape trail caller number node (AnOp.Read page off len)) →
        answer_next shape size bytes trail
        (access_next shape trail caller number node (AnOp.Read page off len)) ≡
        Some (told_bytes (bytes_at (shown shape size bytes trail node page) off len)) }
    ensures write { (shape : TreeShape) (size pages : ℕ) (bytes : List ℕ) (trail : List AnEvent)
        (caller number node : ℕ) → IsTree shape → length bytes ≡ pages * size →
        IsLegal shape size pages bytes trail →
        (page off : ℕ) (new : List ℕ) →
        IsLegalNext shape size pages bytes trail
        (access_next shape trail caller number node (AnOp.Write page off new)) →
        page_next shape size bytes trail
        (access_next shape trail caller number node (AnOp.Write page off new)) page ≡
        overwritten (shown shape size bytes trail node page) off new }
    ensures clear { (shape : TreeShape) (size pages : ℕ) (bytes : List ℕ) (trail : List AnEvent)
        (caller number node : ℕ) → IsTree shape → length bytes ≡ pages * size →
        IsLegal shape size pages bytes trail →
        (page : ℕ) →
        IsLegalNext shape size pages bytes trail
        (access_next shape trail caller number node (AnOp.Clear page)) →
        page_next shape size bytes trail
        (access_next shape trail caller number node (AnOp.Clear page)) page ≡
        replicate size 0 }
{}
