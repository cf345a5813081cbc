//! The laws of a ground's calls between its opening and its close.

ghost use Rattle.std.specs.Prelude.{◌≡◌, ◌+◌, ◌<◌, ◌≤◌, min, ℕ, List, [], Bool, true, false, get_or, set};
ghost use Rattle.mirror_rules.specs.Tree.{Tree, Seat, seats, limit};
ghost use Rattle.mirror_rules.specs.Steps.{Act, Write, Says, Done, Fault, Passes, Reads, Round, Look, Named};
ghost use Rattle.mirror_rules.specs.Steps.{Pays, Flushes, Puts, Halted, FlushStops};
ghost use Rattle.mirror_rules.specs.Claims.{Pairs, Every, Has, IsLive, HasPages, KeptOf, KeepsPages, Kind, Rose};
ghost use Rattle.mirror_rules.specs.Guards.{Medium};
ghost use Rattle.mirror_rules.specs.Levels.{Near, HasLevel, Even};

/// On any tree of mirrors a round asks each live disk once. If it was taken, a disk is live exactly if it took it, and one
/// did; if it was refused, no disk is left out, and the fault is that of a live disk whose count rose. A read asks live
/// disks until one gives the page.
pub fn rounds_ask_each_live_disk()
    ensures round { (a : Act) (t u : Tree) (s : Says) → Passes a t s u → Round a (seats t) s (seats u) }
    ensures read { (p : ℕ) (x : List ℕ) (t u : Tree) (s : Says) → Reads p x t s u → Look p x (seats t) s (seats u) }
{}

/// A flush changes no page, be it refused. Each disk that is live after it keeps the pages that it kept before, or the
/// ground's; after one that was taken each keeps the ground's, and a disk is live.
pub fn flush_keeps_the_pages()
    ensures same { (F : List (List ℕ)) (o q : Bool) (g h : ℕ) (s : Says) (xs ys : List Seat) → Flushes o g xs s q h ys →
        Every (HasPages F) xs → Every (HasPages F) ys }
    ensures kept { (F : List (List ℕ)) (o q : Bool) (g h : ℕ) (s : Says) (xs ys : List Seat) → Flushes o g xs s q h ys →
        Every (HasPages F) xs → Pairs (KeptOf F) xs ys }
    ensures taken { (F : List (List ℕ)) (o q w : Bool) (g h : ℕ) (xs ys : List Seat) → Flushes o g xs (Done w) q h ys →
        Every (HasPages F) xs → Every (KeepsPages F) ys }
    ensures live { (o q w : Bool) (g h : ℕ) (xs ys : List Seat) → Flushes o g xs (Done w) q h ys → Has IsLive ys }
{}

/// A write that was taken changes its page on each live disk; one that was refused changes none. A read changes none, and
/// gives the page.
pub fn writes_and_reads_hold_the_pages()
    ensures taken { (F : List (List ℕ)) (p : ℕ) (x : List ℕ) (o q w : Bool) (xs ys : List Seat) → Puts p x o xs (Done w) q ys →
        Every (HasPages F) xs → Every (HasPages (set F p x)) ys }
    ensures refused { (F : List (List ℕ)) (p : ℕ) (x : List ℕ) (o q : Bool) (d n : ℕ) (xs ys : List Seat) →
        Puts p x o xs (Fault d n) q ys → Every (HasPages F) xs → Every (HasPages F) ys }
    ensures same { (F : List (List ℕ)) (p : ℕ) (x : List ℕ) (s : Says) (xs ys : List Seat) → Look p x xs s ys →
        Every (HasPages F) xs → Every (HasPages F) ys }
    ensures gives { (F : List (List ℕ)) (p : ℕ) (x : List ℕ) (w : Bool) (xs ys : List Seat) → Look p x xs (Done w) ys →
        Every (HasPages F) xs → get_or F p [] ≡ x }
{}

/// A call that is refused names a disk that was live, with a count to which it rose in the call; and the count of each
/// live disk rose.
pub fn faults_have_causes()
    ensures flush { (o q : Bool) (g h d n : ℕ) (xs ys : List Seat) → Flushes o g xs (Fault d n) q h ys → Named d n xs ys }
    ensures flush_all { (o q : Bool) (g h d n : ℕ) (xs ys : List Seat) → Flushes o g xs (Fault d n) q h ys → Pairs Rose xs ys }
    ensures write { (p : ℕ) (x : List ℕ) (o q : Bool) (d n : ℕ) (xs ys : List Seat) → Puts p x o xs (Fault d n) q ys →
        Named d n xs ys }
    ensures write_all { (p : ℕ) (x : List ℕ) (o q : Bool) (d n : ℕ) (xs ys : List Seat) → Puts p x o xs (Fault d n) q ys →
        Pairs Rose xs ys }
    ensures read { (p : ℕ) (x : List ℕ) (d n : ℕ) (xs ys : List Seat) → Look p x xs (Fault d n) ys → Named d n xs ys }
    ensures read_all { (p : ℕ) (x : List ℕ) (d n : ℕ) (xs ys : List Seat) → Look p x xs (Fault d n) ys → Pairs Rose xs ys }
{}

/// What a live disk shows has at least the ground's generation, and what any opened disk shows at most the next one. Each
/// call keeps that, be it refused, or stopped at any moment; and no call lowers the generation, or passes the limit.
pub fn disks_stay_near()
    ensures write { (v : Medium) (g p : ℕ) (x : List ℕ) (o q : Bool) (s : Says) (xs ys : List Seat) → Puts p x o xs s q ys →
        Every (Near v g) xs → Every (Near v g) ys }
    ensures read { (v : Medium) (g p : ℕ) (x : List ℕ) (s : Says) (xs ys : List Seat) → Look p x xs s ys → Every (Near v g) xs →
        Every (Near v g) ys }
    ensures flush { (v : Medium) (o q : Bool) (g h : ℕ) (s : Says) (xs ys : List Seat) → Flushes o g xs s q h ys → g ≤ limit →
        Every (Near v g) xs → Every (Near v h) ys }
    ensures write_stops { (v : Medium) (g p : ℕ) (x : List ℕ) (xs ys : List Seat) → Pairs (Halted (Write p x)) xs ys →
        Every (Near v g) xs → Every (Near v g) ys }
    ensures flush_stops { (v : Medium) (o : Bool) (g h : ℕ) (xs ys : List Seat) → FlushStops o g xs h ys → g ≤ limit →
        Every (Near v g) xs → Every (Near v h) ys }
    ensures within { (o q : Bool) (g h : ℕ) (s : Says) (xs ys : List Seat) → Flushes o g xs s q h ys → g ≤ limit →
        (g ≤ h) × (h ≤ limit) }
    ensures stops_within { (o : Bool) (g h : ℕ) (xs ys : List Seat) → FlushStops o g xs h ys → g ≤ limit → (g ≤ h) × (h ≤ limit) }
{}

/// What was owed and is paid lifts the generation by two at least, up to the limit. Then each live disk has it, and each
/// other disk that was opened is below it, whatever it refused before.
pub fn paid_disks_are_above()
    ensures lifts { (w : Bool) (g h : ℕ) (xs ys : List Seat) → Pays g xs (Done w) h ys → g ≤ limit → min (g + 2) limit ≤ h }
    ensures above { (v : Medium) (w : Bool) (g h : ℕ) (xs ys : List Seat) → Pays g xs (Done w) h ys → g ≤ limit →
        Every (Near v g) xs → Every (HasLevel v h) ys }
{}

/// If no raise is owed, the live disks have the ground's generation, and each other disk that was opened is below it, up to
/// the limit. Each call keeps that, be it refused; and after a flush that was taken nothing is owed.
pub fn disks_stay_even()
    ensures write { (v : Medium) (g p : ℕ) (x : List ℕ) (o q : Bool) (s : Says) (xs ys : List Seat) → Puts p x o xs s q ys →
        Even v o g xs → Even v q g ys }
    ensures read { (v : Medium) (g p : ℕ) (x : List ℕ) (o : Bool) (s : Says) (xs ys : List Seat) → Look p x xs s ys →
        Even v o g xs → Even v o g ys }
    ensures flush { (v : Medium) (o q : Bool) (g h : ℕ) (s : Says) (xs ys : List Seat) → Flushes o g xs s q h ys → g ≤ limit →
        Every (Near v g) xs → Even v o g xs → Even v q h ys }
    ensures paid { (o q w : Bool) (g h : ℕ) (xs ys : List Seat) → Flushes o g xs (Done w) q h ys → q ≡ false }
    ensures levels { (v : Medium) (o q w : Bool) (g h : ℕ) (xs ys : List Seat) → Flushes o g xs (Done w) q h ys → g ≤ limit →
        Every (Near v g) xs → Even v o g xs → Every (HasLevel v h) ys }
{}

/// A disk that was not opened stays as it is in every call, be it bad, blank or down.
pub fn bad_disks_stay_bad()
    ensures round { (a : Act) (s : Says) (xs ys : List Seat) → Round a xs s ys → Pairs Kind xs ys }
    ensures read { (p : ℕ) (x : List ℕ) (s : Says) (xs ys : List Seat) → Look p x xs s ys → Pairs Kind xs ys }
    ensures write { (p : ℕ) (x : List ℕ) (o q : Bool) (s : Says) (xs ys : List Seat) → Puts p x o xs s q ys → Pairs Kind xs ys }
    ensures flush { (o q : Bool) (g h : ℕ) (s : Says) (xs ys : List Seat) → Flushes o g xs s q h ys → Pairs Kind xs ys }
{}
