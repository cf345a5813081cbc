//! The laws of durability: which pages the disks guard from one call, and from one sitting, to the next.

ghost use Rattle.std.specs.Prelude.{◌≡◌, ◌<◌, ◌≤◌, ℕ, List, [], ◌∷◌, Bool, true};
ghost use Rattle.mirror_rules.specs.Tree.{Image, Cell, Seat, In, Store as Found, limit};
ghost use Rattle.mirror_rules.specs.Steps.{Says, Done, Look, Flushes, Puts};
ghost use Rattle.mirror_rules.specs.Claims.{Pairs, Every, Nth, HasPages};
ghost use Rattle.mirror_rules.specs.Opening.{Meets, Good, Outcome, Opens};
ghost use Rattle.mirror_rules.specs.Fates.{Sized};
ghost use Rattle.mirror_rules.specs.Guards.{Medium, Settled, Within, Stands, At, IsIn, Guarded, Guarding, Leaves, live_at, Loses};
ghost use Rattle.mirror_rules.specs.Levels.{Near, Even, Lower};
ghost use Rattle.mirror_rules.specs.History.{Since_then, Versions, Up, either, Comes, Synced, Lived, Rests, Chain, Closed, Since};

/// One law for each call of a sitting: after a flush that was taken the live disks guard its pages, if each disk that was not
/// opened, and each image in a drawer, is below; a write adds what it writes; a flush of guarded pages, a read, a close and
/// the loss of another image keep the guards.
pub fn calls_keep_guards()
    ensures found { (v : Medium) (F : List (List ℕ)) (past : List Image) (o q w : Bool) (g h : ℕ) (xs ys : List Seat) →
        Flushes o g xs (Done w) q h ys → g ≤ limit → Every (Near v g) xs → Even v o g xs → Every (HasPages F) xs → h < limit →
        Every (Lower h) ys → ((i : Image) → IsIn past i → i.generation < h) →
        Guarding v (Since_then F []) (live_at ys) past ys }
    ensures write { (v : Medium) (F : List (List ℕ)) (ws : List (ℕ × List ℕ)) (L : ℕ → Bool) (past : List Image) (p : ℕ)
        (x : List ℕ) (o q : Bool) (s : Says) (xs ys : List Seat) → Puts p x o xs s q ys →
        Guarding v (Since_then F ws) L past xs → Guarding v (Since_then F ((p, x) ∷ ws)) L past ys }
    ensures flush { (v : Medium) (F : List (List ℕ)) (ws : List (ℕ × List ℕ)) (L : ℕ → Bool) (past : List Image)
        (G : List (List ℕ)) (o q : Bool) (g h : ℕ) (s : Says) (xs ys : List Seat) → Flushes o g xs s q h ys → g ≤ limit →
        Every (Near v g) xs → Every (HasPages G) xs → Within (Since_then F ws) G → Guarding v (Since_then F ws) L past xs →
        Guarding v (Since_then F ws) L past ys }
    ensures read { (v : Medium) (F : List (List ℕ)) (ws : List (ℕ × List ℕ)) (L : ℕ → Bool) (past : List Image) (p : ℕ)
        (x : List ℕ) (s : Says) (xs ys : List Seat) → Look p x xs s ys → Guarding v (Since_then F ws) L past xs →
        Guarding v (Since_then F ws) L past ys }
    ensures close { (v : Medium) (F : List (List ℕ)) (ws : List (ℕ × List ℕ)) (L : ℕ → Bool) (past : List Image)
        (xs : List Seat) (ss : List Found) → Pairs (Leaves v) xs ss → Guarding v (Since_then F ws) L past xs →
        Guarded (Since_then F ws) L past ss }
    ensures lost { (F : List (List ℕ)) (ws : List (ℕ × List ℕ)) (L K : ℕ → Bool) (past : List Image) (ss tt : List Found) →
        Pairs Loses ss tt → Guarded (Since_then F ws) L past ss → ((d : ℕ) → K d ≡ true → L d ≡ true) →
        ((d : ℕ) (c : Image) → K d ≡ true → At Stands d ss c → At Stands d tt c) → Guarded (Since_then F ws) K past tt }
{}

/// One law for each opening. Whatever it answers, and whoever is up, the same disks guard on. If it answers Ok and a disk that
/// guards was up, the ground's pages are guarded, and all live disks guard too.
pub fn openings_keep_guards()
    ensures open { (v : Medium) (F : List (List ℕ)) (ws : List (ℕ × List ℕ)) (L : ℕ → Bool) (past : List Image) (n : ℕ)
        (o : Outcome) (ss : List Found) (xs us : List Seat) → Opens true n xs o us → Pairs Meets ss xs → Every (Sized n) ss →
        Every (Settled v) ss → Guarded (Since_then F ws) L past ss → Guarding v (Since_then F ws) L past us }
    ensures within { (F : List (List ℕ)) (ws : List (ℕ × List ℕ)) (L : ℕ → Bool) (past : List Image) (n g : ℕ) (owed : Bool)
        (ss : List Found) (xs us : List Seat) → Opens true n xs (Good owed g) us → Pairs Meets ss xs → Every (Sized n) ss →
        Up L xs → Guarded (Since_then F ws) L past ss →
        (G : List (List ℕ)) × Every (HasPages G) us × Within (Since_then F ws) G }
    ensures joins { (v : Medium) (F : List (List ℕ)) (ws : List (ℕ × List ℕ)) (L : ℕ → Bool) (past : List Image) (n g : ℕ)
        (owed : Bool) (ss : List Found) (xs us : List Seat) → Opens true n xs (Good owed g) us → Pairs Meets ss xs →
        Every (Sized n) ss → Every (Settled v) ss → Up L xs → Guarded (Since_then F ws) L past ss →
        Guarding v (Since_then F ws) (either L (live_at us)) past us }
{}

/// The durability of one sync, over whole histories. After a flush that was taken, each opening that answers Ok gives for each
/// page what that flush made lasting, or something written later, as long as a disk is up in it that counts; and each run
/// since began with one up.
pub fn synced_pages_last()
    ensures { (v : Medium) (n d g : ℕ) (F : List (List ℕ)) (ws : List (ℕ × List ℕ)) (past counts : List Image) (b owed : Bool)
        (c : Cell) (ss : List Found) (xs us : List Seat) → Since v n F ws (Closed past counts) → Every (Comes v n past) ss →
        Pairs Meets ss xs → Opens true n xs (Good owed g) us → Nth d xs (In b c) → IsIn counts c.now →
        (G : List (List ℕ)) × Every (HasPages G) us × Within (Since_then F ws) G }
{}

/// The promise of mirrors, for each sync: a sync that was done lasts, as long as each run begins with a disk up that was live
/// when the run before it ended. Whatever else happens between and in the sittings: refused calls, stops at any moment, disks
/// away, replaced by blank ones, damaged and mended, put back from a copy of any age, exchanged, or run alone.
pub fn each_sync_of_a_chain_lasts()
    ensures calls { (v : Medium) (n d g : ℕ) (F : List (List ℕ)) (ws : List (ℕ × List ℕ)) (past next counts : List Image)
        (b owed : Bool) (c : Cell) (ss : List Found) (xs us : List Seat) → Chain v n (Synced F ws) (Rests past next counts) →
        Every (Comes v n past) ss → Pairs Meets ss xs → Opens true n xs (Good owed g) us → Nth d xs (In b c) →
        IsIn counts c.now → (G : List (List ℕ)) × Every (HasPages G) us × Within (Since_then F ws) G }
    ensures runs { (v : Medium) (n d g : ℕ) (Vs : List (ℕ → ℕ → List ℕ)) (ws : List (ℕ × List ℕ)) (past next counts : List Image)
        (b owed : Bool) (c : Cell) (ss : List Found) (xs us : List Seat) → Chain v n (Lived Vs ws) (Rests past next counts) →
        Every (Comes v n past) ss → Pairs Meets ss xs → Opens true n xs (Good owed g) us → Nth d xs (In b c) →
        IsIn counts c.now → (G : List (List ℕ)) × Every (HasPages G) us × Within (Versions Vs ws) G }
{}

/// From a done sync of a chain on, an image that counts for the next run has a generation above 1. So a ground that is opened
/// with it up owes a raise, also one of a single disk.
pub fn chains_lift_what_counts()
    ensures lifted { (v : Medium) (n : ℕ) (F : List (List ℕ)) (ws : List (ℕ × List ℕ)) (past next counts : List Image)
        (i : Image) → Chain v n (Synced F ws) (Rests past next counts) → IsIn next i → 1 < i.generation }
    ensures owes { (v : Medium) (n d g : ℕ) (F : List (List ℕ)) (ws : List (ℕ × List ℕ)) (past next counts : List Image)
        (b owed : Bool) (c : Cell) (ss : List Found) (xs us : List Seat) → Chain v n (Synced F ws) (Rests past next counts) →
        Every (Comes v n past) ss → Pairs Meets ss xs → Opens true n xs (Good owed g) us → Nth d xs (In b c) → IsIn next c.now →
        owed ≡ true }
    ensures lifted_runs { (v : Medium) (n : ℕ) (Vs : List (ℕ → ℕ → List ℕ)) (ws : List (ℕ × List ℕ)) (past next counts : List Image)
        (i : Image) → Chain v n (Lived Vs ws) (Rests past next counts) → IsIn next i → 1 < i.generation }
    ensures owes_runs { (v : Medium) (n d g : ℕ) (Vs : List (ℕ → ℕ → List ℕ)) (ws : List (ℕ × List ℕ)) (past next counts : List Image)
        (b owed : Bool) (c : Cell) (ss : List Found) (xs us : List Seat) → Chain v n (Lived Vs ws) (Rests past next counts) →
        Every (Comes v n past) ss → Pairs Meets ss xs → Opens true n xs (Good owed g) us → Nth d xs (In b c) → IsIn next c.now →
        owed ≡ true }
{}
