//! The laws of a ground's opening.

ghost use Rattle.std.specs.Prelude.{◌≡◌, ◌≤◌, ℕ, List, Option, None, Bool, true, false};
ghost use Rattle.mirror_rules.specs.Tree.{Image, Tree, Seat, Store as Found, seats, owes};
ghost use Rattle.mirror_rules.specs.Claims.{Pairs, Every, Has, IsLive, HasPages};
ghost use Rattle.mirror_rules.specs.Opening.{Meets, Good, BadImage, Lost, Outcome, NotGood, Opens, Gives, DownedTree};
ghost use Rattle.mirror_rules.specs.Opening.{all_but_bad};
ghost use Rattle.mirror_rules.specs.Guards.{Medium, Direct, Settled, Shows};
ghost use Rattle.mirror_rules.specs.Levels.{Level, Even};
ghost use Rattle.mirror_rules.specs.Fates.{Sized, Fate, Behind, Final, Stays, BadKept, Excused, Blamed, Calmly, OpeningEnd};

/// An opening that answers Ok gives what the disks give as its tree stands: the pages and the generation of the highest, and
/// of the leftmost disk among equals. A disk that gave way counts as down. Each live disk has these pages.
pub fn opening_gives_the_highest()
    ensures { (n g : ℕ) (owed : Bool) (ss : List Found) (us : List Seat) (t : Tree) → Opens true n (seats t) (Good owed g) us →
        Pairs Meets ss (seats t) → Every (Sized n) ss →
        (F : List (List ℕ)) × (u : Tree) × DownedTree t u × Every (HasPages F) us × Gives u g F }
{}

/// After an opening that answers Ok each live disk has the ground's generation, no other opened disk is above it, and a disk
/// is live; so what is not owed is paid. A raise is owed, but by a ground of one disk whose generation is 1. If nothing was
/// pending in the stores that tell what they hold, the same is so of what they keep.
pub fn opening_levels_live_disks()
    ensures level { (told owed : Bool) (n g : ℕ) (ss : List Found) (xs us : List Seat) → Opens told n xs (Good owed g) us →
        Pairs Meets ss xs → Every (Level Direct g) us }
    ensures live { (told owed : Bool) (n g : ℕ) (ss : List Found) (xs us : List Seat) → Opens told n xs (Good owed g) us →
        Pairs Meets ss xs → Has IsLive us }
    ensures owes { (told owed : Bool) (n g : ℕ) (ss : List Found) (xs us : List Seat) → Opens told n xs (Good owed g) us →
        Pairs Meets ss xs → owed ≡ owes us g }
    ensures even { (told owed : Bool) (n g : ℕ) (ss : List Found) (xs us : List Seat) → Opens told n xs (Good owed g) us →
        Pairs Meets ss xs → Even Direct owed g us }
    ensures kept { (v : Medium) (owed : Bool) (n g : ℕ) (ss : List Found) (xs us : List Seat) →
        Opens true n xs (Good owed g) us → Pairs Meets ss xs → Every (Sized n) ss → Every (Settled v) ss →
        Every (Level v g) us }
{}

/// A disk is left out only if its store refused a call in the opening, or its blocks were bad, and then it is as it was. So
/// without a refusal every disk is live but the bad ones. A refused opening names a disk whose count rose in it.
pub fn opening_leaves_out_who_refused()
    ensures left { (told owed : Bool) (n g : ℕ) (ss : List Found) (xs us : List Seat) → Opens told n xs (Good owed g) us →
        Pairs Meets ss xs → Pairs Excused ss us }
    ensures whole { (told owed : Bool) (n g : ℕ) (ss : List Found) (xs us : List Seat) → Opens told n xs (Good owed g) us →
        Pairs Meets ss xs → Pairs Calmly ss us → all_but_bad us ≡ true }
    ensures blames { (told : Bool) (n d k : ℕ) (ss : List Found) (xs us : List Seat) → Opens told n xs (Lost d k) us →
        Pairs Meets ss xs → Blamed d k ss us }
    ensures bad { (told : Bool) (n d : ℕ) (xs us : List Seat) → Opens told n xs (BadImage d) us → Every NotGood xs × (us ≡ xs) }
{}

/// An opening, be it refused, did nothing to any disk; or a disk won, and then each image is as it was, with some of its pages
/// the winner's and its own number, or has all of the winner's pages. So a disk that was lower than the ground stays below it
/// until all pages stand on it, and none is above it. A disk that was found blank shows nothing, or all of the winner's pages
/// and its number; one that was found bad, or refused, stays as it was.
pub fn opening_leaves_disks_ordered()
    ensures ends { (v : Medium) (n : ℕ) (o : Outcome) (ss : List Found) (xs us : List Seat) → Opens true n xs o us →
        Pairs Meets ss xs → Every (Sized n) ss → Every (Settled v) ss → OpeningEnd v ss xs us }
    ensures behind { (F : List (List ℕ)) (g : ℕ) (o : Option Image) (c : Image) → Fate F g o c → Behind F g o c }
    ensures blank { (v : Medium) (F : List (List ℕ)) (g : ℕ) (s : Found) (x : Seat) (i : Image) → Final v F g s x →
        s.image ≡ None → Shows v x i → (i.pages ≡ F) × (i.generation ≡ g) }
    ensures stays { (told : Bool) (n : ℕ) (o : Outcome) (xs us : List Seat) → Opens told n xs o us → Pairs Stays xs us }
    ensures bad { (told : Bool) (n : ℕ) (o : Outcome) (ss : List Found) (xs us : List Seat) → Opens told n xs o us →
        Pairs Meets ss xs → Pairs (λ s x. s.image ≡ None → s.blank ≡ false → BadKept s x) ss us }
{}
