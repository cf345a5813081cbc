//! What is read from the ground, once and again, what a log keeps of it, and that tries come to an end. Each law is the contract of a function that does nothing.

ghost use Rattle.std.specs.Prelude.{List, length, ℕ, ◌*◌, ◌≡◌, ◌≤◌, []};
ghost use Rattle.std.specs.List.{AllByRecursion};
ghost use Rattle.hist_plain.specs.declared.event.Op.{Op as AnOp};
ghost use Rattle.tower_core.specs.Legal.{FitsFile};
ghost use Rattle.tower_core.specs.Trail.{IsRun, start};
ghost use Rattle.tower_core.specs.TreeShape.{IsTree, IsUpper, TreeShape, nodes};
ghost use Rattle.tower_log.specs.Log.{trail_of};
ghost use Rattle.tower_log.specs.declared.logged.Logged.{Logged as ALogged};
ghost use Rattle.stack_engine.specs.Engine.{IsSound, tree_in};
ghost use Rattle.stack_engine.specs.Tower.{TowerSeen};
ghost use Rattle.stack_engine.specs.Answers.{FindsPagesOf, KeepsPagesOf, KeepsWholePages};
ghost use Rattle.spr_volume.specs.Drive.{Drives};
ghost use Rattle.spr_volume.specs.Reads.{AreTakenBefore, FindsAgain, StandsByFirst};

/// Each file that has the pages which a log keeps, as their first grants found them, and those that were read again, is one of
/// which the reads found the pages.
pub fn reads_find_the_file()
    ensures { (tree : TreeShape) (size pages : ℕ) (opening : List ℕ) (log : List ALogged) →
        IsTree tree → length opening ≡ pages * size →
        IsRun tree pages start (trail_of log) → AllByRecursion (FitsFile size pages) (trail_of log) →
        KeepsPagesOf size opening log → FindsAgain tree size opening log →
        FindsPagesOf tree size opening log }
{}

/// Where one layer alone stands on the ground, a page is read from the ground again only if it was taken from that layer before.
pub fn pages_read_again_were_taken()
    ensures { (tree : TreeShape) (pages : ℕ) (log : List ALogged) →
        IsTree tree → StandsByFirst tree → IsRun tree pages start (trail_of log) →
        AreTakenBefore tree log }
{}

/// There is a file that has the pages which a log keeps, if these are whole.
pub fn kept_pages_make_a_file()
    ensures { (size pages : ℕ) (log : List ALogged) → KeepsWholePages size pages log →
        (opening : List ℕ) × (length opening ≡ pages * size) × KeepsPagesOf size opening log }
{}

/// Where nobody else steps between a caller's tries of an access, and none of them is refused or waits, at most as many of them send
/// a message as the tree has nodes, the ground among them; then the access is made.
pub fn tries_come_to_an_end()
    ensures { (caller node life n : ℕ) (op : AnOp) (before after : TowerSeen) →
        IsSound before.engine → IsUpper (tree_in before.engine) node → Drives caller node life op n before after →
        n ≤ nodes (tree_in before.engine) }
{}
