//! What an engine writes down: the log, and the state after it.

ghost use Rattle.std.specs.Prelude.{◌≡◌, ◌+◌, ◌<◌, ◌≤◌, ◌++◌, ◌∷◌, []};
ghost use Rattle.std.specs.Option.{ForSome};
ghost use Rattle.hist_plain.specs.Event.{page_of};
ghost use Rattle.hist_plain.specs.declared.TheConstants.{MAX_EVENTS};
ghost use Rattle.tower_core.specs.Sheet.{nodes_of, pages_of, seen};
ghost use Rattle.tower_core.specs.Trail.{IsAllowed, state_after};
ghost use Rattle.tower_core.specs.TreeShape.{nodes};
ghost use Rattle.tower_log.specs.Log.{place_of};
ghost use Rattle.tower_log.specs.declared.logged.Logged.{Logged as ALogged};

use tower_core::{Sheet, Tree};
use tower_log::{Entry, Trail};

/// The log of a file, and the state after it.
#[derive(Drop)]
pub(crate) struct Book {
    pub(crate) sheet: Sheet,
    pub(crate) trail: Trail,
}

impl Book {
    /// Enters an event that is allowed, with its answer and bytes.
    pub(crate) fn enter(&mut self, tree: &Tree, entry: Entry)
        requires same_tree { nodes tree.now ≡ nodes_of self.old.sheet }
        requires page_in { ForSome (page_of entry.event) (λ page. page < pages_of self.old.sheet) }
        requires allowed { IsAllowed tree.now (pages_of self.old.sheet) (seen self.old.sheet) entry.event }
        requires count { (seen self.old.sheet).len ≡ place_of self.old.trail.log }
        requires room { 0 < self.old.trail.room }
        requires few { place_of self.old.trail.log < MAX_EVENTS }
        ensures state { seen self.new.sheet ≡ state_after tree.now (seen self.old.sheet) entry.event }
        ensures nodes { nodes_of self.new.sheet ≡ nodes_of self.old.sheet }
        ensures pages { pages_of self.new.sheet ≡ pages_of self.old.sheet }
        ensures log { self.new.trail.log ≡ self.old.trail.log ++ ALogged.Entered entry ∷ [] }
        ensures trail { self.new.trail ≡ record self.old.trail { log = self.new.trail.log; room = self.new.trail.room } }
    {
        self.sheet.take(tree, &entry.event);
        self.trail.enter(entry);
    }
}
