//! Which event comes next.

ghost use Rattle.std.specs.Prelude.{◌≡◌, ◌≢◌, ◌<◌, ◌≤◌, IfNone, IfSome, IsTrue, ◌↔◌, ℕ};
ghost use Rattle.hist_plain.specs.Event.{fits_page};
ghost use Rattle.hist_plain.specs.declared.event.Event.{Event as AnEvent};
ghost use Rattle.tower_core.specs.TreeShape.{IsUpper};
ghost use Rattle.tower_core.specs.Sheet.{nodes_of, pages_of, seen};
ghost use Rattle.tower_core.specs.Trail.{IsSettled};
ghost use Rattle.tower_plan.specs.Plan.{IfDo, MayAccessFor};
ghost use Rattle.tower_log.specs.Log.{place_of};
ghost use Rattle.stack_engine.specs.Engine.{IsNext, column_in, file_in, log_in, tree_in};
ghost use Rattle.stack_engine.specs.Messages.{IsPageMessage};
ghost use Rattle.stack_engine.specs.Turns.{leaf_at};
ghost use Rattle.stack_engine.specs.Plans.{IsLowest, IsLowestUnsettled, IsMissed, SettlesBy, StepsTo};

use crate::engine::Engine;
use crate::sight::Sight;
use hist_plain::{Event, Keep, Op};
use page_ground::Ground;
use tower_core::{Right, Sheet};
use tower_plan::{Next, next_for, next_sync};

/// An access that is not allowed yet: its page, and the message that comes next for it.
#[derive(Debug, Drop)]
pub(crate) struct Missed {
    /// The page, counted from 0.
    pub(crate) page: u32,
    /// The message.
    pub(crate) event: Event,
}

/// Whether a page is settled from a place on: the ground's copy is not older, or nobody wrote the page since it was brought
/// there.
fn is_settled(sheet: &Sheet, page: u32, from: u64) -> bool
    requires ground { 0 < nodes_of sheet.now }
    requires page { page < pages_of sheet.now }
    ensures { IsTrue result ↔ IsSettled from ((seen sheet.now).column page) }
{
    let at = sheet.at(0, page);
    from <= at || sheet.newest(page) <= at
}

/// The lowest of the first pages that is not settled from a place on, if there is one.
fn lowest_unsettled(sheet: &Sheet, pages: u32, from: u64) -> Option<u32>
    requires ground { 0 < nodes_of sheet.now }
    requires pages { pages ≤ pages_of sheet.now }
    ensures none { IfNone result ((page : ℕ) → page < pages → IsSettled from ((seen sheet.now).column page)) }
    ensures some { IfSome result (IsLowest (seen sheet.now) pages from) }
{
    for page in 0..pages {
        if !is_settled(sheet, page, from) {
            return Some(page);
        }
    }
    None
}

impl<G: Ground> Engine<G> {
    /// The message that comes next for an access at a node; none if it is allowed.
    pub(crate) fn next_access(&self, node: u32, life: u32, op: &Op) -> Option<Missed>
        requires upper { IsUpper (tree_in self.now) node }
        requires fits { IsTrue (fits_page (file_in self.now).page_size (file_in self.now).pages op.now) }
        ensures allowed { IfNone result ((caller number : ℕ) → IsNext self.now (AnEvent.Access caller number node life op.now)) }
        ensures missed { IfSome result (IsMissed self.now node life op.now) }
    {
        if life != self.book.sheet.life(node) {
            return None;
        }
        let (page, want) = match op {
            Op::Open => return None,
            Op::Read { page, .. } => (*page, Right::Read),
            Op::Write { page, .. } | Op::Clear { page } => (*page, Right::Write),
        };
        match self.next_towards(node, page, want) {
            None => None,
            Some(event) => Some(Missed { page, event }),
        }
    }

    /// The message that comes next on the way to an access of a node that wants this right of a page; none if it is
    /// allowed.
    pub(crate) fn next_towards(&self, node: u32, page: u32, want: Right) -> Option<Event>
        requires upper { IsUpper (tree_in self.now) node }
        requires page { page < (file_in self.now).pages }
        requires want { want ≢ Right.Nothing }
        ensures allowed { IfNone result (MayAccessFor (tree_in self.now) (column_in self.now page) node want) }
        ensures kind { IfSome result IsPageMessage }
        ensures next { IfSome result (IsNext self.now) }
        ensures steps { IfSome result (StepsTo self.now node page want) }
    {
        let sight = Sight {
            sheet: &self.book.sheet,
            tables: &self.tables,
        };
        match next_for(self.tables.tree(), &sight, node, page, want) {
            Next::Ready => None,
            Next::Do { event } => Some(event),
        }
    }

    /// The node, if it is a leaf.
    pub(crate) fn leaf_at(&self, node: u32) -> Option<u32>
        requires { IsUpper (tree_in self.now) node }
        ensures { result ≡ leaf_at (tree_in self.now) node }
    {
        if self.tables.tree().frames(node) == 0 {
            None
        } else {
            Some(node)
        }
    }

    /// The lowest page that is not settled from a place on, if there is one.
    pub(crate) fn lowest_unsettled(&self, from: u64) -> Option<u32>
        ensures none { IfNone result ((page : ℕ) → page < (file_in self.now).pages → IsSettled from (column_in self.now page)) }
        ensures some { IfSome result (IsLowestUnsettled self.now from) }
    {
        lowest_unsettled(&self.book.sheet, self.tables.file().pages, from)
    }

    /// The message that comes next on the way to a page that is settled from a place on, for a sync at a node.
    pub(crate) fn next_push(&self, page: u32, node: u32, from: u64, keep: Keep) -> Event
        requires upper { IsUpper (tree_in self.now) node }
        requires from { from ≤ place_of (log_in self.now) }
        requires lowest { IsLowestUnsettled self.now from page }
        ensures kind { IsPageMessage result }
        ensures next { IsNext self.now result }
        ensures settles { SettlesBy self.now page node from keep result }
    {
        match next_sync(self.tables.tree(), &self.book.sheet, page, node, from, keep) {
            Next::Ready => unreachable!(),
            Next::Do { event } => event,
        }
    }
}
