//! What the plan does first for a wish, over a tree's sheet.

ghost use Rattle.std.specs.Prelude.{◌≡◌, ◌<◌, IsTrue, ◌≤◌};
ghost use Rattle.hist_plain.specs.declared.TheConstants.{MAX_PAGES};
ghost use Rattle.tower_core.specs.TreeShape.{IsUpper, nodes};
ghost use Rattle.tower_core.specs.Sheet.{nodes_of, pages_of};
ghost use Rattle.tower_plan.specs.Reached.{IsReached};

use crate::events::is_in_pages;
use hist_plain::{Bytes, Event, Keep, MAX_EVENTS, MAX_PAGES, Op};
use std::alloc::{AllocError, Global};
use tower_core::{Right, Sheet, Tree};
use tower_plan::{Next, cost, next_drain, next_for, next_sync};
use trial_parts::{Subject, name_of, page_shown, pages_and_tree, tree_of};
use trial_words::{Halt, say, two};

/// A tree, and the sheet of what was done for the wishes.
#[derive(Drop)]
pub struct Planned {
    tree: Tree,
    sheet: Sheet,
    ghost reached: { IsReached tree sheet },
}

/// What a caller wishes, at a node.
#[derive(Clone, Copy)]
enum Wish {
    /// To read a page.
    Read,
    /// To write a page.
    Write,
    /// To have all pages in the store, with the rights kept.
    Sync,
    /// The same, with at most the rights for reading kept.
    Clean,
    /// To have the caches of the node end.
    Revoke,
    /// To have the pages of the node given up.
    Release,
}

/// The wish of a word.
fn wish_of(word: &str) -> Result<Wish, Halt> {
    match word {
        "read" => Ok(Wish::Read),
        "write" => Ok(Wish::Write),
        "sync" => Ok(Wish::Sync),
        "clean" => Ok(Wish::Clean),
        "revoke" => Ok(Wish::Revoke),
        "release" => Ok(Wish::Release),
        _ => Err(Halt::Unread),
    }
}

/// Which rights a wish for a sync keeps.
fn keep_of(wish: Wish) -> Keep {
    match wish {
        Wish::Clean => Keep::Read,
        _ => Keep::Write,
    }
}

/// What comes next for the lowest page that is not settled.
fn next_of_sync(tree: &Tree, sheet: &Sheet, node: u32, from: u64, keep: Keep) -> Next
    requires reached { IsReached tree.now sheet.now }
    requires upper { IsUpper tree.now node }
{
    for page in 0..sheet.pages() {
        let next = next_sync(tree, sheet, page, node, from, keep);
        if let Next::Do { .. } = next {
            return next;
        }
    }
    Next::Ready
}

/// What comes next on the way to the wish.
fn next(tree: &Tree, sheet: &Sheet, wish: Wish, node: u32, page: u32, from: u64) -> Next
    requires reached { IsReached tree.now sheet.now }
    requires upper { IsUpper tree.now node }
    requires page_in { page < pages_of sheet.now }
{
    // The proof reads here that this is a tree of at most `MAX_NODES` nodes.
    let _nodes = tree.nodes();
    match wish {
        Wish::Read => next_for(tree, sheet, node, page, Right::Read),
        Wish::Write => next_for(tree, sheet, node, page, Right::Write),
        Wish::Sync | Wish::Clean => next_of_sync(tree, sheet, node, from, keep_of(wish)),
        Wish::Revoke | Wish::Release => next_drain(tree, sheet, node),
    }
}

/// How many events are left before the wish, if it is an access.
fn left(tree: &Tree, sheet: &Sheet, wish: Wish, node: u32, page: u32) -> Option<u32>
    requires reached { IsReached tree.now sheet.now }
    requires upper { IsUpper tree.now node }
    requires page_in { page < pages_of sheet.now }
{
    match wish {
        Wish::Read => Some(cost(tree, sheet, node, page, Right::Read)),
        Wish::Write => Some(cost(tree, sheet, node, page, Right::Write)),
        _ => None,
    }
}

/// The access of a wish, if it is one.
fn op_of(alloc: Global, wish: Wish, page: u32) -> Result<Option<Op>, AllocError> {
    let (off, len) = (0, 1);
    Ok(match wish {
        Wish::Read => Some(Op::Read { page, off, len }),
        Wish::Write => {
            let bytes = Bytes::of(alloc, b"a")?;
            Some(Op::Write { page, off, bytes })
        }
        _ => None,
    })
}

/// What the wish is, once nothing is left to do for it.
fn wished(alloc: Global, wish: Wish, node: u32, page: u32, from: u64) -> Result<Event, AllocError> {
    let (caller, number, life) = (0, 0, 0);
    if let Some(op) = op_of(alloc, wish, page)? {
        return Ok(Event::Access {
            caller,
            number,
            node,
            life,
            op,
        });
    }
    Ok(match wish {
        Wish::Revoke => Event::DestroyCache {
            caller,
            number,
            node,
        },
        Wish::Release => Event::DonePager {
            caller,
            number,
            node,
        },
        _ => Event::Synced {
            caller,
            number,
            node,
            from,
            keep: keep_of(wish),
        },
    })
}

/// Enters the event if it is allowed, and tells whether it is.
fn enter(tree: &Tree, sheet: &mut Sheet, event: &Event) -> bool
    requires reached { IsReached tree.now sheet.old }
    ensures reached { IsReached tree.now sheet.new }
    ensures pages { pages_of sheet.new ≡ pages_of sheet.old }
{
    // The proof reads here that this is a tree of at most `MAX_NODES` nodes.
    let _nodes = tree.nodes();
    if !is_in_pages(event, sheet.pages()) || sheet.len() >= MAX_EVENTS {
        return false;
    }
    if !sheet.allowed(tree, event) {
        return false;
    }
    sheet.take(tree, event);
    true
}

/// Appends a message that the plan sends, with its node and page.
fn put_message(event: &Event, answer: &mut String) -> Result<(), AllocError> {
    let (name, node, page) = (name_of(event), event.node(), page_shown(event));
    match event {
        Event::PageIn { write: true, .. } => writeln!(answer, "{name} {node} {page} write"),
        Event::PageIn { .. } => writeln!(answer, "{name} {node} {page} read"),
        _ => writeln!(answer, "{name} {node} {page}"),
    }
}

/// The most events that come before a wish in the cases, and one more.
const ROUNDS: u32 = 40;

/// Does what comes first for a wish, tells each message, and gives their count. The last line tells a message that is not allowed.
fn bring(
    tree: &Tree,
    sheet: &mut Sheet,
    wish: Wish,
    node: u32,
    page: u32,
    answer: &mut String,
) -> Result<u32, AllocError>
    requires reached { IsReached tree.now sheet.old }
    requires upper { IsUpper tree.now node }
    requires page_in { page < pages_of sheet.old }
    ensures reached { IsReached tree.now sheet.new }
    ensures pages { pages_of sheet.new ≡ pages_of sheet.old }
{
    let from = sheet.len();
    for count in 0..ROUNDS {
        match next(tree, sheet, wish, node, page, from) {
            Next::Ready => return Ok(count),
            Next::Do { event } => {
                put_message(&event, answer)?;
                if !enter(tree, sheet, &event) {
                    answer.push_str("which is not allowed\n")?;
                    return Ok(count);
                }
            }
        }
    }
    Ok(ROUNDS)
}

/// The sheet with no event, of a file of so many pages.
fn fresh(alloc: Global, pages: u32, tree: Tree) -> Result<Planned, Halt> {
    if pages > MAX_PAGES {
        return Err(Halt::Impossible);
    }
    let sheet = Sheet::new(alloc, &tree, pages)?;
    Ok(Planned { tree, sheet })
}

/// Appends the cost of an access, if it is another than how many events came before it.
fn put_cost(foreseen: Option<u32>, count: u32, answer: &mut String) -> Result<(), AllocError> {
    match foreseen {
        Some(cost) if cost != count => writeln!(answer, "but the cost is {cost}"),
        _ => Ok(()),
    }
}

impl Planned {
    /// Enters the wish itself, and tells whether it was allowed.
    fn end(&mut self, event: &Event, answer: &mut String) -> Result<(), AllocError> {
        let is_allowed = enter(&self.tree, &mut self.sheet, event);
        say(answer, if is_allowed { "then it" } else { "then not it" })
    }

    /// Does what a wish wants, and tells the messages that come first. The cost of an access has to be how many they are, and
    /// the wish itself has to be allowed then.
    fn fulfil(
        &mut self,
        alloc: Global,
        wish: Wish,
        node: u32,
        page: u32,
        answer: &mut String,
    ) -> Result<(), Halt> {
        if node == 0 || node >= self.tree.nodes() || page >= self.sheet.pages() {
            return Err(Halt::Impossible);
        }
        let from = self.sheet.len();
        let foreseen = left(&self.tree, &self.sheet, wish, node, page);
        let count = bring(&self.tree, &mut self.sheet, wish, node, page, answer)?;
        put_cost(foreseen, count, answer)?;
        Ok(self.end(&wished(alloc, wish, node, page, from)?, answer)?)
    }
}

impl Subject for Planned {
    fn make(alloc: Global, words: &[&str]) -> Result<Planned, Halt> {
        let ["plan", rest @ ..] = words else {
            return Err(Halt::Unread);
        };
        let (pages, tree) = pages_and_tree(rest)?;
        fresh(alloc, pages, tree_of(alloc, tree)?)
    }

    fn step(&mut self, alloc: Global, words: &[&str], answer: &mut String) -> Result<(), Halt> {
        let [wish, node, page] = words else {
            return Err(Halt::Unread);
        };
        let (node, page) = two(node, page)?;
        self.fulfil(alloc, wish_of(wish)?, node, page, answer)
    }
}
