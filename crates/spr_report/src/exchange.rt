//! The two messages of an event: the table of messages.

ghost use Rattle.std.specs.Prelude.{◌≡◌, ◌<◌, ◌≤◌, ◌+◌};
ghost use Rattle.std.specs.Option.{ForSome};
ghost use Rattle.hist_plain.specs.Event.{node_of, page_of};
ghost use Rattle.tower_core.specs.TreeShape.{nodes, IsUpper};
ghost use Rattle.tower_core.specs.Sheet.{nodes_of, pages_of, seen};
ghost use Rattle.layer_laws.specs.Sent.{granted};
ghost use Rattle.spr_report.specs.Exchange.{has_page, is_changed, with_data, both};
ghost use Rattle.spr_report.specs.Exchange.{pushed, called_back, paged_in, zero_filled, deleted, exchange_of};

use hist_plain::Event;
use pager_channel::{DATA, Operation, REPLY, TO_CACHE};
use tower_core::{Right, Sheet, Tree};

/// What the head of a message says beside the page.
#[derive(Clone, Copy, Debug, PartialEq, Eq)]
pub(crate) struct Sent {
    /// The operation.
    pub which: Operation,
    /// The right that the node has after the message.
    pub right: Right,
    /// The flags.
    pub flags: u8,
}

/// The two messages of an event.
#[derive(Clone, Copy, Debug, PartialEq, Eq)]
pub(crate) struct Exchange {
    /// The page that they are about.
    pub page: u32,
    /// The question or the order.
    pub first: Sent,
    /// Its answer.
    pub second: Sent,
}

/// The flags with data, or without.
fn with_data(full: bool, flags: u8) -> u8
    requires { flags < 8 }
    ensures { result ≡ with_data full flags }
{
    if full { flags + DATA } else { flags }
}

/// The right after a grant.
fn granted(write: bool) -> Right
    ensures { result ≡ granted write }
{
    if write { Right::Write } else { Right::Read }
}

/// Two messages of the same operation and right.
fn both(page: u32, which: Operation, right: Right, first: u8, second: u8) -> Exchange
    ensures { result ≡ both page which right first second }
{
    Exchange {
        page,
        first: Sent {
            which,
            right,
            flags: first,
        },
        second: Sent {
            which,
            right,
            flags: second,
        },
    }
}

/// A question that gives a copy back, and its answer.
fn pushed(changed: bool, page: u32, which: Operation, right: Right) -> Exchange
    ensures { result ≡ pushed changed page which right }
{
    both(page, which, right, with_data(changed, 0), REPLY)
}

/// An order to give a copy back, and its answer.
fn called_back(changed: bool, page: u32, which: Operation, right: Right) -> Exchange
    ensures { result ≡ called_back changed page which right }
{
    let answer = with_data(changed, TO_CACHE + REPLY);
    both(page, which, right, TO_CACHE, answer)
}

/// A question for a page, and its answer.
fn paged_in(holds_it: bool, page: u32, right: Right) -> Exchange
    ensures { result ≡ paged_in holds_it page right }
{
    let answer = with_data(!holds_it, REPLY);
    both(page, Operation::PageIn, right, 0, answer)
}

/// A question for a page, and a page of zeros.
fn zero_filled(page: u32, right: Right) -> Exchange
    ensures { result ≡ zero_filled page right }
{
    Exchange {
        page,
        first: Sent {
            which: Operation::PageIn,
            right,
            flags: 0,
        },
        second: Sent {
            which: Operation::ZeroFill,
            right,
            flags: TO_CACHE,
        },
    }
}

/// An order to give a page up that is not changed, and its answer.
fn deleted(page: u32) -> Exchange
    ensures { result ≡ deleted page }
{
    let (which, right) = (Operation::DeleteRange, Right::Nothing);
    both(page, which, right, TO_CACHE, TO_CACHE + REPLY)
}

/// Whether the node has a right on the page.
fn has_page(sheet: &Sheet, node: u32, page: u32) -> bool
    requires node_in { node < nodes_of sheet.now }
    requires page_in { page < pages_of sheet.now }
    ensures { result ≡ has_page (seen sheet.now) node page }
{
    match sheet.right(node, page) {
        Right::Nothing => false,
        Right::Read | Right::Write => true,
    }
}

/// Whether the node's copy of the page differs from its parent's.
fn is_changed(tree: &Tree, sheet: &Sheet, node: u32, page: u32) -> bool
    requires same_tree { nodes tree.now ≡ nodes_of sheet.now }
    requires upper { IsUpper tree.now node }
    requires page_in { page < pages_of sheet.now }
    ensures { result ≡ is_changed tree.now (seen sheet.now) node page }
{
    let parent = tree.parent(node);
    sheet.at(node, page) != sheet.at(parent, page)
}

/// The two messages of an event, if it is a page message.
pub(crate) fn exchange_of(tree: &Tree, sheet: &Sheet, event: &Event) -> Option<Exchange>
    requires same_tree { nodes tree.now ≡ nodes_of sheet.now }
    requires page_in { ForSome (page_of event.now) (λ page. page < pages_of sheet.now) }
    requires upper { IsUpper tree.now (node_of event.now) }
    ensures { result ≡ exchange_of tree.now (seen sheet.now) event.now }
{
    match event {
        Event::PageIn { node, page, write } => {
            let holds_it = has_page(sheet, *node, *page);
            Some(paged_in(holds_it, *page, granted(*write)))
        }
        Event::ZeroFill { page, write, .. } => Some(zero_filled(*page, granted(*write))),
        Event::PageOut { node, page } => {
            let changed = is_changed(tree, sheet, *node, *page);
            Some(pushed(changed, *page, Operation::PageOut, Right::Nothing))
        }
        Event::WriteOut { node, page } => {
            let changed = is_changed(tree, sheet, *node, *page);
            Some(pushed(changed, *page, Operation::WriteOut, Right::Read))
        }
        Event::SyncOut { node, page } => {
            let changed = is_changed(tree, sheet, *node, *page);
            Some(pushed(changed, *page, Operation::Sync, Right::Write))
        }
        Event::FlushBack { node, page } => {
            let changed = is_changed(tree, sheet, *node, *page);
            Some(called_back(changed, *page, Operation::FlushBack, Right::Nothing))
        }
        Event::DenyWrites { node, page } => {
            let changed = is_changed(tree, sheet, *node, *page);
            Some(called_back(changed, *page, Operation::DenyWrites, Right::Read))
        }
        Event::WriteBack { node, page } => {
            let changed = is_changed(tree, sheet, *node, *page);
            Some(called_back(changed, *page, Operation::WriteBack, Right::Write))
        }
        Event::DeleteRange { page, .. } => Some(deleted(*page)),
        _ => None,
    }
}
