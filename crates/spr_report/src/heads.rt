//! The heads of the two frames of an event.

ghost use Rattle.std.specs.Prelude.{◌≡◌, ◌<◌};
ghost use Rattle.std.specs.Option.{ForSome};
ghost use Rattle.hist_plain.specs.Event.{node_of, page_of};
ghost use Rattle.page_messages.specs.Kinds.{access_of};
ghost use Rattle.tower_core.specs.TreeShape.{nodes, IsUpper};
ghost use Rattle.tower_core.specs.Sheet.{nodes_of, pages_of, seen};
ghost use Rattle.spr_report.specs.Heads.{head_in, heads_of};

use crate::exchange::{Sent, exchange_of};
use hist_plain::Event;
use page_messages::PagedFile;
use pager_channel::{Head, Operation, Ops};
use tower_core::{Right, Sheet, Tree};

/// The subcontract of the objects of a channel.
const CHANNEL: u16 = 2;

/// A page message as it went over its channel.
#[derive(Clone, Copy, Debug, PartialEq, Eq)]
pub struct Heads {
    /// The operation, as the answer names it.
    pub which: Operation,
    /// The number of the page in its file, from 0.
    pub page: u32,
    /// The head of the question or the order.
    pub first: Head,
    /// The head of its answer.
    pub second: Head,
}

/// A right as a head has it.
fn access_of(right: Right) -> u8
    ensures { result ≡ access_of right }
{
    match right {
        Right::Nothing => 0,
        Right::Read => 1,
        Right::Write => 2,
    }
}

/// The head of a message about a page of the file.
fn head_in(file: PagedFile, ops: &Ops, page: u32, sent: Sent) -> Head
    ensures { result ≡ head_in file ops.now page sent }
{
    Head {
        subcontract: CHANNEL,
        operation: ops.number(sent.which),
        tag: file.number,
        offset: u64::from(page) * u64::from(file.page_size),
        size: file.page_size,
        access: access_of(sent.right),
        flags: sent.flags,
    }
}

/// The heads of the two frames of an event of the file, after the events of the sheet. None if the event is no page message.
pub fn heads_of(
    tree: &Tree,
    file: PagedFile,
    ops: &Ops,
    sheet: &Sheet,
    event: &Event,
) -> Option<Heads>
    requires same_tree { nodes tree.now ≡ nodes_of sheet.now }
    requires page_in { ForSome (page_of event.now) (λ page. page < pages_of sheet.now) }
    requires upper { IsUpper tree.now (node_of event.now) }
    ensures { result ≡ heads_of tree.now file ops.now (seen sheet.now) event.now }
{
    let two = exchange_of(tree, sheet, event)?;
    Some(Heads {
        which: two.second.which,
        page: two.page,
        first: head_in(file, ops, two.page, two.first),
        second: head_in(file, ops, two.page, two.second),
    })
}
