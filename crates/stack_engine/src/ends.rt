//! The ends of channels.

ghost use Rattle.std.specs.Prelude.{◌≡◌, [], IfErr, IfNone, IfOk, IfSome, OnOk, length};
ghost use Rattle.hist_plain.specs.History.{mine};
ghost use Rattle.tower_core.specs.TreeShape.{IsUpper};
ghost use Rattle.page_exchange.specs.Ends.{AllowEnd};
ghost use Rattle.page_exchange.specs.Tables.{AreLeft, IsSameFile, IsUnderFile, paged_of, sides, tree_of, uses, wire_of};
ghost use Rattle.page_exchange.specs.Wire.{WentOver};
ghost use Rattle.stack_engine.specs.Ended.{CarriesEnd, DrainsBy, IsDrained, IsEnded, event_ended, letters_ended};
ghost use Rattle.stack_engine.specs.Engine.{IsNext, events_in, tree_in};
ghost use Rattle.stack_engine.specs.Messages.{IsPageMessage};
ghost use Rattle.stack_engine.specs.Moves.{IsRefused};

use crate::engine::Engine;
use crate::refusal::StepErr;
use hist_plain::{Answer, Event};
use page_exchange::Tables;
use page_ground::Ground;
use std::alloc::AllocError;
use tower_log::Entry;
use tower_plan::{Next, next_drain};
use value_types::Bytes;

/// Which way the channels of a layer and of all layers above it end.
#[derive(Clone, Copy, Debug, PartialEq, Eq)]
pub enum End {
    /// The layer below destroys the layer's caches: each layer of the subtree begins a new life. A `revoke`.
    Destroy,
    /// The layer is done with the pages of the layer below, and goes on with its life. A `release`.
    Done,
}

impl End {
    /// The end as a caller's event of this number, at a node.
    fn event(self, caller: u32, number: u32, node: u32) -> Event
        ensures { result ≡ event_ended self caller number node }
    {
        match self {
            End::Destroy => Event::DestroyCache {
                caller,
                number,
                node,
            },
            End::Done => Event::DonePager {
                caller,
                number,
                node,
            },
        }
    }
}

/// Sends the two frames of the end of a node's channel. No table changes, and the ground is not called. An error is want of
/// memory.
fn send_end<G: Ground>(
    tables: &mut Tables,
    ground: &mut G,
    node: u32,
    end: End,
) -> Result<(), AllocError>
    requires under { IsUnderFile (G.seen ground.old) (paged_of tables.old) }
    requires upper { IsUpper (tree_of tables.old) node }
    requires may { AllowEnd (tree_of tables.old) (sides tables.old) node (paged_of tables.old).pages }
    requires unused { uses tables.old node ≡ [] }
    ensures went { OnOk result (WentOver (wire_of tables.new) (paged_of tables.old) (letters_ended end)) }
    ensures carried { OnOk result (CarriesEnd end tables.old (wire_of tables.new) node) }
    ensures left { AreLeft tables.old tables.new }
    ensures same { IsSameFile tables.old tables.new }
    ensures ground { G.seen ground.new ≡ G.seen ground.old }
{
    match end {
        End::Destroy => {
            tables.destroy(ground, node);
            Ok(())
        }
        End::Done => tables.done(ground, node),
    }
}

impl<G: Ground> Engine<G> {
    /// The message that comes next on the way to the end of the channels of a node's subtree; none if no node of it has a
    /// right.
    pub(crate) fn next_drain(&self, node: u32) -> Option<Event>
        requires { IsUpper (tree_in self.now) node }
        ensures drained { IfNone result (IsDrained self.now node) }
        ensures kind { IfSome result IsPageMessage }
        ensures next { IfSome result (IsNext self.now) }
        ensures drains { IfSome result (DrainsBy self.now node) }
    {
        match next_drain(self.tables.tree(), &self.book.sheet, node) {
            Next::Ready => None,
            Next::Do { event } => Some(event),
        }
    }

    /// Sends the two frames of the end of a node's channel, and enters that a caller ended the channels of the node's subtree,
    /// in which no node has a right. The ground is not called.
    pub(crate) fn end(
        &mut self,
        caller: u32,
        number: u32,
        node: u32,
        end: End,
    ) -> Result<Answer, StepErr>
        requires next { IsNext self.old (event_ended end caller number node) }
        requires number { number ≡ length (mine (events_in self.old) caller) }
        ensures is { IfOk result (λ answer. answer ≡ Answer.Done) }
        ensures ended { OnOk result (IsEnded end caller number node self.old self.new) }
        ensures refused { IfErr result (IsRefused caller self.old self.new) }
        ensures ground { self.new.ground ≡ self.old.ground }
        ensures spare { self.new.trail.spare ≡ self.old.trail.spare }
    {
        self.make_room()?;
        send_end(&mut self.tables, &mut self.ground, node, end)?;
        let entry = Entry {
            event: end.event(caller, number, node),
            answer: Some(Answer::Done),
            bytes: Bytes::from_vec(Vec::new(self.alloc)),
        };
        self.book.enter(self.tables.tree(), entry);
        Ok(Answer::Done)
    }
}
