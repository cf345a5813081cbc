//! Tries to end the channels of a layer's files.

ghost use Rattle.std.specs.Prelude.{◌≡◌, ℕ, IfErr, IfOk, None, OnErr, length};
ghost use Rattle.hist_plain.specs.History.{mine};
ghost use Rattle.tower_core.specs.TreeShape.{IsUpper};
ghost use Rattle.stack_engine.specs.declared.ends.End.{End as AnEnd};
ghost use Rattle.stack_engine.specs.declared.turns.TurnOf.{TurnOf as ATurnOf};
ghost use Rattle.stack_engine.specs.Ended.{DrainsBy, EndNeedsDisks, IsDrained};
ghost use Rattle.stack_engine.specs.Ends.{AdvancesEnd};
ghost use Rattle.stack_engine.specs.Engine.{IsNext, events_in, tree_in};
ghost use Rattle.stack_engine.specs.Messages.{IsPageMessage, NeedsDisks};
ghost use Rattle.stack_engine.specs.Moves.{IsRefused};
ghost use Rattle.stack_engine.specs.Tower.{Fails};
ghost use Rattle.stack_engine.specs.Turns.{other_holder, without_turns};

use crate::ends::End;
use crate::moved::Moved;
use crate::refusal::StepErr;
use crate::tower::Tower;
use crate::turns::{TurnOf, give_up_turns, other_holder, take_turn};
use hist_plain::Event;
use page_ground::Ground;

impl<G: Ground> Tower<G> {
    /// Tries to end, for a caller, the channels of a layer and of all layers above it, unless another caller has the file's
    /// turn. If none of them has a right on any page, the end is entered. If not, the caller takes the file's turn, and the
    /// message is sent by which the next of them gives up its right.
    pub fn advance_end(
        &mut self,
        caller: u32,
        number: u32,
        node: u32,
        end: End,
    ) -> Result<Moved, StepErr>
        requires upper { IsUpper (tree_in self.old.engine) node }
        requires number { number ≡ length (mine (events_in self.old.engine) caller) }
        ensures advances { IfOk result (AdvancesEnd caller number node end self.old self.new) }
        ensures fails { IfErr result (Fails caller self.old self.new) }
        ensures idle { (EndNeedsDisks self.old.engine node → ⊥) → self.new.engine.ground ≡ self.old.engine.ground }
        ensures spare { self.new.engine.trail.spare ≡ self.old.engine.trail.spare }
    {
        if let Some(holder) = other_holder(caller, TurnOf::File, &self.turns) {
            return Ok(Moved::Busy { holder });
        }
        match self.engine.next_drain(node) {
            None => self.end(caller, number, node, end),
            Some(event) => self.drain(caller, node, event),
        }
    }

    /// Enters the end of the channels of a subtree in which no layer has a right.
    fn end(&mut self, caller: u32, number: u32, node: u32, end: End) -> Result<Moved, StepErr>
        requires upper { IsUpper (tree_in self.old.engine) node }
        requires number { number ≡ length (mine (events_in self.old.engine) caller) }
        requires free { other_holder caller ATurnOf.File self.old.turns ≡ None }
        requires drained { IsDrained self.old.engine node }
        ensures advances { IfOk result (AdvancesEnd caller number node end self.old self.new) }
        ensures fails { IfErr result (Fails caller self.old self.new) }
        ensures ground { self.new.engine.ground ≡ self.old.engine.ground }
        ensures spare { self.new.engine.trail.spare ≡ self.old.engine.trail.spare }
    {
        let result = self.engine.end(caller, number, node, end);
        give_up_turns(caller, &mut self.turns);
        match result {
            Ok(answer) => Ok(Moved::Done { answer }),
            Err(err) => Err(err),
        }
    }

    /// Has the next layer of a subtree give up its right.
    fn drain(&mut self, caller: u32, node: u32, event: Event) -> Result<Moved, StepErr>
        requires free { other_holder caller ATurnOf.File self.old.turns ≡ None }
        requires kind { IsPageMessage event }
        requires next { IsNext self.old.engine event }
        requires drains { DrainsBy self.old.engine node event }
        ensures advances { IfOk result (λ moved. (number : ℕ) (end : AnEnd) → AdvancesEnd caller number node end self.old self.new moved) }
        ensures fails { IfErr result (Fails caller self.old self.new) }
        ensures idle { (NeedsDisks self.old.engine event → ⊥) → self.new.engine.ground ≡ self.old.engine.ground }
        ensures spare { self.new.engine.trail.spare ≡ self.old.engine.trail.spare }
    {
        let result = self.drain_on(caller, node, event);
        if result.is_err() {
            give_up_turns(caller, &mut self.turns);
        }
        result
    }

    /// Takes the file's turn, and sends the message that comes next.
    fn drain_on(&mut self, caller: u32, node: u32, event: Event) -> Result<Moved, StepErr>
        requires free { other_holder caller ATurnOf.File self.old.turns ≡ None }
        requires kind { IsPageMessage event }
        requires next { IsNext self.old.engine event }
        requires drains { DrainsBy self.old.engine node event }
        ensures advances { IfOk result (λ moved. (number : ℕ) (end : AnEnd) → AdvancesEnd caller number node end self.old self.new moved) }
        ensures refused { IfErr result (IsRefused caller self.old.engine self.new.engine) }
        ensures idle { (NeedsDisks self.old.engine event → ⊥) → self.new.engine.ground ≡ self.old.engine.ground }
        ensures spare { self.new.engine.trail.spare ≡ self.old.engine.trail.spare }
        ensures turns { OnErr result (without_turns caller self.new.turns ≡ without_turns caller self.old.turns) }
    {
        self.engine.make_room()?;
        take_turn(caller, TurnOf::File, &mut self.turns)?;
        let event = self.engine.message(caller, event)?;
        Ok(Moved::Stepped { event })
    }
}
