//! The end of a sync, and steps of any kind.

ghost use Rattle.std.specs.Prelude.{◌≡◌, IfErr, IfOk, OnOk, OnErr, length, Some, []};
ghost use Rattle.hist_plain.specs.declared.event.Answer.{Answer as AnAnswer};
ghost use Rattle.hist_plain.specs.declared.event.Answer.TheVariants.{Done as ADone};
ghost use Rattle.hist_plain.specs.Plain.{asked_by};
ghost use Rattle.hist_plain.specs.declared.event.Event.{Event as AnEvent};
ghost use Rattle.hist_plain.specs.History.{mine};
ghost use Rattle.page_ground.specs.Seen.{AllKept};
ghost use Rattle.stack_engine.specs.Accesses.{LowersSpare};
ghost use Rattle.stack_engine.specs.Ended.{IsEnded, event_ended};
ghost use Rattle.stack_engine.specs.Engine.{IsNext, events_in};
ghost use Rattle.stack_engine.specs.Moves.{Enters, IsRefused, Makes};
ghost use Rattle.stack_engine.specs.Tower.{IsStepOf, SparesStep, StepNeedsDisks, TakesStep};

use crate::accesses::Place;
use crate::ends::End;
use crate::engine::Engine;
use crate::messages::noted;
use crate::refusal::StepErr;
use hist_plain::{Answer, Event, Keep, Op};
use page_ground::Ground;
use tower_log::Entry;
use value_types::Bytes;

impl<G: Ground> Engine<G> {
    /// Makes the ground keep its pages, and enters that a caller's sync is done, from a place on, of which every page is
    /// settled.
    pub(crate) fn synced(
        &mut self,
        caller: u32,
        number: u32,
        node: u32,
        from: u64,
        keep: Keep,
    ) -> Result<Answer, StepErr>
        requires next { IsNext self.old (AnEvent.Synced caller number node from keep) }
        requires number { number ≡ length (mine (events_in self.old) caller) }
        ensures is { IfOk result (λ answer. answer ≡ Answer.Done) }
        ensures enters { OnOk result (Enters (record { event = AnEvent.Synced caller number node from keep; answer = Some ADone; bytes = [] }) self.old self.new) }
        ensures kept { OnOk result (AllKept self.new.ground self.new.ground.pages) }
        ensures pages { self.new.ground.pages ≡ self.old.ground.pages }
        ensures refused { IfErr result (IsRefused caller self.old self.new) }
        ensures spare { self.new.trail.spare ≡ self.old.trail.spare }
    {
        self.make_room()?;
        match self.ground.flush() {
            Ok(()) => {}
            Err(fault) => return Err(noted(&mut self.book.trail, caller, fault)),
        }
        let entry = Entry {
            event: Event::Synced {
                caller,
                number,
                node,
                from,
                keep,
            },
            answer: Some(Answer::Done),
            bytes: Bytes::from_vec(Vec::new(self.alloc)),
        };
        self.book.enter(self.tables.tree(), entry);
        Ok(Answer::Done)
    }

    /// Enters one event that is allowed, for a caller.
    pub(crate) fn step(&mut self, caller: u32, event: Event) -> Result<(), StepErr>
        requires next { IsNext self.old event }
        requires kind { IsStepOf self.old caller event }
        ensures takes { OnOk result (TakesStep self.old self.new event) }
        ensures refused { IfErr result (IsRefused caller self.old self.new) }
        ensures idle { (StepNeedsDisks self.old event → ⊥) → self.new.ground ≡ self.old.ground }
        ensures spare { SparesStep self.old self.new event result }
    {
        match event {
            Event::Access {
                number,
                node,
                life,
                op,
                ..
            } => {
                let at = Place {
                    caller,
                    number,
                    node,
                    life,
                };
                self.step_access(at, &op)
            }
            Event::Synced {
                number,
                node,
                from,
                keep,
                ..
            } => {
                self.synced(caller, number, node, from, keep)?;
                Ok(())
            }
            Event::DestroyCache { number, node, .. } => {
                self.step_end(caller, number, node, End::Destroy)
            }
            Event::DonePager { number, node, .. } => {
                self.step_end(caller, number, node, End::Done)
            }
            event => {
                self.message(caller, event)?;
                Ok(())
            }
        }
    }

    /// Enters the end of a node's channels, which is allowed.
    fn step_end(&mut self, caller: u32, number: u32, node: u32, end: End) -> Result<(), StepErr>
        requires next { IsNext self.old (event_ended end caller number node) }
        requires number { number ≡ length (mine (events_in self.old) caller) }
        ensures ended { OnOk result (IsEnded end caller number node self.old self.new) }
        ensures refused { IfErr result (IsRefused caller self.old self.new) }
        ensures ground { self.new.ground ≡ self.old.ground }
        ensures spare { self.new.trail.spare ≡ self.old.trail.spare }
    {
        self.end(caller, number, node, end)?;
        Ok(())
    }

    /// Makes an access that is allowed, of which nobody wants the bytes.
    fn step_access(&mut self, at: Place, op: &Op) -> Result<(), StepErr>
        requires next { IsNext self.old (AnEvent.Access at.caller at.number at.node at.life op.now) }
        requires number { at.number ≡ length (mine (events_in self.old) at.caller) }
        ensures makes { OnOk result ((answer : AnAnswer) × Makes at.caller at.number at.node at.life op.now self.old self.new answer) }
        ensures refused { IfErr result (IsRefused at.caller self.old self.new) }
        ensures ground { self.new.ground ≡ self.old.ground }
        ensures spare { LowersSpare at.node at.life op.now self.old self.new result }
    {
        self.make_room()?;
        let mut out = vec![in self.alloc; 0u8; asked(op) as usize]?;
        self.access(at, op, &mut out)?;
        Ok(())
    }
}

/// How many bytes an access asks for.
fn asked(op: &Op) -> u32
    ensures { result ≡ asked_by op.now }
{
    match op {
        Op::Read { len, .. } => *len,
        _ => 0,
    }
}
