//! The accesses of an engine that are allowed.

ghost use Rattle.std.specs.Prelude.{◌≡◌, ◌≢◌, ◌+◌, ◌<◌, IfErr, IfOk, length, Some, None};
ghost use Rattle.hist_plain.specs.declared.event.Answer.TheVariants.{Bytes as ABytes};
ghost use Rattle.hist_plain.specs.declared.event.Event.{Event as AnEvent};
ghost use Rattle.hist_plain.specs.declared.event.Op.{Op as AnOp};
ghost use Rattle.hist_plain.specs.History.{mine};
ghost use Rattle.hist_plain.specs.Plain.{asked_by};
ghost use Rattle.stack_engine.specs.Accesses.{IsStill, SparesRead};
ghost use Rattle.stack_engine.specs.Engine.{IsNext, events_in, state_in};
ghost use Rattle.stack_engine.specs.Moves.{IsRefused, Makes, answer_to, bytes_to};

use crate::engine::Engine;
use crate::refusal::StepErr;
use hist_plain::{Answer, Event, MAX_EVENTS, Op};
use page_ground::Ground;
use std::alloc::{AllocError, Global};
use tower_log::Entry;
use value_types::Bytes;

/// Who makes an access, and where: a caller's event of this number, at a node, of a life.
#[derive(Clone, Copy, Debug)]
pub(crate) struct Place {
    /// The caller.
    pub(crate) caller: u32,
    /// The number of the event among the caller's.
    pub(crate) number: u32,
    /// The node, by its number in the tree.
    pub(crate) node: u32,
    /// The life that the caller knows of the node.
    pub(crate) life: u32,
}

impl Place {
    /// The access as an event.
    fn event(self, op: Op) -> Event
        ensures { result ≡ AnEvent.Access self.caller self.number self.node self.life op }
    {
        Event::Access {
            caller: self.caller,
            number: self.number,
            node: self.node,
            life: self.life,
            op,
        }
    }
}

/// What an access does, once more. It takes memory for what a write has alone.
fn copy_op(alloc: Global, op: &Op) -> Result<Op, AllocError>
    ensures { IfOk result (λ copy. copy ≡ op.now) }
{
    Ok(match op {
        Op::Read { page, off, len } => Op::Read {
            page: *page,
            off: *off,
            len: *len,
        },
        Op::Write { page, off, bytes } => Op::Write {
            page: *page,
            off: *off,
            bytes: Bytes::of(alloc, bytes.as_slice())?,
        },
        Op::Clear { page } => Op::Clear { page: *page },
        Op::Open => Op::Open,
    })
}

impl<G: Ground> Engine<G> {
    /// Makes an access that is allowed. The bytes that it reads are then in `out`. The ground is not called.
    pub(crate) fn access(&mut self, at: Place, op: &Op, out: &mut [u8]) -> Result<Answer, StepErr>
        requires next { IsNext self.old (AnEvent.Access at.caller at.number at.node at.life op.now) }
        requires number { at.number ≡ length (mine (events_in self.old) at.caller) }
        requires out { length out.old ≡ asked_by op.now }
        ensures makes { IfOk result (Makes at.caller at.number at.node at.life op.now self.old self.new) }
        ensures bytes { IfOk result (λ answer. answer ≡ ABytes → out.new ≡ bytes_to self.old at.node at.life op.now) }
        ensures refused { IfErr result (IsRefused at.caller self.old self.new) }
        ensures spare { SparesRead at.node at.life op.now self.old self.new result }
        ensures ground { self.new.ground ≡ self.old.ground }
    {
        let now = self.book.sheet.life(at.node);
        match op {
            Op::Open => self.answer(at, op, Answer::Life { life: now }),
            _ if at.life != now => self.answer(at, op, Answer::Revoked { life: now }),
            Op::Read { page, off, len } => self.read(at, *page, *off, *len, out),
            Op::Write { page, off, bytes } => self.write(at, *page, *off, bytes),
            Op::Clear { page } => self.clear(at, *page),
        }
    }

    /// Enters an access that touches no page, with its answer.
    fn answer(&mut self, at: Place, op: &Op, answer: Answer) -> Result<Answer, StepErr>
        requires next { IsNext self.old (AnEvent.Access at.caller at.number at.node at.life op.now) }
        requires number { at.number ≡ length (mine (events_in self.old) at.caller) }
        requires still { IsStill self.old at.node at.life op.now answer }
        ensures makes { IfOk result (Makes at.caller at.number at.node at.life op.now self.old self.new) }
        ensures is { IfOk result (λ a. a ≡ answer) }
        ensures refused { IfErr result (IsRefused at.caller self.old self.new) }
        ensures spare { self.new.trail.spare ≡ self.old.trail.spare }
        ensures ground { self.new.ground ≡ self.old.ground }
    {
        self.make_room()?;
        let copy = copy_op(self.alloc, op)?;
        let entry = Entry {
            event: at.event(copy),
            answer: Some(answer),
            bytes: Bytes::from_vec(Vec::new(self.alloc)),
        };
        self.book.enter(self.tables.tree(), entry);
        Ok(answer)
    }

    /// A node reads bytes of its copy of a page. A leaf thereby uses it.
    fn read(
        &mut self,
        at: Place,
        page: u32,
        off: u32,
        len: u32,
        out: &mut [u8],
    ) -> Result<Answer, StepErr>
        requires next { IsNext self.old (AnEvent.Access at.caller at.number at.node at.life (AnOp.Read page off len)) }
        requires number { at.number ≡ length (mine (events_in self.old) at.caller) }
        requires life { at.life ≡ (state_in self.old).life at.node }
        requires out { length out.old ≡ len }
        ensures makes { IfOk result (Makes at.caller at.number at.node at.life (AnOp.Read page off len) self.old self.new) }
        ensures bytes { IfOk result (λ _. out.new ≡ bytes_to self.old at.node at.life (AnOp.Read page off len)) }
        ensures refused { IfErr result (IsRefused at.caller self.old self.new) }
        ensures spare { SparesRead at.node at.life (AnOp.Read page off len) self.old self.new result }
        ensures ground { self.new.ground ≡ self.old.ground }
    {
        if self.book.trail.len() >= MAX_EVENTS {
            return Err(StepErr::TrailFull);
        }
        let mut bytes = self.book.trail.make_read_room(len)?;
        let lent = self.tables.lend(at.node, page, off, len);
        bytes.copy_from_slice(lent);
        out.copy_from_slice(lent);
        self.tables.touch(at.node, page);
        let entry = Entry {
            event: at.event(Op::Read { page, off, len }),
            answer: Some(Answer::Bytes),
            bytes: Bytes::from_vec(bytes),
        };
        self.book.enter(self.tables.tree(), entry);
        Ok(Answer::Bytes)
    }

    /// A node writes bytes to its copy of a page.
    fn write(&mut self, at: Place, page: u32, off: u32, bytes: &Bytes) -> Result<Answer, StepErr>
        requires next { IsNext self.old (AnEvent.Access at.caller at.number at.node at.life (AnOp.Write page off bytes.now)) }
        requires number { at.number ≡ length (mine (events_in self.old) at.caller) }
        requires life { at.life ≡ (state_in self.old).life at.node }
        ensures makes { IfOk result (Makes at.caller at.number at.node at.life (AnOp.Write page off bytes.now) self.old self.new) }
        ensures is { IfOk result (λ a. a ≡ Answer.Done) }
        ensures refused { IfErr result (IsRefused at.caller self.old self.new) }
        ensures spare { self.new.trail.spare ≡ self.old.trail.spare }
        ensures ground { self.new.ground ≡ self.old.ground }
    {
        self.make_room()?;
        let copy = Bytes::of(self.alloc, bytes.as_slice())?;
        self.tables.change(at.node, page, off, bytes.as_slice());
        let entry = Entry {
            event: at.event(Op::Write {
                page,
                off,
                bytes: copy,
            }),
            answer: Some(Answer::Done),
            bytes: Bytes::from_vec(Vec::new(self.alloc)),
        };
        self.book.enter(self.tables.tree(), entry);
        Ok(Answer::Done)
    }

    /// A node makes its copy of a page zeros.
    fn clear(&mut self, at: Place, page: u32) -> Result<Answer, StepErr>
        requires next { IsNext self.old (AnEvent.Access at.caller at.number at.node at.life (AnOp.Clear page)) }
        requires number { at.number ≡ length (mine (events_in self.old) at.caller) }
        requires life { at.life ≡ (state_in self.old).life at.node }
        ensures makes { IfOk result (Makes at.caller at.number at.node at.life (AnOp.Clear page) self.old self.new) }
        ensures is { IfOk result (λ a. a ≡ Answer.Done) }
        ensures refused { IfErr result (IsRefused at.caller self.old self.new) }
        ensures spare { self.new.trail.spare ≡ self.old.trail.spare }
        ensures ground { self.new.ground ≡ self.old.ground }
    {
        self.make_room()?;
        self.tables.blank(at.node, page);
        let entry = Entry {
            event: at.event(Op::Clear { page }),
            answer: Some(Answer::Done),
            bytes: Bytes::from_vec(Vec::new(self.alloc)),
        };
        self.book.enter(self.tables.tree(), entry);
        Ok(Answer::Done)
    }
}
