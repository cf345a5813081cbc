//! The page messages of an engine.

ghost use Rattle.std.specs.Prelude.{◌≡◌, ◌≢◌, ◌<◌, ◌⊎◌, ◌↔◌, ◌++◌, ◌∷◌, [], IfErr, IfOk, IsTrue, None, length};
ghost use Rattle.hist_plain.specs.declared.event.Event.{Event as AnEvent};
ghost use Rattle.hist_plain.specs.History.{IsZeroPage};
ghost use Rattle.tower_core.specs.declared.right.Right.{Right as ARight};
ghost use Rattle.tower_core.specs.TreeShape.{IsUpper};
ghost use Rattle.page_exchange.specs.Allowed.{AllowsReading, grant_asked};
ghost use Rattle.page_exchange.specs.Tables.{paged_of, sides, tree_of};
ghost use Rattle.stack_engine.specs.Engine.{IsNext, file_in, reads_ground, tree_in};
ghost use Rattle.stack_engine.specs.Messages.{IsPageMessage, IsPush, NeedsDisks, Refuses, event_asked, event_called, event_granted, kept_size};
ghost use Rattle.stack_engine.specs.Moves.{IsRefused, Sends};
ghost use Rattle.tower_log.specs.declared.logged.Logged.{Logged as ALogged};

use crate::engine::Engine;
use crate::refusal::StepErr;
use coherency_layer::{Asked, Called};
use hist_plain::Event;
use page_exchange::{GroundErr, Tables};
use page_ground::{Ground, StoreFault, is_zero_page};
use std::alloc::{AllocError, Global};
use tower_core::Right;
use tower_log::{Entry, Note, Trail};
use value_types::Bytes;

/// The event that a question is, once it is answered.
fn event_asked(what: Asked, node: u32, page: u32) -> Event
    requires { IsPush what }
    ensures { result ≡ event_asked what node page }
{
    match what {
        Asked::PageOut => Event::PageOut { node, page },
        Asked::WriteOut => Event::WriteOut { node, page },
        Asked::Sync => Event::SyncOut { node, page },
        _ => unreachable!(),
    }
}

/// The event that an order is, once it is obeyed.
fn event_called(what: Called, node: u32, page: u32) -> Event
    requires { what ≢ Called.Destroy }
    ensures { result ≡ event_called what node page }
{
    match what {
        Called::FlushBack => Event::FlushBack { node, page },
        Called::DenyWrites => Event::DenyWrites { node, page },
        Called::WriteBack => Event::WriteBack { node, page },
        Called::DeleteRange => Event::DeleteRange { node, page },
        Called::Destroy => unreachable!(),
    }
}

/// The question for a page, for reading or for writing.
fn grant_asked(write: bool) -> Asked
    ensures { result ≡ grant_asked write }
{
    if write {
        Asked::PageInWrite
    } else {
        Asked::PageInRead
    }
}

/// The event that a grant is.
fn event_granted(zeros: bool, node: u32, page: u32, write: bool) -> Event
    ensures { result ≡ event_granted zeros node page write }
{
    if zeros {
        Event::ZeroFill { node, page, write }
    } else {
        Event::PageIn { node, page, write }
    }
}

/// An event without an answer and without bytes.
fn plain_entry(alloc: Global, event: Event) -> Entry
    ensures { result ≡ record { event = event; answer = None; bytes = [] } }
{
    Entry {
        event,
        answer: None,
        bytes: Bytes::from_vec(Vec::new(alloc)),
    }
}

/// Notes that a store failed in a caller's call, which is thereby refused.
pub(crate) fn noted(trail: &mut Trail, caller: u32, fault: StoreFault) -> StepErr
    requires { 0 < trail.old.room }
    ensures fault { result ≡ StepErr.StoreFault fault.disk fault.count }
    ensures noted { trail.new.log ≡ trail.old.log ++ ALogged.Noted (record { caller = caller; disk = fault.disk; count = fault.count }) ∷ [] }
    ensures same { trail.new ≡ record trail.old { log = trail.new.log; room = trail.new.room } }
{
    let StoreFault { disk, count } = fault;
    trail.note(Note {
        caller,
        disk,
        count,
    });
    StepErr::StoreFault { disk, count }
}

/// Why a caller's call was refused, as the ground said. A store that failed is noted.
fn refused(trail: &mut Trail, caller: u32, err: GroundErr) -> StepErr
    requires { 0 < trail.old.room }
    ensures { Refuses caller trail.old trail.new err result }
{
    match err {
        GroundErr::Memory => StepErr::Memory,
        GroundErr::Store(fault) => noted(trail, caller, fault),
    }
}

/// Whether a node that had nothing found zeros in the page that it was granted.
fn finds_zeros(tables: &Tables, had: Right, node: u32, page: u32) -> bool
    requires upper { IsUpper (tree_of tables.now) node }
    requires page { page < (paged_of tables.now).pages }
    requires may { AllowsReading (sides tables.now page node) }
    ensures { IsTrue result ↔ ((had ≡ ARight.Nothing) × IsZeroPage (paged_of tables.now).page_size (sides tables.now page node).copy) }
{
    had == Right::Nothing && is_zero_page(tables.copy(node, page))
}

/// Whether a grant of a page to a node reads it from the ground.
fn reads_ground(tables: &Tables, node: u32, page: u32) -> bool
    requires upper { IsUpper (tree_of tables.now) node }
    requires page { page < (paged_of tables.now).pages }
    ensures { result ≡ reads_ground tables.now node page }
{
    tables.right(node, page) == Right::Nothing && tables.tree().parent(node) == 0
}

/// The page that a node was granted, where there is room for it, and else no bytes.
fn keep_page(tables: &Tables, room: Vec<u8>, node: u32, page: u32) -> Bytes
    requires upper { IsUpper (tree_of tables.now) node }
    requires page { page < (paged_of tables.now).pages }
    requires may { AllowsReading (sides tables.now page node) }
    requires room { (length room.items ≡ 0) ⊎ (length room.items ≡ (paged_of tables.now).page_size) }
    ensures none { length room.items ≡ 0 → result ≡ [] }
    ensures kept { length room.items ≡ (paged_of tables.now).page_size → result ≡ (sides tables.now page node).copy }
    ensures whole { length room.items ≡ (paged_of tables.now).page_size → length result ≡ (paged_of tables.now).page_size }
{
    let mut bytes = room;
    if !bytes.is_empty() {
        bytes.copy_from_slice(tables.copy(node, page));
    }
    Bytes::from_vec(bytes)
}

impl<G: Ground> Engine<G> {
    /// Sends a page message that the plan names, for a caller, and gives the event that stands in the log for it. The ground
    /// is called only if the message needs the disks.
    pub(crate) fn message(&mut self, caller: u32, event: Event) -> Result<Event, StepErr>
        requires kind { IsPageMessage event }
        requires next { IsNext self.old event }
        ensures sends { IfOk result (Sends event self.old self.new) }
        ensures refused { IfErr result (IsRefused caller self.old self.new) }
        ensures idle { (NeedsDisks self.old event → ⊥) → self.new.ground ≡ self.old.ground }
    {
        match event {
            Event::PageIn { node, page, write } => self.grant(caller, node, page, write),
            Event::PageOut { node, page } => self.push(caller, Asked::PageOut, node, page),
            Event::WriteOut { node, page } => self.push(caller, Asked::WriteOut, node, page),
            Event::SyncOut { node, page } => self.push(caller, Asked::Sync, node, page),
            Event::FlushBack { node, page } => self.order(caller, Called::FlushBack, node, page),
            Event::DenyWrites { node, page } => self.order(caller, Called::DenyWrites, node, page),
            Event::WriteBack { node, page } => self.order(caller, Called::WriteBack, node, page),
            Event::DeleteRange { node, page } => {
                self.order(caller, Called::DeleteRange, node, page)
            }
            _ => unreachable!(),
        }
    }

    /// A node sends its copy of a page to its parent, where it is changed.
    fn push(&mut self, caller: u32, what: Asked, node: u32, page: u32) -> Result<Event, StepErr>
        requires push { IsPush what }
        requires next { IsNext self.old (event_asked what node page) }
        ensures sends { IfOk result (Sends (event_asked what node page) self.old self.new) }
        ensures refused { IfErr result (IsRefused caller self.old self.new) }
        ensures idle { (NeedsDisks self.old (event_asked what node page) → ⊥) → self.new.ground ≡ self.old.ground }
    {
        self.make_room()?;
        match self.tables.ask(&mut self.ground, node, what, page) {
            Ok(()) => {}
            Err(err) => return Err(refused(&mut self.book.trail, caller, err)),
        }
        let entry = plain_entry(self.alloc, event_asked(what, node, page));
        self.book.enter(self.tables.tree(), entry);
        Ok(event_asked(what, node, page))
    }

    /// A node's parent gives it an order about a page.
    fn order(&mut self, caller: u32, what: Called, node: u32, page: u32) -> Result<Event, StepErr>
        requires about_page { what ≢ Called.Destroy }
        requires next { IsNext self.old (event_called what node page) }
        ensures sends { IfOk result (Sends (event_called what node page) self.old self.new) }
        ensures refused { IfErr result (IsRefused caller self.old self.new) }
        ensures idle { (NeedsDisks self.old (event_called what node page) → ⊥) → self.new.ground ≡ self.old.ground }
    {
        self.make_room()?;
        match self.tables.order(&mut self.ground, node, what, page) {
            Ok(()) => {}
            Err(fault) => return Err(noted(&mut self.book.trail, caller, fault)),
        }
        let entry = plain_entry(self.alloc, event_called(what, node, page));
        self.book.enter(self.tables.tree(), entry);
        Ok(event_called(what, node, page))
    }

    /// Room for a page that the node reads from the ground, and none if it does not.
    fn read_room(&self, node: u32, page: u32) -> Result<Vec<u8>, AllocError>
        requires upper { IsUpper (tree_in self.now) node }
        requires page { page < (file_in self.now).pages }
        ensures { IfOk result (λ room. length room.items ≡ kept_size self.now node page) }
    {
        let size = if reads_ground(&self.tables, node, page) {
            self.tables.file().page_size as usize
        } else {
            0
        };
        vec![in self.alloc; 0u8; size]
    }

    /// A node is granted a page by its parent, for reading or for writing.
    fn grant(&mut self, caller: u32, node: u32, page: u32, write: bool) -> Result<Event, StepErr>
        requires next { IsNext self.old (AnEvent.PageIn node page write) }
        ensures sends { IfOk result (Sends (AnEvent.PageIn node page write) self.old self.new) }
        ensures refused { IfErr result (IsRefused caller self.old self.new) }
        ensures idle { (NeedsDisks self.old (AnEvent.PageIn node page write) → ⊥) → self.new.ground ≡ self.old.ground }
    {
        self.make_room()?;
        let room = self.read_room(node, page)?;
        let had = self.tables.right(node, page);
        match self
            .tables
            .ask(&mut self.ground, node, grant_asked(write), page)
        {
            Ok(()) => {}
            Err(err) => return Err(refused(&mut self.book.trail, caller, err)),
        }
        let zeros = finds_zeros(&self.tables, had, node, page);
        let bytes = keep_page(&self.tables, room, node, page);
        let entry = Entry {
            event: event_granted(zeros, node, page, write),
            answer: None,
            bytes,
        };
        self.book.enter(self.tables.tree(), entry);
        Ok(event_granted(zeros, node, page, write))
    }
}
