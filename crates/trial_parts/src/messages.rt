//! Page messages in words, and how far a try of a call got.

ghost use Rattle.std.specs.Prelude.{◌≡◌};
ghost use Rattle.hist_plain.specs.Event.{page_of, page_of_op};

use crate::accesses::put_given;
use hist_plain::{Event, Op};
use stack_engine::{Moved, StepErr};
use std::alloc::Global;
use trial_words::Halt;

/// The page of an access, if it is of a page.
fn page_of_access(op: &Op) -> Option<u32>
    ensures { result ≡ page_of_op op.now }
{
    match op {
        Op::Read { page, .. } | Op::Write { page, .. } | Op::Clear { page } => Some(*page),
        Op::Open => None,
    }
}

/// The page of an event, if it is of a page.
pub fn page_of(event: &Event) -> Option<u32>
    ensures { result ≡ page_of event.now }
{
    match event {
        Event::Access { op, .. } => page_of_access(op),
        Event::PageIn { page, .. }
        | Event::ZeroFill { page, .. }
        | Event::PageOut { page, .. }
        | Event::WriteOut { page, .. }
        | Event::SyncOut { page, .. }
        | Event::FlushBack { page, .. }
        | Event::DenyWrites { page, .. }
        | Event::WriteBack { page, .. }
        | Event::DeleteRange { page, .. } => Some(*page),
        Event::DestroyCache { .. } | Event::DonePager { .. } | Event::Synced { .. } => None,
    }
}

/// The page of an event, or page 0.
pub fn page_shown(event: &Event) -> u32 {
    page_of(event).unwrap_or(0)
}

/// The name of a page message.
pub fn name_of(event: &Event) -> &'static str {
    match event {
        Event::PageIn { .. } => "page_in",
        Event::ZeroFill { .. } => "zero_fill",
        Event::PageOut { .. } => "page_out",
        Event::WriteOut { .. } => "write_out",
        Event::SyncOut { .. } => "sync",
        Event::FlushBack { .. } => "flush_back",
        Event::DenyWrites { .. } => "deny_writes",
        Event::WriteBack { .. } => "write_back",
        Event::DeleteRange { .. } => "delete_range",
        _ => "no page message",
    }
}

/// Appends how far a try got, where `out` has the bytes of a read: its answer, the message that it sent with its node and page,
/// the caller that it waits for, or why it failed.
pub fn put_moved(
    alloc: Global,
    moved: &Result<Moved, StepErr>,
    out: &[u8],
    answer: &mut String,
) -> Result<(), Halt> {
    match moved {
        Ok(Moved::Done { answer: given }) => put_given(alloc, *given, out, answer)?,
        Ok(Moved::Stepped { event }) => {
            let (name, node, page) = (name_of(event), event.node(), page_shown(event));
            write!(answer, "sends {name} {node} {page}")?;
        }
        Ok(Moved::Busy { holder }) => write!(answer, "waits for {holder}")?,
        Err(why) => write!(answer, "{why}")?,
    }
    Ok(())
}
