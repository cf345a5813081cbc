//! How a run ended, by its answers.

ghost use Rattle.std.specs.Prelude.{◌≡◌, map};
ghost use Rattle.std.specs.List.{list_any, list_all};
ghost use Rattle.run_files.specs.Ended.{any_lost, is_memory, is_fault, is_done, lacks_memory, has_fault, status_by, status_of};

use script_meaning::StoreKey;
use script_text::{Reply, Said};
use spr_report::Status;

fn is_memory(reply: &Reply) -> bool
    ensures { result ≡ is_memory reply.now }
{
    matches!(reply, Reply::Memory)
}

fn is_fault(reply: &Reply) -> bool
    ensures { result ≡ is_fault reply.now }
{
    matches!(
        reply,
        Reply::Store { .. } | Reply::Link { .. } | Reply::TrailFull
    )
}

fn is_done(reply: &Reply) -> bool
    ensures { result ≡ is_done reply.now }
{
    matches!(reply, Reply::Done)
}

fn lacks_memory(said: &[Said]) -> bool
    ensures { result ≡ lacks_memory said.now }
{
    said.iter().any(|s| is_memory(&s.reply))
}

fn has_fault(said: &[Said]) -> bool
    ensures { result ≡ has_fault said.now }
{
    said.iter().any(|s| is_fault(&s.reply))
}

fn any_lacks(said: &[Vec<Said>]) -> bool
    ensures { result ≡ list_any (λ v. lacks_memory v.items) said.now }
{
    said.iter().any(|s| lacks_memory(s))
}

fn any_fault(said: &[Vec<Said>]) -> bool
    ensures { result ≡ list_any (λ v. has_fault v.items) said.now }
{
    said.iter().any(|s| has_fault(s))
}

fn any_memory(closing: &[Reply]) -> bool
    ensures { result ≡ list_any is_memory closing.now }
{
    closing.iter().any(is_memory)
}

fn all_done(closing: &[Reply]) -> bool
    ensures { result ≡ list_all is_done closing.now }
{
    closing.iter().all(is_done)
}

fn any_lost(lost: &[StoreKey]) -> bool
    ensures { result ≡ any_lost lost.now }
{
    !lost.is_empty()
}

/// The status, by what the answers have.
fn status_by(lacks: bool, memory: bool, lost: bool, fault: bool, done: bool) -> Status
    ensures { result ≡ status_by lacks memory lost fault done }
{
    if lacks || memory {
        Status::Memory
    } else if lost {
        Status::BayFault
    } else if fault || !done {
        Status::Faulted
    } else {
        Status::Good
    }
}

/// The status of a run that reached its phases.
pub(crate) fn status_of(said: &[Vec<Said>], closing: &[Reply], lost: &[StoreKey]) -> Status
    ensures { result ≡ status_of (map (λ v. v.items) said.now) closing.now lost.now }
{
    status_by(
        any_lacks(said),
        any_memory(closing),
        any_lost(lost),
        any_fault(said),
        all_done(closing),
    )
}
