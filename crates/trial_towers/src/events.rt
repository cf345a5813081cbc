//! The events of a file's trail in words: `read NODE PAGE OFF LEN`, `zero_fill NODE PAGE write`, `synced NODE FROM write`.
//!
//! An access may end with `life LIFE`, and a caller's event may begin with `by CALLER NUMBER`; else these are all 0.

ghost use Rattle.std.specs.Prelude.{◌<◌, IsTrue};
ghost use Rattle.std.specs.Option.{ForSome};
ghost use Rattle.hist_plain.specs.Event.{page_of};

use hist_plain::Event;
use std::alloc::Global;
use trial_parts::{access_named, keep_of, lived, page_of};
use trial_words::{Halt, long, number, two};

/// The end of a sync at a node.
fn synced(caller: u32, place: u32, node: u32, from: &str, keep: &str) -> Result<Event, Halt> {
    let (from, keep) = (long(from)?, keep_of(keep)?);
    Ok(Event::Synced {
        caller,
        number: place,
        node,
        from,
        keep,
    })
}

/// An access at a node, and the life behind it.
fn access_at(
    alloc: Global,
    caller: u32,
    place: u32,
    node: u32,
    name: &str,
    words: &[&str],
) -> Result<Event, Halt> {
    let (words, life) = lived(words)?;
    let op = access_named(alloc, name, words)?;
    Ok(Event::Access {
        caller,
        number: place,
        node,
        life,
        op,
    })
}

/// A caller's event.
fn caller_event(alloc: Global, caller: u32, place: u32, words: &[&str]) -> Result<Event, Halt> {
    let [name, node, rest @ ..] = words else {
        return Err(Halt::Unread);
    };
    let (node, number) = (number(node)?, place);
    match (*name, rest) {
        ("destroy_cache", []) => Ok(Event::DestroyCache {
            caller,
            number,
            node,
        }),
        ("done_pager", []) => Ok(Event::DonePager {
            caller,
            number,
            node,
        }),
        ("synced", [from, keep]) => synced(caller, number, node, from, keep),
        (name, rest) => access_at(alloc, caller, number, node, name, rest),
    }
}

/// A grant of a page, if the name and the right are one's.
fn grant(name: &str, node: u32, page: u32, right: &str) -> Option<Event> {
    let write = right == "write";
    if !write && right != "read" {
        return None;
    }
    match name {
        "page_in" => Some(Event::PageIn { node, page, write }),
        "zero_fill" => Some(Event::ZeroFill { node, page, write }),
        _ => None,
    }
}

/// A message about a page that is no grant, if the name is one's.
fn message(name: &str, node: u32, page: u32) -> Option<Event> {
    match name {
        "page_out" => Some(Event::PageOut { node, page }),
        "write_out" => Some(Event::WriteOut { node, page }),
        "sync" => Some(Event::SyncOut { node, page }),
        "flush_back" => Some(Event::FlushBack { node, page }),
        "deny_writes" => Some(Event::DenyWrites { node, page }),
        "write_back" => Some(Event::WriteBack { node, page }),
        "delete_range" => Some(Event::DeleteRange { node, page }),
        _ => None,
    }
}

/// A message about a page, if the words are one.
fn page_message(words: &[&str]) -> Option<Event> {
    let [name, node, page, right @ ..] = words else {
        return None;
    };
    let (node, page) = two(node, page).ok()?;
    match right {
        [] => message(name, node, page),
        [right] => grant(name, node, page, right),
        _ => None,
    }
}

/// The event of some words.
pub fn event_of(alloc: Global, words: &[&str]) -> Result<Event, Halt> {
    if let Some(event) = page_message(words) {
        return Ok(event);
    }
    match words {
        ["by", caller, place, rest @ ..] => {
            let (caller, place) = two(caller, place)?;
            caller_event(alloc, caller, place, rest)
        }
        _ => caller_event(alloc, 0, 0, words),
    }
}

/// Whether an event is of one of these pages, if it is of a page.
pub fn is_in_pages(event: &Event, pages: u32) -> bool
    ensures { IsTrue result → ForSome (page_of event.now) (λ page. page < pages) }
{
    match page_of(event) {
        Some(page) => page < pages,
        None => true,
    }
}
