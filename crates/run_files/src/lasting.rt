//! What the files are at the end: plain files that began with what was read, after all events of their logs.

ghost use Rattle.std.specs.Prelude.{◌≡◌, ◌≤◌, ◌*◌, IfOk, List, ℕ, Some, length, map, slice_get};
ghost use Rattle.hist_plain.specs.History.{replay};
ghost use Rattle.hist_plain.specs.Plain.{HasPages, IsPageSize, IsTree, asked_len, fresh};
ghost use Rattle.hist_plain.specs.File.{Counted, File, Shape};
ghost use Rattle.tower_log.specs.Log.{trail_of};
ghost use Rattle.stack_accept.specs.Sound.{IsMount};
ghost use Rattle.spr_report.specs.Tracing.{AreReported};
ghost use Rattle.file_stores.specs.Keys.{EachAt};
ghost use Rattle.script_meaning.specs.Log.{log_of};
ghost use Rattle.script_meaning.specs.Stack.{pages_of};
ghost use Rattle.run_files.specs.Begun.{begun_as, file_then};
ghost use Rattle.run_files.specs.Lasting.{CanPlay};

use crate::layers::parents_of;
use hist_plain::{Event, Op, Plain};
use stack_accept::Mounted;
use std::alloc::{AllocError, Global};
use tower_log::Trail;

/// How many bytes an event reads.
fn asked_of(event: &Event) -> usize
    ensures { result ≡ asked_len event.now }
{
    match event {
        Event::Access {
            op: Op::Read { len, .. },
            ..
        } => *len as usize,
        _ => 0,
    }
}

/// Takes the events of a log on a plain file that has none. `scratch` has room for the bytes of each read.
fn play_log(plain: &mut Plain, log: &Trail, scratch: &mut [u8])
    requires plays { CanPlay plain.old (trail_of log.now.log) (length scratch.old) }
    ensures file { plain.new.file ≡ replay plain.old.shape plain.old.file (trail_of log.now.log) }
{
    for place in 0..log.len() {
        if let Some(event) = log.get(place) {
            plain.apply(event, &mut scratch[..asked_of(event)]);
        }
    }
}

/// The plain file that began with these bytes, after the events of a log.
fn file_at_end(
    alloc: Global,
    page_size: u32,
    parents: &[u32],
    begun: &[u8],
    log: &Trail,
    scratch: &mut [u8],
) -> Result<Plain, AllocError>
    requires tree { IsTree parents.now }
    requires size { IsPageSize page_size }
    requires pages { HasPages page_size begun.now }
    requires plays { CanPlay (record { shape = record { page_size = page_size; parents = parents.now }; file = fresh parents.now begun.now; len = 0 }) (trail_of log.now.log) (length scratch.old) }
    ensures { IfOk result (λ last. last.file ≡ replay (record { page_size = page_size; parents = parents.now }) (fresh parents.now begun.now) (trail_of log.now.log)) }
{
    let mut last = Plain::new(alloc, page_size, parents, begun)?;
    play_log(&mut last, log, scratch);
    Ok(last)
}

/// The plain files that began with these bytes, each after the events of its log.
pub(crate) fn files_at_end(
    alloc: Global,
    mount: &Mounted,
    begun: &[Vec<u8>],
    logs: &[Trail],
) -> Result<Vec<Plain>, AllocError>
    requires sound { IsMount mount.now }
    requires begun { length begun.now ≡ length mount.now.files }
    requires sized { EachAt (λ at bytes. length bytes ≡ pages_of mount.now at * mount.now.page_size) (map (λ b. b.items) begun.now) }
    requires logs { AreReported mount.now mount.now.files (map (λ t. t.log) logs.now) }
    ensures many { IfOk result (λ lasts. length lasts.items ≡ length begun.now) }
    ensures ends { IfOk result (λ lasts. (file : ℕ) (bytes : List ℕ) (last : Counted) → slice_get (map (λ b. b.items) begun.now) file ≡ Some bytes → slice_get lasts.items file ≡ Some last
        → last.file ≡ file_then (begun_as mount.now file (record { bytes = bytes })) (trail_of (log_of (map (λ t. t.log) logs.now) file))) }
{
    let parents = parents_of(alloc, mount.tree())?;
    let page_size = mount.page_size();
    let mut scratch = vec![in alloc; 0u8; page_size as usize]?;
    let mut lasts = Vec::new(alloc);
    for file in 0..begun.len() {
        let (bytes, log) = (&begun[file], &logs[file]);
        lasts.push(file_at_end(alloc, page_size, &parents, bytes, log, &mut scratch)?)?;
    }
    Ok(lasts)
}
