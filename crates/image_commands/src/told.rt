//! How a store command that did its work ends.

ghost use Rattle.std.specs.Prelude.{◌≡◌, ◌++◌};
ghost use Rattle.spr_report.specs.Writing.{Finishes};
ghost use Rattle.file_stores.specs.Stop.{lost_text};
ghost use Rattle.image_commands.specs.Told.{done_status};

use file_stores::finish_lost;
use script_meaning::StoreKey;
use spr_io::{Failed, Sink};
use spr_report::{Status, write_all};
use stack_accept::Mounted;

/// The status, by the stores that are lost.
fn done_status(lost: &[StoreKey]) -> Status
    ensures { result ≡ done_status lost.now }
{
    match lost {
        [] => Status::Good,
        _ => Status::BayFault,
    }
}

/// Ends a command that did its work: writes its text, a line for each store that is lost, and the status.
pub(crate) fn tell<K: Sink>(sink: &mut K, mount: &Mounted, text: &[u8], lost: &[StoreKey]) -> Status
    ensures { Finishes (K.told sink.old) (K.told sink.new) (text.now ++ lost_text mount.now lost.now) (done_status lost.now) result }
{
    match write_all(sink, text) {
        Ok(()) => finish_lost(sink, mount, lost, done_status(lost)),
        Err(Failed) => Status::SinkFault,
    }
}
