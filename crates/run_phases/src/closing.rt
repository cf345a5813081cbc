//! The closing syncs of a run.

ghost use Rattle.std.specs.Prelude.{◌≡◌, ◌≢◌, ℕ, ◌+◌, ◌<◌, ◌≤◌, [], length, slice_get, Some, vec_len, vec_capacity};
ghost use Rattle.script_meaning.specs.Fits.{no_client, plan_closing};
ghost use Rattle.spr_client.specs.Calls.{MayCall};
ghost use Rattle.spr_client.specs.Lines.{LineDone};
ghost use Rattle.spr_volume.specs.Passes.{known};
ghost use Rattle.run_phases.specs.Closing.{EndsQuietly, FilesClosed};

use hist_plain::{Gate, Keep};
use page_ground::Ground;
use script_text::Reply;
use spr_client::{Common, refused, reply_to, sync_at};
use spr_volume::Pass;
use std::alloc::Global;
use std::sync::Wait;

/// The number of the layer that stands on the ground.
const FIRST_LAYER: u32 = 1;

/// Makes the closing sync of a file, at the layer above the ground.
fn close_file<R: Wait, G: Ground, T: Gate>(
    rt: &R,
    alloc: Global,
    common: &Common<'_, G, T>,
    pass: &mut Pass<G>,
    closer: u32,
    file: u32,
) -> Reply
    requires may { MayCall common.now.mount.now common.now.volume.now pass.old closer }
    requires file { file < length common.now.mount.now.files }
    ensures done { LineDone common.now.mount.now closer no_client (plan_closing file) pass.old pass.new result no_client }
    ensures closed { result ≡ Reply.Done → EndsQuietly pass.old.first pass.old.end closer (known pass.new file) }
    ensures others { (j : ℕ) → j ≢ file → known pass.new j ≡ known pass.old j }
{
    // The proof reads here that there is a layer above the ground.
    let _nodes = common.mount.nodes();
    match sync_at(rt, common, pass, closer, file, FIRST_LAYER, Keep::Write) {
        Ok(answered) => reply_to(answered.answer, Vec::new(alloc)),
        Err(err) => refused(err),
    }
}

/// Makes the closing sync of each file, in order, for the caller `mount`. The room for the answers is there.
pub fn close_files<R: Wait, G: Ground, T: Gate>(
    rt: &R,
    alloc: Global,
    common: &Common<'_, G, T>,
    pass: &mut Pass<G>,
    closer: u32,
    closing: &mut Vec<Reply>,
)
    requires may { MayCall common.now.mount.now common.now.volume.now pass.old closer }
    requires empty { closing.old.items ≡ [] }
    requires room { length common.now.mount.now.files ≤ vec_capacity closing.old }
    ensures closed { FilesClosed common.now.mount.now closer common.now.mount.now.files closing.new.items pass.old pass.new }
    ensures len { length closing.new.items ≡ length common.now.mount.now.files }
{
    for file in 0..common.mount.files().len() {
        let reply = close_file(rt, alloc, common, pass, closer, file as u32);
        closing.push_reserved(reply);
    }
}
