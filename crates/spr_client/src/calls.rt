//! Calls at one of the files of a stack.

ghost use Rattle.std.specs.Prelude.{◌≡◌, ◌<◌, [], IfOk, IsTrue, length};
ghost use Rattle.hist_plain.specs.Event.{fits_page};
ghost use Rattle.hist_plain.specs.Plain.{asked_by};
ghost use Rattle.script_meaning.specs.Plan.{asking, access, sync};
ghost use Rattle.script_meaning.specs.Stack.{pages_of};
ghost use Rattle.spr_client.specs.Calls.{CallDone, MayCall, ask_of};

use crate::client::Common;
use hist_plain::{Gate, Keep, Op};
use page_ground::Ground;
use spr_volume::{Answered, CallErr, Pass};
use stack_engine::End;
use std::sync::Wait;

/// Makes an access at a file, at a layer above the ground, within one page of the file.
pub(crate) fn access_at<R: Wait, G: Ground, T: Gate>(
    rt: &R,
    common: &Common<'_, G, T>,
    pass: &mut Pass<G>,
    caller: u32,
    file: u32,
    node: u32,
    life: u32,
    op: &Op,
    out: &mut [u8],
) -> Result<Answered, CallErr>
    requires may { MayCall common.now.mount.now common.now.volume.now pass.old caller }
    requires route { (file < length common.now.mount.now.files) × (0 < node) × (node < length common.now.mount.now.tree.parents) }
    requires fits { IsTrue (fits_page common.now.mount.now.page_size (pages_of common.now.mount.now file) op.now) }
    requires out { length out.old ≡ asked_by op.now }
    ensures { CallDone caller (asking file (access node life op.now)) pass.old pass.new out.new result }
{
    common
        .volume
        .access(rt, pass, caller, file, node, life, op, out, common.gate)
}

/// Makes a sync of a file, at a layer above the ground.
pub fn sync_at<R: Wait, G: Ground, T: Gate>(
    rt: &R,
    common: &Common<'_, G, T>,
    pass: &mut Pass<G>,
    caller: u32,
    file: u32,
    node: u32,
    keep: Keep,
) -> Result<Answered, CallErr>
    requires may { MayCall common.now.mount.now common.now.volume.now pass.old caller }
    requires route { (file < length common.now.mount.now.files) × (0 < node) × (node < length common.now.mount.now.tree.parents) }
    ensures { CallDone caller (asking file (sync node keep)) pass.old pass.new [] result }
{
    common
        .volume
        .sync(rt, pass, caller, file, node, keep, common.gate)
}

/// Ends the channels of a layer of a file, a layer above the ground.
pub(crate) fn end_at<R: Wait, G: Ground, T: Gate>(
    rt: &R,
    common: &Common<'_, G, T>,
    pass: &mut Pass<G>,
    caller: u32,
    file: u32,
    node: u32,
    end: End,
) -> Result<Answered, CallErr>
    requires may { MayCall common.now.mount.now common.now.volume.now pass.old caller }
    requires route { (file < length common.now.mount.now.files) × (0 < node) × (node < length common.now.mount.now.tree.parents) }
    ensures { CallDone caller (asking file (ask_of end node)) pass.old pass.new [] result }
{
    common
        .volume
        .end(rt, pass, caller, file, node, end, common.gate)
}
