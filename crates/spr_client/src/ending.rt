//! Lines that end the channels of a layer.

ghost use Rattle.std.specs.Prelude.{◌≡◌, IsSome};
ghost use Rattle.script_meaning.specs.Plan.{asking, plan_call, plan_end};
ghost use Rattle.script_meaning.specs.Stack.{file_named, layer_of};
ghost use Rattle.spr_client.specs.Calls.{MayCall, ask_of};
ghost use Rattle.spr_client.specs.Lines.{IsLeafOf, LineDone};

use crate::calls::end_at;
use crate::client::{Client, Common};
use crate::line::{refused, reply_to};
use hist_plain::Gate;
use page_ground::Ground;
use script_meaning::{file_named, layer_of};
use script_text::Reply;
use spr_volume::Pass;
use stack_engine::End;
use std::alloc::Global;
use std::sync::Wait;
use value_types::Text;

/// A line that ends the channels of a layer of the stack for a file of it: a revoke or a release.
pub(crate) fn end_line<R: Wait, G: Ground, T: Gate>(
    rt: &R,
    alloc: Global,
    common: &Common<'_, G, T>,
    pass: &mut Pass<G>,
    client: &Client,
    layer: &Text,
    file: &Text,
    end: End,
) -> Reply
    requires may { MayCall common.now.mount.now common.now.volume.now pass.old client.now.caller }
    requires layer { IsSome (layer_of common.now.mount.now layer.now) }
    requires file { IsSome (file_named common.now.mount.now file.now) }
    ensures { LineDone common.now.mount.now client.now.caller client.now.state (plan_end client.now.state (ask_of end) (layer_of common.now.mount.now layer.now) (file_named common.now.mount.now file.now)) pass.old pass.new result client.now.state }
{
    let (Some(node), Some(number)) = (
        layer_of(common.mount, layer),
        file_named(common.mount, file),
    ) else {
        unreachable!()
    };
    end_layer(rt, alloc, common, pass, client, node, number, end)
}

/// A line that ends the channels of a layer, by its node, for a file.
fn end_layer<R: Wait, G: Ground, T: Gate>(
    rt: &R,
    alloc: Global,
    common: &Common<'_, G, T>,
    pass: &mut Pass<G>,
    client: &Client,
    node: u32,
    file: u32,
    end: End,
) -> Reply
    requires may { MayCall common.now.mount.now common.now.volume.now pass.old client.now.caller }
    requires leads { IsLeafOf common.now.mount.now node file }
    ensures { LineDone common.now.mount.now client.now.caller client.now.state (plan_call client.now.state (asking file (ask_of end node))) pass.old pass.new result client.now.state }
{
    match end_at(rt, common, pass, client.caller, file, node, end) {
        Ok(answered) => reply_to(answered.answer, Vec::new(alloc)),
        Err(err) => refused(err),
    }
}
