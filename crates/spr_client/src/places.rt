//! Lines that load and store bytes where an address leads. They make no frame: the manager is on the client's machine.

ghost use Rattle.std.specs.Prelude.{◌≡◌, ◌≤◌, length, min};
ghost use Rattle.vmm_space.specs.declared.TheConstants.{MAX_ADDRESS};
ghost use Rattle.script_meaning.specs.Plan.{loading, plan_call, plan_load, plan_store, storing};
ghost use Rattle.spr_client.specs.Calls.{MayCall};
ghost use Rattle.spr_client.specs.Lines.{IsOnMachine, IsPlaceOf, LineDone};

use crate::client::{Client, Common};
use crate::files::answer_access;
use crate::line::untranslated;
use hist_plain::{Gate, Op};
use page_ground::Ground;
use script_text::Reply;
use spr_volume::Pass;
use std::alloc::Global;
use std::sync::Wait;
use value_types::Bytes;
use vmm_space::Place;

/// A line that reads so many bytes where an address leads.
fn load_place<R: Wait, G: Ground, T: Gate>(
    rt: &R,
    alloc: Global,
    common: &Common<'_, G, T>,
    pass: &mut Pass<G>,
    client: &Client,
    place: Place,
    len: u32,
) -> Reply
    requires may { MayCall common.now.mount.now common.now.volume.now pass.old client.now.caller }
    requires place { IsPlaceOf common.now.mount.now len place }
    ensures { LineDone common.now.mount.now client.now.caller client.now.state (plan_call client.now.state (loading len place)) pass.old pass.new result client.now.state }
{
    let Ok(out) = vec![in alloc; 0u8; len as usize] else {
        return Reply::Memory;
    };
    let op = Op::Read {
        page: place.page,
        off: place.off,
        len,
    };
    answer_access(
        rt, common, pass, client, place.file, place.leaf, place.life, &op, out,
    )
}

/// A line that loads so many bytes from an address on.
pub(crate) fn load_line<R: Wait, G: Ground, T: Gate>(
    rt: &R,
    alloc: Global,
    common: &Common<'_, G, T>,
    pass: &mut Pass<G>,
    client: &Client,
    address: u64,
    len: u32,
) -> Reply
    requires may { MayCall common.now.mount.now common.now.volume.now pass.old client.now.caller }
    requires on { IsOnMachine common.now.mount.now client.now.state }
    requires address { address ≤ MAX_ADDRESS }
    ensures { LineDone common.now.mount.now client.now.caller client.now.state (plan_load client.now.state address len) pass.old pass.new result client.now.state }
{
    match client.state.regions.translate(address, len, false) {
        Ok(place) => load_place(rt, alloc, common, pass, client, place, len),
        Err(why) => untranslated(why),
    }
}

/// A line that writes bytes where an address leads.
fn store_place<R: Wait, G: Ground, T: Gate>(
    rt: &R,
    alloc: Global,
    common: &Common<'_, G, T>,
    pass: &mut Pass<G>,
    client: &Client,
    place: Place,
    bytes: &Bytes,
) -> Reply
    requires may { MayCall common.now.mount.now common.now.volume.now pass.old client.now.caller }
    requires place { IsPlaceOf common.now.mount.now (length bytes.now) place }
    ensures { LineDone common.now.mount.now client.now.caller client.now.state (plan_call client.now.state (storing bytes.now place)) pass.old pass.new result client.now.state }
{
    let Ok(bytes) = Bytes::of(alloc, bytes.as_slice()) else {
        return Reply::Memory;
    };
    let op = Op::Write {
        page: place.page,
        off: place.off,
        bytes,
    };
    answer_access(
        rt,
        common,
        pass,
        client,
        place.file,
        place.leaf,
        place.life,
        &op,
        Vec::new(alloc),
    )
}

/// How many bytes there are, as far as a `u32` tells: more than that are told as the greatest, which no page has either.
fn len_of(bytes: &Bytes) -> u32
    ensures { result ≡ min (length bytes.now) 4294967295 }
{
    let len = bytes.as_slice().len();
    if len < u32::MAX as usize {
        len as u32
    } else {
        u32::MAX
    }
}

/// A line that stores bytes from an address on.
pub(crate) fn store_line<R: Wait, G: Ground, T: Gate>(
    rt: &R,
    alloc: Global,
    common: &Common<'_, G, T>,
    pass: &mut Pass<G>,
    client: &Client,
    address: u64,
    bytes: &Bytes,
) -> Reply
    requires may { MayCall common.now.mount.now common.now.volume.now pass.old client.now.caller }
    requires on { IsOnMachine common.now.mount.now client.now.state }
    requires address { address ≤ MAX_ADDRESS }
    ensures { LineDone common.now.mount.now client.now.caller client.now.state (plan_store client.now.state address bytes.now) pass.old pass.new result client.now.state }
{
    // The proof reads here how great a page may be.
    let _page_size = common.mount.page_size();
    match client.state.regions.translate(address, len_of(bytes), true) {
        Ok(place) => store_place(rt, alloc, common, pass, client, place, bytes),
        Err(why) => untranslated(why),
    }
}
