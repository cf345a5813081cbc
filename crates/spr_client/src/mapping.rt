//! Lines that map a file into the client's address space, and that take a region away.

ghost use Rattle.std.specs.Prelude.{◌≡◌, ◌⊎◌, ◌≤◌, ℕ, None};
ghost use Rattle.vmm_space.specs.declared.TheConstants.{MAX_ADDRESS};
ghost use Rattle.vmm_space.specs.declared.regions.Region.{Region};
ghost use Rattle.vmm_space.specs.Spaces.{SpaceShape, refusal, with_region};
ghost use Rattle.client_objects.specs.Objects.{object_of};
ghost use Rattle.client_replicas.specs.Objects.{doors_of};
ghost use Rattle.script_meaning.specs.Plan.{by_door, living, mapping, plan_doors, plan_map, plan_mapped, plan_named, plan_unmap, region_of};
ghost use Rattle.spr_client.specs.Calls.{MayCall};
ghost use Rattle.spr_client.specs.Lines.{IsLeafOf, IsOnMachine, IsTarget, LineDone, PlanDone};

use crate::calls::access_at;
use crate::client::{Client, Common};
use crate::files::find;
use crate::line::{life_in, refused, reply_to, unmappable};
use crate::replicas::found_by;
use client_objects::Found;
use hist_plain::{Gate, Op};
use memory_object::{CacheRights, MemoryObject};
use page_ground::Ground;
use script_text::Reply;
use spr_volume::Pass;
use std::alloc::Global;
use std::sync::Wait;
use value_types::Text;

/// Opens the file at the manager's leaf to which the last of a client's regions leads, which was just mapped. The region keeps the life that
/// is answered; if the call is refused, the region is given up.
fn open_mapped<R: Wait, G: Ground, T: Gate>(
    rt: &R,
    alloc: Global,
    common: &Common<'_, G, T>,
    pass: &mut Pass<G>,
    client: &mut Client,
    leaf: u32,
    file: u32,
) -> Reply
    requires may { MayCall common.now.mount.now common.now.volume.now pass.old client.old.caller }
    requires leads { IsLeafOf common.now.mount.now leaf file }
    ensures done { (space : SpaceShape) (region : Region) → client.old.state.regions ≡ with_region space region → region.leaf ≡ leaf → region.file ≡ file
        → PlanDone common.now.mount.now client.old.caller (plan_mapped (mapping client.old.state space) region) pass.old pass.new result client.new.state }
    ensures on { (space : SpaceShape) (region : Region) → client.old.state.regions ≡ with_region space region
        → (client.new.state ≡ mapping client.old.state space) ⊎ ((life : ℕ) × (client.new.state ≡ mapping client.old.state (with_region space (living region life)))) }
    ensures same { client.new ≡ record client.old { state = client.new.state } }
{
    match access_at(
        rt,
        common,
        pass,
        client.caller,
        file,
        leaf,
        0,
        &Op::Open,
        &mut [],
    ) {
        Ok(answered) => {
            client.state.regions.set_life(life_in(answered.answer));
            reply_to(answered.answer, Vec::new(alloc))
        }
        Err(err) => {
            client.state.regions.give_up_last();
            refused(err)
        }
    }
}

/// Maps a file in a manager's cache under a name that the space does not refuse.
fn map_bound<R: Wait, G: Ground, T: Gate>(
    rt: &R,
    alloc: Global,
    common: &Common<'_, G, T>,
    pass: &mut Pass<G>,
    client: &mut Client,
    name: Text,
    rights: CacheRights,
    address: u64,
    pages: u32,
    write: bool,
) -> Reply
    requires may { MayCall common.now.mount.now common.now.volume.now pass.old client.old.caller }
    requires on { IsOnMachine common.now.mount.now client.old.state }
    requires leads { IsLeafOf common.now.mount.now rights.leaf rights.file }
    requires address { address ≤ MAX_ADDRESS }
    requires free { refusal client.old.state.regions name rights.file address pages ≡ None }
    ensures done { PlanDone common.now.mount.now client.old.caller (plan_mapped client.old.state (region_of name address pages write rights)) pass.old pass.new result client.new.state }
    ensures on { IsOnMachine common.now.mount.now client.new.state }
    ensures same { client.new ≡ record client.old { state = client.new.state } }
{
    let regions = &mut client.state.regions;
    match regions.map(name, rights, address, pages, write) {
        Ok(()) => open_mapped(rt, alloc, common, pass, client, rights.leaf, rights.file),
        Err(why) => unmappable(why),
    }
}

/// A line that maps the first pages of an open object's file.
fn map_object<R: Wait, G: Ground, T: Gate>(
    rt: &R,
    alloc: Global,
    common: &Common<'_, G, T>,
    pass: &mut Pass<G>,
    client: &mut Client,
    found: Found,
    region: &Text,
    address: u64,
    pages: u32,
    write: bool,
) -> Reply
    requires may { MayCall common.now.mount.now common.now.volume.now pass.old client.old.caller }
    requires on { IsOnMachine common.now.mount.now client.old.state }
    requires target { IsTarget common.now.mount.now found }
    requires address { address ≤ MAX_ADDRESS }
    ensures done { LineDone common.now.mount.now client.old.caller client.old.state (plan_map common.now.mount.now client.old.state region.now address pages write found.target) pass.old pass.new result client.new.state }
    ensures on { IsOnMachine common.now.mount.now client.new.state }
    ensures same { client.new ≡ record client.old { state = client.new.state } }
{
    // The proof reads here that a manager stands above the ground.
    let _nodes = common.mount.nodes();
    let regions = &client.state.regions;
    if let Err(why) = regions.may_map(region.as_str(), found.target.file, address, pages) {
        return unmappable(why);
    }
    let object = MemoryObject {
        view: found.target.view,
        file: found.target.file,
    };
    let Ok(rights) = object.bind(common.mount, client.state.machine) else {
        return Reply::NoManager;
    };
    let Ok(name) = Text::of(alloc, region.as_str()) else {
        return Reply::Memory;
    };
    map_bound(
        rt, alloc, common, pass, client, name, rights, address, pages, write,
    )
}

/// A line that maps the first pages of the file of the object of a name, which has one door, as a region of a name of its own.
fn map_line<R: Wait, G: Ground, T: Gate>(
    rt: &R,
    alloc: Global,
    common: &Common<'_, G, T>,
    pass: &mut Pass<G>,
    client: &mut Client,
    region: &Text,
    name: &Text,
    address: u64,
    pages: u32,
    write: bool,
) -> Reply
    requires may { MayCall common.now.mount.now common.now.volume.now pass.old client.old.caller }
    requires on { IsOnMachine common.now.mount.now client.old.state }
    requires address { address ≤ MAX_ADDRESS }
    ensures done { LineDone common.now.mount.now client.old.caller client.old.state (plan_named client.old.state (object_of name.now client.old.state.objects) (plan_map common.now.mount.now client.old.state region.now address pages write)) pass.old pass.new result client.new.state }
    ensures on { IsOnMachine common.now.mount.now client.new.state }
    ensures same { client.new ≡ record client.old { state = client.new.state } }
{
    let Some(found) = find(common, client, name) else {
        return Reply::NoObject;
    };
    map_object(
        rt, alloc, common, pass, client, found, region, address, pages, write,
    )
}

/// A line that maps the first pages of the file of the object of a name, of one door or of several, as a region of a name of its own.
pub(crate) fn map_held<R: Wait, G: Ground, T: Gate>(
    rt: &R,
    alloc: Global,
    common: &Common<'_, G, T>,
    pass: &mut Pass<G>,
    client: &mut Client,
    region: &Text,
    name: &Text,
    address: u64,
    pages: u32,
    write: bool,
) -> Reply
    requires may { MayCall common.now.mount.now common.now.volume.now pass.old client.old.caller }
    requires on { IsOnMachine common.now.mount.now client.old.state }
    requires address { address ≤ MAX_ADDRESS }
    ensures done { LineDone common.now.mount.now client.old.caller client.old.state (plan_doors (doors_of name.now client.old.state.replicas) (λ door more. plan_map common.now.mount.now client.old.state region.now address pages write (by_door door)) (plan_named client.old.state (object_of name.now client.old.state.objects) (plan_map common.now.mount.now client.old.state region.now address pages write))) pass.old pass.new result client.new.state }
    ensures on { IsOnMachine common.now.mount.now client.new.state }
    ensures same { client.new ≡ record client.old { state = client.new.state } }
{
    // The proof reads here that calls go above the ground.
    let _nodes = common.mount.nodes();
    match client.state.replicas.first(name) {
        Some(door) => {
            let found = found_by(door);
            map_object(
                rt, alloc, common, pass, client, found, region, address, pages, write,
            )
        }
        None => map_line(
            rt, alloc, common, pass, client, region, name, address, pages, write,
        ),
    }
}

/// A line that takes the region of a name away. It makes no call.
pub(crate) fn unmap_line<G: Ground, T: Gate>(
    common: &Common<'_, G, T>,
    pass: &Pass<G>,
    client: &mut Client,
    name: &Text,
) -> Reply
    requires on { IsOnMachine common.now.mount.now client.old.state }
    ensures done { LineDone common.now.mount.now client.old.caller client.old.state (plan_unmap client.old.state name.now) pass.now pass.now result client.new.state }
    ensures on { IsOnMachine common.now.mount.now client.new.state }
    ensures same { client.new ≡ record client.old { state = client.new.state } }
{
    match client.state.regions.unmap(name.as_str()) {
        Ok(()) => Reply::Done,
        Err(_) => Reply::NoRegion,
    }
}
