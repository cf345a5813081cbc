//! A client, and what it does.

ghost use Rattle.std.specs.Prelude.{◌≡◌, [], IfOk};
ghost use Rattle.std.specs.Option.{option_map};
ghost use Rattle.vmm_space.specs.Spaces.{blank_of};
ghost use Rattle.script_meaning.specs.Plan.{fresh, plan};
ghost use Rattle.spr_client.specs.Calls.{MayCall};
ghost use Rattle.spr_client.specs.Lines.{IsCallOf, IsOnMachine, LineDone};

use crate::ending::end_line;
use crate::files::{clear_line, read_line, write_line};
use crate::mapping::{map_held, unmap_line};
use crate::names::{bind_line, context_line, list_line, unbind_line};
use crate::opening::open_line;
use crate::places::{load_line, store_line};
use crate::replicas::{copy_held, drop_held, replicate_line, sync_held};
use client_objects::{ClientState, Objects};
use client_replicas::Replicas;
use hist_plain::{Gate, Keep};
use link_lossy::Carrier;
use page_ground::Ground;
use pager_channel::Ops;
use script_text::{Call, Reply};
use spr_volume::{Pass, Volume};
use stack_accept::Mounted;
use stack_engine::End;
use std::alloc::{AllocError, Global};
use std::sync::Wait;
use vmm_space::Space;

/// What clients share: the volume of a stack's files and names, the stack, the numbers of the operations, and the gate between the steps
/// of their calls.
#[derive(Drop)]
pub struct Common<'a, G: Ground, T: Gate> {
    /// The files and the names.
    pub volume: &'a Volume<G>,
    /// The stack that they are of.
    pub mount: &'a Mounted,
    /// The numbers of the operations of a file.
    pub ops: &'a Ops,
    /// What is called between two steps of a caller.
    pub gate: &'a T,
}

/// A client: its number as a caller, and its state.
#[derive(Debug, Drop)]
pub struct Client {
    /// The number of the client, which is its number as a caller.
    pub caller: u32,
    /// Its machine, its open objects and its address space.
    pub state: ClientState,
}

/// A carrier that has sent nothing and loses the packets whose number is divided by the one that is given, if one is.
fn carrier_of(alloc: Global, loss: Option<u32>) -> Result<Option<Carrier>, AllocError>
    ensures { IfOk result (λ carrier. carrier ≡ option_map fresh loss) }
{
    match loss {
        Some(every) => Ok(Some(Carrier::new(alloc, every)?)),
        None => Ok(None),
    }
}

impl Client {
    /// A client on a machine of the stack, with no object open and nothing mapped. If a number is given, its calls on objects whose node is
    /// on another machine go over a link of its own, which loses the packets whose number this one divides. An error is that memory ran
    /// out.
    pub fn new(
        alloc: Global,
        mount: &Mounted,
        caller: u32,
        machine: u32,
        loss: Option<u32>,
    ) -> Result<Client, AllocError>
        ensures { IfOk result (λ client. client ≡ record { caller = caller; state = record { machine = machine; objects = []; replicas = []; regions = blank_of mount.now; carrier = option_map fresh loss } }) }
    {
        Ok(Client {
            caller,
            state: ClientState {
                machine,
                objects: Objects::new(alloc),
                replicas: Replicas::new(alloc),
                regions: Space::new(alloc, mount)?,
                carrier: carrier_of(alloc, loss)?,
            },
        })
    }
}

/// Does what a line says.
pub fn perform<R: Wait, G: Ground, T: Gate>(
    rt: &R,
    alloc: Global,
    common: &Common<'_, G, T>,
    pass: &mut Pass<G>,
    client: &mut Client,
    call: &Call,
) -> Reply
    requires may { MayCall common.now.mount.now common.now.volume.now pass.old client.old.caller }
    requires on { IsOnMachine common.now.mount.now client.old.state }
    requires call { IsCallOf common.now.mount.now call.now }
    ensures done { LineDone common.now.mount.now client.old.caller client.old.state (plan common.now.mount.now client.old.state call.now) pass.old pass.new result client.new.state }
    ensures on { IsOnMachine common.now.mount.now client.new.state }
    ensures same { client.new ≡ record client.old { state = client.new.state } }
{
    match call {
        Call::Context { path } => context_line(rt, alloc, common, pass, client, path),
        Call::Bind {
            path,
            sub,
            view,
            file,
        } => bind_line(rt, alloc, common, pass, client, path, sub, view, file),
        Call::Replicate { path, file, views } => {
            replicate_line(rt, alloc, common, pass, client, path, file, views)
        }
        Call::Unbind { path } => unbind_line(rt, alloc, common, pass, client, path),
        Call::List { path } => list_line(rt, alloc, common, pass, client, path.as_ref()),
        Call::Open { object, path } => open_line(rt, alloc, common, pass, client, object, path),
        Call::Copy { object, other } => copy_held(alloc, common, pass, client, object, other),
        Call::Drop { object } => drop_held(common, pass, client, object),
        Call::Read {
            object,
            page,
            off,
            len,
        } => read_line(rt, alloc, common, pass, client, object, *page, *off, *len),
        Call::Write {
            object,
            page,
            off,
            bytes,
        } => write_line(rt, alloc, common, pass, client, object, *page, *off, bytes),
        Call::Clear { object, page } => clear_line(rt, alloc, common, pass, client, object, *page),
        Call::Sync { object } => sync_held(rt, alloc, common, pass, client, object, Keep::Write),
        Call::Clean { object } => sync_held(rt, alloc, common, pass, client, object, Keep::Read),
        Call::Map {
            region,
            object,
            address,
            pages,
            write,
        } => map_held(
            rt, alloc, common, pass, client, region, object, *address, *pages, *write,
        ),
        Call::Unmap { region } => unmap_line(common, pass, client, region),
        Call::Load { address, len } => load_line(rt, alloc, common, pass, client, *address, *len),
        Call::Store { address, bytes } => {
            store_line(rt, alloc, common, pass, client, *address, bytes)
        }
        Call::Revoke { layer, file } => {
            end_line(rt, alloc, common, pass, client, layer, file, End::Destroy)
        }
        Call::Release { layer, file } => {
            end_line(rt, alloc, common, pass, client, layer, file, End::Done)
        }
    }
}
