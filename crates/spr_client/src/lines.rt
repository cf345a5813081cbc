//! A client's lines of a phase, one after another.

ghost use Rattle.std.specs.Prelude.{◌≡◌, ◌+◌, ◌≤◌, ◌++◌, IfOk, OnErr, length, vec_capacity};
ghost use Rattle.script_meaning.specs.Fits.{lines_of};
ghost use Rattle.spr_client.specs.Calls.{MayCall};
ghost use Rattle.spr_client.specs.Lines.{AreCalls, IsOnMachine, LinesDone};

use crate::client::{Client, Common, perform};
use crate::gate::LineGate;
use page_ground::Ground;
use pager_channel::Ops;
use script_text::{CallLine, Said};
use spr_volume::{Pass, Volume};
use stack_accept::Mounted;
use std::alloc::{AllocError, Global};
use std::sync::Wait;

/// Does a client's lines among those of a phase, in their order, and keeps the answers behind those that are there. The room for them
/// is there, so no line goes without its answer: one for which memory lacks is answered so.
pub fn do_lines<R: Wait, G: Ground, T: LineGate>(
    rt: &R,
    alloc: Global,
    common: &Common<'_, G, T>,
    pass: &mut Pass<G>,
    client: &mut Client,
    lines: &[CallLine],
    said: &mut Vec<Said>,
)
    requires may { MayCall common.now.mount.now common.now.volume.now pass.old client.old.caller }
    requires on { IsOnMachine common.now.mount.now client.old.state }
    requires calls { AreCalls common.now.mount.now lines.now }
    requires room { length said.old.items + length (lines_of client.old.caller lines.now) ≤ vec_capacity said.old }
    ensures done { (one : _) × (said.new.items ≡ said.old.items ++ one)
        × LinesDone common.now.mount.now client.old.caller client.old.state (lines_of client.old.caller lines.now) pass.old pass.new one client.new.state }
    ensures on { IsOnMachine common.now.mount.now client.new.state }
    ensures caller { client.new.caller ≡ client.old.caller }
    ensures room { vec_capacity said.new ≡ vec_capacity said.old }
{
    for line in lines {
        if line.client == client.caller {
            let reply = perform(rt, alloc, common, pass, client, &line.call);
            said.push_reserved(Said {
                line: line.line,
                reply,
            });
            common.gate.after_line(client.caller);
        }
    }
}

/// How many lines of a phase are a client's.
pub fn lines_in(lines: &[CallLine], client: u32) -> usize
    ensures { result ≡ length (lines_of client lines.now) }
{
    lines.iter().filter(|line| line.client == client).count()
}

/// Does a client's lines among those of a phase, in their order, over a volume of the stack's files and names, and gives the answers, one for each
/// line. The room for the answers is made first: if memory runs out for it, the client does nothing.
pub fn run_phase<R: Wait, G: Ground, T: LineGate>(
    rt: &R,
    alloc: Global,
    volume: &Volume<G>,
    mounted: &Mounted,
    ops: &Ops,
    client: &mut Client,
    pass: &mut Pass<G>,
    calls: &[CallLine],
    gate: &T,
) -> Result<Vec<Said>, AllocError>
    requires may { MayCall mounted.now volume.now pass.old client.old.caller }
    requires on { IsOnMachine mounted.now client.old.state }
    requires calls { AreCalls mounted.now calls.now }
    ensures done { IfOk result (λ said. LinesDone mounted.now client.old.caller client.old.state (lines_of client.old.caller calls.now) pass.old pass.new said.items client.new.state) }
    ensures none { OnErr result ((pass.new ≡ pass.old) × (client.new ≡ client.old)) }
    ensures on { IsOnMachine mounted.now client.new.state }
    ensures caller { client.new.caller ≡ client.old.caller }
{
    let mut said = Vec::with_capacity(alloc, lines_in(calls, client.caller))?;
    let common = Common {
        volume,
        mount: mounted,
        ops,
        gate,
    };
    do_lines(rt, alloc, &common, pass, client, calls, &mut said);
    Ok(said)
}
