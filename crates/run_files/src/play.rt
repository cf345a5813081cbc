//! A script over the files.

ghost use Rattle.std.specs.Prelude.{◌≡◌, IfErr, IfOk, length, map, suc};
ghost use Rattle.std.specs.List.{AllByRecursion};
ghost use Rattle.script_text.specs.Grammar.{IsScript};
ghost use Rattle.file_stores.specs.Held.{IsRoom};
ghost use Rattle.spr_volume.specs.Passes.{IsOf};
ghost use Rattle.spr_client.specs.Calls.{AreOfStack, IsOfStack};
ghost use Rattle.spr_client.specs.Lines.{AreCalls};
ghost use Rattle.run_files.specs.Play.{IsPlayed, IsUnwritten, ArePlayed};
ghost use Rattle.run_files.specs.Room.{HasAnswerRoom};

use crate::room::Asked;
use client_objects::start_names;
use name_context::Names;
use page_ground::Ground;
use pager_channel::Ops;
use run_phases::{Worker, close_files, run_phases};
use script_text::{Reply, Said, Script};
use spr_client::{Common, LineGate};
use spr_volume::{Pass, Volume};
use stack_accept::Mounted;
use stack_engine::Tower;
use std::alloc::Global;
use std::sync::Wait;
use std::thread::Threads;

/// The answers of a run.
#[derive(Debug, Drop)]
pub(crate) struct Answers {
    /// Each client's.
    pub said: Vec<Vec<Said>>,
    /// Those of the closing syncs.
    pub closing: Vec<Reply>,
}

/// Puts the answers of the clients together. The room for them is there.
fn gather(clients: Vec<Worker>, said: &mut Vec<Vec<Said>>)
    requires { IsRoom (length clients.items) said.old }
    ensures { map (λ v. v.items) said.new.items ≡ map (λ c. c.said.items) clients.items }
{
    for client in clients {
        said.push_reserved(client.said);
    }
}

/// Runs the phases of a script over a volume and then the closing syncs, which the caller after the last client makes. The room for
/// the answers is there.
fn play_over<R: Threads + Wait + Sync, G: Ground + Send, T: LineGate>(
    rt: &R,
    alloc: Global,
    common: &Common<'_, G, T>,
    pass: Pass<G>,
    script: &Script,
    asked: Asked,
) -> (Pass<G>, Answers)
    requires script { IsScript script.now }
    requires calls { AllByRecursion (AreCalls common.now.mount.now) script.now.phases }
    requires stack { IsOfStack common.now.mount.now common.now.volume.now }
    requires pass { IsOf common.now.volume.now pass }
    requires all { (pass.first ≡ 0) × (pass.end ≡ suc (length script.now.clients)) }
    requires room { HasAnswerRoom common.now.mount.now script.now asked }
    ensures { IsPlayed common.now.mount.now asked.loss script.now pass result.0 (map (λ v. v.items) result.1.said.items) result.1.closing.items }
{
    let Asked {
        loss: _loss,
        clients,
        mut said,
        mut closing,
    } = asked;
    // The proof reads here that the stack has a machine.
    let _nodes = common.mount.nodes();
    let closer = script.clients.as_slice().len() as u32;
    let (mut pass, clients) = run_phases(
        rt,
        alloc,
        common,
        pass,
        clients,
        script.phases.as_slice(),
    );
    gather(clients, &mut said);
    close_files(rt, alloc, common, &mut pass, closer, &mut closing);
    (pass, Answers { said, closing })
}

/// Runs a script over the files and the names of a stack: its clients phase by phase, each on a thread of its own, and then the closing
/// syncs. The room for the answers is there. For want of memory all towers are handed back, and nothing was run.
pub(crate) fn play<R: Threads + Wait + Sync, G: Ground + Send, T: LineGate>(
    rt: &R,
    alloc: Global,
    mount: &Mounted,
    script: &Script,
    ops: &Ops,
    towers: Vec<Tower<G>>,
    asked: Asked,
    gate: &T,
) -> Result<(Vec<Tower<G>>, Names, Answers), Vec<Tower<G>>>
    requires script { IsScript script.now }
    requires calls { AllByRecursion (AreCalls mount.now) script.now.phases }
    requires towers { AreOfStack mount.now towers.items }
    requires unwritten { AllByRecursion IsUnwritten towers.items }
    requires room { HasAnswerRoom mount.now script.now asked }
    ensures played { IfOk result (λ r. ArePlayed mount.now asked.loss script.now towers.items r.0.items r.1 (map (λ v. v.items) r.2.said.items) r.2.closing.items) }
    ensures back { IfErr result (λ back. back.items ≡ towers.items) }
{
    let callers = script.clients.as_slice().len() as u32 + 1;
    let Ok(names) = start_names(alloc, mount) else {
        return Err(towers);
    };
    let (volume, pass) = match Volume::mount(alloc, towers, names, callers) {
        Ok(mounted) => mounted,
        Err((towers, _names)) => return Err(towers),
    };
    let common = Common {
        volume: &volume,
        mount,
        ops,
        gate,
    };
    let (pass, answers) = play_over(rt, alloc, &common, pass, script, asked);
    let (towers, names) = volume.unmount(pass);
    // The proof reads here that the names' history explains itself.
    names.sound();
    Ok((towers, names, answers))
}
