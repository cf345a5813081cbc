//! One phase for some clients: they are halved until each has a pass and a thread of its own.

ghost use Rattle.std.specs.Prelude.{◌≡◌, ◌+◌, ◌≤◌, ◌∷◌, ◌++◌, [], IfErr, IfOk, Some, length, max, vec_capacity};
ghost use Rattle.std.specs.Thread.{IsSync};
ghost use Rattle.spr_client.specs.Lines.{AreCalls};
ghost use Rattle.spr_volume.specs.Passes.{AllQuietly, IsOf, as_known};
ghost use Rattle.run_phases.specs.Parts.{AreHalves, HasPart, MayRun, PartDone, SlotDone};
ghost use Rattle.run_phases.specs.Phases.{IsReady, PhaseDone};
ghost use Rattle.run_phases.specs.Workers.{AreReady, HaveRoom};

use crate::worker::Worker;
use page_ground::Ground;
use script_text::CallLine;
use spr_client::{Common, LineGate, do_lines};
use spr_volume::{Pass, Volume};
use std::alloc::Global;
use std::mem::replace;
use std::sync::Wait;
use std::thread::{Threads, for_each_mut};

/// Some clients, whose numbers begin with `first`, and a pass that has their numbers.
pub(crate) struct Part<G: Ground> {
    pub(crate) pass: Pass<G>,
    pub(crate) first: u32,
    pub(crate) workers: Vec<Worker>,
}

/// Does a client's lines of a phase.
fn run_worker<R: Wait, G: Ground, T: LineGate>(
    rt: &R,
    alloc: Global,
    common: &Common<'_, G, T>,
    pass: &mut Pass<G>,
    worker: &mut Worker,
    lines: &[CallLine],
)
    requires ready { IsReady common.now.mount.now common.now.volume.now pass.old worker.old.client.caller (worker.old ∷ []) }
    requires calls { AreCalls common.now.mount.now lines.now }
    requires room { HaveRoom (lines.now ∷ []) (worker.old ∷ []) }
    ensures done { PhaseDone common.now.mount.now lines.now worker.old.client.caller (worker.old ∷ []) (worker.new ∷ []) pass.old pass.new }
    ensures ready { AreReady common.now.mount.now worker.old.client.caller (worker.new ∷ []) }
{
    do_lines(
        rt,
        alloc,
        common,
        pass,
        &mut worker.client,
        lines,
        &mut worker.said,
    );
}

/// Does the lines of a phase for clients that take turns with one pass: those of the first client, and then those of the others. Their
/// numbers begin with `first`.
fn run_in_turn<R: Wait, G: Ground, T: LineGate>(
    rt: &R,
    alloc: Global,
    common: &Common<'_, G, T>,
    pass: &mut Pass<G>,
    first: u32,
    workers: &mut [Worker],
    lines: &[CallLine],
)
    requires ready { IsReady common.now.mount.now common.now.volume.now pass.old first workers.old }
    requires calls { AreCalls common.now.mount.now lines.now }
    requires room { HaveRoom (lines.now ∷ []) workers.old }
    ensures done { PhaseDone common.now.mount.now lines.now first workers.old workers.new pass.old pass.new }
    ensures ready { AreReady common.now.mount.now first workers.new }
{
    if let Some((worker, others)) = workers.split_first_mut() {
        run_worker(rt, alloc, common, pass, worker, lines);
        run_in_turn(rt, alloc, common, pass, first + 1, others, lines);
    }
}

/// Cuts a part in two halves, each with a pass of its own. One of a single client, or one for whose cut memory runs out, comes back whole.
fn halve<G: Ground>(
    alloc: Global,
    volume: &Volume<G>,
    part: Part<G>,
) -> Result<(Part<G>, Part<G>), Part<G>>
    requires of { IsOf volume.now part.pass }
    requires first { part.pass.first ≤ part.first }
    requires last { part.first + length part.workers.items ≤ part.pass.end }
    ensures halves { IfOk result (λ r. AreHalves part r.0 r.1) }
    ensures pass { IfErr result (λ p. (p.pass ≡ part.pass) × (p.first ≡ part.first)) }
    ensures workers { IfErr result (λ p. (p.workers.items ≡ part.workers.items) × (vec_capacity part.workers ≤ vec_capacity p.workers)) }
{
    let Part {
        mut pass,
        first,
        mut workers,
    } = part;
    let half = workers.len() / 2;
    if half == 0 {
        return Err(Part {
            pass,
            first,
            workers,
        });
    }
    let at = first + half as u32;
    let Ok(mut others) = workers.split_off(half) else {
        return Err(Part {
            pass,
            first,
            workers,
        });
    };
    match volume.split(alloc, &mut pass, at) {
        Ok(other) => Ok((
            Part {
                pass,
                first,
                workers,
            },
            Part {
                pass: other,
                first: at,
                workers: others,
            },
        )),
        Err(_) => {
            let _appended = workers.append(&mut others);
            Err(Part {
                pass,
                first,
                workers,
            })
        }
    }
}

/// One part of two halves, whose passes meet.
fn rejoin<G: Ground>(volume: &Volume<G>, low: Part<G>, high: Part<G>) -> Part<G>
    requires low { IsOf volume.now low.pass }
    requires high { IsOf volume.now high.pass }
    requires neighbours { low.pass.end ≡ high.pass.first }
    requires room { length low.workers.items + length high.workers.items ≤ vec_capacity low.workers }
    ensures pass { result.pass ≡ record (as_known low.pass result.pass) { end = high.pass.end } }
    ensures low { AllQuietly low.pass.first low.pass.end low.pass result.pass }
    ensures high { AllQuietly high.pass.first high.pass.end high.pass result.pass }
    ensures first { result.first ≡ low.first }
    ensures workers { result.workers.items ≡ low.workers.items ++ high.workers.items }
    ensures capacity { vec_capacity low.workers ≤ vec_capacity result.workers }
{
    let Part {
        mut pass,
        first,
        mut workers,
    } = low;
    let Part {
        pass: other,
        first: _,
        workers: mut others,
    } = high;
    volume.meet(&mut pass, other);
    // There is room for them.
    let _appended = workers.append(&mut others);
    Part {
        pass,
        first,
        workers,
    }
}

/// Does the lines of a phase for the part in a slot.
#[cycle(parts)]
fn run_slot<R: Threads + Wait + Sync, G: Ground + Send, T: LineGate>(
    rt: &R,
    alloc: Global,
    common: &Common<'_, G, T>,
    slot: &mut Option<Part<G>>,
    most: usize,
    lines: &[CallLine],
)
    requires { HasPart common.now.mount.now common.now.volume.now lines.now most slot.old }
    ensures { SlotDone common.now.mount.now lines.now slot.old slot.new }
{
    let Some(part) = slot.take() else {
        unreachable!()
    };
    let done = run_part(rt, alloc, common, part, lines);
    match replace(slot, Some(done)) {
        None => {}
        Some(_) => unreachable!(),
    }
}

/// Does the lines of a phase for two parts, each on a thread of its own.
#[cycle(parts)]
fn run_halves<R: Threads + Wait + Sync, G: Ground + Send, T: LineGate>(
    rt: &R,
    alloc: Global,
    common: &Common<'_, G, T>,
    low: Part<G>,
    high: Part<G>,
    lines: &[CallLine],
) -> (Part<G>, Part<G>)
    requires low { MayRun common.now.mount.now common.now.volume.now lines.now low }
    requires high { MayRun common.now.mount.now common.now.volume.now lines.now high }
    ensures low { PartDone common.now.mount.now lines.now low result.0 }
    ensures high { PartDone common.now.mount.now lines.now high result.1 }
{
    let most = low.workers.len().max(high.workers.len());
    let mut slots = [Some(low), Some(high)];
    for_each_mut(
        rt,
        &mut slots,
        2,
        &|_: usize, slot: &mut Option<Part<G>>| -> ()
            requires { IsSync R.row × HasPart common.now.mount.now common.now.volume.now lines.now most slot.now }
            ensures { SlotDone common.entry.now.mount.now lines.entry.now slot.entry.now slot.exit.now }
        { run_slot(rt, alloc, common, slot, most, lines) },
    );
    let [low, high] = slots;
    (low.unwrap(), high.unwrap())
}

/// Does the lines of a phase for the clients of a part, at once. If memory runs out for their passes, they take turns.
#[cycle(parts)]
pub(crate) fn run_part<R: Threads + Wait + Sync, G: Ground + Send, T: LineGate>(
    rt: &R,
    alloc: Global,
    common: &Common<'_, G, T>,
    part: Part<G>,
    lines: &[CallLine],
) -> Part<G>
    requires { MayRun common.now.mount.now common.now.volume.now lines.now part }
    ensures { PartDone common.now.mount.now lines.now part result }
{
    match halve(alloc, common.volume, part) {
        Ok((low, high)) => {
            let (low, high) = run_halves(rt, alloc, common, low, high, lines);
            rejoin(common.volume, low, high)
        }
        Err(whole) => {
            let mut whole = whole;
            run_in_turn(
                rt,
                alloc,
                common,
                &mut whole.pass,
                whole.first,
                whole.workers.as_mut_slice(),
                lines,
            );
            whole
        }
    }
}
