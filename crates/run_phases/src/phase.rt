//! The phases of a script. The clients of a phase run at once, each on a thread of its own with a pass of its own; at the end of the
//! phase the passes meet.

ghost use Rattle.std.specs.List.{AllByRecursion};
ghost use Rattle.spr_client.specs.Lines.{AreCalls};
ghost use Rattle.run_phases.specs.Phases.{IsReady, PhasesDone};
ghost use Rattle.run_phases.specs.Workers.{HaveRoom, IsSilent};

use crate::parts::{Part, run_part};
use crate::worker::Worker;
use page_ground::Ground;
use script_text::CallLine;
use spr_client::{Common, LineGate};
use spr_volume::Pass;
use std::alloc::Global;
use std::sync::Wait;
use std::thread::Threads;
use value_types::Items;

/// Does all phases of a script, one after another, for the clients from 0 on, with the pass of all callers, which comes back. The room for the
/// answers is there, so each line gets its answer: one for which memory lacks is answered so.
pub fn run_phases<R: Threads + Wait + Sync, G: Ground + Send, T: LineGate>(
    rt: &R,
    alloc: Global,
    common: &Common<'_, G, T>,
    pass: Pass<G>,
    workers: Vec<Worker>,
    phases: &[Items<CallLine>],
) -> (Pass<G>, Vec<Worker>)
    requires ready { IsReady common.now.mount.now common.now.volume.now pass 0 workers.items }
    requires silent { AllByRecursion IsSilent workers.items }
    requires calls { AllByRecursion (AreCalls common.now.mount.now) phases.now }
    requires room { HaveRoom phases.now workers.items }
    ensures done { PhasesDone common.now.mount.now phases.now 0 workers.items result.1.items pass result.0 }
{
    let mut part = Part {
        pass,
        first: 0,
        workers,
    };
    for phase in phases {
        part = run_part(rt, alloc, common, part, phase.as_slice());
    }
    let Part {
        pass,
        first: _,
        workers,
    } = part;
    (pass, workers)
}
