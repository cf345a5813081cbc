//! The clients of a script before its first phase.

ghost use Rattle.std.specs.Prelude.{◌≡◌, ◌≤◌, IfOk, length, position, vec_capacity, []};
ghost use Rattle.std.specs.List.{flat_map};
ghost use Rattle.std.specs.Str.{bytes_eq};
ghost use Rattle.script_text.specs.Grammar.{IsScript};
ghost use Rattle.stack_accept.specs.Mount.{number_in};
ghost use Rattle.script_meaning.specs.Fits.{lines_of};
ghost use Rattle.run_phases.specs.Workers.{IsStarted, AreStarted, HaveRoom};

use crate::worker::Worker;
use script_text::{ClientLine, Script};
use spr_client::{Client, lines_in};
use stack_accept::Mounted;
use std::alloc::{AllocError, Global};
use value_types::Text;

/// Where a name stands among the machines.
fn place_of(machines: &[Text], name: &Text) -> Option<usize>
    ensures { result ≡ position (λ own. bytes_eq own name.now) machines.now }
{
    machines
        .iter()
        .position(|own| own.as_str() == name.as_str())
}

/// The number of the machine of a name; a name that no machine has is 0.
fn machine_of(mount: &Mounted, name: &Text) -> Result<u32, AllocError>
    ensures { IfOk result (λ number. number ≡ number_in mount.now.machines name.now) }
{
    let Some(place) = place_of(mount.machines(), name) else {
        return Ok(0);
    };
    // More names than a number counts are in no memory.
    match u32::try_from(place) {
        Ok(number) => Ok(number),
        Err(_) => Err(AllocError),
    }
}

/// How many lines of a script are a client's.
fn lines_of(script: &Script, client: u32) -> usize
    requires { IsScript script.now }
    ensures { result ≡ length (flat_map (lines_of client) script.now.phases) }
{
    let mut count = 0;
    for phase in script.phases.as_slice() {
        count += lines_in(phase.as_slice(), client);
    }
    count
}

/// A client on its machine, without objects, regions and answers, with room for so many answers.
fn worker_of(
    alloc: Global,
    mount: &Mounted,
    caller: u32,
    line: &ClientLine,
    lines: usize,
    loss: Option<u32>,
) -> Result<Worker, AllocError>
    ensures started { IfOk result (IsStarted mount.now loss caller line.now) }
    ensures room { IfOk result (λ worker. lines ≤ vec_capacity worker.said) }
{
    let machine = machine_of(mount, &line.machine)?;
    Ok(Worker {
        client: Client::new(alloc, mount, caller, machine, loss)?,
        said: Vec::with_capacity(alloc, lines)?,
    })
}

/// The clients of a script, each with room for the answers to its lines. If a number is given, each loses the packets whose number this one
/// divides, on a link of its own.
pub fn workers_of(
    alloc: Global,
    mount: &Mounted,
    script: &Script,
    loss: Option<u32>,
) -> Result<Vec<Worker>, AllocError>
    requires { IsScript script.now }
    ensures started { IfOk result (λ workers. AreStarted mount.now loss 0 script.now.clients workers.items) }
    ensures room { IfOk result (λ workers. HaveRoom script.now.phases workers.items) }
{
    let lines = script.clients.as_slice();
    let mut workers = Vec::with_capacity(alloc, lines.len())?;
    for number in 0..lines.len() {
        let caller = number as u32;
        let worker = worker_of(
            alloc,
            mount,
            caller,
            &lines[number],
            lines_of(script, caller),
            loss,
        )?;
        workers.push(worker)?;
    }
    Ok(workers)
}
