//! What a command reads that makes its script from a number.

ghost use Rattle.std.specs.Prelude.{◌≡◌, ◌<◌, ◌≤◌, IfOk, IfErr, OnOk, None};
ghost use Rattle.script_text.specs.Grammar.{IsScript};
ghost use Rattle.script_gen.specs.declared.TheConstants.{MAX_CALLS, SEED_LIMIT};
ghost use Rattle.script_gen.specs.Made.{generated};
ghost use Rattle.stack_seats.specs.Seats.{AreNames, shape_of};
ghost use Rattle.run_texts.specs.Known.{unknown_line};
ghost use Rattle.run_texts.specs.Stacks.{IsMounted};
ghost use Rattle.run_texts.specs.Generated.{IsGenerated, IsGenerationCause};

use crate::interfaces::read_interfaces;
use crate::refusal::Refusal;
use crate::texts::read_stack;
use pager_channel::Ops;
use script_gen::generate;
use script_text::Script;
use spr_io::Shelf;
use stack_accept::Mounted;
use stack_seats::shape_of;
use std::alloc::{AllocError, Global};
use value_types::Text;

/// The script that a seed makes for a mounted stack. The only error is want of memory.
fn script_for(alloc: Global, mount: &Mounted, seed: u32, calls: u32) -> Result<Script, AllocError>
    requires names { AreNames mount.now }
    requires seed { seed < SEED_LIMIT }
    requires calls { calls ≤ MAX_CALLS }
    ensures value { IfOk result (λ script. script ≡ generated (shape_of mount.now) seed calls) }
    ensures script { IfOk result (λ script. IsScript script) }
    ensures known { IfOk result (λ script. unknown_line mount.now script ≡ None) }
{
    let shape = shape_of(alloc, mount)?;
    generate(alloc, &shape, seed, calls)
}

/// Reads the interfaces and the stack of these names, mounts the stack, makes the script of its shape from a seed and a number of
/// calls, and gives the numbers of the interfaces' operations. The script is one that a run of the stack makes.
pub fn read_generated<H: Shelf>(
    alloc: Global,
    shelf: &mut H,
    idl: &Text,
    stack: &Text,
    seed: u32,
    calls: u32,
) -> Result<(Mounted, Script, Ops), Refusal>
    requires seed { seed < SEED_LIMIT }
    requires calls { calls ≤ MAX_CALLS }
    ensures ok { IfOk result (λ found. IsGenerated (H.told shelf.old) (record { idl = idl.now; stack = stack.now; seed = seed; calls = calls }) found.0 found.1 found.2) }
    ensures script { IfOk result (λ found. IsScript found.1 × (unknown_line found.0 found.1 ≡ None)) }
    ensures err { IfErr result (IsGenerationCause (H.told shelf.old) (H.told shelf.new) (record { idl = idl.now; stack = stack.now; seed = seed; calls = calls })) }
    ensures calm { OnOk result ((H.told shelf.new).faults ≡ (H.told shelf.old).faults) }
{
    let ops = read_interfaces(alloc, shelf, idl)?;
    let mount = read_stack(alloc, shelf, stack)?;
    match script_for(alloc, &mount, seed, calls) {
        Ok(script) => Ok((mount, script, ops)),
        Err(AllocError) => Err(Refusal::Memory),
    }
}
