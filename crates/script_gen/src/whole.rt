//! A script from a number.

ghost use Rattle.std.specs.Prelude.{◌≡◌, ◌<◌, ◌≤◌, IfOk};
ghost use Rattle.std.specs.List.{AllByRecursion};
ghost use Rattle.script_text.specs.Grammar.{IsScript};
ghost use Rattle.script_gen.specs.Shape.{IsShape};
ghost use Rattle.script_gen.specs.Made.{generated};
ghost use Rattle.script_gen.specs.Laws.{AreMade};

use crate::first::{clients_of, opened};
use crate::second::called;
use crate::shape::Shape;
use crate::{MAX_CALLS, SEED_LIMIT};
use script_text::Script;
use std::alloc::{AllocError, Global};
use value_types::Items;

/// The script of a shape, a seed and a number of calls. The only error is want of memory. The rule
/// is this project's own.
pub fn generate(alloc: Global, shape: &Shape, seed: u32, calls: u32) -> Result<Script, AllocError>
    requires shape { IsShape shape.now }
    requires seed { seed < SEED_LIMIT }
    requires calls { calls ≤ MAX_CALLS }
    // It is this one.
    ensures value { IfOk result (λ script. script ≡ generated shape.now seed calls) }
    // Some text spells it, so no line of it is refused.
    ensures script { IfOk result (λ script. IsScript script) }
    // It has no calls but those that open, map, read and write.
    ensures made { IfOk result (λ script. AllByRecursion AreMade script.phases) }
{
    let clients = clients_of(alloc, shape)?;
    let first = opened(alloc, shape, 10)?;
    let line = 11 + first.as_slice().len() as u32;
    let second = called(alloc, shape, line, seed, calls)?;
    let mut phases = Items::new(alloc);
    phases.push(first)?;
    phases.push(second)?;
    Ok(Script { clients, phases })
}
