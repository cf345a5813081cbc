//! Scripts that are generated for a stack.

ghost use Rattle.std.specs.Prelude.{◌≡◌, ◌<◌, ◌≤◌, IfOk, IfSome};
ghost use Rattle.script_gen.specs.declared.TheConstants.{MAX_CALLS, SEED_LIMIT};
ghost use Rattle.script_gen.specs.Shape.{IsShape};

use crate::say::count_of;
use script_gen::{MAX_CALLS, SEED_LIMIT, Shape, generate};
use script_text::print_script;
use stack_accept::accept;
use stack_seats::{shape_of, texts_have_names};
use stack_text::parse_stack;
use std::alloc::{AllocError, Global};
use trial_words::{say, say_text};

/// The shape of the stack of a text, if it is one.
fn shape_in(alloc: Global, text: &[u8]) -> Result<Option<Shape>, AllocError>
    ensures { IfOk result (λ shape. IfSome shape (λ s. IsShape s)) }
{
    // Only for the proof: the names of a text are names.
    texts_have_names();
    let Ok(stack) = parse_stack(alloc, text) else {
        return Ok(None);
    };
    let Ok(mount) = accept(alloc, &stack) else {
        return Ok(None);
    };
    let shape = shape_of(alloc, &mount)?;
    Ok(Some(shape))
}

/// The number that a word of a step says, or one above every limit.
fn number_of(word: &str) -> u32 {
    match u32::try_from(count_of(word)) {
        Ok(number) => number,
        Err(_) => u32::MAX,
    }
}

/// A seed and a number of calls, if they are within their limits.
pub fn limited(seed: &str, calls: &str) -> Option<(u32, u32)>
    ensures { IfSome result (λ found. (found.0 < SEED_LIMIT) × (found.1 ≤ MAX_CALLS)) }
{
    let (seed, calls) = (number_of(seed), number_of(calls));
    if seed < SEED_LIMIT && calls <= MAX_CALLS {
        Some((seed, calls))
    } else {
        None
    }
}

/// `generate SEED CALLS` over the text of a stack: the text of the script.
pub fn step(
    alloc: Global,
    words: &[&str],
    text: &[u8],
    answer: &mut String,
) -> Result<(), AllocError> {
    let [seed, calls] = words else {
        return say(answer, "no such step");
    };
    let Some(shape) = shape_in(alloc, text)? else {
        return say(answer, "no stack");
    };
    let Some((seed, calls)) = limited(seed, calls) else {
        return say(answer, "above a limit");
    };
    let script = generate(alloc, &shape, seed, calls)?;
    let printed = print_script(alloc, &script)?;
    say_text(alloc, answer, printed.as_slice())
}
