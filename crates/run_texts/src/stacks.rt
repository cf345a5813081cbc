//! From a stack's text to what it mounts.

ghost use Rattle.std.specs.Prelude.{◌≡◌, ◌≤◌, IfOk, IfErr, length};
ghost use Rattle.stack_accept.specs.Rules.{IsAccepted};
ghost use Rattle.stack_accept.specs.Mount.{mounted};
ghost use Rattle.run_texts.specs.Stacks.{SpellsStack, Accepts};
ghost use Rattle.run_texts.specs.Refusal.{Breaks, RefusesStack};

use crate::refusal::Refusal;
use stack_accept::{Mounted, Unfit, accept};
use stack_text::{MAX_LINES, StackText, StackWhy, parse_stack};
use std::alloc::Global;

/// The stack of a text.
fn parse(alloc: Global, text: &[u8]) -> Result<StackText, Refusal>
    ensures ok { IfOk result (SpellsStack text.now) }
    ensures err { IfErr result (RefusesStack text.now) }
{
    match parse_stack(alloc, text) {
        Ok(stack) => Ok(stack),
        Err(refused) => match refused.why {
            StackWhy::Memory => Err(Refusal::Memory),
            why => Err(Refusal::Stack {
                line: refused.line,
                why,
            }),
        },
    }
}

/// What a stack mounts.
fn mount(alloc: Global, stack: &StackText) -> Result<Mounted, Refusal>
    requires { length stack.now.lines ≤ MAX_LINES }
    ensures accepted { IfOk result (λ _. IsAccepted stack.now.lines) }
    ensures value { IfOk result (λ m. m ≡ mounted stack.now.lines) }
    ensures err { IfErr result (Breaks stack.now.lines) }
{
    match accept(alloc, stack) {
        Ok(mounted) => Ok(mounted),
        Err(Unfit::Unfit { rule, line }) => Err(Refusal::Unfit { line, rule }),
        Err(Unfit::Memory) => Err(Refusal::Memory),
    }
}

/// The stack of a text, which keeps every rule, and what it mounts.
pub(crate) fn accept_text(alloc: Global, text: &[u8]) -> Result<(StackText, Mounted), Refusal>
    ensures accepts { IfOk result (λ found. Accepts text.now found.0) }
    ensures value { IfOk result (λ found. found.1 ≡ mounted found.0.lines) }
    ensures err { IfErr result (RefusesStack text.now) }
{
    let stack = parse(alloc, text)?;
    let mounted = mount(alloc, &stack)?;
    Ok((stack, mounted))
}
