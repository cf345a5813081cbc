//! A law of mounted stacks. It does no work.

ghost use Rattle.std.specs.Prelude.{List};
ghost use Rattle.std.specs.List.{AllByRecursion};
ghost use Rattle.stack_text.specs.declared.stack.StackLine.{StackLine};
ghost use Rattle.stack_text.specs.Grammar.{IsStackLine};
ghost use Rattle.stack_accept.specs.Mount.{mounted};
ghost use Rattle.stack_seats.specs.Seats.{AreNames};

/// What the lines of a stack text mount has names that are names.
pub fn texts_have_names()
    ensures { (lines : List StackLine) → AllByRecursion IsStackLine lines → AreNames (mounted lines) }
{}
