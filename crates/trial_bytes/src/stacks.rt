//! The text of a stack, and what is mounted of it.

use crate::laws::{Found, Law, lines_of, read_if, refused_if};
use stack_accept::{Mounted, Unfit, accept, put_check};
use stack_text::{MAX_LINES, StackText, StackWhy, parse_stack, print_stack};
use std::alloc::{AllocError, Global};

/// A text that is read is printed as it was; what is refused is refused at one of its lines.
#[derive(Drop)]
pub struct StackLaw;

impl Law for StackLaw {
    fn judge(&self, alloc: Global, bytes: &[u8]) -> Result<Found, AllocError> {
        let lines = lines_of(bytes);
        match parse_stack(alloc, bytes) {
            Ok(stack) => {
                let printed = print_stack(alloc, &stack)?;
                if printed.as_slice() != bytes || stack.lines.as_slice().len() != lines {
                    return Ok(Found::Unlike);
                }
                accepted(alloc, &stack, lines)
            }
            Err(refused) => Ok(refused_if(
                refused.why != StackWhy::Memory && is_line(refused.line, lines),
            )),
        }
    }
}

/// Whether a number is that of one of so many lines.
fn is_line(line: u32, lines: usize) -> bool {
    line >= 1 && line as usize <= lines
}

/// What comes of mounting a stack of so many lines: it has nodes, or it breaks a rule at a line or right behind the last one.
fn accepted(alloc: Global, stack: &StackText, lines: usize) -> Result<Found, AllocError> {
    if stack.lines.as_slice().len() > MAX_LINES {
        return Ok(Found::Unlike);
    }
    match accept(alloc, stack) {
        Ok(mounted) => Ok(read_if(has_nodes(alloc, &mounted)?)),
        Err(Unfit::Unfit { rule, line }) => Ok(read_if(
            rule >= 1 && rule <= 10 && is_line(line, lines.saturating_add(1)),
        )),
        Err(Unfit::Memory) => Ok(Found::Unlike),
    }
}

/// Whether a mounted stack has a ground and a layer upon it, and tells each of its nodes in a line.
fn has_nodes(alloc: Global, mounted: &Mounted) -> Result<bool, AllocError> {
    let nodes = mounted.nodes().len();
    let mut lines = Vec::new(alloc);
    put_check(&mut lines, mounted)?;
    Ok(nodes >= 2 && mounted.tree().nodes() as usize == nodes && lines_of(&lines) == nodes)
}
