//! The stack of a case.

ghost use Rattle.std.specs.Prelude.{◌≡◌};
ghost use Rattle.stack_accept.specs.Mount.{is_view_in};

use marshal_buf::Door;
use stack_accept::{Mounted, accept};
use stack_text::parse_stack;
use std::alloc::Global;

/// The mounted stack of a text.
pub fn mounted(alloc: Global, text: &[u8]) -> Option<Mounted> {
    match parse_stack(alloc, text) {
        Ok(stack) => accept(alloc, &stack).ok(),
        Err(_) => None,
    }
}

/// Whether the node of a number is a view.
pub fn is_view(mounted: &Mounted, number: u32) -> bool
    ensures { result ≡ is_view_in mounted.now.nodes number }
{
    match mounted.nodes().get(number as usize) {
        Some(node) => node.kind.is_view(),
        None => false,
    }
}

/// Whether a door leads to a view.
pub fn leads_to_view(mounted: &Mounted, door: Door) -> bool
    ensures { result ≡ is_view_in mounted.now.nodes door.node }
{
    is_view(mounted, door.node)
}
