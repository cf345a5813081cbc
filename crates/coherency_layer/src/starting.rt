//! A table of which nobody has anything.

ghost use Rattle.std.specs.Prelude.{◌≡◌, IfOk, All, vec_len};
ghost use Rattle.coherency_layer.specs.Bare.{IsBare};

use page_messages::Slot;
use std::alloc::{AllocError, Global};

/// So many pages of which nobody has anything.
pub(crate) fn bare_slots(alloc: Global, pages: u32) -> Result<Vec<Slot>, AllocError>
    ensures many { IfOk result (λ slots. vec_len slots ≡ pages) }
    ensures bare { IfOk result (λ slots. All IsBare slots.items) }
{
    let mut slots = Vec::new(alloc);
    for _ in 0..pages {
        slots.push(Slot::new(alloc))?;
    }
    Ok(slots)
}
