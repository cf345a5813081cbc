//! The walk over a path from the left.

ghost use Rattle.std.specs.Prelude.{◌≡◌, ◌+◌, ◌<◌, ◌≤◌, [], length, drop, IfOk};
ghost use Rattle.name_context.specs.declared.entry.TheConstants.{MAX_PARTS};
ghost use Rattle.name_context.specs.Refusal.{refused_at, needed_for, walk};
ghost use Rattle.name_context.specs.TreeView.{kept_found};

use crate::entry::{NameCall, NameErr};
use crate::keys::push_part;
use crate::tree::{Binding, NameTree};
use std::alloc::{AllocError, Global};
use value_types::Text;

/// Why a call of a path is refused: the first part that cannot stand gives the refusal. An error is want of memory.
pub(crate) fn first_refused(
    alloc: Global,
    tree: &NameTree,
    call: NameCall,
    path: &[Text],
) -> Result<Option<NameErr>, AllocError>
    requires { length path.now ≤ MAX_PARTS }
    ensures { IfOk result (λ refused. refused ≡ walk tree.now call [] path.now) }
{
    let mut key = Vec::new(alloc);
    for (at, part) in path.iter().enumerate() {
        push_part(&mut key, part)?;
        let needed = needed(call, path, at);
        if let Some(err) = refused_here(needed, at as u32, tree.at(&key)) {
            return Ok(Some(err));
        }
    }
    Ok(None)
}

/// What a part is needed for: the last one for the call, and every other as a context.
fn needed(call: NameCall, path: &[Text], at: usize) -> NameCall
    requires { at < length path.now }
    ensures { result ≡ needed_for call (drop (at + 1) path.now) }
{
    if at + 1 == path.len() {
        call
    } else {
        NameCall::List
    }
}

/// What a call is refused of which a part leads to this.
fn refused_here(call: NameCall, part: u32, found: Option<&Binding>) -> Option<NameErr>
    ensures { result ≡ refused_at call part (kept_found found.entry) }
{
    match (call, found) {
        (NameCall::Context | NameCall::Bind, None) => None,
        (NameCall::Context | NameCall::Bind, Some(_)) => Some(NameErr::AlreadyBound { part }),
        (NameCall::Unbind, Some(_)) => None,
        (NameCall::Resolve, Some(Binding::Object { .. })) => None,
        (NameCall::Resolve, Some(Binding::Context)) => Some(NameErr::NotObject { part }),
        (NameCall::List, Some(Binding::Context)) => None,
        (NameCall::List, Some(Binding::Object { .. })) => Some(NameErr::NotContext { part }),
        (NameCall::Resolve | NameCall::Unbind | NameCall::List, None) => {
            Some(NameErr::NotBound { part })
        }
    }
}
