//! The stack of a case: its volume of one file, and the lines of a client of it.

ghost use Rattle.std.specs.Prelude.{◌≡◌, ◌∷◌, [], IfOk, IfSome, IsTrue, map};
ghost use Rattle.std.specs.List.{list_all};
ghost use Rattle.text_words.specs.Words.{is_name, is_path};
ghost use Rattle.client_objects.specs.Views.{names_at_start};
ghost use Rattle.spr_client.specs.Calls.{AreOfStack};
ghost use Rattle.spr_client.specs.Lines.{AreCalls, IsCallOf};
ghost use Rattle.trial_volumes.specs.Alike.{IsFor};

use client_objects::start_names;
use script_meaning::{file_named, layer_of, view_of};
use script_text::{Call, CallLine, parse_script};
use spr_volume::{Pass, Volume};
use stack_accept::{Mounted, accept};
use stack_engine::Tower;
use stack_text::parse_stack;
use std::alloc::Global;
use text_words::is_name;
use trial_parts::{Ram, SIZE, copy_tree, tower_over};
use trial_words::Halt;
use value_types::{Items, Path, Text};
use vmm_space::MAX_ADDRESS;

/// The mounted stack of a text.
pub fn stack_of(alloc: Global, text: &[u8]) -> Result<Mounted, Halt> {
    match parse_stack(alloc, text) {
        Ok(stack) => accept(alloc, &stack).map_err(|_| Halt::Impossible),
        Err(_) => Err(Halt::Unread),
    }
}

/// Whether a part of a path is a name.
fn is_part(part: &Text) -> bool
    ensures { result ≡ is_name part.now }
{
    is_name(part.as_str().as_bytes())
}

/// Whether each part is a name.
fn are_names(parts: &[Text]) -> bool
    ensures { result ≡ list_all is_name parts.now }
{
    parts.iter().all(is_part)
}

/// Whether the parts are those of a path: 1 to 8 names.
fn is_path(path: &Path) -> bool
    ensures { result ≡ is_path path.now }
{
    let parts = path.as_slice();
    matches!(parts.len(), 1..=8) && are_names(parts)
}

/// Whether it is a call that the program has, whose names the stack has.
fn is_call(mount: &Mounted, call: &Call) -> bool
    ensures { IsTrue result → IsCallOf mount.now call.now }
{
    match call {
        Call::Bind {
            path,
            view,
            file,
            ..
        } => {
            is_path(path) && view_of(mount, view).is_some() && file_named(mount, file).is_some()
        }
        Call::Unbind { path } | Call::Open { path, .. } => {
            matches!(path.as_slice().len(), 1..=8)
        }
        Call::List { path } => path.is_none(),
        Call::Read { .. } | Call::Write { .. } | Call::Clear { .. } => true,
        Call::Sync { .. } | Call::Clean { .. } => true,
        Call::Copy { .. } | Call::Drop { .. } | Call::Unmap { .. } => true,
        Call::Map { address, .. } | Call::Load { address, .. } | Call::Store { address, .. } => {
            *address <= MAX_ADDRESS
        }
        Call::Revoke { layer, file } | Call::Release { layer, file } => {
            layer_of(mount, layer).is_some() && file_named(mount, file).is_some()
        }
        Call::Context { .. } | Call::Replicate { .. } => false,
    }
}

/// Whether each line is such a call.
fn are_calls(mount: &Mounted, lines: &[CallLine]) -> bool
    ensures { IsTrue result → AreCalls mount.now lines.now }
{
    for line in lines {
        if !is_call(mount, &line.call) {
            return false;
        }
    }
    true
}

/// The lines of a script's last phase.
pub fn lines_of(alloc: Global, mount: &Mounted, text: &[u8]) -> Result<Items<CallLine>, Halt>
    ensures { IfOk result (AreCalls mount.now) }
{
    let Ok(script) = parse_script(alloc, text) else {
        return Err(Halt::Unread);
    };
    match script.phases.into_vec().pop() {
        Some(lines) if are_calls(mount, lines.as_slice()) => Ok(lines),
        _ => Err(Halt::Impossible),
    }
}

/// How many pages the file of a stack has whose pages have 64 bytes, if it is the only one.
fn pages_of_one(mount: &Mounted) -> Option<u32>
    ensures { IfSome result (λ pages. (mount.now.page_size ≡ 64) × (map (λ f. f.pages) mount.now.files ≡ pages ∷ [])) }
{
    let files = mount.files();
    if mount.page_size() == SIZE && files.len() == 1 {
        Some(files[0].pages)
    } else {
        None
    }
}

/// A tower of the stack's file, over a fresh disk whose store fails at one write.
fn tower(alloc: Global, mount: &Mounted, fails_at: u64) -> Result<Tower<Ram>, Halt>
    ensures { IfOk result (λ t. AreOfStack mount.now (t ∷ [])) }
{
    let Some(pages) = pages_of_one(mount) else {
        return Err(Halt::Impossible);
    };
    let tree = copy_tree(alloc, mount.tree())?;
    tower_over(alloc, tree, pages, fails_at)
}

/// A volume of the stack's file and names for one caller, and its pass.
pub fn volume(
    alloc: Global,
    mount: &Mounted,
    fails_at: u64,
) -> Result<(Volume<Ram>, Pass<Ram>), Halt>
    ensures towers { IfOk result (λ r. AreOfStack mount.now r.0.towers) }
    ensures names { IfOk result (λ r. r.0.names.began ≡ names_at_start mount.now) }
    ensures pass { IfOk result (λ r. IsFor r.0 0 1 r.1) }
    ensures callers { IfOk result (λ r. r.0.end ≡ 1) }
{
    let mut towers = Vec::new(alloc);
    towers
        .push(tower(alloc, mount, fails_at)?)
        .map_err(|_| Halt::Memory)?;
    let names = start_names(alloc, mount)?;
    match Volume::mount(alloc, towers, names, 1) {
        Ok(mounted) => Ok(mounted),
        Err(_back) => Err(Halt::Memory),
    }
}
