//! The texts of a command, by their names on a shelf.

ghost use Rattle.std.specs.Prelude.{◌≡◌, ◌⊎◌, ◌≤◌, IfOk, IfErr, OnOk, None};
ghost use Rattle.spr_io.specs.Causes.{Rose};
ghost use Rattle.stack_accept.specs.Mount.{Mount};
ghost use Rattle.script_text.specs.Grammar.{IsScript};
ghost use Rattle.run_texts.specs.Known.{unknown_line};
ghost use Rattle.run_texts.specs.Stacks.{IsText, SameTexts, IsMounted};
ghost use Rattle.run_texts.specs.Refusal.{Spells, Scripts, RefusesScript, HasScript, IsPrepared, IsStackCause, IsRunCause, IsCause};

use crate::interfaces::read_interfaces;
use crate::known::unknown_line;
use crate::refusal::Refusal;
use crate::stacks::accept_text;
use pager_channel::Ops;
use script_text::{Script, ScriptWhy, parse_script};
use spr_io::{Shelf, ShelfErr};
use stack_accept::Mounted;
use std::alloc::Global;
use value_types::Text;

/// The most bytes that the text of a stack or of a script may have.
pub const TEXT_LIMIT: u32 = 16_777_216;

/// The text of a name, of at most so many bytes.
pub(crate) fn read_text<H: Shelf>(
    alloc: Global,
    shelf: &mut H,
    name: &Text,
    limit: u32,
    failed: Refusal,
) -> Result<Vec<u8>, Refusal>
    ensures text { IfOk result (λ text. IsText (H.told shelf.old) limit name.now text.items) }
    ensures err { IfErr result (λ why. ((why ≡ failed) × Rose (H.told shelf.old).faults (H.told shelf.new).faults) ⊎ ((why ≡ Refusal.Memory) × ((H.told shelf.new).faults ≡ (H.told shelf.old).faults))) }
    ensures same { SameTexts (H.told shelf.old) (H.told shelf.new) }
    ensures calm { OnOk result ((H.told shelf.new).faults ≡ (H.told shelf.old).faults) }
    ensures later { (H.told shelf.old).faults ≤ (H.told shelf.new).faults }
{
    let mut text = Vec::new(alloc);
    match shelf.read(name.as_str(), limit, &mut text) {
        Ok(()) => Ok(text),
        Err(ShelfErr::Failed) => Err(failed),
        Err(ShelfErr::Memory) => Err(Refusal::Memory),
    }
}

/// The script of a text.
fn parse(alloc: Global, text: &[u8]) -> Result<Script, Refusal>
    ensures ok { IfOk result (Spells text.now) }
    ensures err { IfErr result (λ why. (mount : Mount) → RefusesScript mount text.now why) }
{
    match parse_script(alloc, text) {
        Ok(script) => Ok(script),
        Err(refused) => match refused.why {
            ScriptWhy::Memory => Err(Refusal::Memory),
            why => Err(Refusal::Script {
                line: refused.line,
                why,
            }),
        },
    }
}

/// The script of a text, which names what the stack has.
fn accept_script(alloc: Global, mount: &Mounted, text: &[u8]) -> Result<Script, Refusal>
    ensures ok { IfOk result (Scripts mount.now text.now) }
    ensures err { IfErr result (RefusesScript mount.now text.now) }
{
    let script = parse(alloc, text)?;
    match unknown_line(mount, &script) {
        None => Ok(script),
        Some(line) => Err(Refusal::ScriptUnknown { line }),
    }
}

/// Reads the stack of a name, which keeps every rule, and mounts it.
pub fn read_stack<H: Shelf>(alloc: Global, shelf: &mut H, name: &Text) -> Result<Mounted, Refusal>
    ensures mounted { IfOk result (IsMounted (H.told shelf.old) name.now) }
    ensures err { IfErr result (IsStackCause (H.told shelf.old) (H.told shelf.new) name.now) }
    ensures same { SameTexts (H.told shelf.old) (H.told shelf.new) }
    ensures calm { OnOk result ((H.told shelf.new).faults ≡ (H.told shelf.old).faults) }
    ensures later { (H.told shelf.old).faults ≤ (H.told shelf.new).faults }
{
    let text = read_text(alloc, shelf, name, TEXT_LIMIT, Refusal::StackShelf)?;
    let (_stack, mount) = accept_text(alloc, &text)?;
    Ok(mount)
}

/// Reads the stack and the script of these names.
fn read_stack_and_script<H: Shelf>(
    alloc: Global,
    shelf: &mut H,
    stack: &Text,
    name: &Text,
) -> Result<(Mounted, Script), Refusal>
    ensures mounted { IfOk result (λ found. IsMounted (H.told shelf.old) stack.now found.0) }
    ensures script { IfOk result (λ found. HasScript (H.told shelf.old) name.now found.0 found.1) }
    ensures err { IfErr result (IsRunCause (H.told shelf.old) (H.told shelf.new) stack.now name.now) }
    ensures calm { OnOk result ((H.told shelf.new).faults ≡ (H.told shelf.old).faults) }
{
    let mount = read_stack(alloc, shelf, stack)?;
    let text = read_text(alloc, shelf, name, TEXT_LIMIT, Refusal::ScriptShelf)?;
    let script = accept_script(alloc, &mount, &text)?;
    Ok((mount, script))
}

/// Reads the interfaces, the stack and the script of these names, mounts the stack, and gives the numbers of the interfaces'
/// operations. The script is one that a run of the stack makes.
pub fn read_run<H: Shelf>(
    alloc: Global,
    shelf: &mut H,
    idl: &Text,
    stack: &Text,
    name: &Text,
) -> Result<(Mounted, Script, Ops), Refusal>
    ensures ok { IfOk result (λ found. IsPrepared (H.told shelf.old) (record { idl = idl.now; stack = stack.now; script = name.now }) found.0 found.1 found.2) }
    ensures script { IfOk result (λ found. IsScript found.1 × (unknown_line found.0 found.1 ≡ None)) }
    ensures err { IfErr result (IsCause (H.told shelf.old) (H.told shelf.new) (record { idl = idl.now; stack = stack.now; script = name.now })) }
    ensures calm { OnOk result ((H.told shelf.new).faults ≡ (H.told shelf.old).faults) }
{
    let ops = read_interfaces(alloc, shelf, idl)?;
    let (mount, script) = read_stack_and_script(alloc, shelf, stack, name)?;
    Ok((mount, script, ops))
}
