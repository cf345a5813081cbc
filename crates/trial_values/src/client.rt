//! The objects of a client: bound, received, found, copied and given up.

ghost use Rattle.std.specs.Prelude.{◌<◌, IsSome, OnOk, length};
ghost use Rattle.std.specs.List.{AllByRecursion};
ghost use Rattle.client_objects.specs.Objects.{IsOnStack, object_of};

use crate::basic::parts;
use crate::say::{say_hex, short_of, small_of};
use crate::stack::mounted;
use client_objects::{Found, NotReceived, ObjectKind, Objects, bound_object};
use marshal_buf::Buf;
use stack_accept::Mounted;
use std::alloc::{AllocError, Global};
use trial_words::say;
use value_types::Text;

/// `client CALL ..` over the stack of the case.
pub fn step(
    alloc: Global,
    words: &[&str],
    stack: &[u8],
    answer: &mut String,
) -> Result<(), AllocError> {
    let Some(mounted) = mounted(alloc, stack) else {
        return say(answer, "no stack");
    };
    match words {
        ["open", sub, view, file, machine] => {
            let Some(kind) = ObjectKind::of(short_of(sub)) else {
                return say(answer, "impossible");
            };
            let stored = bound_object(alloc, kind, "t/k", small_of(view), small_of(file))?;
            say_hex(answer, stored.as_slice())?;
            walk(alloc, &mounted, small_of(machine), &stored, answer)
        }
        ["receive", front, door, behind] => match parts(alloc, front, door, behind)? {
            Some(stored) => receive(alloc, &mounted, &stored, answer),
            None => say(answer, "impossible"),
        },
        _ => say(answer, "no such step"),
    }
}

/// Appends where an object leads.
fn say_found(found: &Found, answer: &mut String) -> Result<(), AllocError> {
    let target = &found.target;
    let (sub, tag, view) = (target.kind.id(), target.tag, target.view);
    let (file, life, node) = (target.file, target.life, found.node);
    write!(
        answer,
        "subcontract {sub} tag {tag} view {view} file {file}"
    )?;
    writeln!(answer, " life {life}, calls go to node {node}")
}

/// Appends what is found under a name.
fn say_finding(found: &Option<Found>, answer: &mut String) -> Result<(), AllocError> {
    match found {
        Some(found) => say_found(found, answer),
        None => say(answer, "no object"),
    }
}

/// Opens an object of life 7, on a machine.
fn open(
    alloc: Global,
    mounted: &Mounted,
    machine: u32,
    objects: &mut Objects,
    name: &Text,
    stored: &Buf,
) -> Result<Found, NotReceived>
    requires machine { machine < length mounted.now.machines }
    requires stack { AllByRecursion (IsOnStack mounted.now) objects.old }
    ensures { OnOk result (AllByRecursion (IsOnStack mounted.now) objects.new) }
{
    let found = objects.receive(alloc, mounted, machine, name.clone()?, stored)?;
    objects.set_life(7);
    Ok(found)
}

/// Copies an object under another name, and gives the first one up.
fn rename(
    mounted: &Mounted,
    objects: &mut Objects,
    name: &Text,
    other: &Text,
) -> Result<(), AllocError>
    requires held { IsSome (object_of name.now objects.old) }
    requires stack { AllByRecursion (IsOnStack mounted.now) objects.old }
    ensures { OnOk result (AllByRecursion (IsOnStack mounted.now) objects.new) }
{
    let _machines = mounted.machines();
    objects.copy(name, other.clone()?)?;
    objects.remove(name);
    Ok(())
}

/// Opens what is stored on a machine, where it has the life 7 then; finds it; copies it under another name, and gives it up; finds
/// nothing and the copy.
fn walk(
    alloc: Global,
    mounted: &Mounted,
    machine: u32,
    stored: &Buf,
    answer: &mut String,
) -> Result<(), AllocError> {
    if machine as usize >= mounted.machines().len() {
        return say(answer, "impossible");
    }
    let first = Text::of(alloc, "a")?;
    let second = Text::of(alloc, "b")?;
    let mut objects = Objects::new(alloc);
    match open(alloc, mounted, machine, &mut objects, &first, stored) {
        Ok(found) => say_found(&found, answer)?,
        Err(why) => return writeln!(answer, "{why}"),
    }
    let found = objects.find(mounted, machine, &first);
    say_finding(&found, answer)?;
    if found.is_none() {
        return Ok(());
    }
    rename(mounted, &mut objects, &first, &second)?;
    say_finding(&objects.find(mounted, machine, &first), answer)?;
    say_finding(&objects.find(mounted, machine, &second), answer)?;
    objects.give_up_last();
    Ok(())
}

/// Receives what is stored, on the first machine.
fn receive(
    alloc: Global,
    mounted: &Mounted,
    stored: &Buf,
    answer: &mut String,
) -> Result<(), AllocError> {
    if mounted.machines().is_empty() {
        return say(answer, "impossible");
    }
    let mut objects = Objects::new(alloc);
    match objects.receive(alloc, mounted, 0, Text::of(alloc, "a")?, stored) {
        Ok(found) => say_found(&found, answer),
        Err(why) => writeln!(answer, "{why}"),
    }
}
