//! Objects of the subcontract of caches.

ghost use Rattle.std.specs.Prelude.{◌≡◌, codes, IfOk};
ghost use Rattle.sub_core.specs.declared.shape.Form.TheVariants.{Managed};
ghost use Rattle.sub_core.specs.Forms.{IsOf};

use crate::registry::{say_held, say_object};
use crate::say::{count_of, door_of, say_hex, small_of};
use crate::stack::{leads_to_view, mounted};
use domain_doors::Domain;
use marshal_buf::{Buf, Door, Reader};
use stack_accept::Mounted;
use std::alloc::{AllocError, Global};
use sub_caching::{CACHING, Caching};
use sub_core::{MANAGER, Object, ObjectErr, Route, Subcontract};
use trial_words::say;
use value_types::Text;

/// An object with a door of a domain.
fn object(alloc: Global, door: usize) -> Result<Object, AllocError>
    ensures { IfOk result (λ o. o ≡ record { sub = CACHING; door = door; tag = 0; name = codes "vmm"; life = 0 }) }
{
    Ok(Object {
        sub: CACHING,
        door,
        tag: 0,
        name: Text::of(alloc, MANAGER)?,
        life: 0,
    })
}

/// `caching CALL ..`
pub fn step(
    alloc: Global,
    words: &[&str],
    stack: &[u8],
    answer: &mut String,
) -> Result<(), AllocError> {
    match words {
        ["send", door] => send(alloc, door_of(door), answer),
        ["route", door, machine] => {
            route(alloc, stack, door_of(door), small_of(machine), answer)
        }
        ["without-door", id] => without_door(alloc, count_of(id) as usize, answer),
        _ => say(answer, "no such step"),
    }
}

/// Receives an object, if one of the subcontract comes next.
fn received(
    alloc: Global,
    domain: &mut Domain,
    from: &mut Reader<'_>,
) -> Result<Object, ObjectErr> {
    if from.copy().get_u16() != Ok(CACHING) {
        return Err(ObjectErr::BadObject { at: 0 });
    }
    Caching.unmarshal(alloc, domain, from)
}

/// Copies an object and gives the copy up, sends the object, and receives it in another domain.
fn send(alloc: Global, door: Door, answer: &mut String) -> Result<(), AllocError> {
    let mut domain = Domain::new(alloc);
    let first = object(alloc, domain.add(door)?)?;
    match Caching.copy(&first, &mut domain) {
        Ok(copy) => match Caching.consume(copy, &mut domain) {
            Ok(()) => say(answer, "copied and given up")?,
            Err(why) => writeln!(answer, "copied; {why}")?,
        },
        Err(why) => writeln!(answer, "{why}")?,
    }
    let mut buf = Buf::new(alloc);
    if Caching.marshal(first, &mut domain, &mut buf).is_err() {
        return say(answer, "not sent");
    }
    say_hex(answer, buf.as_slice())?;
    let mut to = Domain::new(alloc);
    let mut from = buf.reader();
    match received(alloc, &mut to, &mut from) {
        Ok(second) => {
            say_object(&second, answer)?;
            say_held(&to, second.door, answer)?;
            say_hex(answer, from.rest())
        }
        Err(why) => writeln!(answer, "{why}"),
    }
}

/// Where the object leads from a machine, if its door is this one and leads to a view.
fn route_from(
    object: &Object,
    domain: &Domain,
    mounted: &Mounted,
    machine: u32,
    door: Door,
) -> Option<Route>
    requires sub { object.now.sub ≡ CACHING }
    requires of { IsOf Managed object.now }
{
    if mounted.machines().len() <= machine as usize
        || !leads_to_view(mounted, door)
        || domain.look(object.door) != Ok(door)
    {
        return None;
    }
    Caching.route(object, domain, mounted, machine).ok()
}

/// Where an object of a door leads from a machine.
fn route(
    alloc: Global,
    stack: &[u8],
    door: Door,
    machine: u32,
    answer: &mut String,
) -> Result<(), AllocError> {
    let Some(mounted) = mounted(alloc, stack) else {
        return say(answer, "no stack");
    };
    let mut domain = Domain::new(alloc);
    let object = object(alloc, domain.add(door)?)?;
    match route_from(&object, &domain, &mounted, machine, door) {
        Some(Route { node, file }) => writeln!(answer, "node {node} file {file}"),
        None => say(answer, "nowhere"),
    }
}

/// How calls on an object are refused whose door is not held.
fn without_door(alloc: Global, id: usize, answer: &mut String) -> Result<(), AllocError> {
    let mut domain = Domain::new(alloc);
    let lacking = object(alloc, id)?;
    match Caching.copy(&lacking, &mut domain) {
        Ok(_) => say(answer, "copied")?,
        Err(why) => writeln!(answer, "copy: {why}")?,
    }
    match Caching.consume(lacking, &mut domain) {
        Ok(()) => say(answer, "given up"),
        Err(why) => writeln!(answer, "give up: {why}"),
    }
}
