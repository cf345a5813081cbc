//! Objects of the subcontracts of singletons and of clusters.

ghost use Rattle.std.specs.Prelude.{◌≡◌, [], IfOk, IfSome};
ghost use Rattle.sub_core.specs.declared.shape.Form.TheVariants.{Tagged};
ghost use Rattle.sub_core.specs.Forms.{IsOf};

use crate::registry::{say_held, say_object};
use crate::say::{bytes_of, count_of, door_of, say_hex, small_of};
use crate::stack::{leads_to_view, mounted};
use domain_doors::{Domain, NoDoor};
use marshal_buf::{Buf, Door, Reader};
use stack_accept::Mounted;
use std::alloc::{AllocError, Global};
use sub_basic::{CLUSTER, Cluster, SINGLETON, Singleton};
use sub_core::{Object, ObjectErr, Registry, Route, Subcontract, unmarshal_any};
use trial_words::say;
use value_types::Text;

/// Both kinds.
struct Both;

impl Registry for Both {
    ghost use Rattle.std.specs.Prelude.{◌==◌, ◌||◌, if◌then◌else◌};
    ghost use Rattle.sub_core.specs.declared.shape.Form.TheVariants.{Bare, Tagged};

    ghost has = { λ id. (id == 1) || (id == 2) };

    ghost form = { λ id. if id == 1 then Bare else Tagged };

    fn has(&self, id: u16) -> bool {
        id == SINGLETON || id == CLUSTER
    }

    fn unmarshal(
        &self,
        id: u16,
        alloc: Global,
        domain: &mut Domain,
        from: &mut Reader<'_>,
    ) -> Result<Object, ObjectErr> {
        if id == SINGLETON {
            Singleton.unmarshal(alloc, domain, from)
        } else {
            Cluster.unmarshal(alloc, domain, from)
        }
    }
}

/// An object with a door of a domain.
fn object(alloc: Global, sub: u16, door: usize, tag: u32) -> Result<Object, AllocError>
    ensures { IfOk result (λ o. o ≡ record { sub = sub; door = door; tag = tag; name = []; life = 0 }) }
{
    Ok(Object {
        sub,
        door,
        tag,
        name: Text::of(alloc, "")?,
        life: 0,
    })
}

/// `basic CALL ..`
pub fn step(
    alloc: Global,
    words: &[&str],
    stack: &[u8],
    answer: &mut String,
) -> Result<(), AllocError> {
    match words {
        ["send", single, member, tag] => {
            send(
                alloc,
                door_of(single),
                door_of(member),
                small_of(tag),
                answer,
            )
        }
        ["route", kind, door, tag] => {
            route(alloc, stack, kind, door_of(door), small_of(tag), answer)
        }
        ["receive", front, door, behind] => receive(alloc, front, door, behind, answer),
        ["lose", door, tag] => lose(alloc, door_of(door), small_of(tag), answer),
        ["route-without-door", id] => no_route(alloc, stack, id, answer),
        _ => say(answer, "no such step"),
    }
}

/// A singleton of a door, and behind it an object of a cluster with a tag and another door.
fn both_sent(
    alloc: Global,
    first: Door,
    second: Door,
    tag: u32,
    answer: &mut String,
) -> Result<Option<Buf>, AllocError> {
    let mut domain = Domain::new(alloc);
    let mut buf = Buf::new(alloc);
    let single = object(alloc, SINGLETON, domain.add(first)?, 0)?;
    if Singleton.marshal(single, &mut domain, &mut buf).is_err() {
        return Ok(None);
    }
    let (bytes, doors) = (buf.bytes_len(), buf.doors_len());
    writeln!(answer, "{bytes} bytes, {doors} doors")?;
    let member = object(alloc, CLUSTER, domain.add(second)?, tag)?;
    if bytes > 1_000 || doors > 1_000 || Cluster.marshal(member, &mut domain, &mut buf).is_err() {
        return Ok(None);
    }
    Ok(Some(buf))
}

/// Receives an object, and tells it and its door.
fn received(
    alloc: Global,
    domain: &mut Domain,
    from: &mut Reader<'_>,
    answer: &mut String,
) -> Result<(), AllocError> {
    match unmarshal_any(&Both, alloc, domain, from) {
        Ok(object) => {
            say_object(&object, answer)?;
            say_held(domain, object.door, answer)
        }
        Err(why) => writeln!(answer, "{why}"),
    }
}

/// Sends a singleton and an object of a cluster in one buffer, and behind them the byte 9, and receives both.
fn send(
    alloc: Global,
    first: Door,
    second: Door,
    tag: u32,
    answer: &mut String,
) -> Result<(), AllocError> {
    let Some(mut buf) = both_sent(alloc, first, second, tag, answer)? else {
        return say(answer, "not sent");
    };
    say_hex(answer, buf.as_slice())?;
    if buf.bytes_len() > 1_000 {
        return say(answer, "impossible");
    }
    buf.put_bytes(&[9])?;
    let mut domain = Domain::new(alloc);
    let mut from = buf.reader();
    received(alloc, &mut domain, &mut from, answer)?;
    received(alloc, &mut domain, &mut from, answer)?;
    say_hex(answer, from.rest())
}

/// Where the object leads by its kind, from the first machine, if its door is this one and leads to a view.
fn route_by<S: Subcontract>(
    kind: &S,
    object: &Object,
    domain: &Domain,
    mounted: &Mounted,
    door: Door,
) -> Option<Route>
    requires sub { object.now.sub ≡ S.id }
    requires of { IsOf S.form object.now }
{
    if mounted.machines().is_empty()
        || !leads_to_view(mounted, door)
        || domain.look(object.door) != Ok(door)
    {
        return None;
    }
    kind.route(object, domain, mounted, 0).ok()
}

/// Where an object of a kind and a door leads.
fn route(
    alloc: Global,
    stack: &[u8],
    kind: &str,
    door: Door,
    tag: u32,
    answer: &mut String,
) -> Result<(), AllocError> {
    let Some(mounted) = mounted(alloc, stack) else {
        return say(answer, "no stack");
    };
    let mut domain = Domain::new(alloc);
    let id = domain.add(door)?;
    let route = if kind == "singleton" {
        let single = object(alloc, SINGLETON, id, 0)?;
        route_by(&Singleton, &single, &domain, &mounted, door)
    } else {
        let member = object(alloc, CLUSTER, id, tag)?;
        route_by(&Cluster, &member, &domain, &mounted, door)
    };
    match route {
        Some(Route { node, file }) => writeln!(answer, "node {node} file {file}"),
        None => say(answer, "nowhere"),
    }
}

/// A buffer of bytes, a door, unless it is `none`, and more bytes.
pub fn parts(
    alloc: Global,
    front: &str,
    door: &str,
    behind: &str,
) -> Result<Option<Buf>, AllocError> {
    let (front, behind) = (bytes_of(alloc, front)?, bytes_of(alloc, behind)?);
    if front.len() > 1_000 || behind.len() > 1_000 {
        return Ok(None);
    }
    let mut buf = Buf::new(alloc);
    buf.put_bytes(&front)?;
    if door != "none" {
        buf.put_door(door_of(door))?;
    }
    buf.put_bytes(&behind)?;
    Ok(Some(buf))
}

/// Receives an object of these bytes, in a domain that holds the door 2.0.
fn receive(
    alloc: Global,
    front: &str,
    door: &str,
    behind: &str,
    answer: &mut String,
) -> Result<(), AllocError> {
    let Some(buf) = parts(alloc, front, door, behind)? else {
        return say(answer, "impossible");
    };
    let mut domain = Domain::new(alloc);
    let held = domain.add(Door { node: 2, file: 0 })?;
    let mut from = buf.reader();
    received(alloc, &mut domain, &mut from, answer)?;
    let at = from.at();
    writeln!(answer, "stands at {at}")?;
    say_held(&domain, held, answer)
}

/// Why an object of a cluster is not sent, and the object.
fn not_sent(alloc: Global, member: Object, domain: &mut Domain) -> Option<(ObjectErr, Object)>
    requires sub { member.sub ≡ 2 }
    requires of { IsOf Tagged member }
    ensures { IfSome result (λ e. e.1 ≡ member) }
{
    let mut buf = Buf::new(alloc);
    Cluster.marshal(member, domain, &mut buf).err()
}

/// Tells whether a door of the identifier is what lacks.
fn say_lacking(answer: &mut String, what: &str, lacks: bool) -> Result<(), AllocError> {
    writeln!(
        answer,
        "{what}: {}",
        if lacks { "no door" } else { "another answer" }
    )
}

/// Copies an object of a cluster, gives the copy up, takes the object's door out, and tells how each call on it is refused then.
fn lose(alloc: Global, at: Door, tag: u32, answer: &mut String) -> Result<(), AllocError> {
    let mut domain = Domain::new(alloc);
    let door = domain.add(at)?;
    let member = object(alloc, CLUSTER, door, tag)?;
    match Cluster.copy(&member, &mut domain) {
        Ok(copy) => match Cluster.consume(copy, &mut domain) {
            Ok(()) => say(answer, "copied and given up")?,
            Err(why) => writeln!(answer, "copied; {why}")?,
        },
        Err(why) => writeln!(answer, "{why}")?,
    }
    if domain.take_out(door) != Ok(at) {
        return say(answer, "not taken out");
    }
    let lacking = ObjectErr::NoDoor { id: door };
    let refused = Cluster.copy(&member, &mut domain).err();
    say_lacking(answer, "copy", refused == Some(lacking))?;
    let Some((why, member)) = not_sent(alloc, member, &mut domain) else {
        return say(answer, "sent");
    };
    say_lacking(answer, "send", why == lacking)?;
    let refused = Cluster.consume(member, &mut domain);
    say_lacking(answer, "give up", refused == Err(NoDoor { id: door }))
}

/// Asks for the route of a singleton whose door is not held.
fn no_route(alloc: Global, stack: &[u8], id: &str, answer: &mut String) -> Result<(), AllocError> {
    let Some(mounted) = mounted(alloc, stack) else {
        return say(answer, "no stack");
    };
    let domain = Domain::new(alloc);
    let single = object(alloc, SINGLETON, count_of(id) as usize, 0)?;
    if mounted.machines().is_empty() || domain.look(single.door).is_ok() {
        return say(answer, "impossible");
    }
    match Singleton.route(&single, &domain, &mounted, 0) {
        Ok(_) => say(answer, "a route"),
        Err(lacks) => writeln!(answer, "{lacks}"),
    }
}
