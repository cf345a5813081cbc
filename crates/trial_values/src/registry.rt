//! Objects that are sent and received by a registry of two subcontracts.

ghost use Rattle.std.specs.Prelude.{◌≡◌, ◌==◌, if◌then◌else◌};
ghost use Rattle.sub_core.specs.declared.shape.Form.TheVariants.{Tagged, Managed};
ghost use Rattle.sub_core.specs.Forms.{IsNameOf};

use crate::say::{bytes_of, door_of, say_door, say_hex, short_of, small_of};
use domain_doors::{Domain, NoDoor};
use marshal_buf::{Buf, Reader};
use std::alloc::{AllocError, Global};
use sub_core::{
    Form, MANAGER, Object, ObjectErr, Registry, consume_held, copy_held, marshal_as, read_fields,
    unmarshal_any, unmarshal_as,
};
use trial_words::say;
use value_types::Text;

/// A registry of two subcontracts: 7, whose objects are tagged, and 8, whose objects name a manager.
struct Both;

impl Registry for Both {
    ghost use Rattle.std.specs.Prelude.{◌==◌, ◌||◌, if◌then◌else◌};
    ghost use Rattle.sub_core.specs.declared.shape.Form.TheVariants.{Tagged, Managed};

    ghost has = { λ id. (id == 7) || (id == 8) };

    ghost form = { λ id. if id == 7 then Tagged else Managed };

    fn has(&self, id: u16) -> bool {
        id == 7 || id == 8
    }

    fn unmarshal(
        &self,
        id: u16,
        alloc: Global,
        domain: &mut Domain,
        from: &mut Reader<'_>,
    ) -> Result<Object, ObjectErr> {
        unmarshal_as(id, form_of(id), alloc, domain, from)
    }
}

/// The form of the objects of a subcontract.
fn form_of(id: u16) -> Form
    ensures { result ≡ (if id == 7 then Tagged else Managed) }
{
    if id == 7 { Form::Tagged } else { Form::Managed }
}

/// The name of the objects of a subcontract.
fn name_of(id: u16) -> &'static str
    ensures { IsNameOf (if id == 7 then Tagged else Managed) result.now }
{
    if id == 7 { "" } else { MANAGER }
}

/// Appends the door that a domain holds under an identifier.
pub fn say_held(domain: &Domain, id: usize, answer: &mut String) -> Result<(), AllocError> {
    match domain.look(id) {
        Ok(door) => say_door(answer, door),
        Err(_) => say(answer, "no door"),
    }
}

/// Appends what an object is.
pub fn say_object(object: &Object, answer: &mut String) -> Result<(), AllocError> {
    let (sub, tag, life) = (object.sub, object.tag, object.life);
    let name = object.name.as_str();
    writeln!(
        answer,
        "subcontract {sub} tag {tag} life {life} name '{name}'"
    )
}

/// `registry CALL ..`
pub fn step(alloc: Global, words: &[&str], answer: &mut String) -> Result<(), AllocError> {
    match words {
        ["send", sub, tag, door] => send(alloc, short_of(sub), small_of(tag), door, answer),
        ["receive", door, behind] => receive(alloc, door, behind, answer),
        _ => say(answer, "no such step"),
    }
}

/// Sends an object, of which a copy is held, and tells its bytes; receives it, gives it up, and tells whether the copy is still
/// held.
fn send(
    alloc: Global,
    sub: u16,
    tag: u32,
    door: &str,
    answer: &mut String,
) -> Result<(), AllocError> {
    let mut domain = Domain::new(alloc);
    let door = domain.add(door_of(door))?;
    if sub != 7 && tag != 0 {
        return say(answer, "impossible");
    }
    let name = Text::of(alloc, name_of(sub))?;
    let object = Object {
        sub,
        door,
        tag,
        name,
        life: 0,
    };
    let Ok(copy) = copy_held(&object, &mut domain) else {
        return say(answer, "not copied");
    };
    let mut buf = Buf::new(alloc);
    if marshal_as(form_of(sub), object, &mut domain, &mut buf).is_err() {
        return say(answer, "not sent");
    }
    say_hex(answer, buf.as_slice())?;
    if domain.look(door) != Err(NoDoor { id: door }) {
        return say(answer, "still held");
    }
    received(alloc, &mut domain, &buf, answer)?;
    say_held(&domain, copy.door, answer)
}

/// Receives the object of a buffer, and gives it up.
fn received(
    alloc: Global,
    domain: &mut Domain,
    buf: &Buf,
    answer: &mut String,
) -> Result<(), AllocError> {
    let mut from = buf.reader();
    match unmarshal_any(&Both, alloc, domain, &mut from) {
        Ok(object) => {
            say_object(&object, answer)?;
            say_held(domain, object.door, answer)?;
            match consume_held(object, domain) {
                Ok(()) => say(answer, "given up"),
                Err(lacks) => writeln!(answer, "{lacks}"),
            }
        }
        Err(why) => writeln!(answer, "{why}"),
    }
}

/// Receives an object of the subcontract 8 with these bytes behind its door; and reads its fields alone.
fn receive(alloc: Global, door: &str, behind: &str, answer: &mut String) -> Result<(), AllocError> {
    let behind = bytes_of(alloc, behind)?;
    if behind.len() > 1_000 {
        return say(answer, "impossible");
    }
    let mut buf = Buf::new(alloc);
    buf.put_u16(8)?;
    buf.put_door(door_of(door))?;
    buf.put_bytes(&behind)?;
    let mut domain = Domain::new(alloc);
    let mut from = buf.reader();
    match unmarshal_any(&Both, alloc, &mut domain, &mut from) {
        Ok(object) => say_object(&object, answer)?,
        Err(why) => writeln!(answer, "{why}")?,
    }
    let at = from.at();
    writeln!(answer, "stands at {at}")?;
    if from.get_u16() != Ok(8) {
        return say(answer, "another subcontract");
    }
    match read_fields(Form::Managed, &mut from) {
        Ok(_) => say(answer, "fields"),
        Err(at) => writeln!(answer, "no fields at byte {at}"),
    }
}
