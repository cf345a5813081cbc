//! Receiving an object, by its form.

ghost use Rattle.std.specs.Prelude.{◌≡◌, ◌++◌, Some, None, Ok, IfOk, IfErr, OnErr};
ghost use Rattle.marshal_buf.specs.Numbers.{number_bytes};
ghost use Rattle.marshal_buf.specs.Reading.{number_at, Takes};
ghost use Rattle.domain_doors.specs.Doors.{door_at, Updates};
ghost use Rattle.sub_core.specs.Forms.{tail_bytes, IsTagOf, IsNameOf};
ghost use Rattle.sub_core.specs.Fields.{fields_at, fields_behind};
ghost use Rattle.sub_core.specs.Received.{Unmarshals, Refuses};

use crate::fields::read_fields;
use crate::shape::Form;
use crate::values::{Fields, Object};
use crate::why::ObjectErr;
use domain_doors::Domain;
use marshal_buf::Reader;
use std::alloc::{AllocError, Global};
use value_types::Text;

/// Receives an object of the form, whose identifier comes next, as every subcontract of that form does: its door comes
/// into the domain. It fails if the bytes are no object of the form, or if memory runs out, and then leaves the domain
/// and the reader as they were.
pub fn unmarshal_as(
    id: u16,
    form: Form,
    alloc: Global,
    domain: &mut Domain,
    from: &mut Reader<'_>,
) -> Result<Object, ObjectErr>
    requires { number_at 2 from.old ≡ Ok id }
    ensures ok { IfOk result (Unmarshals id form domain.old domain.new from.old from.new) }
    ensures why { IfErr result (Refuses (fields_behind form from.old)) }
    ensures domain_kept { OnErr result (domain.new ≡ domain.old) }
    ensures from_kept { OnErr result (from.new ≡ from.old) }
{
    let mut ahead = from.copy();
    let _id = ahead.get_u16()?;
    let fields = get_fields(form, &mut ahead)?;
    let object = hold(id, form, &fields, alloc, domain)?;
    *from = ahead;
    Ok(object)
}

/// Takes what the bytes behind an identifier say.
fn get_fields<'a>(form: Form, from: &mut Reader<'a>) -> Result<Fields<'a>, ObjectErr>
    ensures value { IfOk result (λ fields. fields_at form from.old ≡ Ok fields) }
    ensures why { IfErr result (Refuses (fields_at form from.old)) }
    ensures tag { IfOk result (λ fields. IsTagOf form fields.tag) }
    ensures name { IfOk result (λ fields. IsNameOf form fields.name) }
    ensures taken { IfOk result (λ fields. Takes (number_bytes 4 from.old.next ++ tail_bytes form fields.tag fields.name) 1 from.old from.new) }
{
    match read_fields(form, from) {
        Ok(fields) => Ok(fields),
        Err(at) => Err(ObjectErr::BadObject { at }),
    }
}

/// Takes the door of a received object into the domain. An error leaves the domain as it was.
#[tactic(auto, using(crate::proofs::Utf8::name_utf8))]
fn hold(
    id: u16,
    form: Form,
    fields: &Fields<'_>,
    alloc: Global,
    domain: &mut Domain,
) -> Result<Object, AllocError>
    requires { IsNameOf form fields.now.name }
    ensures object { IfOk result (λ object. object ≡ record { sub = id; door = object.door; tag = fields.now.tag; name = fields.now.name; life = 0 }) }
    ensures vacant { IfOk result (λ object. door_at domain.old object.door ≡ None) }
    ensures enters { IfOk result (λ object. Updates domain.old domain.new object.door (Some fields.now.door)) }
    ensures err { OnErr result (domain.new ≡ domain.old) }
{
    let name = Text::of_ascii(alloc, fields.name())?;
    let door = domain.add(fields.door())?;
    Ok(Object {
        sub: id,
        door,
        tag: fields.tag(),
        name,
        life: 0,
    })
}
