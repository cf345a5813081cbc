//! Reading what the bytes of an object say, without memory.

ghost use Rattle.std.specs.Prelude.{◌≡◌, ◌++◌, Ok, IfOk, OnErr};
ghost use Rattle.marshal_buf.specs.Numbers.{number_bytes};
ghost use Rattle.marshal_buf.specs.Reading.{Takes};
ghost use Rattle.sub_core.specs.Forms.{tail_bytes, IsTagOf, IsNameOf};
ghost use Rattle.sub_core.specs.Fields.{fields_at};

use crate::names::read_tail;
use crate::shape::Form;
use crate::values::Fields;
use marshal_buf::Reader;

/// Takes what the bytes behind an identifier say, without memory. An error is the byte at which they cannot stand, from the
/// input's start; the length of the whole input where they are cut. It leaves the reader as it was.
pub fn read_fields<'a>(form: Form, from: &mut Reader<'a>) -> Result<Fields<'a>, u32>
    ensures value { result ≡ fields_at form from.old }
    ensures tag { IfOk result (λ fields. IsTagOf form fields.tag) }
    ensures name { IfOk result (λ fields. IsNameOf form fields.name) }
    ensures taken { IfOk result (λ fields. Takes (number_bytes 4 from.old.next ++ tail_bytes form fields.tag fields.name) 1 from.old from.new) }
    ensures err { OnErr result (from.new ≡ from.old) }
{
    let mut ahead = from.copy();
    let fields = read_ahead(form, &mut ahead)?;
    *from = ahead;
    Ok(fields)
}

/// The same, but a refused call may leave the reader behind the door.
fn read_ahead<'a>(form: Form, from: &mut Reader<'a>) -> Result<Fields<'a>, u32>
    ensures value { result ≡ fields_at form from.old }
    ensures tag { IfOk result (λ fields. IsTagOf form fields.tag) }
    ensures name { IfOk result (λ fields. IsNameOf form fields.name) }
    ensures taken { IfOk result (λ fields. Takes (number_bytes 4 from.old.next ++ tail_bytes form fields.tag fields.name) 1 from.old from.new) }
{
    let door = match from.get_door() {
        Ok(door) => door,
        Err(bad) => return Err(bad.at),
    };
    let (tag, name) = read_tail(form, from)?;
    Ok(Fields::new(door, tag, name))
}
