//! Sending an object, by its form.

ghost use Rattle.std.specs.Prelude.{◌≡◌, ◌+◌, ◌<◌, ◌≤◌, ◌^◌, ◌∷◌, [], IsOk, IfErr, OnOk, OnErr, length};
ghost use Rattle.marshal_buf.specs.Held.{Puts, IsAsBefore};
ghost use Rattle.sub_core.specs.Forms.{tail_bytes, tail_len, object_bytes, object_len, HasRoom, IsOf};
ghost use Rattle.sub_core.specs.Calls.{Marshals, RefusesHeld};

use crate::shape::{Form, object_len};
use crate::values::Object;
use crate::why::ObjectErr;
use domain_doors::Domain;
use marshal_buf::{Buf, Door};
use std::alloc::AllocError;

/// Sends an object of the form, as every subcontract of that form does. It fails if the domain lacks the object's door,
/// or if memory runs out. Then the object is handed back, and the domain and the buffer are as they were.
pub fn marshal_as(
    form: Form,
    object: Object,
    domain: &mut Domain,
    buf: &mut Buf,
) -> Result<(), (ObjectErr, Object)>
    requires of { IsOf form object }
    requires bytes { length buf.old.bytes + object_len form object.name < 2 ^ 32 }
    requires doors { length buf.old.doors + 1 < 2 ^ 32 }
    ensures ok { OnOk result (Marshals form object domain.old domain.new buf.old buf.new) }
    ensures why { IfErr result (λ e. RefusesHeld domain.old object e.0) }
    ensures handed_back { IfErr result (λ e. e.1 ≡ object) }
    ensures domain_kept { OnErr result (domain.new ≡ domain.old) }
    ensures buf_kept { OnErr result (IsAsBefore buf.old buf.new) }
{
    match send(form, &object, domain, buf) {
        Ok(()) => Ok(()),
        Err(why) => Err((why, object)),
    }
}

fn send(form: Form, object: &Object, domain: &mut Domain, buf: &mut Buf) -> Result<(), ObjectErr>
    requires bytes { length buf.old.bytes + object_len form object.now.name < 2 ^ 32 }
    requires doors { length buf.old.doors + 1 < 2 ^ 32 }
    ensures ok { OnOk result (Marshals form object.now domain.old domain.new buf.old buf.new) }
    ensures why { IfErr result (RefusesHeld domain.old object.now) }
    ensures domain_kept { OnErr result (domain.new ≡ domain.old) }
    ensures buf_kept { OnErr result (IsAsBefore buf.old buf.new) }
{
    let door = domain.look(object.door)?;
    make_room(form, object.name.as_str(), buf)?;
    domain.take_out(object.door)?;
    put_object(form, object, door, buf)?;
    Ok(())
}

/// Makes room for an object of the form and the name.
fn make_room(form: Form, name: &str, buf: &mut Buf) -> Result<(), AllocError>
    requires { object_len form name.now < 2 ^ 32 }
    ensures ok { OnOk result (HasRoom form name.now buf.new) }
    ensures same { IsAsBefore buf.old buf.new }
{
    buf.reserve(object_len(form, name))?;
    buf.reserve_doors(1)
}

/// Puts an object for which there is room.
fn put_object(form: Form, object: &Object, door: Door, buf: &mut Buf) -> Result<(), AllocError>
    requires bytes { length buf.old.bytes + object_len form object.now.name < 2 ^ 32 }
    requires doors { length buf.old.doors + 1 < 2 ^ 32 }
    requires room { HasRoom form object.now.name buf.old }
    ensures ok { IsOk result }
    ensures put { Puts (object_bytes object.now.sub form (length buf.old.doors) object.now.tag object.now.name) (door ∷ []) buf.old buf.new }
    ensures len { length buf.new.bytes ≡ length buf.old.bytes + object_len form object.now.name }
{
    buf.put_u16(object.sub)?;
    buf.put_door(door)?;
    put_tail(form, object.tag, object.name.as_str(), buf)
}

/// Puts what the form has behind the door, for which there is room.
fn put_tail(form: Form, tag: u32, name: &str, buf: &mut Buf) -> Result<(), AllocError>
    requires bytes { length buf.old.bytes + tail_len form name.now < 2 ^ 32 }
    requires room { tail_len form name.now ≤ buf.old.spare }
    ensures ok { IsOk result }
    ensures put { Puts (tail_bytes form tag name.now) [] buf.old buf.new }
    ensures len { length buf.new.bytes ≡ length buf.old.bytes + tail_len form name.now }
{
    match form {
        Form::Bare => Ok(()),
        Form::Tagged => buf.put_u32(tag),
        Form::Managed | Form::Pathed => buf.put_counted(name.as_bytes()),
    }
}
