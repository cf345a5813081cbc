//! Sending and receiving by the identifiers of the doors.

ghost use Rattle.std.specs.Prelude.{◌≡◌, ◌+◌, ◌<◌, ◌≤◌, ◌^◌, Ok, IfOk, IfErr, OnOk, OnErr, length};
ghost use Rattle.marshal_buf.specs.Held.{IsAsBefore};
ghost use Rattle.marshal_buf.specs.Reading.{Takes};
ghost use Rattle.sub_replicon.specs.Replicas.{AreApart, AreReplicas};
ghost use Rattle.sub_replicon.specs.Forms.{doors_bytes, replicon_len};
ghost use Rattle.sub_replicon.specs.Doors.{TakesDoors, replicas_at};
ghost use Rattle.sub_replicon.specs.Calls.{Marshals, RefusesHeld, Refuses};

use crate::held::{look_all, take_out_all};
use crate::put::{make_room, put_object};
use crate::reading::read_doors;
use crate::{DoorList, MAX_DOORS};
use domain_doors::{Domain, NoDoor};
use marshal_buf::{Buf, Reader};
use sub_core::ObjectErr;

/// Sends the object of the identifiers, whose doors leave the domain.
pub(crate) fn send(doors: &[usize], domain: &mut Domain, buf: &mut Buf) -> Result<(), ObjectErr>
    requires few { length doors.now ≤ MAX_DOORS }
    requires apart { AreApart doors.now }
    requires bytes { length buf.old.bytes + replicon_len (length doors.now) < 2 ^ 32 }
    requires doors { length buf.old.doors + length doors.now < 2 ^ 32 }
    ensures ok { OnOk result (Marshals doors.now domain.old domain.new buf.old buf.new) }
    ensures why { IfErr result (RefusesHeld domain.old doors.now) }
    ensures domain_kept { OnErr result (domain.new ≡ domain.old) }
    ensures buf_kept { OnErr result (IsAsBefore buf.old buf.new) }
{
    let held = look_all(doors, domain)?;
    make_room(doors.len() as u32, buf)?;
    match take_out_all(doors, domain) {
        Ok(()) => (),
        Err(NoDoor { .. }) => unreachable!(),
    }
    put_object(held.as_slice(), buf)?;
    Ok(())
}

/// Takes the doors that the bytes behind an identifier name.
pub(crate) fn get_doors(from: &mut Reader<'_>) -> Result<DoorList, ObjectErr>
    ensures value { IfOk result (λ doors. replicas_at from.old ≡ Ok doors) }
    ensures of { IfOk result AreReplicas }
    ensures taken { IfOk result (λ doors. Takes (doors_bytes from.old.next (length doors)) (length doors) from.old from.new) }
    ensures there { IfOk result (λ doors. TakesDoors doors from.old from.new) }
    ensures why { IfErr result (Refuses (replicas_at from.old)) }
{
    match read_doors(from) {
        Ok(doors) => Ok(doors),
        Err(at) => Err(ObjectErr::BadObject { at }),
    }
}
