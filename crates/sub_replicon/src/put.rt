//! Putting the bytes and the doors of a replicon object.

ghost use Rattle.std.specs.Prelude.{◌≡◌, ◌+◌, ◌*◌, ◌<◌, ◌≤◌, ◌^◌, IsOk, OnOk, length};
ghost use Rattle.marshal_buf.specs.Held.{Puts, IsAsBefore};
ghost use Rattle.sub_replicon.specs.Forms.{index_bytes, replicon_bytes, replicon_len};

use crate::REPLICON;
use marshal_buf::{Buf, Door};
use std::alloc::AllocError;

/// Makes room for an object of so many doors.
pub(crate) fn make_room(number: u32, buf: &mut Buf) -> Result<(), AllocError>
    requires { replicon_len number < 2 ^ 32 }
    ensures bytes { OnOk result (replicon_len number ≤ buf.new.spare) }
    ensures doors { OnOk result (number ≤ buf.new.spare_doors) }
    ensures same { IsAsBefore buf.old buf.new }
{
    buf.reserve(6 + 4 * number)?;
    buf.reserve_doors(number)
}

/// Puts an object of these doors, for which there is room.
pub(crate) fn put_object(doors: &[Door], buf: &mut Buf) -> Result<(), AllocError>
    requires bytes { length buf.old.bytes + replicon_len (length doors.now) < 2 ^ 32 }
    requires doors { length buf.old.doors + length doors.now < 2 ^ 32 }
    requires room { replicon_len (length doors.now) ≤ buf.old.spare }
    requires room_doors { length doors.now ≤ buf.old.spare_doors }
    ensures ok { IsOk result }
    ensures put { Puts (replicon_bytes (length buf.old.doors) (length doors.now)) doors.now buf.old buf.new }
    ensures len { length buf.new.bytes ≡ length buf.old.bytes + replicon_len (length doors.now) }
{
    buf.put_u16(REPLICON)?;
    buf.put_u32(doors.len() as u32)?;
    put_doors(doors, buf)
}

/// Puts the doors, for which there is room.
fn put_doors(doors: &[Door], buf: &mut Buf) -> Result<(), AllocError>
    requires bytes { length buf.old.bytes + 4 * length doors.now < 2 ^ 32 }
    requires doors { length buf.old.doors + length doors.now < 2 ^ 32 }
    requires room { 4 * length doors.now ≤ buf.old.spare }
    requires room_doors { length doors.now ≤ buf.old.spare_doors }
    ensures ok { IsOk result }
    ensures put { Puts (index_bytes (length buf.old.doors) (length doors.now)) doors.now buf.old buf.new }
    ensures len { length buf.new.bytes ≡ length buf.old.bytes + 4 * length doors.now }
{
    for door in doors {
        buf.put_door(*door)?;
    }
    Ok(())
}
