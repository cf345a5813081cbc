//! Reading what the bytes of a replicon object say, without memory.

ghost use Rattle.std.specs.Prelude.{Some, slice_get, ◌≡◌, ◌≤◌, ◌==◌, ◌*◌, ◌++◌, ◌∷◌, [], Ok, Err, IfOk, IfErr, OnOk, OnErr, MatchResult, true, length};
ghost use Rattle.marshal_buf.specs.Numbers.{number_bytes};
ghost use Rattle.marshal_buf.specs.Reading.{number_at, door_at, past, Takes};
ghost use Rattle.sub_replicon.specs.Replicas.{AreReplicas, AreOfOneFile};
ghost use Rattle.sub_replicon.specs.Forms.{doors_bytes, index_bytes};
ghost use Rattle.sub_replicon.specs.Doors.{TakesDoors, may_follow, with_door, doors_at, may_have, replicas_at};

use crate::MAX_DOORS;
use crate::doors::DoorList;
use crate::replicas::{may_follow, may_have};
use marshal_buf::{Door, Reader};

/// Takes what the bytes behind an identifier say: the number of doors, and the doors, of one file. An error is the byte at which a
/// part cannot stand, from the input's start, the first such part; the length of the whole input where bytes are missing. It
/// leaves the reader as it was.
pub fn read_doors(from: &mut Reader<'_>) -> Result<DoorList, u32>
    ensures value { result ≡ replicas_at from.old }
    ensures of { IfOk result AreReplicas }
    ensures taken { IfOk result (λ doors. Takes (doors_bytes from.old.next (length doors)) (length doors) from.old from.new) }
    ensures there { IfOk result (λ doors. TakesDoors doors from.old from.new) }
    ensures err { OnErr result (from.new ≡ from.old) }
{
    let mut ahead = from.copy();
    let number = read_number(&mut ahead)?;
    let doors = read_so_many(number, &mut ahead)?;
    *from = ahead;
    Ok(doors)
}

/// Takes the number of doors. A refused call may leave the reader behind it.
fn read_number(from: &mut Reader<'_>) -> Result<u32, u32>
    ensures ok { IfOk result (λ number. number_at 4 from.old ≡ Ok number) }
    ensures may { IfOk result (λ number. may_have number ≡ true) }
    ensures why { IfErr result (λ at. replicas_at from.old ≡ Err at) }
    ensures taken { IfOk result (λ number. Takes (number_bytes 4 number) 0 from.old from.new) }
    ensures place { OnOk result (from.new ≡ past 4 0 from.old) }
{
    let at = from.at();
    match from.get_u32() {
        Err(short) => Err(short.at),
        Ok(number) => {
            if may_have(number) {
                Ok(number)
            } else {
                Err(at)
            }
        }
    }
}

/// Takes so many doors. A refused call may leave the reader behind some of them.
fn read_so_many(number: u32, from: &mut Reader<'_>) -> Result<DoorList, u32>
    requires { number ≤ MAX_DOORS }
    ensures value { result ≡ doors_at number from.old }
    ensures len { IfOk result (λ doors. length doors ≡ number) }
    ensures one_file { IfOk result AreOfOneFile }
    ensures taken { IfOk result (λ doors. Takes (index_bytes from.old.next number) number from.old from.new) }
    ensures there { IfOk result (λ doors. TakesDoors doors from.old from.new) }
{
    let mut doors = DoorList::new();
    for _ in 0..number {
        let door = read_door(doors.as_slice(), from)?;
        doors.push(door);
    }
    Ok(doors)
}

/// Takes a door that stands behind these. A refused call may leave the reader behind it.
#[tactic(auto, using(crate::proofs::DoorLaws::door_there))]
fn read_door(doors: &[Door], from: &mut Reader<'_>) -> Result<Door, u32>
    ensures ok { IfOk result (λ door. with_door from.old.at doors.now (door_at from.old) ≡ Ok (doors.now ++ door ∷ [])) }
    ensures may { IfOk result (λ door. may_follow doors.now door ≡ true) }
    ensures there { IfOk result (λ door. slice_get from.old.doors from.old.next ≡ Some door) }
    ensures why { IfErr result (λ at. with_door from.old.at doors.now (door_at from.old) ≡ Err at) }
    ensures taken { OnOk result (Takes (number_bytes 4 from.old.next) 1 from.old from.new) }
    ensures place { OnOk result (from.new ≡ past 4 1 from.old) }
{
    let at = from.at();
    match from.get_door() {
        Err(bad) => Err(bad.at),
        Ok(door) => {
            if may_follow(doors, door) {
                Ok(door)
            } else {
                Err(at)
            }
        }
    }
}
