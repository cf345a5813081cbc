//! How much room a value needs.

ghost use Rattle.std.specs.Prelude.{◌≡◌, ◌≤◌, ◌+◌, ◌^◌, length, min};
ghost use Rattle.marshal_value.specs.Tree.{tree_of, trees_of};
ghost use Rattle.marshal_value.specs.Spelling.{size_of, size_of_all, doors_of, doors_of_all};

use crate::value::Value;

/// More than any buffer has of bytes, or of doors.
const TOO_MANY: u64 = 4_294_967_296;

/// The room that a value needs in a buffer; each number stands at 4,294,967,296 where it would be more.
#[derive(Clone, Copy, Debug)]
pub(crate) struct Room {
    /// For so many bytes.
    pub bytes: u64,
    /// For so many doors.
    pub doors: u64,
}

impl Room {
    fn new(bytes: u64, doors: u64) -> Room
        ensures bytes { result.bytes ≡ min bytes (2 ^ 32) }
        ensures doors { result.doors ≡ min doors (2 ^ 32) }
    {
        Room {
            bytes: bytes.min(TOO_MANY),
            doors: doors.min(TOO_MANY),
        }
    }

    fn plus(self, other: Room) -> Room
        requires bytes { (self.bytes ≤ 2 ^ 32) × (other.bytes ≤ 2 ^ 32) }
        requires doors { (self.doors ≤ 2 ^ 32) × (other.doors ≤ 2 ^ 32) }
        ensures bytes { result.bytes ≡ min (self.bytes + other.bytes) (2 ^ 32) }
        ensures doors { result.doors ≡ min (self.doors + other.doors) (2 ^ 32) }
    {
        Room::new(self.bytes + other.bytes, self.doors + other.doors)
    }
}

/// The room for a length or a count, and so many bytes.
fn counted(len: usize) -> Room
    ensures bytes { result.bytes ≡ min (4 + len) (2 ^ 32) }
    ensures doors { result.doors ≡ 0 }
{
    Room::new(4, 0).plus(Room::new(len as u64, 0))
}

/// The room that a value needs.
#[cycle(rooms)]
pub(crate) fn room_of(value: &Value) -> Room
    ensures bytes { result.bytes ≡ min (size_of (tree_of value.now)) (2 ^ 32) }
    ensures doors { result.doors ≡ min (length (doors_of (tree_of value.now))) (2 ^ 32) }
{
    match value {
        Value::Bool { .. } | Value::U8 { .. } => Room::new(1, 0),
        Value::U32 { .. } | Value::Enum { .. } => Room::new(4, 0),
        Value::U64 { .. } => Room::new(8, 0),
        Value::Str { v } => counted(v.as_str().len()),
        Value::Bytes { v } => counted(v.as_slice().len()),
        Value::Sequence { items } => Room::new(4, 0).plus(room_of_all(items)),
        Value::Struct { fields } => room_of_all(fields),
        Value::Reference { .. } => Room::new(4, 1),
    }
}

#[cycle(rooms)]
fn room_of_all(values: &[Value]) -> Room
    ensures bytes { result.bytes ≡ min (size_of_all (trees_of values.now)) (2 ^ 32) }
    ensures doors { result.doors ≡ min (length (doors_of_all (trees_of values.now))) (2 ^ 32) }
{
    let mut all = Room::new(0, 0);
    for value in values {
        all = all.plus(room_of(value));
    }
    all
}
