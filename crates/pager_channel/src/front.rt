//! What stands at the front of a frame.

ghost use Rattle.std.specs.Prelude.{◌≡◌, ◌≤◌};
ghost use Rattle.pager_channel.specs.Flags.{has_data};
ghost use Rattle.pager_channel.specs.Size.{data_size};

use crate::flags::{DATA, has_flag};

/// What stands at the front of a frame, in the order of its 24 bytes, of which the last two are zeros. A number's
/// highest byte comes first.
#[derive(Clone, Copy, Debug, PartialEq, Eq)]
pub struct Head {
    /// The subcontract of the object, from 1 to 5; 2 in the frames of a channel.
    pub subcontract: u16,
    /// The number of the operation in the interface of the object.
    pub operation: u16,
    /// Which file, where the subcontract needs it.
    pub tag: u32,
    /// Where in the file, in bytes from its start.
    pub offset: u64,
    /// How many bytes of the file the frame is about, at most 4,096. Where data follow, they are so many.
    pub size: u32,
    /// The right that the cache has after the message: 0 for none, 1 for reading, 2 for writing.
    pub access: u8,
    /// The flags that are set, added up.
    pub flags: u8,
}

impl Head {
    /// Whether data follow.
    pub fn has_data(&self) -> bool
        ensures { result ≡ has_data self.now.flags }
    {
        has_flag(self.flags, DATA)
    }

    /// How many bytes of data follow.
    pub fn data_size(&self) -> u32
        ensures is { result ≡ data_size self.now }
        ensures most { result ≤ self.now.size }
    {
        if self.has_data() { self.size } else { 0 }
    }
}
