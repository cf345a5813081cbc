//! The flags of a head.

ghost use Rattle.std.specs.Prelude.{◌≡◌};
ghost use Rattle.pager_channel.specs.Flags.{flag};

/// Data follow the head.
pub const DATA: u8 = 1;

/// The frame answers another.
pub const REPLY: u8 = 2;

/// The frame is about an operation of the cache object.
pub const TO_CACHE: u8 = 4;

/// The frame is about an operation of the file object. With neither this flag nor [`TO_CACHE`] it is about one of the
/// pager object.
pub const TO_FILE: u8 = 8;

/// Whether the flags have this one.
pub(crate) fn has_flag(flags: u8, bit: u8) -> bool
    ensures { result ≡ flag bit flags }
{
    flags & bit != 0
}
