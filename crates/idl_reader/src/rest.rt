//! What is left of a text.

ghost use Rattle.std.specs.Prelude.{◌+◌, ◌<◌, length};

/// What is left of a text.
#[derive(Clone, Copy, Debug)]
pub struct Rest<'a> {
    /// Where it begins in the text, in bytes.
    pub place: u32,
    /// The bytes from there on.
    pub bytes: &'a [u8],
    ghost fits: { place + length bytes.now < 4294967296 },
}
