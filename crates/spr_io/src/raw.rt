//! What a store asks of a file of bytes.

ghost use Rattle.std.specs.Prelude.{◌≡◌, Option, IfOk, OnOk, OnErr, IsErr, length, false};
ghost use Rattle.spr_io.specs.Raw.{FileSeen, ReadsAt, HasBytes, HasLength, Syncs, is_sure, after_write, after_set_len, after_refused};

use crate::outside::Failed;

/// A file of bytes.
///
/// A call that is refused changes no byte. After a sync was refused, one that is done says nothing of what is kept.
pub trait RawFile {
    /// The bytes as they are read and as they are kept, if they are told.
    ghost seen: { Self → Option FileSeen };

    /// Reads bytes from an offset on into the front of `out`, and answers how many.
    ///
    /// It may give fewer than there are, but gives one if there is one and room for it.
    fn read_at(&mut self, offset: u64, out: &mut [u8]) -> Result<usize, Failed>
        ensures bytes { IfOk result (λ count. ReadsAt (seen self.old) offset count out.new) }
        ensures same { seen self.new ≡ seen self.old }
        ensures sure { IsErr result → is_sure (seen self.old) ≡ false };

    /// Writes bytes over those from an offset on: all of them, or none.
    fn write_at(&mut self, offset: u64, bytes: &[u8]) -> Result<(), Failed>
        requires { HasBytes offset (length bytes.now) (seen self.old) }
        ensures ok { OnOk result (seen self.new ≡ after_write offset bytes.now (seen self.old)) }
        ensures err { OnErr result (seen self.new ≡ seen self.old) }
        ensures sure { IsErr result → is_sure (seen self.old) ≡ false };

    /// Cuts the file to a length in bytes, or adds zeros up to it.
    fn set_len(&mut self, len: u64) -> Result<(), Failed>
        ensures ok { OnOk result (seen self.new ≡ after_set_len len (seen self.old)) }
        ensures err { OnErr result (seen self.new ≡ seen self.old) };

    /// How many bytes there are.
    fn len(&self) -> Result<u64, Failed>
        ensures { IfOk result (λ len. HasLength len (seen self.now)) };

    /// Keeps every byte as it is read, unless a sync was refused before.
    fn sync(&mut self) -> Result<(), Failed>
        ensures ok { OnOk result (Syncs (seen self.old) (seen self.new)) }
        ensures err { OnErr result (seen self.new ≡ after_refused (seen self.old)) }
        ensures sure { IsErr result → is_sure (seen self.old) ≡ false };
}
