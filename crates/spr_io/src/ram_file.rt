//! A file in memory, which tells all.

ghost use Rattle.std.specs.Prelude.{◌≡◌, ◌<◌, ◌≤◌, ◌&&◌, ◌==◌, IfOk, Some, length, false};
ghost use Rattle.spr_io.specs.Raw.{Gives};

use crate::ordinals::Calls;
use crate::outside::Failed;
use crate::raw::RawFile;
use std::alloc::{AllocError, Global};

/// A file in memory, of one length.
///
/// After a sync was refused it keeps nothing new, though its later syncs answer Ok.
#[derive(Debug, Drop)]
pub struct RamFile {
    bytes: Vec<u8>,
    synced: Vec<u8>,
    /// The most bytes that a read gives.
    most: usize,
    reads: Calls,
    writes: Calls,
    syncs: Calls,
    failed: bool,
    ghost one_length: { length bytes.items ≡ length synced.items },
    ghost some: { 0 < most },
}

impl RamFile {
    /// A file of these bytes, all of them synced, of which a read gives at most `most`; the lists are the ordinals of the
    /// calls that are to fail, counted from 1.
    pub fn new(
        alloc: Global,
        bytes: &[u8],
        most: usize,
        reads: &[u64],
        writes: &[u64],
        syncs: &[u64],
    ) -> Result<RamFile, AllocError>
        requires { 0 < most }
        ensures bytes { IfOk result (λ f. (f.bytes.items ≡ bytes.now) × (f.synced.items ≡ bytes.now)) }
        ensures fresh { IfOk result (λ f. f.failed ≡ false) }
    {
        Ok(RamFile {
            bytes: Vec::from_slice(alloc, bytes)?,
            synced: Vec::from_slice(alloc, bytes)?,
            most,
            reads: Calls::new(alloc, reads)?,
            writes: Calls::new(alloc, writes)?,
            syncs: Calls::new(alloc, syncs)?,
            failed: false,
        })
    }
}

/// Copies bytes from an offset on into the front of `out`, at most `most`, and answers how many.
fn copy_some(bytes: &[u8], offset: u64, most: usize, out: &mut [u8]) -> usize
    requires { 0 < most }
    ensures within { result ≤ length out.new }
    ensures gives { Gives bytes.now offset result out.new }
{
    let len = bytes.len();
    if offset >= len as u64 {
        return 0;
    }
    let start = offset as usize;
    let count = most.min(out.len()).min(len - start);
    out[..count].copy_from_slice(&bytes[start..start + count]);
    count
}

impl RawFile for RamFile {
    ghost seen = { λ s. Some (record { bytes = s.bytes.items; synced = s.synced.items; failed = s.failed; sure = (length s.reads.failing == 0) && ((length s.writes.failing == 0) && (length s.syncs.failing == 0)) }) };

    fn read_at(&mut self, offset: u64, out: &mut [u8]) -> Result<usize, Failed> {
        if self.reads.next_fails() {
            return Err(Failed);
        }
        Ok(copy_some(&self.bytes, offset, self.most, out))
    }

    fn write_at(&mut self, offset: u64, bytes: &[u8]) -> Result<(), Failed> {
        if self.writes.next_fails() {
            return Err(Failed);
        }
        let start = offset as usize;
        self.bytes[start..start + bytes.len()].copy_from_slice(bytes);
        Ok(())
    }

    /// Is refused unless the file has this length.
    fn set_len(&mut self, len: u64) -> Result<(), Failed> {
        if self.bytes.len() as u64 == len {
            Ok(())
        } else {
            Err(Failed)
        }
    }

    fn len(&self) -> Result<u64, Failed> {
        Ok(self.bytes.len() as u64)
    }

    fn sync(&mut self) -> Result<(), Failed> {
        if self.syncs.next_fails() {
            self.failed = true;
            return Err(Failed);
        }
        if !self.failed {
            self.synced.copy_from_slice(&self.bytes);
        }
        Ok(())
    }
}
