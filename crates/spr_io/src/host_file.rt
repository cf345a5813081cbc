//! A file of the host.
//!
//! It is the trusted edge: it tells nothing of what the file holds, so that nothing here proves that the host does what
//! the trait says.

ghost use Rattle.std.specs.Prelude.{None};

use crate::outside::Failed;
use crate::raw::RawFile;
use std::fs::File;
use std::os::unix::fs::FileExt;

/// An open file of the host.
#[derive(Drop)]
pub struct HostFile {
    file: File,
}

impl HostFile {
    /// The file that is open here.
    pub fn new(file: File) -> HostFile {
        HostFile { file }
    }
}

/// What the host answered, where it answers with nothing.
fn done<E: Drop>(answer: Result<(), E>) -> Result<(), Failed> {
    match answer {
        Ok(()) => Ok(()),
        Err(_) => Err(Failed),
    }
}

impl RawFile for HostFile {
    ghost seen = { λ _. None };

    fn read_at(&mut self, offset: u64, out: &mut [u8]) -> Result<usize, Failed> {
        match self.file.read_exact_at(out, offset) {
            Ok(()) => Ok(out.len()),
            Err(_) => Err(Failed),
        }
    }

    fn write_at(&mut self, offset: u64, bytes: &[u8]) -> Result<(), Failed> {
        done(self.file.write_all_at(bytes, offset))
    }

    fn set_len(&mut self, len: u64) -> Result<(), Failed> {
        done(self.file.set_len(len))
    }

    fn len(&self) -> Result<u64, Failed> {
        match self.file.metadata() {
            Ok(found) => Ok(found.len()),
            Err(_) => Err(Failed),
        }
    }

    fn sync(&mut self) -> Result<(), Failed> {
        done(self.file.sync_all())
    }
}
