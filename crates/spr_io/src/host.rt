//! The host's files, and its standard output.
//!
//! They are the trusted edge: they tell nothing of what a text holds.

ghost use Rattle.std.specs.Prelude.{◌≡◌, ◌+◌, IfOk, None, length, take};

use crate::ordinals::count_fault;
use crate::outside::{Failed, Shelf, ShelfErr, Sink};
use std::io::{ErrorKind, Read};
use std::rt::Files;
use std::{fs, io};

/// The texts in the host's files; a name is a path.
#[derive(Drop)]
pub struct HostShelf<R> {
    rt: R,
    faults: u64,
}

impl<R: Files + Drop> HostShelf<R> {
    /// The files that a runtime reaches.
    pub fn new(rt: R) -> HostShelf<R>
        ensures { result.faults ≡ 0 }
    {
        HostShelf { rt, faults: 0 }
    }

    /// Appends at most one byte more than the limit, and answers how many bytes were appended.
    fn append(&self, name: &str, limit: u32, out: &mut Vec<u8>) -> io::Result<usize>
        ensures count { IfOk result (λ n. length out.new.items ≡ length out.old.items + n) }
        ensures before { take (length out.old.items) out.new.items ≡ out.old.items }
    {
        let file = fs::open(&self.rt, name)?;
        file.take(u64::from(limit) + 1).read_to_end(out)
    }
}

impl<R: Files + Drop> Shelf for HostShelf<R> {
    ghost told = { λ s. record { texts = λ _. None; faults = s.faults } };

    fn read(&mut self, name: &str, limit: u32, out: &mut Vec<u8>) -> Result<(), ShelfErr> {
        match self.append(name, limit, out) {
            Ok(count) if count <= limit as usize => return Ok(()),
            Err(e) if e.kind() == ErrorKind::OutOfMemory => return Err(ShelfErr::Memory),
            _ => {}
        }
        count_fault(&mut self.faults);
        Err(ShelfErr::Failed)
    }
}

/// The standard output.
#[derive(Drop)]
pub struct StdSink<R> {
    rt: R,
    faults: u64,
}

impl<R: Print + Drop> StdSink<R> {
    /// What a runtime prints to.
    pub fn new(rt: R) -> StdSink<R>
        ensures { result.faults ≡ 0 }
    {
        StdSink { rt, faults: 0 }
    }
}

impl<R: Print + Drop> Sink for StdSink<R> {
    ghost told = { λ s. record { written = None; faults = s.faults } };

    fn write(&mut self, bytes: &[u8]) -> Result<usize, Failed> {
        match self.rt.write_some(bytes) {
            Ok(count) if count > 0 || bytes.is_empty() => return Ok(count),
            _ => {}
        }
        count_fault(&mut self.faults);
        Err(Failed)
    }
}
