//! Buffers: what is put into one, and what is read of it again.

use crate::say::{bytes_of, count_of, door_of, say_door, say_hex, short_of, small_of};
use marshal_buf::{Buf, Reader};
use std::alloc::{AllocError, Global};
use trial_words::say;

/// More bytes than any buffer of a case has.
const MOST: u32 = 10_000;

/// The buffer of a case.
#[derive(Drop)]
pub struct Buffer {
    buf: Buf,
}

impl Buffer {
    /// An empty buffer.
    pub fn new(alloc: Global) -> Self {
        Buffer {
            buf: Buf::new(alloc),
        }
    }

    /// `buffer CALL ..`
    pub fn step(
        &mut self,
        alloc: Global,
        words: &[&str],
        answer: &mut String,
    ) -> Result<(), AllocError> {
        if self.buf.bytes_len() > MOST || self.buf.doors_len() > MOST {
            return say(answer, "impossible");
        }
        match words {
            ["u16", number] => self.buf.put_u16(short_of(number)),
            ["u32", number] => self.buf.put_u32(small_of(number)),
            ["u64", number] => self.buf.put_u64(count_of(number)),
            ["door", door] => self.buf.put_door(door_of(door)),
            ["bytes", word] => self.put(alloc, word, answer),
            ["counted", word] => self.put_counted(alloc, word, answer),
            ["raw", word] => {
                self.buf.clear();
                self.put(alloc, word, answer)
            }
            ["reserve", bytes] => self.buf.reserve(small_of(bytes)),
            ["reserve-doors", doors] => self.buf.reserve_doors(small_of(doors)),
            ["clear"] => {
                self.buf.clear();
                Ok(())
            }
            ["copy"] => {
                self.buf = self.buf.copy()?;
                Ok(())
            }
            ["show"] => self.show(answer),
            ["read", calls @ ..] => read(&self.buf, calls, answer),
            _ => say(answer, "no such step"),
        }
    }

    /// Puts the bytes of a word.
    fn put(&mut self, alloc: Global, word: &str, answer: &mut String) -> Result<(), AllocError> {
        let bytes = bytes_of(alloc, word)?;
        if bytes.len() > 10_000 || self.buf.bytes_len() > MOST {
            return say(answer, "impossible");
        }
        self.buf.put_bytes(&bytes)
    }

    /// Puts the bytes of a word behind their length.
    fn put_counted(
        &mut self,
        alloc: Global,
        word: &str,
        answer: &mut String,
    ) -> Result<(), AllocError> {
        let bytes = bytes_of(alloc, word)?;
        if bytes.len() > 10_000 || self.buf.bytes_len() > MOST {
            return say(answer, "impossible");
        }
        self.buf.put_counted(&bytes)
    }

    /// What the buffer has.
    fn show(&self, answer: &mut String) -> Result<(), AllocError> {
        let (bytes, doors) = (self.buf.bytes_len(), self.buf.doors_len());
        writeln!(answer, "{bytes} bytes, {doors} doors")?;
        say_hex(answer, self.buf.as_slice())
    }
}

/// Reads, up to the first refusal, and tells where the reader then stands. `keep` keeps a copy of the reader, and `again` goes on
/// with a copy of the kept one.
fn read(buf: &Buf, calls: &[&str], answer: &mut String) -> Result<(), AllocError> {
    let mut reader = buf.reader();
    let mut kept = reader.copy();
    for call in calls {
        match *call {
            "keep" => kept = reader.copy(),
            "again" => reader = kept.copy(),
            call => {
                if !read_one(&mut reader, call, answer)? {
                    break;
                }
            }
        }
    }
    let at = reader.at();
    writeln!(answer, "stands at {at}")
}

/// Reads a part, and answers whether it is there.
fn read_one(reader: &mut Reader<'_>, call: &str, answer: &mut String) -> Result<bool, AllocError> {
    match call {
        "u16" => match reader.get_u16() {
            Ok(number) => writeln!(answer, "{number}")?,
            Err(short) => return refused(answer, short),
        },
        "u32" => match reader.get_u32() {
            Ok(number) => writeln!(answer, "{number}")?,
            Err(short) => return refused(answer, short),
        },
        "u64" => match reader.get_u64() {
            Ok(number) => writeln!(answer, "{number}")?,
            Err(short) => return refused(answer, short),
        },
        "door" => match reader.get_door() {
            Ok(door) => say_door(answer, door)?,
            Err(bad) => return refused(answer, bad),
        },
        "counted" => match reader.get_counted() {
            Ok(bytes) => say_hex(answer, bytes)?,
            Err(short) => return refused(answer, short),
        },
        "rest" => say_hex(answer, reader.rest())?,
        _ => return read_part(reader, call, answer),
    }
    Ok(true)
}

/// Reads so many bytes as stand behind `part:`.
fn read_part(reader: &mut Reader<'_>, call: &str, answer: &mut String) -> Result<bool, AllocError> {
    let Some(len) = call.strip_prefix("part:") else {
        say(answer, "no such read")?;
        return Ok(false);
    };
    match reader.get_part(small_of(len)) {
        Ok(part) => say_hex(answer, part)?,
        Err(short) => return refused(answer, short),
    }
    Ok(true)
}

/// Tells a refusal.
fn refused<E: std::fmt::Display + Drop>(answer: &mut String, why: E) -> Result<bool, AllocError> {
    writeln!(answer, "{why}")?;
    Ok(false)
}
