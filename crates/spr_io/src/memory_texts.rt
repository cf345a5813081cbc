//! Texts and a sink in memory.

ghost use Rattle.std.specs.Prelude.{◌≡◌, ◌<◌, ◌≤◌, ◌+◌, ◌++◌, ◌↔◌, [], ℕ, List, IsTrue, IfOk, OnOk, OnErr, IsErr, is_err, length, min, take, find, position, true, false, Some, None};
ghost use Rattle.std.specs.Option.{option_copied};
ghost use Rattle.spr_io.specs.Causes.{Rose, HasCause};
ghost use Rattle.spr_io.specs.Calls.{is_next_to_fail, one_more, no_calls, one_fault};
ghost use Rattle.spr_io.specs.Texts.{Appends};
ghost use Rattle.spr_io.specs.MemoryTexts.{is_named, text_in, text_of, read_fails, after_read};

use crate::ordinals::{Calls, count_fault};
use crate::outside::{Failed, Shelf, ShelfErr, Sink};
use std::alloc::{AllocError, Global};
use std::marker::Model;

/// A text and its name.
#[derive(Debug, Drop)]
struct Named {
    name: String,
    text: Vec<u8>,
}

impl Model for Named {
    ghost use Rattle.std.specs.Prelude.{string_bytes};
    ghost use Rattle.spr_io.specs.MemoryTexts.{NamedText};

    ghost Value = { NamedText };

    ghost view = { λ t. record { name = string_bytes t.name; text = t.text.items } };
}

impl Named {
    fn is_named(&self, name: &str) -> bool
        ensures { result ≡ is_named name.now self.now }
    {
        self.name.as_str() == name
    }

    fn text(&self) -> &[u8]
        ensures { result.now ≡ self.now.text }
    {
        &self.text
    }

    fn set(&mut self, text: Vec<u8>)
        ensures { self.new ≡ record self.old { text = text.items } }
    {
        self.text = text;
    }
}

/// Where the text `name` stands.
fn place_of(texts: &[Named], name: &str) -> Option<usize>
    ensures { result ≡ position (is_named name.now) texts.now }
{
    texts.iter().position(|t| t.is_named(name))
}

/// The text `name`.
fn find_text<'a>(texts: &'a [Named], name: &str) -> Option<&'a Named>
    ensures { option_copied result ≡ find (is_named name.now) texts.now }
{
    texts.iter().find(|t| t.is_named(name))
}

/// Texts in memory.
#[derive(Debug, Drop)]
pub struct MemShelf {
    texts: Vec<Named>,
    reads: Calls,
    faults: u64,
}

impl Model for MemShelf {
    ghost use Rattle.spr_io.specs.MemoryTexts.{Texts};

    ghost Value = { Texts };

    ghost view = { λ s. record { texts = s.texts.items; reads = s.reads; faults = s.faults } };
}

impl MemShelf {
    /// A shelf with no text; `reads` are the ordinals of the reads that are to fail, counted from 1.
    pub fn new(alloc: Global, reads: &[u64]) -> Result<MemShelf, AllocError>
        ensures { IfOk result (λ shelf. shelf ≡ record { texts = []; reads = no_calls reads.now; faults = 0 }) }
    {
        Ok(MemShelf {
            texts: Vec::new(alloc),
            reads: Calls::new(alloc, reads)?,
            faults: 0,
        })
    }

    /// Sets the text `name`.
    pub fn put(&mut self, alloc: Global, name: &str, text: &[u8]) -> Result<(), AllocError>
        ensures set { OnOk result (text_of self.new name.now ≡ Some text.now) }
        ensures others { OnOk result ((other : List ℕ) → (other ≡ name.now → ⊥) → text_of self.new other ≡ text_of self.old other) }
        ensures same { (self.new.reads ≡ self.old.reads) × (self.new.faults ≡ self.old.faults) }
        ensures err { OnErr result (self.new ≡ self.old) }
    {
        let text = Vec::from_slice(alloc, text)?;
        match place_of(&self.texts, name) {
            Some(at) => {
                let place = &mut self.texts[at];
                place.set(text);
            }
            None => {
                let name = String::from_str(alloc, name)?;
                self.texts.push(Named { name, text })?;
            }
        }
        Ok(())
    }
}

impl Shelf for MemShelf {
    ghost told = { λ s. record { texts = λ name. Some (text_of s name); faults = s.faults } };

    fn read(&mut self, name: &str, limit: u32, out: &mut Vec<u8>) -> Result<(), ShelfErr>
        ensures failed { result ≡ Err ShelfErr.Failed ↔ IsTrue (read_fails self.old name.now limit) }
        ensures after { self.new ≡ after_read name.now limit self.old }
        ensures ok { OnOk result (Appends (Some (text_of self.old name.now)) limit out.old.items out.new.items) }
        ensures err { OnErr result (out.new.items ≡ out.old.items) }
        ensures before { take (length out.old.items) out.new.items ≡ out.old.items }
        ensures cause { HasCause self.old.faults self.new.faults (result ≡ Err ShelfErr.Failed) }
        ensures calm { OnOk result (self.new.faults ≡ self.old.faults) }
        ensures memory { result ≡ Err ShelfErr.Memory → self.new.faults ≡ self.old.faults }
    {
        let fails = self.reads.next_fails();
        match find_text(&self.texts, name) {
            Some(found) if !fails && found.text().len() <= limit as usize => {
                match out.extend_from_slice(found.text()) {
                    Ok(()) => Ok(()),
                    Err(AllocError) => Err(ShelfErr::Memory),
                }
            }
            _ => {
                count_fault(&mut self.faults);
                Err(ShelfErr::Failed)
            }
        }
    }
}

/// A sink in memory, which takes some bytes at a write.
#[derive(Debug, Drop)]
pub struct MemSink {
    bytes: Vec<u8>,
    most: u32,
    writes: Calls,
    faults: u64,
}

impl Model for MemSink {
    ghost use Rattle.std.specs.Prelude.{◌<◌, vec_capacity};
    ghost use Rattle.spr_io.specs.MemoryTexts.{Written};

    ghost Value = { Written };

    ghost view = { λ s. record { bytes = s.bytes.items; most = s.most; writes = s.writes; faults = s.faults; room = vec_capacity s.bytes } };

    ghost invariant = { λ s. 0 < s.most };
}

impl MemSink {
    /// An empty sink that takes at most `most` bytes at a write; `writes` are the ordinals of the writes that are to
    /// fail, counted from 1.
    pub fn new(alloc: Global, most: u32, writes: &[u64]) -> Result<MemSink, AllocError>
        requires { 0 < most }
        ensures { IfOk result (λ sink. (sink.bytes ≡ []) × (sink.most ≡ most) × (sink.writes ≡ no_calls writes.now) × (sink.faults ≡ 0)) }
    {
        Ok(MemSink {
            bytes: Vec::new(alloc),
            most,
            writes: Calls::new(alloc, writes)?,
            faults: 0,
        })
    }

    /// The bytes written.
    pub fn bytes(&self) -> &[u8]
        ensures { result.now ≡ self.now.bytes }
    {
        &self.bytes
    }
}

impl Sink for MemSink {
    ghost told = { λ s. record { written = Some s.bytes; faults = s.faults } };

    fn write(&mut self, bytes: &[u8]) -> Result<usize, Failed>
        ensures ok { IfOk result (λ n. (n ≡ min (length bytes.now) self.old.most) × (self.new.bytes ≡ self.old.bytes ++ take n bytes.now) × (self.new.faults ≡ self.old.faults)) }
        ensures err { OnErr result ((self.new.bytes ≡ self.old.bytes) × (self.new.faults ≡ one_fault self.old.faults)) }
        ensures fails { is_next_to_fail self.old.writes ≡ true → IsErr result }
        ensures memory { is_next_to_fail self.old.writes ≡ false → OnErr result (self.old.room < length self.old.bytes + min (length bytes.now) self.old.most) }
        ensures calls { self.new.writes ≡ one_more self.old.writes }
        ensures same { (self.new.most ≡ self.old.most) × (self.old.room ≤ self.new.room) }
        ensures cause { HasCause self.old.faults self.new.faults (IsErr result) }
        ensures nothing { result ≡ Ok 0 → 0 < length bytes.now → Rose self.old.faults self.new.faults }
        ensures calm { IfOk result (λ n. 0 < n → self.new.faults ≡ self.old.faults) }
    {
        let count = bytes.len().min(self.most as usize);
        let fails = self.writes.next_fails();
        if fails || self.bytes.extend_from_slice(&bytes[..count]).is_err() {
            count_fault(&mut self.faults);
            return Err(Failed);
        }
        Ok(count)
    }
}
