//! A buffer.

ghost use Rattle.std.specs.Prelude.{◌≡◌, ◌+◌, ◌<◌, ◌≤◌, ◌^◌, ◌∷◌, [], IfOk, OnOk, OnErr, IsOk, length};
ghost use Rattle.marshal_buf.specs.Numbers.{number_bytes};
ghost use Rattle.marshal_buf.specs.Counted.{counted};
ghost use Rattle.marshal_buf.specs.Held.{Puts, IsAsBefore};

use crate::door::Door;
use crate::reader::Reader;
use byteorder::{BigEndian, ByteOrder};
use std::alloc::{AllocError, Global};
use std::marker::Model;

/// Bytes and doors, each put behind the ones before. There are at most 4,294,967,295 bytes and as many doors.
/// Each call fails only if memory runs out, and then leaves the bytes and the doors as they were.
#[derive(Debug, Drop)]
pub struct Buf {
    bytes: Vec<u8>,
    doors: Vec<Door>,
}

impl Model for Buf {
    ghost use Rattle.std.specs.Prelude.{◌<◌, ◌-◌, ◌^◌, length, vec_capacity, vec_len};
    ghost use Rattle.marshal_buf.specs.Held.{Held};

    ghost Value = { Held };

    ghost view = { λ b. record { bytes = b.bytes.items; doors = b.doors.items; spare = vec_capacity b.bytes - vec_len b.bytes; spare_doors = vec_capacity b.doors - vec_len b.doors } };

    ghost invariant = { λ b. (vec_len b.bytes < 2 ^ 32) × (vec_len b.doors < 2 ^ 32) };
}

impl Buf {
    /// An empty buffer.
    pub fn new(alloc: Global) -> Buf
        ensures bytes { result.bytes ≡ [] }
        ensures doors { result.doors ≡ [] }
    {
        Buf {
            bytes: Vec::new(alloc),
            doors: Vec::new(alloc),
        }
    }

    /// How many bytes it has.
    pub fn bytes_len(&self) -> u32
        ensures { result ≡ length self.now.bytes }
    {
        self.bytes.len() as u32
    }

    /// How many doors it has.
    pub fn doors_len(&self) -> u32
        ensures { result ≡ length self.now.doors }
    {
        self.doors.len() as u32
    }

    /// Lends its bytes.
    pub fn as_slice(&self) -> &[u8]
        ensures value { result.now ≡ self.now.bytes }
        ensures few { length result.now < 2 ^ 32 }
    {
        &self.bytes
    }

    /// Empties it, and keeps its room.
    pub fn clear(&mut self)
        ensures bytes { self.new.bytes ≡ [] }
        ensures doors { self.new.doors ≡ [] }
        ensures spare { self.old.spare + length self.old.bytes ≤ self.new.spare }
        ensures spare_doors { self.old.spare_doors + length self.old.doors ≤ self.new.spare_doors }
    {
        self.bytes.clear();
        self.doors.clear();
    }

    /// A buffer with equal bytes and doors.
    pub fn copy(&self) -> Result<Buf, AllocError>
        ensures bytes { IfOk result (λ copy. copy.bytes ≡ self.now.bytes) }
        ensures doors { IfOk result (λ copy. copy.doors ≡ self.now.doors) }
    {
        Ok(Buf {
            bytes: self.bytes.clone()?,
            doors: self.doors.clone()?,
        })
    }

    /// Makes room for so many more bytes. It cannot be refused where there is that room.
    pub fn reserve(&mut self, bytes: u32) -> Result<(), AllocError>
        ensures ok { OnOk result (bytes ≤ self.new.spare) }
        ensures room { bytes ≤ self.old.spare → IsOk result }
        ensures same { IsAsBefore self.old self.new }
    {
        self.bytes.reserve(bytes as usize)
    }

    /// Makes room for so many more doors. It cannot be refused where there is that room.
    pub fn reserve_doors(&mut self, doors: u32) -> Result<(), AllocError>
        ensures ok { OnOk result (doors ≤ self.new.spare_doors) }
        ensures room { doors ≤ self.old.spare_doors → IsOk result }
        ensures same { IsAsBefore self.old self.new }
    {
        self.doors.reserve(doors as usize)
    }

    /// Puts bytes. It cannot be refused where there is room for them.
    pub fn put_bytes(&mut self, bytes: &[u8]) -> Result<(), AllocError>
        requires { length self.old.bytes + length bytes.now < 2 ^ 32 }
        ensures ok { OnOk result (Puts bytes.now [] self.old self.new) }
        ensures err { OnErr result (IsAsBefore self.old self.new) }
        ensures room { length bytes.now ≤ self.old.spare → IsOk result }
    {
        self.bytes.extend_from_slice(bytes)
    }

    /// Puts a number of two bytes. It cannot be refused where there is room for them.
    #[tactic(auto, unfolding(crate::specs::Numbers::number_bytes))]
    pub fn put_u16(&mut self, number: u16) -> Result<(), AllocError>
        requires { length self.old.bytes + 2 < 2 ^ 32 }
        ensures ok { OnOk result (Puts (number_bytes 2 number) [] self.old self.new) }
        ensures len { OnOk result (length self.new.bytes ≡ length self.old.bytes + 2) }
        ensures err { OnErr result (IsAsBefore self.old self.new) }
        ensures room { 2 ≤ self.old.spare → IsOk result }
    {
        let mut bytes = [0; 2];
        BigEndian::write_u16(&mut bytes, number);
        self.put_bytes(&bytes)
    }

    /// Puts a number of four bytes. It cannot be refused where there is room for them.
    #[tactic(auto, unfolding(crate::specs::Numbers::number_bytes))]
    pub fn put_u32(&mut self, number: u32) -> Result<(), AllocError>
        requires { length self.old.bytes + 4 < 2 ^ 32 }
        ensures ok { OnOk result (Puts (number_bytes 4 number) [] self.old self.new) }
        ensures len { OnOk result (length self.new.bytes ≡ length self.old.bytes + 4) }
        ensures err { OnErr result (IsAsBefore self.old self.new) }
        ensures room { 4 ≤ self.old.spare → IsOk result }
    {
        let mut bytes = [0; 4];
        BigEndian::write_u32(&mut bytes, number);
        self.put_bytes(&bytes)
    }

    /// Puts a number of eight bytes. It cannot be refused where there is room for them.
    #[tactic(auto, unfolding(crate::specs::Numbers::number_bytes))]
    pub fn put_u64(&mut self, number: u64) -> Result<(), AllocError>
        requires { length self.old.bytes + 8 < 2 ^ 32 }
        ensures ok { OnOk result (Puts (number_bytes 8 number) [] self.old self.new) }
        ensures len { OnOk result (length self.new.bytes ≡ length self.old.bytes + 8) }
        ensures err { OnErr result (IsAsBefore self.old self.new) }
        ensures room { 8 ≤ self.old.spare → IsOk result }
    {
        let mut bytes = [0; 8];
        BigEndian::write_u64(&mut bytes, number);
        self.put_bytes(&bytes)
    }

    /// Puts bytes behind their length, a number of four bytes. It cannot be refused where there is room for both.
    pub fn put_counted(&mut self, bytes: &[u8]) -> Result<(), AllocError>
        requires { length self.old.bytes + 4 + length bytes.now < 2 ^ 32 }
        ensures ok { OnOk result (Puts (counted bytes.now) [] self.old self.new) }
        ensures len { OnOk result (length self.new.bytes ≡ length self.old.bytes + 4 + length bytes.now) }
        ensures err { OnErr result (IsAsBefore self.old self.new) }
        ensures room { 4 + length bytes.now ≤ self.old.spare → IsOk result }
    {
        let len = bytes.len() as u32;
        self.reserve(4 + len)?;
        self.put_u32(len)?;
        self.put_bytes(bytes)
    }

    /// Puts a door, and its index as a number of four bytes: how many doors stand before it. It cannot be
    /// refused where there is room for both.
    pub fn put_door(&mut self, door: Door) -> Result<(), AllocError>
        requires bytes { length self.old.bytes + 4 < 2 ^ 32 }
        requires doors { length self.old.doors + 1 < 2 ^ 32 }
        ensures ok { OnOk result (Puts (number_bytes 4 (length self.old.doors)) (door ∷ []) self.old self.new) }
        ensures len { OnOk result (length self.new.bytes ≡ length self.old.bytes + 4) }
        ensures err { OnErr result (IsAsBefore self.old self.new) }
        ensures room { 4 ≤ self.old.spare → 1 ≤ self.old.spare_doors → IsOk result }
    {
        let index = self.doors.len() as u32;
        self.reserve_doors(1)?;
        self.put_u32(index)?;
        self.add_door(door);
        Ok(())
    }

    /// Reads from the first byte and the first door on.
    pub fn reader(&self) -> Reader<'_>
        ensures input { result.input ≡ self.now.bytes }
        ensures doors { result.doors ≡ self.now.doors }
        ensures at { result.at ≡ 0 }
        ensures next { result.next ≡ 0 }
    {
        Reader::new(&self.bytes, &self.doors)
    }

    fn add_door(&mut self, door: Door)
        requires room { 1 ≤ self.old.spare_doors }
        requires doors { length self.old.doors + 1 < 2 ^ 32 }
        ensures { Puts [] (door ∷ []) self.old self.new }
    {
        self.doors.push_reserved(door);
    }
}
