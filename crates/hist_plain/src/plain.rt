//! The plain file, which keeps all its bytes in one list.

ghost use Rattle.hist_plain.specs.declared.TheConstants.{MAX_EVENTS};
ghost use Rattle.std.specs.Prelude.{◌≡◌, ◌+◌, ◌<◌, ◌≤◌, ◌^◌, IfOk, Option, Some, None, All, length, replicate, slice_index, []};
ghost use Rattle.std.specs.Option.{option_map};
ghost use Rattle.hist_plain.specs.Plain.{IsTree, IsPageSize, HasPages, is_within, lives_from, bytes_at, overwritten, place_of, bytes_after, applied, answered, counts, changed, told, reply, IsInFile, Suits, asked_by, asked_len, fresh};

use crate::event::{Answer, Event, Op};
use std::alloc::{AllocError, Global};
use std::marker::Model;

/// A file as one list of bytes, and a life for each node.
#[derive(Drop)]
pub struct Plain {
    page_size: u32,
    parents: Vec<u32>,
    bytes: Vec<u8>,
    lives: Vec<u32>,
    len: u64,
}

impl Model for Plain {
    ghost use Rattle.hist_plain.specs.File.{Counted};

    ghost Value = { Counted };

    ghost use Rattle.hist_plain.specs.PlainView.{counted, IsWithinLimits};

    ghost view = { counted };

    ghost invariant = { IsWithinLimits };
}

impl Plain {
    /// The file of these bytes, with no event yet, over a tree in which node k has the parent
    /// `parents[k]`. An error is want of memory.
    pub fn new(
        alloc: Global,
        page_size: u32,
        parents: &[u32],
        image: &[u8],
    ) -> Result<Plain, AllocError>
        requires tree { IsTree parents.now }
        requires size { IsPageSize page_size }
        requires pages { HasPages page_size image.now }
        ensures shape { IfOk result (λ p. p.shape ≡ record { page_size = page_size; parents = parents.now }) }
        ensures file { IfOk result (λ p. p.file ≡ fresh parents.now image.now) }
        ensures len { IfOk result (λ p. p.len ≡ 0) }
    {
        Ok(Plain {
            page_size,
            parents: Vec::from_slice(alloc, parents)?,
            bytes: Vec::from_slice(alloc, image)?,
            lives: vec![in alloc; 0; parents.len()]?,
            len: 0,
        })
    }

    /// The size of a page, in bytes.
    pub fn page_size(&self) -> u32
        ensures { result ≡ self.now.shape.page_size }
    {
        self.page_size
    }

    /// How many events it has taken.
    pub fn len(&self) -> u64
        ensures { result ≡ self.now.len }
    {
        self.len
    }

    /// All bytes as they are now.
    pub fn bytes(&self) -> &[u8]
        ensures { result.now ≡ self.now.file.bytes }
    {
        &self.bytes
    }

    /// Takes one event, and answers it; a page message has no answer. The bytes of a read are put in `out`,
    /// which has room for just these.
    pub fn apply(&mut self, event: &Event, out: &mut [u8]) -> Option<Answer>
        requires suits { Suits self.old.shape self.old.file event.now }
        requires room { self.old.len < MAX_EVENTS }
        requires out { length out.old ≡ asked_len event.now }
        ensures answer { result ≡ option_map (λ told. told.answer) (reply self.old.shape self.old.file event.now) }
        ensures bytes { result ≡ Some Answer.Bytes → option_map (λ told. told.bytes) (reply self.old.shape self.old.file event.now) ≡ Some out.new }
        ensures file { self.new.file ≡ applied self.old.shape self.old.file event.now }
        ensures shape { self.new.shape ≡ self.old.shape }
        ensures len { self.new.len ≡ self.old.len + 1 }
    {
        self.len += 1;
        match event {
            Event::Access { node, life, op, .. } => {
                let now = self.lives[*node as usize];
                Some(access(self.page_size, &mut self.bytes, now, *life, op, out))
            }
            Event::DestroyCache { node, .. } => {
                raise(&self.parents, *node, &mut self.lives);
                Some(Answer::Done)
            }
            Event::DonePager { .. } | Event::Synced { .. } => Some(Answer::Done),
            _ => None,
        }
    }
}

/// Answers an access whose node has the life `now`.
fn access(page_size: u32, bytes: &mut [u8], now: u32, life: u32, op: &Op, out: &mut [u8]) -> Answer
    requires in_file { IsInFile page_size bytes.old op.now }
    requires out { length out.old ≡ asked_by op.now }
    ensures answer { result ≡ (told page_size now life op.now bytes.old).answer }
    ensures told { result ≡ Answer.Bytes → (told page_size now life op.now bytes.old).bytes ≡ out.new }
    ensures bytes { bytes.new ≡ bytes_after page_size now life op.now bytes.old }
{
    if !is_current(op, life, now) {
        return Answer::Revoked { life: now };
    }
    effect(page_size, bytes, now, op, out)
}

/// Whether an access of this life counts.
fn is_current(op: &Op, life: u32, now: u32) -> bool
    ensures { result ≡ counts now life op.now }
{
    match op {
        Op::Open => true,
        Op::Read { .. } | Op::Write { .. } | Op::Clear { .. } => life == now,
    }
}

/// Does what an access that counts does.
fn effect(page_size: u32, bytes: &mut [u8], now: u32, op: &Op, out: &mut [u8]) -> Answer
    requires in_file { IsInFile page_size bytes.old op.now }
    requires out { length out.old ≡ asked_by op.now }
    ensures answer { result ≡ (answered page_size now op.now bytes.old).answer }
    ensures told { result ≡ Answer.Bytes → (answered page_size now op.now bytes.old).bytes ≡ out.new }
    ensures bytes { bytes.new ≡ changed page_size op.now bytes.old }
{
    match op {
        Op::Open => Answer::Life { life: now },
        Op::Read { page, off, .. } => {
            read_at(bytes, place(page_size, *page, *off), out);
            Answer::Bytes
        }
        Op::Write {
            page,
            off,
            bytes: new,
        } => {
            write_at(bytes, place(page_size, *page, *off), new.as_slice());
            Answer::Done
        }
        Op::Clear { page } => {
            clear_at(bytes, place(page_size, *page, 0), page_size as usize);
            Answer::Done
        }
    }
}

fn place(page_size: u32, page: u32, off: u32) -> usize
    ensures { result ≡ place_of page_size page off }
{
    page as usize * page_size as usize + off as usize
}

fn read_at(bytes: &[u8], place: usize, out: &mut [u8])
    requires { place + length out.old ≤ length bytes.now }
    ensures { out.new ≡ bytes_at bytes.now place (length out.old) }
{
    out.copy_from_slice(&bytes[place..place + out.len()]);
}

fn write_at(bytes: &mut [u8], place: usize, new: &[u8])
    requires { place + length new.now ≤ length bytes.old }
    ensures { bytes.new ≡ overwritten bytes.old place new.now }
{
    bytes[place..place + new.len()].copy_from_slice(new);
}

fn clear_at(bytes: &mut [u8], place: usize, len: usize)
    requires { place + len ≤ length bytes.old }
    ensures { bytes.new ≡ overwritten bytes.old place (replicate len 0) }
{
    bytes[place..place + len].fill(0);
}

/// Whether the node is the top or below it.
fn is_below(parents: &[u32], node: u32, top: u32) -> bool
    requires tree { IsTree parents.now }
    requires node { node < length parents.now }
    ensures { result ≡ is_within parents.now node top }
{
    let mut at = node;
    while at != top && at != 0 {
        at = parents[at as usize];
    }
    at == top
}

/// Adds one to the life of the top and of every node below it.
fn raise(parents: &[u32], top: u32, lives: &mut [u32])
    requires tree { IsTree parents.now }
    requires nodes { length lives.old ≡ length parents.now }
    requires small { All (λ life. life + 1 < 2 ^ 32) lives.old }
    ensures { lives.new ≡ lives_from parents.now top 0 lives.old }
{
    for node in 0..lives.len() {
        lives[node] += u32::from(is_below(parents, node as u32, top));
    }
}
