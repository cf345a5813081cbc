//! A reply.

use std::marker::Model;

/// A reply, as its fields stand in its bytes. What its kind does not use may be any number.
#[derive(Debug, Drop)]
pub struct Returned<'a> {
    /// The number of the call that it answers.
    pub number: u64,
    /// The caller of that call.
    pub caller: u32,
    /// What was answered: 0 for bytes, 1 for done, 2 for a life, 3 for revoked, 4 for a store's fault, 5 for a full trail, 6 for a
    /// length, 7 for a place past the length.
    pub kind: u8,
    /// The life, the count or the length that the kind tells, else 0.
    pub value: u64,
    /// The disk whose store failed, else 0.
    pub disk: u32,
    /// The place of the call's event in the file's trail, counted from 0.
    pub place: u64,
    /// The bytes that were read.
    pub rest: &'a [u8],
}

impl<'a> Model for Returned<'a> {
    ghost use Rattle.link_lossy.specs.Seen.{ReturnedSeen};

    ghost Value = { ReturnedSeen };

    ghost view = { λ r. record { number = r.number; caller = r.caller; kind = r.kind; value = r.value; disk = r.disk; place = r.place; rest = r.rest.now } };
}
