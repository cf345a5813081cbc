//! The doors of a domain.

ghost use Rattle.std.specs.Prelude.{◌≡◌, ℕ, Some, None, IfOk, IfErr, OnOk, OnErr, MatchResult};
ghost use Rattle.domain_doors.specs.Doors.{door_at, Updates, Lacks, Copies, RefusesCopy};

use crate::why::{DoorErr, NoDoor};
use marshal_buf::Door;
use slab::Slab;
use std::alloc::{AllocError, Global};
use std::marker::Model;
use std::mem::replace;

/// The table of doors of a domain. A door's identifier is given again only after the door was taken out, and then it is the
/// next one that is given.
#[derive(Debug, Drop)]
pub struct Domain {
    doors: Slab<Door>,
}

impl Model for Domain {
    ghost use Rattle.domain_doors.specs.Doors.{Doors};

    ghost Value = { Doors };

    ghost view = { λ d. record { slots = d.doors.slots; next = d.doors.vacant_key } };
}

impl Domain {
    /// A domain that holds no door. The first identifier that it gives is 0. It takes no memory.
    pub fn new(alloc: Global) -> Domain
        ensures empty { (id : ℕ) → door_at result id ≡ None }
        ensures first { result.next ≡ 0 }
    {
        Domain {
            doors: Slab::new(alloc),
        }
    }

    /// Takes a door, and answers its identifier, which is in no other use. An error is that memory ran out, and leaves
    /// the domain as it was.
    pub fn add(&mut self, door: Door) -> Result<usize, AllocError>
        ensures key { IfOk result (λ id. id ≡ self.old.next) }
        ensures vacant { IfOk result (λ id. door_at self.old id ≡ None) }
        ensures updates { IfOk result (λ id. Updates self.old self.new id (Some door)) }
        ensures err { OnErr result (self.new ≡ self.old) }
    {
        Ok(self.doors.insert(door)?)
    }

    /// Answers a second identifier of the same door, which is in no other use. An error leaves the domain as it was.
    pub fn copy(&mut self, id: usize) -> Result<usize, DoorErr>
        ensures key { IfOk result (λ new_id. new_id ≡ self.old.next) }
        ensures ok { IfOk result (λ new_id. Copies self.old self.new id new_id) }
        ensures why { IfErr result (RefusesCopy self.old id) }
        ensures err { OnErr result (self.new ≡ self.old) }
    {
        let door = self.look(id)?;
        Ok(self.add(door)?)
    }

    /// Gives a door away: it leaves the domain, and its identifier is the next one that is given. It takes no memory. An
    /// error leaves the domain as it was.
    pub fn take_out(&mut self, id: usize) -> Result<Door, NoDoor>
        ensures value { MatchResult result (λ door. door_at self.old id ≡ Some door) (Lacks self.old id) }
        ensures updates { OnOk result (Updates self.old self.new id None) }
        ensures next { OnOk result (self.new.next ≡ id) }
        ensures err { OnErr result (self.new ≡ self.old) }
    {
        self.doors.try_remove(id).ok_or(NoDoor { id })
    }

    /// Holds another door under an identifier that has one, and answers the one that it had. It takes no memory. An error
    /// leaves the domain as it was.
    pub fn exchange(&mut self, id: usize, door: Door) -> Result<Door, NoDoor>
        ensures value { MatchResult result (λ had. door_at self.old id ≡ Some had) (Lacks self.old id) }
        ensures updates { OnOk result (Updates self.old self.new id (Some door)) }
        ensures next { self.new.next ≡ self.old.next }
        ensures err { OnErr result (self.new ≡ self.old) }
    {
        match self.doors.get_mut(id) {
            Some(held) => Ok(replace(held, door)),
            None => Err(NoDoor { id }),
        }
    }

    /// The door that the domain holds under an identifier. It takes no memory.
    pub fn look(&self, id: usize) -> Result<Door, NoDoor>
        ensures { MatchResult result (λ door. door_at self.now id ≡ Some door) (Lacks self.now id) }
    {
        self.doors.get(id).copied().ok_or(NoDoor { id })
    }
}
