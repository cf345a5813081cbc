//! The open replicon objects of a client.

ghost use Rattle.std.specs.Prelude.{◌≡◌, ◌<◌, ◌∷◌, [], List, ℕ, Some, None, IsSome, IfSome, OnOk, OnErr, map, length, position, true, false};
ghost use Rattle.std.specs.Str.{bytes_eq};
ghost use Rattle.sub_replicon.specs.Replicas.{AreReplicas};
ghost use Rattle.client_replicas.specs.declared.door.OpenDoor.{OpenDoor as ADoor};
ghost use Rattle.client_replicas.specs.declared.replicas.OpenReplicon.{OpenReplicon as AReplicon};
ghost use Rattle.client_replicas.specs.Objects.{doors_of, with_doors, with_replicon, without_replicon};
ghost use Rattle.client_replicas.specs.OpenDoors.{first_life, fresh, with_life};

use crate::door::OpenDoor;
use crate::replicated::Replicated;
use marshal_buf::Door;
use std::alloc::{AllocError, Global};
use std::marker::Model;
use value_types::Text;

/// An open replicon object under its name.
#[derive(Debug, Drop)]
pub struct OpenReplicon {
    /// The client's name for it.
    pub name: Text,
    /// The object, with its doors.
    pub doors: Replicated,
}

/// The open replicon objects of a client, in the order in which they were opened. Contracts see them as that list.
#[derive(Debug, Drop)]
pub struct Replicas {
    entries: Vec<OpenReplicon>,
}

impl Model for Replicas {
    ghost use Rattle.std.specs.Prelude.{List};
    ghost use Rattle.client_replicas.specs.declared.replicas.OpenReplicon.{OpenReplicon};

    ghost Value = { List OpenReplicon };

    ghost view = { λ r. r.entries.items };
}

/// The place of the first object of a name.
fn place_of(entries: &[OpenReplicon], name: &Text) -> Option<usize>
    ensures place { result ≡ position (λ entry. bytes_eq entry.name name.now) entries.now }
    ensures within { IfSome result (λ place. place < length entries.now) }
{
    entries
        .iter()
        .position(|entry| entry.name.as_str() == name.as_str())
}

impl Replicas {
    /// No object. It takes no memory.
    pub fn new(alloc: Global) -> Replicas
        ensures { result ≡ [] }
    {
        Replicas {
            entries: Vec::new(alloc),
        }
    }

    /// The first door of the object of a name. None if there is no object of the name. It takes no memory.
    pub fn first(&self, name: &Text) -> Option<OpenDoor>
        ensures some { IfSome result (λ door. (more : List ADoor) × (doors_of name.now self.now ≡ Some (door ∷ more))) }
        ensures none { result ≡ None → doors_of name.now self.now ≡ None }
    {
        let place = place_of(&self.entries, name)?;
        Some(self.entries[place].doors.first())
    }

    /// Receives an object of these doors, under a name, each door of the life 0. An error is that memory ran out, and leaves the objects as they
    /// were.
    pub fn receive(&mut self, alloc: Global, name: Text, doors: &[Door]) -> Result<(), AllocError>
        requires { AreReplicas doors.now }
        ensures ok { OnOk result (self.new ≡ with_replicon self.old name (map fresh doors.now)) }
        ensures err { OnErr result (self.new ≡ self.old) }
    {
        let doors = Replicated::new(alloc, doors)?;
        self.entries.push(OpenReplicon { name, doors })?;
        Ok(())
    }

    /// Keeps a life for the door k of the last object, counted from 0. If there is no object, or no such door, nothing changes.
    pub fn keep_last(&mut self, k: u32, life: u32)
        ensures { (objects : List AReplicon) (name : List ℕ) (doors : List ADoor) → self.old ≡ with_replicon objects name doors → self.new ≡ with_replicon objects name (with_life k life doors) }
    {
        let Some(last) = self.entries.last_mut() else {
            return;
        };
        last.doors.keep_life(k, life);
    }

    /// The life of the first door of the last object, or 0 if there is no object.
    pub fn last_life(&self) -> u32
        ensures { (objects : List AReplicon) (name : List ℕ) (doors : List ADoor) → self.now ≡ with_replicon objects name doors → result ≡ first_life doors }
    {
        match self.entries.last() {
            Some(last) => last.doors.first().life,
            None => 0,
        }
    }

    /// Gives the last object up. If there is no object, nothing changes.
    pub fn give_up_last(&mut self)
        ensures { (objects : List AReplicon) (name : List ℕ) (doors : List ADoor) → self.old ≡ with_replicon objects name doors → self.new ≡ objects }
    {
        let _last = self.entries.pop();
    }

    /// Drops the first door of the object of a name and answers true; if one door is left, it answers false and nothing changes.
    pub fn drop_first(&mut self, name: &Text) -> bool
        requires { IsSome (doors_of name.now self.old) }
        ensures dropped { (door next : ADoor) (more : List ADoor) → doors_of name.now self.old ≡ Some (door ∷ next ∷ more) → result ≡ true }
        ensures goes_on { (door next : ADoor) (more : List ADoor) → doors_of name.now self.old ≡ Some (door ∷ next ∷ more) → self.new ≡ with_doors name.now (next ∷ more) self.old }
        ensures last { (door : ADoor) → doors_of name.now self.old ≡ Some (door ∷ []) → result ≡ false }
        ensures kept { (door : ADoor) → doors_of name.now self.old ≡ Some (door ∷ []) → self.new ≡ self.old }
    {
        let Some(place) = place_of(&self.entries, name) else {
            unreachable!();
        };
        self.entries[place].doors.drop_first()
    }

    /// Copies the object of a name, under another name. An error is that memory ran out, and leaves the objects as they were.
    pub fn copy(&mut self, alloc: Global, name: &Text, other: Text) -> Result<(), AllocError>
        requires { IsSome (doors_of name.now self.old) }
        ensures ok { OnOk result ((doors : List ADoor) → doors_of name.now self.old ≡ Some doors → self.new ≡ with_replicon self.old other doors) }
        ensures err { OnErr result (self.new ≡ self.old) }
    {
        let Some(place) = place_of(&self.entries, name) else {
            unreachable!();
        };
        let doors = self.entries[place].doors.copy(alloc)?;
        self.entries.push(OpenReplicon { name: other, doors })?;
        Ok(())
    }

    /// Gives the first object of a name up, if there is one.
    pub fn remove(&mut self, name: &Text)
        ensures { self.new ≡ without_replicon name.now self.old }
    {
        let Some(place) = place_of(&self.entries, name) else {
            return;
        };
        let _object = self.entries.remove(place);
    }
}
