//! A client's open objects.

ghost use Rattle.std.specs.Prelude.{◌≡◌, ◌<◌, ℕ, List, [], Some, IsSome, IfSome, IfOk, IfErr, IsTrue, OnOk, OnErr, length};
ghost use Rattle.std.specs.List.{AllByRecursion};
ghost use Rattle.std.specs.Option.{option_map};
ghost use Rattle.client_objects.specs.declared.target.Target.{Target};
ghost use Rattle.name_context.specs.Names.{kept_object};
ghost use Rattle.client_objects.specs.Objects.{OpenObject, IsOnStack, object_of, with_object, with_target, without, word_of};
ghost use Rattle.text_words.specs.Words.{is_path_word, path_of};
ghost use Rattle.client_objects.specs.Reconnected.{IsReconnectable, reconnected};
ghost use Rattle.client_objects.specs.Stored.{received, received_word};
ghost use Rattle.client_objects.specs.Found.{found_on, IsChosen};
ghost use Rattle.client_objects.specs.Received.{RefusesReceived};

use crate::entry::{Entry, copy_of, found_of, give_up, place_of};
use crate::reading::{received_target, take_in};
use crate::target::Found;
use crate::why::NotReceived;
use domain_doors::{Domain, NoDoor};
use marshal_buf::{Buf, Door};
use stack_accept::Mounted;
use std::alloc::{AllocError, Global};
use std::marker::Model;
use text_words::read_path;
use value_types::{Path, Text};

/// The open objects of a client, in the order in which they were opened. Contracts see them as that list.
#[derive(Debug, Drop)]
pub struct Objects {
    domain: Domain,
    entries: Vec<Entry>,
}

impl Model for Objects {
    ghost use Rattle.std.specs.Prelude.{List};
    ghost use Rattle.client_objects.specs.Objects.{OpenObject};

    ghost Value = { List OpenObject };

    ghost use Rattle.client_objects.specs.Held.{seen, AreHeld};

    ghost view = { λ o. seen o.domain o.entries.items };

    ghost invariant = { λ o. AreHeld o.domain o.entries.items };
}

/// The path that a path's word is. An error is that memory ran out.
#[tactic(auto, unfolding(text_words::specs::Words::path_of))]
fn path_in(alloc: Global, word: &[u8]) -> Result<Path, AllocError>
    requires { IsTrue (is_path_word word.now) }
    ensures { IfOk result (λ path. path_of word.now ≡ Some path) }
{
    match read_path(alloc, word)? {
        Some(path) => Ok(path),
        None => unreachable!(),
    }
}

impl Objects {
    /// No object. It takes no memory.
    pub fn new(alloc: Global) -> Objects
        ensures { result ≡ [] }
    {
        Objects {
            domain: Domain::new(alloc),
            entries: Vec::new(alloc),
        }
    }

    /// Where the object of a name leads, and to which node its calls go from a machine of the stack, as its subcontract
    /// says; the file that it leads to is the one that the subcontract chooses. None if there is no object of the name. It takes
    /// no memory.
    pub fn find(&self, mount: &Mounted, machine: u32, name: &Text) -> Option<Found>
        requires machine { machine < length mount.now.machines }
        requires leads { AllByRecursion (IsOnStack mount.now) self.now }
        ensures is { result ≡ option_map (found_on mount.now machine) (object_of name.now self.now) }
        ensures chosen { IfSome result (λ found. IsChosen found.target) }
    {
        let place = place_of(&self.entries, name)?;
        let Entry { kind, object, .. } = &self.entries[place];
        Some(found_of(*kind, object, &self.domain, mount, machine))
    }

    /// Receives the object that the names keep, under a name, of life 0, and says to which node its calls go from a machine
    /// of the stack. It looks at the whole object before it takes memory. An error leaves the objects as they were.
    pub fn receive(
        &mut self,
        alloc: Global,
        mount: &Mounted,
        machine: u32,
        name: Text,
        stored: &Buf,
    ) -> Result<Found, NotReceived>
        requires { machine < length mount.now.machines }
        ensures read { IfOk result (λ found. received mount.now (Some (kept_object stored.now)) ≡ Some found.target) }
        ensures node { IfOk result (λ found. found ≡ found_on mount.now machine found.target) }
        ensures opened { IfOk result (λ found. self.new ≡ with_object self.old name found.target (received_word (Some (kept_object stored.now)))) }
        ensures why { IfErr result (RefusesReceived (received mount.now (Some (kept_object stored.now)))) }
        ensures err { OnErr result (self.new ≡ self.old) }
    {
        let Some(target) = received_target(mount, stored) else {
            return Err(NotReceived::BadObject);
        };
        self.entries.reserve(1)?;
        let mut from = stored.reader();
        let object = take_in(alloc, &mut self.domain, &mut from)?;
        let kind = target.kind;
        let node = found_of(kind, &object, &self.domain, mount, machine).node;
        self.entries.push_reserved(Entry { name, kind, object });
        Ok(Found { target, node })
    }

    /// The path that the reconnectable object of a name was bound under. An error is that memory ran out.
    pub fn path(&self, alloc: Global, name: &Text) -> Result<Path, AllocError>
        requires { IsReconnectable (object_of name.now self.now) }
        ensures { IfOk result (λ path. path_of (word_of name.now self.now) ≡ Some path) }
    {
        let Some(place) = place_of(&self.entries, name) else {
            unreachable!();
        };
        path_in(alloc, self.entries[place].object.name.as_str().as_bytes())
    }

    /// Lets the reconnectable object of a name lead to another view and file, of this life. Its identifier stays, and it takes no
    /// memory.
    pub fn reroute(&mut self, name: &Text, door: Door, life: u32)
        requires { IsReconnectable (object_of name.now self.old) }
        ensures { self.new ≡ with_target name.now (reconnected door life) self.old }
    {
        let Some(place) = place_of(&self.entries, name) else {
            unreachable!();
        };
        let object = &mut self.entries[place].object;
        match self.domain.exchange(object.door, door) {
            Ok(_had) => object.life = life,
            Err(NoDoor { .. }) => unreachable!(),
        }
    }

    /// Sets the life of the last object. If there is no object, nothing changes.
    pub fn set_life(&mut self, life: u32)
        ensures last { (objects : List OpenObject) (name word : List ℕ) (target : Target) → self.old ≡ with_object objects name target word → self.new ≡ with_object objects name (record target { life = life }) word }
        ensures none { self.old ≡ [] → self.new ≡ [] }
    {
        let Some(last) = self.entries.last_mut() else {
            return;
        };
        last.object.life = life;
    }

    /// Gives the last object up: its door leaves the domain. If there is no object, nothing changes.
    pub fn give_up_last(&mut self)
        ensures last { (objects : List OpenObject) (name word : List ℕ) (target : Target) → self.old ≡ with_object objects name target word → self.new ≡ objects }
        ensures none { self.old ≡ [] → self.new ≡ [] }
    {
        if let Some(
            Entry {
                name: _,
                kind,
                object,
            },
        ) = self.entries.pop()
        {
            give_up(kind, object, &mut self.domain);
        }
    }

    /// Copies the object of a name, under another name. An error is that memory ran out, and leaves the objects as
    /// they were.
    pub fn copy(&mut self, name: &Text, other: Text) -> Result<(), AllocError>
        requires { IsSome (object_of name.now self.old) }
        ensures ok { OnOk result ((target : Target) → object_of name.now self.old ≡ Some target → self.new ≡ with_object self.old other target (word_of name.now self.old)) }
        ensures err { OnErr result (self.new ≡ self.old) }
    {
        let Some(place) = place_of(&self.entries, name) else {
            unreachable!();
        };
        self.entries.reserve(1)?;
        let Entry { kind, object, .. } = &self.entries[place];
        let kind = *kind;
        let object = copy_of(kind, object, &mut self.domain)?;
        self.entries.push_reserved(Entry {
            name: other,
            kind,
            object,
        });
        Ok(())
    }

    /// Gives the first object of a name up, if there is one: its door leaves the domain.
    pub fn remove(&mut self, name: &Text)
        ensures { self.new ≡ without name.now self.old }
    {
        let Some(place) = place_of(&self.entries, name) else {
            return;
        };
        let Entry {
            name: _,
            kind,
            object,
        } = self.entries.remove(place);
        give_up(kind, object, &mut self.domain);
    }
}
