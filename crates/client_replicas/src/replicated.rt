//! An open replicon object.

ghost use Rattle.std.specs.Prelude.{◌≡◌, ◌≤◌, ◌∷◌, [], List, IfOk, map, length, true, false};
ghost use Rattle.sub_replicon.specs.Replicas.{AreReplicas};
ghost use Rattle.client_replicas.specs.declared.door.OpenDoor.{OpenDoor as ADoor};
ghost use Rattle.client_replicas.specs.OpenDoors.{DropsFirst, fresh, with_life};

use crate::door::OpenDoor;
use domain_doors::{Domain, NoDoor};
use marshal_buf::Door;
use std::alloc::{AllocError, Global};
use std::marker::Model;
use sub_core::ObjectErr;
use sub_replicon::Replicon;

/// An open replicon object, whose doors stand in a domain of its own. Contracts see it as the list of its doors, each with its life.
#[derive(Debug, Drop)]
pub struct Replicated {
    domain: Domain,
    replicon: Replicon,
}

impl Model for Replicated {
    ghost use Rattle.std.specs.Prelude.{List};
    ghost use Rattle.sub_replicon.specs.Domains.{AreHeld, doors_in};
    ghost use Rattle.client_replicas.specs.declared.door.OpenDoor.{OpenDoor};
    ghost use Rattle.client_replicas.specs.OpenDoors.{open_doors};

    ghost Value = { List OpenDoor };

    ghost view = { λ r. open_doors (doors_in r.domain r.replicon.doors) r.replicon.lives };

    ghost invariant = { λ r. AreHeld r.domain r.replicon.doors };
}

impl Replicated {
    /// An object of these doors, each of the life 0. An error is that memory ran out.
    pub fn new(alloc: Global, doors: &[Door]) -> Result<Replicated, AllocError>
        requires { AreReplicas doors.now }
        ensures { IfOk result (λ object. object ≡ map fresh doors.now) }
    {
        let mut domain = Domain::new(alloc);
        let replicon = Replicon::new(doors, &mut domain)?;
        Ok(Replicated { domain, replicon })
    }

    /// Its first door, by which its calls go. It takes no memory.
    pub fn first(&self) -> OpenDoor
        ensures { (more : List ADoor) × (self.now ≡ result ∷ more) }
    {
        // The proof reads here that each door has a life.
        let _doors = self.replicon.doors_len();
        match self.replicon.current(&self.domain) {
            Ok(route) => OpenDoor {
                view: route.node,
                file: route.file,
                life: self.replicon.life(),
            },
            Err(NoDoor { .. }) => unreachable!(),
        }
    }

    /// Keeps a life for the door k, counted from 0; if it has no such door, nothing changes. It takes no memory.
    pub fn keep_life(&mut self, k: u32, life: u32)
        ensures { self.new ≡ with_life k life self.old }
    {
        if k < self.replicon.doors_len() {
            self.replicon.keep_life(k, life);
        }
    }

    /// Drops the first door and answers true; if one door is left, it answers false and nothing changes. It takes no memory.
    pub fn drop_first(&mut self) -> bool
        ensures dropped { result ≡ true → DropsFirst self.old self.new }
        ensures last { result ≡ false → (length self.old ≡ 1) }
        ensures kept { result ≡ false → self.new ≡ self.old }
    {
        // The proof reads here that no identifier stands twice.
        let _doors = self.replicon.doors_len();
        match self.replicon.drop_current(&mut self.domain) {
            Ok(dropped) => dropped,
            Err(NoDoor { .. }) => unreachable!(),
        }
    }

    /// Another object like this one, with a domain of its own. An error is that memory ran out.
    pub fn copy(&self, alloc: Global) -> Result<Replicated, AllocError>
        ensures { IfOk result (λ copy. copy ≡ self.now) }
    {
        let mut domain = Domain::new(alloc);
        match self.replicon.copy_into(&self.domain, &mut domain) {
            Ok(replicon) => Ok(Replicated { domain, replicon }),
            Err(ObjectErr::Memory) => Err(AllocError),
            Err(ObjectErr::NoDoor { .. }) => unreachable!(),
            Err(ObjectErr::BadObject { .. }) => unreachable!(),
        }
    }
}
