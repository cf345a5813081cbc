//! A short list of doors.

ghost use Rattle.std.specs.Prelude.{◌≡◌, ◌<◌, ◌≤◌, ◌++◌, ◌∷◌, [], length};

use crate::MAX_DOORS;
use marshal_buf::Door;
use std::marker::Model;

/// A list of at most eight doors, in order. It takes no memory.
#[derive(Debug, Drop)]
pub struct DoorList {
    places: [Door; MAX_DOORS],
    len: usize,
}

impl Model for DoorList {
    ghost use Rattle.std.specs.Prelude.{◌≤◌, List, take};
    ghost use Rattle.marshal_buf.specs.declared.door.Door.{Door};
    ghost use Rattle.sub_replicon.specs.declared.TheConstants.{MAX_DOORS};

    ghost Value = { List Door };

    ghost view = { λ d. take d.len d.places };

    ghost invariant = { λ d. d.len ≤ MAX_DOORS };
}

impl DoorList {
    /// No door.
    pub(crate) fn new() -> DoorList
        ensures { result ≡ [] }
    {
        DoorList {
            places: [Door { node: 0, file: 0 }; MAX_DOORS],
            len: 0,
        }
    }

    /// Puts a door behind the others.
    pub(crate) fn push(&mut self, door: Door)
        requires { length self.old < MAX_DOORS }
        ensures { self.new ≡ self.old ++ door ∷ [] }
    {
        self.places[self.len] = door;
        self.len += 1;
    }

    /// Lends the doors.
    pub fn as_slice(&self) -> &[Door]
        ensures value { result.now ≡ self.now }
        ensures few { length result.now ≤ MAX_DOORS }
    {
        &self.places[..self.len]
    }
}
