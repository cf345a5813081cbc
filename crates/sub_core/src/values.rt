//! An object, what its bytes say, and where a call on it goes.

use marshal_buf::Door;
use std::marker::Model;
use value_types::Text;

/// An object that a domain holds, as its subcontract sees it.
#[derive(Debug, Drop)]
pub struct Object {
    /// The identifier of its subcontract.
    pub sub: u16,
    /// The identifier of its door in the domain.
    pub door: usize,
    /// A number that the subcontract keeps beside the door, or 0.
    pub tag: u32,
    /// A name that the subcontract keeps beside the door, or the empty text.
    pub name: Text,
    /// A number of a life that the subcontract keeps, or 0. No message has it.
    pub life: u32,
}

/// Where a call goes: which node of the stack, and which file there.
#[derive(Clone, Copy, Debug, PartialEq, Eq)]
pub struct Route {
    /// The node's number.
    pub node: u32,
    /// The file's number.
    pub file: u32,
}

/// What the bytes of an object say. It lends the name from them.
#[derive(Debug, Drop)]
pub struct Fields<'a> {
    door: Door,
    tag: u32,
    name: &'a [u8],
}

impl<'a> Model for Fields<'a> {
    ghost use Rattle.sub_core.specs.Fields.{Fields};

    ghost Value = { Fields };

    ghost view = { λ f. record { door = f.door; tag = f.tag; name = f.name.now } };
}

impl<'a> Fields<'a> {
    ghost use Rattle.std.specs.Prelude.{◌≡◌};

    pub(crate) fn new(door: Door, tag: u32, name: &'a [u8]) -> Fields<'a>
        ensures { result ≡ record { door = door; tag = tag; name = name.now } }
    {
        Fields { door, tag, name }
    }

    /// The door.
    pub fn door(&self) -> Door
        ensures { result ≡ self.now.door }
    {
        self.door
    }

    /// The tag, or 0 for an object that has none.
    pub fn tag(&self) -> u32
        ensures { result ≡ self.now.tag }
    {
        self.tag
    }

    /// Lends the name, which is empty for an object that has none.
    pub fn name(&self) -> &'a [u8]
        ensures { result.now ≡ self.now.name }
    {
        self.name
    }
}
