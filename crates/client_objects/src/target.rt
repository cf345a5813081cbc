//! Where the calls of an open object go.

ghost use Rattle.std.specs.Prelude.{◌≡◌};
ghost use Rattle.client_objects.specs.Ways.{file_by, way_of};

use crate::kind::ObjectKind;
use marshal_buf::Door;

/// Where an open object leads, and of which life it is.
#[derive(Clone, Copy, Debug, PartialEq, Eq)]
pub struct Target {
    /// The object's subcontract.
    pub kind: ObjectKind,
    /// The tag that the subcontract keeps beside the door, or 0.
    pub tag: u32,
    /// The node of the view that the door names.
    pub view: u32,
    /// The number of the file.
    pub file: u32,
    /// The life that the node had when the object was opened.
    pub life: u32,
}

impl Target {
    ghost use Rattle.client_objects.specs.Found.{door_to};

    /// The door by which its calls go: to the view and the file.
    pub fn door(&self) -> Door
        ensures { result ≡ door_to self.now }
    {
        Door {
            node: self.view,
            file: self.file,
        }
    }

    /// By what the frames of its calls say it.
    pub fn way(&self) -> Way
        ensures { result ≡ way_of self.now }
    {
        Way {
            sub: self.kind.id(),
            tag: self.tag,
            door: self.door(),
            file: self.file,
        }
    }
}

/// By what the frame of a call on an object says it, and the file to which the call goes.
#[derive(Clone, Copy, Debug, PartialEq, Eq)]
pub struct Way {
    /// The identifier of the object's subcontract.
    pub sub: u16,
    /// The tag that the subcontract keeps beside the door, or 0.
    pub tag: u32,
    /// The door by which the call goes.
    pub door: Door,
    /// The number of the file.
    pub file: u32,
}

/// Where an open object leads, and to which node its calls go from a machine.
#[derive(Clone, Copy, Debug, PartialEq, Eq)]
pub struct Found {
    /// Where the object leads.
    pub target: Target,
    /// The node to which its calls go, by the subcontract's route.
    pub node: u32,
}

/// The file of a call by the identifier of an object's subcontract, its door and its tag: that of the tag for an object of a cluster, and
/// that of the door for any other.
pub fn file_by(id: u16, door: Door, tag: u32) -> u32
    ensures { result ≡ file_by id door tag }
{
    match ObjectKind::of(id) {
        Some(kind) => kind.file(door, tag),
        None => door.file,
    }
}
