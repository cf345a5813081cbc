//! The subcontracts that the program has.

ghost use Rattle.std.specs.Prelude.{◌≡◌};
ghost use Rattle.client_objects.specs.Kinds.{kind_of, id_of, form_of, file_of};

use marshal_buf::Door;
use sub_basic::{CLUSTER, SINGLETON};
use sub_caching::CACHING;
use sub_core::Form;
use sub_reconnect::RECONNECTABLE;

/// The subcontract of an object, which the program has.
#[derive(Clone, Copy, Debug, PartialEq, Eq)]
pub enum ObjectKind {
    /// The object has a door of its own.
    Singleton,
    /// The objects of a view share its door to file 0, and each has the number of its file as its tag.
    Cluster,
    /// Calls go to the cache of the machine that they are made on, if there is one.
    Caching,
    /// The object knows the path that it was bound under.
    Reconnectable,
}

impl ObjectKind {
    /// The subcontract of an identifier, if the program has it.
    pub fn of(id: u16) -> Option<ObjectKind>
        ensures { result ≡ kind_of id }
    {
        if id == SINGLETON {
            Some(ObjectKind::Singleton)
        } else if id == CLUSTER {
            Some(ObjectKind::Cluster)
        } else if id == CACHING {
            Some(ObjectKind::Caching)
        } else if id == RECONNECTABLE {
            Some(ObjectKind::Reconnectable)
        } else {
            None
        }
    }

    /// Its identifier.
    pub fn id(self) -> u16
        ensures { result ≡ id_of self }
    {
        match self {
            ObjectKind::Singleton => SINGLETON,
            ObjectKind::Cluster => CLUSTER,
            ObjectKind::Caching => CACHING,
            ObjectKind::Reconnectable => RECONNECTABLE,
        }
    }

    /// The form of its objects.
    pub fn form(self) -> Form
        ensures { result ≡ form_of self }
    {
        match self {
            ObjectKind::Singleton => Form::Bare,
            ObjectKind::Cluster => Form::Tagged,
            ObjectKind::Caching => Form::Managed,
            ObjectKind::Reconnectable => Form::Pathed,
        }
    }

    /// The file of an object by its door and its tag: a cluster's is that of the tag, and another's is that of the door.
    pub fn file(self, door: Door, tag: u32) -> u32
        ensures { result ≡ file_of self door tag }
    {
        match self {
            ObjectKind::Cluster => tag,
            ObjectKind::Singleton | ObjectKind::Caching | ObjectKind::Reconnectable => door.file,
        }
    }
}
