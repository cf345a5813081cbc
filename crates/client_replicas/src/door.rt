//! A door of an open replicon object.

/// Where the calls by a door go, and in which life.
#[derive(Clone, Copy, Debug, PartialEq, Eq)]
pub struct OpenDoor {
    /// The node of the view that the door names.
    pub view: u32,
    /// The number of the file.
    pub file: u32,
    /// The life that the node had when the object was opened.
    pub life: u32,
}
