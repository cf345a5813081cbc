//! What a client has between two lines of a script.

use crate::objects::Objects;
use client_replicas::Replicas;
use link_lossy::Carrier;
use vmm_space::Space;

/// The state of a client.
#[derive(Debug, Drop)]
pub struct ClientState {
    /// The number of the machine that it runs on.
    pub machine: u32,
    /// Its open objects of one door, in the order in which they were opened.
    pub objects: Objects,
    /// Its open replicon objects, in the order in which they were opened. No name is among both.
    pub replicas: Replicas,
    /// Its address space: the regions that it has mapped.
    pub regions: Space,
    /// What carries its calls to other machines, if they may be lost on the way.
    pub carrier: Option<Carrier>,
}
