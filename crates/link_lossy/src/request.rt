//! A request.

use dfs_layer::Packet;

/// What a caller asks of a view of another machine. Its packet lends the frame of the call.
#[derive(Debug, Drop)]
pub struct Request<'a> {
    /// The number of the caller that asks.
    pub caller: u32,
    /// The life of the node for which it asks. Of a sync it says which right is kept: 0 for the one for writing, 1 for the one for
    /// reading.
    pub life: u32,
    /// The frame of the call, with the machines that it goes between.
    pub packet: Packet<'a>,
}
