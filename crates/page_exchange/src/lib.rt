//! A message about a page and its answer: between a node and its parent, and between a node and the ground. A node is a
//! layer, or a leaf, on which nothing stands. The tables of all nodes of a file are moved by these messages alone. Frames
//! between two machines go as packets.
#![tactic(auto)]

mod accessing;
mod between;
mod ends;
mod ground;
mod law;
mod packing;
mod pair;
mod starting;
mod steps;
mod table;
mod tables;
mod wire;

pub use ground::GroundErr;
pub use law::{
    exchange_is_of_two_tables, ground_tells_its_pages, tables_allow_what_the_trail_does,
};
pub use table::Table;
pub use tables::Tables;
pub use wire::{Ends, Wire};
