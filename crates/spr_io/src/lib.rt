//! What lies outside of the program: texts, bays of stores, and a sink, each with a count of its faults.
#![tactic(auto)]

mod blocks;
mod host;
mod host_bay;
mod host_file;
mod host_store;
mod memory;
mod memory_bay;
mod memory_texts;
mod ordinals;
mod outside;
mod ram_file;
mod raw;

pub use host::{HostShelf, StdSink};
pub use host_bay::HostBay;
pub use host_file::HostFile;
pub use host_store::HostStore;
pub use memory::MemStore;
pub use memory_bay::MemBay;
pub use memory_texts::{MemShelf, MemSink};
pub use outside::{Bay, BayErr, Failed, Shelf, ShelfErr, Sink, Store};
pub use ram_file::RamFile;
pub use raw::RawFile;
