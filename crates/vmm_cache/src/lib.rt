//! The cache of a virtual memory manager: one leaf's own table and copies for one file. It has so many frames, and which
//! page goes out for another one is decided by the last uses.
//!
//! That a virtual memory manager is a cache manager like any layer, and keeps to the same messages, is the Spring papers'
//! rule. That it gives up the page that was used longest ago is this project's own.
#![tactic(auto)]

mod allowing;
mod frames;
mod law;
mod leaf;
mod taking;
mod writing;

pub use law::{
    framed_tables_stay_true, messages_list_as_their_steps, uses_follow_the_trail,
    victim_is_least_recently_used,
};
pub use leaf::Leaf;
pub use page_messages::{Asked, Called, NodeErr, PagedFile};
