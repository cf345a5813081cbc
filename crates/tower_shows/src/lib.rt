//! What the tables of a file's nodes and the pages of its ground show of a trail, whatever the stores tell: the rights
//! always, and the bytes where the ground tells its pages.
#![tactic(auto)]

mod law;

pub use law::{
    events_keep_bytes, events_keep_rights, grants_find_their_page, synced_pages_stay,
    tables_tell_answers,
};
