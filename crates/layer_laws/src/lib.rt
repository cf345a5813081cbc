//! The nodes' own tables and copies of a file's pages, and how they go with a trail: what a node's table of one page has, what an
//! event makes of the tables, and the laws that each allowed event keeps them true; what an access asks of its node's copy, what
//! the places of the trail show, and which bytes of the file that the trail started with tell its answers.
//!
//! A table is one node's alone, and a message with its answer moves the tables of the node and its parent; that the laws need no
//! more than this is what they say.
#![tactic(auto)]

mod pages;
mod sides;

pub use pages::{
    access_is_of_the_copy, granted_pages_tell_answers, no_access_before_grant,
    places_keep_their_pages, range_is_of_its_page,
};
pub use sides::{
    event_keeps_copies, event_keeps_rights, event_moves_its_page, step_keeps_copies,
    step_keeps_rights, tables_at_start,
};
