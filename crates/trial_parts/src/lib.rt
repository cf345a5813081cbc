//! What the trials of towers and volumes have in common: disks and towers in memory, and trees, accesses and answers in words.
#![tactic(auto)]

mod accesses;
mod disks;
mod messages;
mod subject;
mod towers;
mod trees;

pub use accesses::{
    access_named, access_of, asked, keep_of, lived, operations, put_answer, put_given,
};
pub use disks::{Ram, SIZE, disk, file_of, first_bytes, is_under, refused_write};
pub use messages::{name_of, page_of, page_shown, put_moved};
pub use subject::{Subject, subject_of, try_about};
pub use towers::{is_layer, pages_and_tree, tower_of, tower_over};
pub use trees::{copy_tree, has_small_frames, tree_of};
