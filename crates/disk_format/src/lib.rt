//! The format of an image: the blocks of a disk that stand for the pages of a file.
//!
//! The form is this project's own. All that is version 1's stands in one module, and in one file of definitions.
#![tactic(auto)]

mod image;
mod shape;
mod version_1;
mod why;

pub use image::{Entries, Header, Image};
pub use shape::ImageShape;
pub use version_1::{check_image, map_entry, read_header, write_header, written_header_is_read};
pub use why::{BadImage, ImageWhy};
