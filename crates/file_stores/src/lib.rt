//! The stores of a stack, and what lies under each file: its image over its stores, on one disk or on disks in mirrors. How stores are taken from
//! the bay and given back, and how a command ends that cannot do its work.
#![tactic(auto)]

mod files;
mod ground;
mod held;
mod keys;
mod notices;
mod opening;
mod pages;
mod stop;
mod whole_disk;

pub use files::{FileStores, as_file, by_file, put_file, put_files, rooms_of};
pub use ground::FileGround;
pub use held::{Held, give, give_back, take_store, take_stores};
pub use keys::{shape_of, stores_of, stores_of_one};
pub use notices::{end_notices, write_notices};
pub use opening::{Unopened, close_file, open_file};
pub use pages::read_file;
pub use stop::{Stop, finish_lost, stopped};
