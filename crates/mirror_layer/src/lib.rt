//! Mirrors over disks, as what lies under a file, by the rules of `mirror_rules`.
#![tactic(auto)]

mod admit;
mod any;
mod asked;
mod came;
mod cede;
mod choose;
mod close;
mod enter;
mod fill;
mod flush;
mod ground;
mod join;
mod meet;
mod node;
mod open;
mod place;
mod plan;
mod refuse;
mod renew;
mod round;
mod win;

pub use any::AnyGround;
pub use asked::{Call, Held, Side, hold};
pub use came::{Notice, at_close};
pub use flush::next_generation;
pub use ground::MirrorGround;
pub use node::{Kept, Mark, Node, Shut, Unopened};
pub use refuse::{OpenAll, Refusal};
