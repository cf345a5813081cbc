//! Laws over what a run says, for readers: each is the contract of a function that does nothing.
#![tactic(auto)]

mod sittings;
mod sound;
mod traced;

pub use sittings::{sittings_go_on, synced_pages_outlast_sittings};
pub use sound::sound_run_ends_well;
pub use traced::traced_heads_are_of_the_frames;
