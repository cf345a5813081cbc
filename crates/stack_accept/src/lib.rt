//! Which stack texts can be mounted, and the tree that each makes.
#![tactic(auto)]

mod entries;
mod line;
mod mount;
mod mounted;
mod report;
mod rule;

pub use entries::{FileEntry, GroundPlan, Kind, NodeEntry};
pub use mounted::{Mounted, accept};
pub use report::put_check;
pub use rule::{Rule, Unfit, accepted_by_every_rule};

/// The most files of a stack.
pub const MAX_FILES: usize = 16;
/// The most disks of a stack.
pub const MAX_DISKS: usize = 4;
/// The most coherency layers, distributed layers and memory managers of a stack, taken together.
pub const MAX_LAYERS: usize = 31;
/// The most of these layers that stand on one another.
pub const MAX_DEPTH: usize = 8;
/// The most frames of a memory manager, for each file.
pub const MAX_FRAMES: u32 = 1_024;
