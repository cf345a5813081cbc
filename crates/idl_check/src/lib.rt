//! Whether the declarations of an IDL text fit together.
#![tactic(auto)]

mod checked;
mod names;
mod reach;
mod repeats;
mod verdict;
mod why;

pub use checked::{Checked, check, first_reason, fit_exactly, ranks_fall};
pub use names::{decl_name, is_interface};
pub use why::{IdlUnfit, UnfitWhy};
