//! Mirrors by the rules that are to come: how disks in mirrors are opened, read, written and flushed, as a machine of single
//! outcomes; and the laws of it. Each law is the contract of a function that does nothing. The rules are this project's own.
#![tactic(auto)]

mod lasting;
mod opening;
mod session;

pub use lasting::{
    calls_keep_guards, chains_lift_what_counts, each_sync_of_a_chain_lasts, openings_keep_guards,
    synced_pages_last,
};
pub use opening::{
    opening_gives_the_highest, opening_leaves_disks_ordered, opening_leaves_out_who_refused,
    opening_levels_live_disks,
};
pub use session::{
    bad_disks_stay_bad, disks_stay_even, disks_stay_near, faults_have_causes,
    flush_keeps_the_pages, paid_disks_are_above, rounds_ask_each_live_disk,
    writes_and_reads_hold_the_pages,
};
