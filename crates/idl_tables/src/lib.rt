//! The operations of interfaces, with those that they inherit, and their numbers.
#![tactic(auto)]

mod entries;
mod entry;
mod laws;
mod lines;
mod print;
mod table_set;

pub use entry::Entry;
pub use laws::{clashes_show, lines_and_bases, tables_are_few, tables_follow_bases};
pub use table_set::{TableSet, print_tables, tables};
