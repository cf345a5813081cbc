//! Tests that need Rust itself: what may cross threads, texts as long as texts may be, and the forms over the host's files.
#![tactic(auto)]

#[cfg(test)]
mod disks;
#[cfg(test)]
mod texts;
#[cfg(test)]
mod values;
#[cfg(test)]
mod volumes;
