//! A lock round a value that keeps a list that only grows. What a seat knows of the list is a beginning of it, and a
//! value that is taken goes on from there with no entry of the seat's own callers.
#![tactic(auto)]

mod lock;
mod rule;
#[cfg(test)]
mod sample;
mod storied;
#[cfg(test)]
mod tests;
mod view;

pub use lock::{HistLock, Seat};
pub use storied::Storied;
