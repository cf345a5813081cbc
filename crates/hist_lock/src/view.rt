//! What a seat knows, and what the lock was told when it was made. Proofs alone read these types: no value of the first
//! two is made, and one of the third is let go as soon as the lock is made.

use std::collections::LinkedList;
use std::snapshot::Snapshot;

/// What a seat is about.
pub enum Stage<E> {
    /// It has no ticket.
    Idle,
    /// It has this ticket, and waits for its turn.
    Waits(u64),
    /// It has this ticket, and has taken the value.
    Holds(u64),
    /// It has this ticket, and has noted the length of the list that it gives.
    Noted(u64),
    /// It was joined with the seat of the range that begins at the number. The lists are what the two knew.
    Met(u32, LinkedList<E>, LinkedList<E>),
}

/// What a seat knows.
pub struct View<E, F> {
    /// The first of its callers.
    pub first: u32,
    /// One more than the last of its callers.
    pub end: u32,
    /// The beginning of the list that it has seen.
    pub seen: LinkedList<E>,
    /// What it is about.
    pub stage: Stage<E>,
    /// The lock's fixed part; none, if it was joined with another seat and let go.
    pub fixed: Option<F>,
    /// Whether it has drawn a ticket, or came from a seat that had.
    pub drew: bool,
}

/// What the lock was told when it was made.
pub struct Deed<T> {
    /// The first caller.
    pub first: u32,
    /// One more than the last caller.
    pub end: u32,
    /// The value that the lock began with.
    pub value: Snapshot<T>,
}

impl<T> Drop for Deed<T> {
    fn drop(self) {
        let Self {
            first: _,
            end: _,
            value: _,
        } = self;
    }
}
