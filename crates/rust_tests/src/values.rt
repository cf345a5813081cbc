//! That names, their seats and their lock, the objects of a client, and the cache of a memory manager may cross threads.

use client_objects::Objects;
use hist_lock::{HistLock, Seat};
use name_context::Names;
use std::test::Fail;
use vmm_cache::Leaf;

fn needs_send<X: Send>() {}

fn needs_sync<X: Sync>() {}

/// That it is proved shows: names and their seats may cross threads, and their lock may be shared.
#[test]
fn names_cross_threads(_rt: HostRuntime) -> Result<(), Fail> {
    needs_send::<Names>();
    needs_send::<Seat<Names>>();
    needs_sync::<HistLock<Names>>();
    Ok(())
}

/// The same for the objects of a client.
#[test]
fn objects_cross_threads(_rt: HostRuntime) -> Result<(), Fail> {
    needs_send::<Objects>();
    Ok(())
}

/// The same for a leaf.
#[test]
fn a_leaf_crosses_threads(_rt: HostRuntime) -> Result<(), Fail> {
    needs_send::<Leaf>();
    Ok(())
}
