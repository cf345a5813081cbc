//! The lock, with callers in turn and at once.

use crate::lock::{HistLock, Seat};
use crate::sample::{Call, Roll, at_once, in_turn, unused};
use crate::storied::Storied;
use std::alloc::Global;
use std::test::Fail;

fn empty(alloc: Global) -> Roll {
    Roll {
        label: 7,
        calls: Vec::new(alloc),
    }
}

fn needs_send<X: Send>() {}

fn needs_sync<X: Sync>() {}

/// That it is proved shows: a lock and its seats may cross threads if the value may, and a lock may
/// be shared.
fn crosses_threads<T: Storied + Send>() {
    needs_send::<HistLock<T>>();
    needs_sync::<HistLock<T>>();
    needs_send::<Seat<T>>();
}

/// Whether the calls of a caller are numbered in order from 0, and there are `count` of them.
fn are_in_order(calls: &[Call], caller: u32, count: u64) -> bool {
    let mut next = 0;
    for call in calls {
        if call.0 == caller {
            if next >= count || call.1 != next {
                return false;
            }
            next += 1;
        }
    }
    next == count
}

#[test]
fn two_callers_in_turn(rt: HostRuntime) -> Result<(), Fail> {
    crosses_threads::<Roll>();
    let roll = in_turn(&rt, rt.alloc(), empty(rt.alloc()))?;
    assert_eq!(rt; roll.label, 7);
    assert_eq!(rt; roll.calls.len(), 2);
    assert_eq!(rt; roll.calls[0], (0, 0));
    assert_eq!(rt; roll.calls[1], (1, 0));
    let roll = unused(rt.alloc(), roll);
    assert_eq!(rt; (roll.label, roll.calls.len()), (7, 2));
    Ok(())
}

#[test]
fn callers_at_once(rt: HostRuntime) -> Result<(), Fail> {
    for (callers, count) in [(1, 1000), (2, 2000), (8, 1000)] {
        let roll = at_once(&rt, rt.alloc(), empty(rt.alloc()), callers, count)?;
        assert_eq!(rt; roll.calls.len() as u64, u64::from(callers) * count);
        for caller in 0..callers {
            assert!(rt;
                are_in_order(roll.calls.as_slice(), caller, count),
                "caller {caller}"
            );
        }
    }
    Ok(())
}
