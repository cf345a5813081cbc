//! Which of the disks of a file a mount would take.

ghost use Rattle.std.specs.Prelude.{◌≡◌};
ghost use Rattle.std.specs.List.{list_any};
ghost use Rattle.stack_accept.specs.Plan.{plan_of};
ghost use Rattle.image_looks.specs.Disks.{beats, is_left, stands_in, wins};

use crate::found::{Found, Look};
use script_meaning::StoreKey;
use stack_accept::GroundPlan;

/// Whether a disk stands in a plan.
fn stands_in(plan: &GroundPlan, number: u32) -> bool
    ensures { result ≡ stands_in (plan_of plan.now) number }
{
    match plan {
        GroundPlan::Disk { disk } => *disk == number,
        GroundPlan::Mirror { left, right } => stands_in(left, number) || stands_in(right, number),
        GroundPlan::Coherency { below } => stands_in(below, number),
    }
}

/// Whether a disk stands left of another.
fn is_left(plan: &GroundPlan, number: u32, other: u32) -> bool
    ensures { result ≡ is_left (plan_of plan.now) number other }
{
    match plan {
        GroundPlan::Disk { .. } => false,
        GroundPlan::Mirror { left, right } => {
            (stands_in(left, number) && stands_in(right, other))
                || is_left(left, number, other)
                || is_left(right, number, other)
        }
        GroundPlan::Coherency { below } => is_left(below, number, other),
    }
}

/// Whether a look at another disk of the file found an image that a mount takes before one of this generation.
#[tactic(auto, unfolding(crate::specs::Disks::beats))]
fn beats(plan: &GroundPlan, store: StoreKey, generation: u64, other: Look) -> bool
    ensures { result ≡ beats (plan_of plan.now) store generation other }
{
    if other.store.file != store.file {
        return false;
    }
    match other.found {
        Found::Image { generation: its } => {
            its > generation || (its == generation && is_left(plan, other.store.disk, store.disk))
        }
        _ => false,
    }
}

/// Whether one of the looks found an image that a mount takes before one of this generation on a store.
fn is_beaten(plan: &GroundPlan, looks: &[Look], store: StoreKey, generation: u64) -> bool
    ensures { result ≡ list_any (beats (plan_of plan.now) store generation) looks.now }
{
    looks
        .iter()
        .any(|other| beats(plan, store, generation, *other))
}

/// Whether an image of this generation on a store is the one that a mount takes.
pub(crate) fn wins(plan: &GroundPlan, looks: &[Look], store: StoreKey, generation: u64) -> bool
    ensures { result ≡ wins (plan_of plan.now) looks.now store generation }
{
    !is_beaten(plan, looks, store, generation)
}
