//! A disk that joins a ground: it gets the pages that differ, and the ground's generation.

ghost use Rattle.std.specs.Prelude.{◌≡◌, ◌≢◌, ◌<◌, ◌≤◌, ◌^◌, ◌==◌, ◌||◌, ℕ, List, Bool, length, true, false};
ghost use Rattle.mirror_rules.specs.Tree as machine;
ghost use Rattle.mirror_rules.specs.Claims.{Every, Nth};
ghost use Rattle.mirror_layer.specs.View.{beside_of, beside_in, cell_of, tree_of};
ghost use Rattle.mirror_layer.specs.Calls.{HasPages};
ghost use Rattle.mirror_layer.specs.Joining.{CopiesPage, Settles, Joins, Tells};

use crate::asked::{Call, Held, Side, ask, level, read_disk};
use crate::node::{Node, Unopened};
use crate::round::read;
use disk_format::ImageShape;
use page_ground::StoreFault;

/// What became of a page of a disk that joins.
#[derive(Clone, Copy)]
pub(crate) enum Copied {
    /// The disk had the ground's page.
    Same,
    /// It got the ground's page.
    Written,
    /// It refused a call.
    Left,
    /// The ground refused the read.
    Gone(StoreFault),
}

/// Whether two pages are the same.
fn are_same(first: &[u8], second: &[u8]) -> bool
    ensures same { result ≡ true → first.now ≡ second.now }
    ensures other { result ≡ false → first.now ≢ second.now }
{
    first == second
}

/// Gives a disk the ground's page, if it has another. The slices are one page each.
pub(crate) fn copy_page<D: Side, H: Unopened>(
    node: &mut Node<D, H>,
    disk: &mut Held<D>,
    page: u32,
    ours: &mut [u8],
    its: &mut [u8],
) -> Copied
    requires live { machine.is_live (tree_of node.old) ≡ true }
    requires suits { HasPages page (length ours.old) node.old }
    requires page { page < disk.old.shape.pages }
    requires size { length ours.old ≡ disk.old.shape.page_size }
    requires sizes { length its.old ≡ disk.old.shape.page_size }
    ensures copies { (told : Bool) → Tells told (beside_in node.old) disk.old → CopiesPage told page (machine.seats (tree_of node.old)) (cell_of disk.old) result (machine.seats (tree_of node.new)) (cell_of disk.new) }
    ensures beside { beside_in node.new ≡ beside_in node.old }
    ensures own { beside_of disk.new ≡ beside_of disk.old }
{
    match read(node, page, ours) {
        Err(fault) => Copied::Gone(fault),
        Ok(()) => match read_disk(disk, page, its) {
            Err(_) => Copied::Left,
            Ok(()) => {
                if are_same(its, ours) {
                    return Copied::Same;
                }
                match ask(disk, Call::Write { page, bytes: ours }) {
                    Ok(_) => Copied::Written,
                    Err(_) => Copied::Left,
                }
            }
        },
    }
}

/// How a joining ended.
#[derive(Clone, Copy)]
pub(crate) struct Joined {
    /// Whether the disk is live; or the ground refused a read.
    pub outcome: Result<bool, StoreFault>,
    /// Whether the disk's image has changed.
    pub wrote: bool,
}

/// Gives a disk that has all pages the ground's generation, with a flush before and after it.
fn settle<D: Side>(disk: &mut Held<D>, generation: u64) -> Joined
    requires low { 1 ≤ generation }
    requires high { generation < 2 ^ 63 }
    ensures settles { Settles generation (cell_of disk.old) result.outcome result.wrote (cell_of disk.new) }
    ensures own { beside_of disk.new ≡ beside_of disk.old }
{
    let before = level(disk);
    match ask(disk, Call::Flush) {
        Ok(_) => match ask(disk, Call::Raise { generation }) {
            Ok(_) => Joined {
                outcome: Ok(true),
                wrote: true,
            },
            Err(_) => Joined {
                outcome: Ok(false),
                wrote: level(disk) != before,
            },
        },
        Err(_) => Joined {
            outcome: Ok(false),
            wrote: false,
        },
    }
}

/// Lets a disk join that was taken out of a ground of this generation; the slices are one page each. `even` if it has the
/// ground's generation.
pub(crate) fn join<D: Side, H: Unopened>(
    node: &mut Node<D, H>,
    disk: &mut Held<D>,
    shape: &ImageShape,
    generation: u64,
    even: bool,
    ours: &mut [u8],
    its: &mut [u8],
) -> Joined
    requires live { machine.is_live (tree_of node.old) ≡ true }
    requires shapes { Every (λ b. b.shape ≡ shape.now) (beside_in node.old) }
    requires shape { disk.old.shape ≡ shape.now }
    requires ours { length ours.old ≡ shape.now.page_size }
    requires its { length its.old ≡ shape.now.page_size }
    requires low { 1 ≤ generation }
    requires high { generation < 2 ^ 63 }
    ensures joins { (told : Bool) → Tells told (beside_in node.old) disk.old → Joins told generation even shape.now.pages (machine.seats (tree_of node.old)) (cell_of disk.old) result.outcome result.wrote (machine.seats (tree_of node.new)) (cell_of disk.new) }
    ensures out { (i : ℕ) (b : machine.Why) (s : machine.Store) → Nth i (machine.seats (tree_of node.old)) (machine.Out b s) → Nth i (machine.seats (tree_of node.new)) (machine.Out b s) }
    ensures beside { beside_in node.new ≡ beside_in node.old }
    ensures own { beside_of disk.new ≡ beside_of disk.old }
{
    let mut even = even;
    let mut wrote = false;
    for page in 0..shape.pages {
        match copy_page(node, disk, page, ours, its) {
            Copied::Same => {}
            Copied::Written => {
                even = false;
                wrote = true;
            }
            Copied::Left => {
                return Joined {
                    outcome: Ok(false),
                    wrote,
                };
            }
            Copied::Gone(fault) => {
                return Joined {
                    outcome: Err(fault),
                    wrote,
                };
            }
        }
    }
    if even {
        return Joined {
            outcome: Ok(true),
            wrote,
        };
    }
    let settled = settle(disk, generation);
    Joined {
        outcome: settled.outcome,
        wrote: wrote || settled.wrote,
    }
}
