//! A disk wins an opening, and a winner that cannot be read may give way.

ghost use Rattle.std.specs.Prelude.{◌≡◌, ◌<◌, ◌≤◌, ◌^◌, Bool, List, IfOk, OnOk, length, true, false};
ghost use Rattle.mirror_rules.specs.Tree as machine;
ghost use Rattle.mirror_rules.specs.Claims.{Every, Pairs};
ghost use Rattle.mirror_rules.specs.Opening.{Yields};
ghost use Rattle.mirror_layer.specs.View.{tree_of, beside_in, beside_of, seat_of, cell_of};
ghost use Rattle.mirror_layer.specs.Calls.{all_told};
ghost use Rattle.mirror_layer.specs.Places.{IsSpare};
ghost use Rattle.mirror_layer.specs.Coming.{AllCome};
ghost use Rattle.mirror_layer.specs.Winning.{Waits};
ghost use Rattle.mirror_layer.specs.Winning as winning;
ghost use Rattle.mirror_layer.specs.Ceding.{AtFirst};
ghost use Rattle.mirror_layer.specs.Choosing.{Chooses, Other, NotOther, HasOther};

use crate::admit::admit;
use crate::asked::{Held, Side, has_failed, level};
use crate::came::Notice;
use crate::cede::{cede, live_count};
use crate::node::{Mark, Node, Unopened};
use crate::win::best;
use disk_format::ImageShape;
use page_ground::StoreFault;

/// Whether a disk has this generation, and no call to it has failed since it was opened.
fn is_calm_at<D: Side>(disk: &Held<D>, generation: u64) -> bool
    ensures calm { result ≡ true → (disk.now.generation ≡ generation) × (disk.now.faults ≤ disk.now.opened) }
    ensures other { result ≡ false → disk.now.generation ≡ generation → disk.now.opened < disk.now.faults }
{
    if has_failed(disk) {
        return false;
    }
    level(disk) == generation
}

/// The same of a good disk.
fn is_other<D: Side>(mark: &Mark, disk: &Held<D>, generation: u64) -> bool
    ensures found { result ≡ true → Other generation (beside_of disk.now) (seat_of mark.now (cell_of disk.now)) }
    ensures none { result ≡ false → NotOther generation (beside_of disk.now) (seat_of mark.now (cell_of disk.now)) }
{
    match mark {
        Mark::Live => is_calm_at(disk, generation),
        Mark::Left => is_calm_at(disk, generation),
        Mark::Down => false,
    }
}

/// Whether a good disk has this generation that has not failed since it was opened.
fn has_other<D: Side, H: Unopened>(node: &Node<D, H>, generation: u64) -> bool
    ensures found { result ≡ true → HasOther generation (beside_in node.now) (machine.seats (tree_of node.now)) }
    ensures none { result ≡ false → Pairs (NotOther generation) (beside_in node.now) (machine.seats (tree_of node.now)) }
{
    match node {
        Node::Opened(mark, disk) => is_other(mark, disk, generation),
        Node::Shut(_) => false,
        Node::Coherency(below) => has_other(below, generation),
        Node::Mirror(left, right) => {
            if has_other(left, generation) {
                return true;
            }
            has_other(right, generation)
        }
    }
}

/// Whether the winner of this generation gives way at a refusal: it alone is live, no image has changed, and another good disk has
/// its generation that was not left out.
fn may_yield<D: Side, H: Unopened>(node: &Node<D, H>, wrote: bool, generation: u64) -> bool
    ensures quiet { result ≡ true → wrote ≡ false }
    ensures alone { result ≡ true → machine.lives (machine.seats (tree_of node.now)) ≡ 1 }
    ensures found { result ≡ true → HasOther generation (beside_in node.now) (machine.seats (tree_of node.now)) }
    ensures stays { result ≡ false → (xs vs : List machine.Seat) → Pairs AtFirst (beside_in node.now) xs → Yields generation wrote xs (machine.seats (tree_of node.now)) vs → ⊥ }
{
    if wrote {
        return false;
    }
    if live_count(node) != 1 {
        return false;
    }
    has_other(node, generation)
}

/// Lets one of the good disks win, and the other good disks join it. A winner that cannot be read gives way if it alone is live, no
/// image has changed, and another good disk that was not left out has its generation; then one of those that remain wins.
///
/// It answers the ground's generation, that of the winner. An error is the fault of the ground's last read, if no winner could
/// give way.
///
/// `came` gets, by the disks' places, what the opening makes of each that is live at its end.
pub(crate) fn choose<D: Side, H: Unopened>(
    node: &mut Node<D, H>,
    disks: usize,
    spare: &mut Node<D, H>,
    shape: &ImageShape,
    ours: &mut [u8],
    its: &mut [u8],
    came: &mut [Option<Notice>],
) -> Result<u64, StoreFault>
    requires waits { Every Waits (machine.seats (tree_of node.old)) }
    requires good { winning.is_good (machine.seats (tree_of node.old)) ≡ true }
    requires first { Pairs AtFirst (beside_in node.old) (machine.seats (tree_of node.old)) }
    requires disks { disks ≡ length (beside_in node.old) }
    requires spare { IsSpare shape.now spare.old }
    requires shapes { Every (λ b. b.shape ≡ shape.now) (beside_in node.old) }
    requires ours { length ours.old ≡ shape.now.page_size }
    requires its { length its.old ≡ shape.now.page_size }
    requires came { length came.old ≡ disks }
    ensures chooses { (told : Bool) → (told ≡ true → all_told (beside_in node.old) ≡ true) → Chooses told shape.now.pages (machine.seats (tree_of node.old)) result (machine.seats (tree_of node.new)) }
    ensures came { OnOk result (AllCome (all_told (beside_in node.old)) shape.now.pages (machine.seats (tree_of node.old)) (machine.seats (tree_of node.new)) came.new) }
    ensures low { IfOk result (λ g. 1 ≤ g) }
    ensures high { IfOk result (λ g. g < 2 ^ 63) }
    ensures live { machine.is_live (tree_of node.new) ≡ true }
    ensures spare { IsSpare shape.now spare.new }
    ensures beside { beside_in node.new ≡ beside_in node.old }
{
    let generation = best(node);
    let entered = admit(node, disks, generation, spare, shape, ours, its, came);
    match entered.outcome {
        Ok(()) => Ok(generation),
        Err(fault) => {
            if !may_yield(node, entered.wrote, generation) {
                return Err(fault);
            }
            cede(node);
            choose(node, disks, spare, shape, ours, its, came)
        }
    }
}
