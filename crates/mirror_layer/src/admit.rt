//! The good disks of a ground: one wins, and the others join it.

ghost use Rattle.std.specs.Prelude.{◌≡◌, ◌<◌, ◌≤◌, ◌^◌, ℕ, Bool, List, OnOk, true, false, length};
ghost use Rattle.mirror_rules.specs.Tree as machine;
ghost use Rattle.mirror_rules.specs.Claims.{Every};
ghost use Rattle.mirror_rules.specs.Opening.{Wins, Enters};
ghost use Rattle.mirror_layer.specs.View.{tree_of, beside_in};
ghost use Rattle.mirror_layer.specs.Calls.{all_told, answered};
ghost use Rattle.mirror_layer.specs.Places.{IsSpare};
ghost use Rattle.mirror_layer.specs.Coming.{AllCome};
ghost use Rattle.mirror_layer.specs.Winning.{Waits, Admits};
ghost use Rattle.mirror_layer.specs.Winning as winning;

use crate::asked::Side;
use crate::came::Notice;
use crate::enter::{Entered, enter_all};
use crate::node::{Mark, Node, Unopened};
use crate::win::win;
use disk_format::ImageShape;

/// Whether a disk has an image, and did not give way.
#[tactic(auto, using(crate::proofs::AdmitSteps::good_append))]
pub(crate) fn is_good<D: Side, H: Unopened>(node: &Node<D, H>) -> bool
    ensures { result ≡ winning.is_good (machine.seats (tree_of node.now)) }
{
    match node {
        Node::Opened(mark, _) => match mark {
            Mark::Live => true,
            Mark::Left => true,
            Mark::Down => false,
        },
        Node::Shut(_) => false,
        Node::Coherency(below) => is_good(below),
        Node::Mirror(left, right) => {
            let first = is_good(left);
            let second = is_good(right);
            first || second
        }
    }
}

/// Lets the leftmost good disk of the greatest generation win, which this is, and the other good disks join it. A disk is
/// good.
///
/// `came` gets, by the disks' places, what the opening makes of each that is live at its end.
pub(crate) fn admit<D: Side, H: Unopened>(
    node: &mut Node<D, H>,
    disks: usize,
    generation: u64,
    spare: &mut Node<D, H>,
    shape: &ImageShape,
    ours: &mut [u8],
    its: &mut [u8],
    came: &mut [Option<Notice>],
) -> Entered
    requires waits { Every Waits (machine.seats (tree_of node.old)) }
    requires good { winning.is_good (machine.seats (tree_of node.old)) ≡ true }
    requires best { generation ≡ winning.best (machine.seats (tree_of node.old)) }
    requires low { 1 ≤ generation }
    requires high { generation < 2 ^ 63 }
    requires disks { disks ≡ length (beside_in node.old) }
    requires spare { IsSpare shape.now spare.old }
    requires shapes { Every (λ b. b.shape ≡ shape.now) (beside_in node.old) }
    requires ours { length ours.old ≡ shape.now.page_size }
    requires its { length its.old ≡ shape.now.page_size }
    requires came { length came.old ≡ disks }
    ensures admits { (told : Bool) → (told ≡ true → all_told (beside_in node.old) ≡ true) → Admits told generation shape.now.pages disks (machine.seats (tree_of node.old)) (answered result.outcome) result.wrote (machine.seats (tree_of node.new)) }
    ensures came { OnOk result.outcome (AllCome (all_told (beside_in node.old)) shape.now.pages (machine.seats (tree_of node.old)) (machine.seats (tree_of node.new)) came.new) }
    ensures live { machine.is_live (tree_of node.new) ≡ true }
    ensures spare { IsSpare shape.now spare.new }
    ensures beside { beside_in node.new ≡ beside_in node.old }
{
    if !win(node, generation) {
        unreachable!();
    }
    enter_all(node, disks, generation, spare, shape, ours, its, came)
}
