//! The good disks join the winner, from left to right.

ghost use Rattle.std.specs.Prelude.{◌≡◌, ◌≢◌, ◌+◌, ◌<◌, ◌≤◌, ◌^◌, ℕ, List, Bool, OnOk, length, true, false};
ghost use Rattle.mirror_rules.specs.Tree as machine;
ghost use Rattle.mirror_rules.specs.Claims.{Every, Nth};
ghost use Rattle.mirror_layer.specs.View.{beside_in, tree_of, seat_of};
ghost use Rattle.mirror_layer.specs.Joining.{joined, ended};
ghost use Rattle.mirror_rules.specs.Opening.{Enters};
ghost use Rattle.mirror_layer.specs.Calls.{all_told, answered};
ghost use Rattle.mirror_layer.specs.Places.{IsLeaf, IsSpare, first_seat, first_beside, EntersLeaf, LeafTells};
ghost use Rattle.mirror_layer.specs.Coming.{AllCome, IsWord, joining_word};

use crate::asked::{Side, level};
use crate::came::Notice;
use crate::join::join;
use crate::node::{Mark, Node, Unopened};
use crate::place::exchange_at;
use disk_format::ImageShape;
use page_ground::StoreFault;

/// What became of a disk that may join.
#[derive(Clone, Copy)]
pub(crate) struct Entered {
    /// Err if the ground refused a read.
    pub outcome: Result<(), StoreFault>,
    /// Whether an image has changed.
    pub wrote: bool,
    /// What the opening makes of the disk, if it is live at the end. None where all disks are meant.
    pub came: Option<Notice>,
}

/// What becomes of one that is live, or counts as down.
const STAYED: Entered = Entered {
    outcome: Ok(()),
    wrote: false,
    came: None,
};

/// What becomes of one that was not opened: if it is live at the end, it was made.
const SHUT: Entered = Entered {
    outcome: Ok(()),
    wrote: false,
    came: Some(Notice::Made),
};

/// What the opening made of a disk that joined, by whether its image has changed.
fn word_of(wrote: bool) -> Option<Notice>
    ensures { result ≡ joining_word wrote }
{
    if wrote {
        return Some(Notice::Copied);
    }
    None
}

/// Marks a disk live if it joined.
pub(crate) fn mark_joined(
    mark: &mut Mark,
    outcome: Result<bool, StoreFault>,
) -> Result<(), StoreFault>
    requires { (c : machine.Cell) → seat_of mark.old c ≡ machine.In false c }
    ensures answer { answered result ≡ ended outcome }
    ensures seat { (c : machine.Cell) → seat_of mark.new c ≡ machine.In (joined outcome) c }
{
    match outcome {
        Ok(true) => {
            *mark = Mark::Live;
            Ok(())
        }
        Ok(false) => Ok(()),
        Err(fault) => Err(fault),
    }
}

/// Lets a leaf join that was taken out of a ground of this generation, if it is a good disk that is not live.
pub(crate) fn enter_leaf<D: Side, H: Unopened>(
    node: &mut Node<D, H>,
    leaf: &mut Node<D, H>,
    generation: u64,
    shape: &ImageShape,
    ours: &mut [u8],
    its: &mut [u8],
) -> Entered
    requires leaf { IsLeaf leaf.old }
    requires live { (c : machine.Cell) → first_seat leaf.old ≡ machine.In false c → machine.is_live (tree_of node.old) ≡ true }
    requires shapes { Every (λ b. b.shape ≡ shape.now) (beside_in node.old) }
    requires shape { (first_beside leaf.old).shape ≡ shape.now }
    requires ours { length ours.old ≡ shape.now.page_size }
    requires its { length its.old ≡ shape.now.page_size }
    requires low { 1 ≤ generation }
    requires high { generation < 2 ^ 63 }
    ensures enters { (told : Bool) → LeafTells told (beside_in node.old) leaf.old → EntersLeaf told generation shape.now.pages (machine.seats (tree_of node.old)) (first_seat leaf.old) result.outcome result.wrote (machine.seats (tree_of node.new)) (first_seat leaf.new) }
    ensures came { IsWord (first_seat leaf.old) result.wrote result.came }
    ensures leaf { IsLeaf leaf.new }
    ensures out { (i : ℕ) (b : machine.Why) (s : machine.Store) → Nth i (machine.seats (tree_of node.old)) (machine.Out b s) → Nth i (machine.seats (tree_of node.new)) (machine.Out b s) }
    ensures beside { beside_in node.new ≡ beside_in node.old }
    ensures own { first_beside leaf.new ≡ first_beside leaf.old }
{
    match leaf {
        Node::Opened(mark, disk) => match mark {
            Mark::Left => {
                let even = level(disk) == generation;
                let joined = join(node, disk, shape, generation, even, ours, its);
                let outcome = mark_joined(mark, joined.outcome);
                Entered {
                    outcome,
                    wrote: joined.wrote,
                    came: word_of(joined.wrote),
                }
            }
            Mark::Live => STAYED,
            Mark::Down => STAYED,
        },
        Node::Shut(_) => SHUT,
        Node::Coherency(_) => unreachable!(),
        Node::Mirror(_, _) => unreachable!(),
    }
}

/// Lets the disk at a place join, if it is good and not live. `spare` is a leaf that is no disk's, which stands at the place
/// meanwhile.
fn enter_at<D: Side, H: Unopened>(
    node: &mut Node<D, H>,
    place: usize,
    generation: u64,
    spare: &mut Node<D, H>,
    shape: &ImageShape,
    ours: &mut [u8],
    its: &mut [u8],
) -> Entered
    requires live { machine.is_live (tree_of node.old) ≡ true }
    requires place { place < length (beside_in node.old) }
    requires spare { IsSpare shape.now spare.old }
    requires shapes { Every (λ b. b.shape ≡ shape.now) (beside_in node.old) }
    requires ours { length ours.old ≡ shape.now.page_size }
    requires its { length its.old ≡ shape.now.page_size }
    requires low { 1 ≤ generation }
    requires high { generation < 2 ^ 63 }
    ensures enters { (told : Bool) → (told ≡ true → all_told (beside_in node.old) ≡ true) → Enters told generation shape.now.pages place 1 (machine.seats (tree_of node.old)) (answered result.outcome) result.wrote (machine.seats (tree_of node.new)) }
    ensures came { (x : machine.Seat) → Nth place (machine.seats (tree_of node.old)) x → IsWord x result.wrote result.came }
    ensures live { machine.is_live (tree_of node.new) ≡ true }
    ensures spare { IsSpare shape.now spare.new }
    ensures beside { beside_in node.new ≡ beside_in node.old }
{
    exchange_at(node, place, spare);
    let entered = enter_leaf(node, spare, generation, shape, ours, its);
    exchange_at(node, place, spare);
    entered
}

/// Lets each good disk that is not live join a ground of this generation, from left to right. Ends if the ground refuses a
/// read.
///
/// `came` gets, by the disks' places, what the opening makes of each that is live at its end.
pub(crate) fn enter_all<D: Side, H: Unopened>(
    node: &mut Node<D, H>,
    disks: usize,
    generation: u64,
    spare: &mut Node<D, H>,
    shape: &ImageShape,
    ours: &mut [u8],
    its: &mut [u8],
    came: &mut [Option<Notice>],
) -> Entered
    requires live { machine.is_live (tree_of node.old) ≡ true }
    requires disks { disks ≡ length (beside_in node.old) }
    requires spare { IsSpare shape.now spare.old }
    requires shapes { Every (λ b. b.shape ≡ shape.now) (beside_in node.old) }
    requires ours { length ours.old ≡ shape.now.page_size }
    requires its { length its.old ≡ shape.now.page_size }
    requires came { length came.old ≡ disks }
    requires low { 1 ≤ generation }
    requires high { generation < 2 ^ 63 }
    ensures enters { (told : Bool) → (told ≡ true → all_told (beside_in node.old) ≡ true) → Enters told generation shape.now.pages 0 disks (machine.seats (tree_of node.old)) (answered result.outcome) result.wrote (machine.seats (tree_of node.new)) }
    ensures came { OnOk result.outcome (AllCome (all_told (beside_in node.old)) shape.now.pages (machine.seats (tree_of node.old)) (machine.seats (tree_of node.new)) came.new) }
    ensures live { machine.is_live (tree_of node.new) ≡ true }
    ensures spare { IsSpare shape.now spare.new }
    ensures beside { beside_in node.new ≡ beside_in node.old }
{
    let mut wrote = false;
    for place in 0..disks {
        let entered = enter_at(node, place, generation, spare, shape, ours, its);
        wrote |= entered.wrote;
        came[place] = entered.came;
        match entered.outcome {
            Ok(()) => {}
            Err(fault) => {
                return Entered {
                    outcome: Err(fault),
                    wrote,
                    came: None,
                };
            }
        }
    }
    Entered {
        outcome: Ok(()),
        wrote,
        came: None,
    }
}
