//! One disk wins an opening.

ghost use Rattle.std.specs.Prelude.{◌≡◌, ◌<◌, ◌≤◌, ◌^◌, max, true, false};
ghost use Rattle.mirror_rules.specs.Tree as machine;
ghost use Rattle.mirror_rules.specs.Claims.{Every};
ghost use Rattle.mirror_rules.specs.Opening.{Wins};
ghost use Rattle.mirror_layer.specs.View.{tree_of, beside_in, seat_of, cell_of};
ghost use Rattle.mirror_layer.specs.Winning.{Waits, Below, WaitsUnder};
ghost use Rattle.mirror_layer.specs.Winning as winning;

use crate::asked::{Held, Side, level};
use crate::node::{Mark, Node, Unopened};

/// The greatest generation of the good disks; 0 if none is good.
#[tactic(auto, using(crate::proofs::WinSteps::best_append, crate::proofs::AdmitSteps::good_append))]
pub(crate) fn best<D: Side, H: Unopened>(node: &Node<D, H>) -> u64
    ensures best { result ≡ winning.best (machine.seats (tree_of node.now)) }
    ensures low { winning.is_good (machine.seats (tree_of node.now)) ≡ true → 1 ≤ result }
    ensures high { result < 2 ^ 63 }
{
    match node {
        Node::Opened(mark, disk) => match mark {
            Mark::Live => level(disk),
            Mark::Left => level(disk),
            Mark::Down => 0,
        },
        Node::Shut(_) => 0,
        Node::Coherency(below) => best(below),
        Node::Mirror(left, right) => best(left).max(best(right)),
    }
}

/// Makes a good disk of this generation live.
fn win_leaf<D: Side>(mark: &mut Mark, disk: &Held<D>, best: u64) -> bool
    requires { Waits (seat_of mark.old (cell_of disk.now)) }
    ensures won { result ≡ true → (seat_of mark.old (cell_of disk.now) ≡ machine.In false (cell_of disk.now)) × (seat_of mark.new (cell_of disk.now) ≡ machine.In true (cell_of disk.now)) × (disk.now.generation ≡ best) }
    ensures lost { result ≡ false → (mark.new ≡ mark.old) × ((c : machine.Cell) → seat_of mark.old (cell_of disk.now) ≡ machine.In false c → c.now.generation ≡ best → ⊥) }
{
    match mark {
        Mark::Left => {
            if level(disk) == best {
                *mark = Mark::Live;
                return true;
            }
            false
        }
        Mark::Live => unreachable!(),
        Mark::Down => false,
    }
}

/// Makes the leftmost good disk of this generation live, which no good disk passes. False if there is none.
pub(crate) fn win<D: Side, H: Unopened>(node: &mut Node<D, H>, best: u64) -> bool
    requires { WaitsUnder best node.old }
    ensures won { result ≡ true → (w : machine.Image) × (w.generation ≡ best) × Wins w (machine.seats (tree_of node.old)) (machine.seats (tree_of node.new)) }
    ensures lost { result ≡ false → Every (Below best) (machine.seats (tree_of node.old)) × (machine.seats (tree_of node.new) ≡ machine.seats (tree_of node.old)) }
    ensures beside { beside_in node.new ≡ beside_in node.old }
{
    match node {
        Node::Opened(mark, disk) => win_leaf(mark, disk, best),
        Node::Shut(_) => false,
        Node::Coherency(below) => win(below, best),
        Node::Mirror(left, right) => {
            let left: &mut Node<D, H> = left;
            let right: &mut Node<D, H> = right;
            if win(left, best) {
                return true;
            }
            win(right, best)
        }
    }
}
