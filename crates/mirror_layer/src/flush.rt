//! The raises that are owed, and the flush.

ghost use Rattle.std.specs.Prelude.{◌≡◌, ◌<◌, ◌≤◌, ◌^◌, Result, true};
ghost use Rattle.mirror_rules.specs.Tree as machine;
ghost use Rattle.mirror_rules.specs.Steps.{Raised, Pays, Flushes, is_fault};
ghost use Rattle.mirror_layer.specs.View.{tree_of, beside_in};
ghost use Rattle.mirror_layer.specs.Calls.{answered};

use crate::asked::{Call, Side};
use crate::node::{Node, Unopened};
use crate::round::pass;
use page_ground::StoreFault;

/// The greatest generation that there may be.
const LIMIT: u64 = 9_223_372_036_854_775_807;

/// The number that a raise writes in a ground of this generation: one more, up to the greatest. This project's own rule.
pub fn next_generation(level: u64) -> u64
    ensures next { result ≡ machine.next level }
    ensures low { 1 ≤ result }
    ensures high { result < 2 ^ 63 }
{
    if level < LIMIT { level + 1 } else { LIMIT }
}

/// Raises the live disks, each time to one more than the ground's generation, until a round makes no side stale.
///
/// A round that was taken gives the ground its number. A refused one leaves it, whatever stands on the disks.
pub fn raise_all<D: Side, H: Unopened>(
    node: &mut Node<D, H>,
    level: &mut u64,
) -> Result<(), StoreFault>
    requires { machine.is_live (tree_of node.old) ≡ true }
    ensures raised { Raised level.old (machine.seats (tree_of node.old)) (answered result) level.new (machine.seats (tree_of node.new)) }
    ensures beside { beside_in node.new ≡ beside_in node.old }
{
    let generation = next_generation(*level);
    match pass(node, Call::Raise { generation }) {
        Ok(true) => {
            *level = generation;
            Ok(())
        }
        Ok(false) => {
            *level = generation;
            raise_all(node, level)
        }
        Err(fault) => Err(fault),
    }
}

/// Raises until two rounds have made no side stale. After one a disk that refused it, or was not asked before the program was
/// stopped, may have the number of the live disks; after two it is below them.
fn raise_twice<D: Side, H: Unopened>(
    node: &mut Node<D, H>,
    level: &mut u64,
) -> Result<(), StoreFault>
    requires { machine.is_live (tree_of node.old) ≡ true }
    ensures pays { Pays level.old (machine.seats (tree_of node.old)) (answered result) level.new (machine.seats (tree_of node.new)) }
    ensures beside { beside_in node.new ≡ beside_in node.old }
{
    match raise_all(node, level) {
        Ok(()) => raise_all(node, level),
        Err(fault) => Err(fault),
    }
}

/// Pays what is owed. If it is refused, it stays owed.
fn pay<D: Side, H: Unopened>(
    node: &mut Node<D, H>,
    owed: &mut bool,
    level: &mut u64,
) -> Result<(), StoreFault>
    requires { machine.is_live (tree_of node.old) ≡ true }
    ensures pays { Pays level.old (machine.seats (tree_of node.old)) (answered result) level.new (machine.seats (tree_of node.new)) }
    ensures owes { owed.new ≡ is_fault (answered result) }
    ensures beside { beside_in node.new ≡ beside_in node.old }
{
    let answer = raise_twice(node, level);
    *owed = answer.is_err();
    answer
}

/// Pays what is owed; or flushes in one round, if nothing is. If that makes a side stale, a raise is owed, and paid.
pub fn flush<D: Side, H: Unopened>(
    node: &mut Node<D, H>,
    owed: &mut bool,
    level: &mut u64,
) -> Result<(), StoreFault>
    requires { machine.is_live (tree_of node.old) ≡ true }
    ensures flushes { Flushes owed.old level.old (machine.seats (tree_of node.old)) (answered result) owed.new level.new (machine.seats (tree_of node.new)) }
    ensures beside { beside_in node.new ≡ beside_in node.old }
{
    if *owed {
        return pay(node, owed, level);
    }
    match pass(node, Call::Flush) {
        Ok(true) => Ok(()),
        Ok(false) => pay(node, owed, level),
        Err(fault) => Err(fault),
    }
}
