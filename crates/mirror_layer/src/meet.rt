//! Each disk of a ground is opened, from left to right.

ghost use Rattle.std.specs.Prelude.{◌≡◌, OnOk, IfErr, Some, None};
ghost use Rattle.disk_format.specs.Shape.{IsShape};
ghost use Rattle.disk_layer.specs.declared.refused.OpenWhy.TheVariants.{Memory};
ghost use Rattle.mirror_rules.specs.Tree as machine;
ghost use Rattle.mirror_layer.specs.View.{beside_in, tree_of};
ghost use Rattle.mirror_layer.specs.Meeting.{AllLeft, AllNew, AllThere, IsNew, MeetsLeaf, Met, Reasons, Rested, bads_in, planned, shuts_in};

use crate::asked::hold;
use crate::node::{Mark, Node, Shut};
use disk_layer::{Disk, OpenWhy};
use spr_io::Store;
use std::alloc::Global;

/// Opens a disk that was not opened. None if its blocks are no image, or its store refused; the reason of the first is kept,
/// and whether the disk is blank.
///
/// An error is that memory ran out, and leaves it as it was.
fn meet_leaf<S: Store>(alloc: Global, shut: &mut Shut<S>) -> Result<Option<Disk<S>>, OpenWhy>
    requires { IsNew shut.old }
    ensures met { OnOk result (MeetsLeaf shut.old result shut.new) }
    ensures err { IfErr result (λ e. (e ≡ Memory) × (shut.new ≡ shut.old)) }
{
    let Some(store) = shut.store.take() else {
        unreachable!()
    };
    match Disk::open(alloc, store, shut.disk, &shut.shape) {
        Ok(disk) => Ok(Some(disk)),
        Err(err) => {
            shut.store = Some(err.store);
            match err.why {
                OpenWhy::BadImage { bad, blank } => {
                    shut.bad = Some(bad);
                    shut.blank = blank;
                    Ok(None)
                }
                OpenWhy::StoreFault { fault: _ } => Ok(None),
                OpenWhy::Memory => Err(OpenWhy::Memory),
            }
        }
    }
}

/// Opens each disk, from left to right. None is live.
///
/// An error is that memory ran out; then no store was written.
pub(crate) fn meet<S: Store>(
    alloc: Global,
    node: &mut Node<Disk<S>, Shut<S>>,
) -> Result<(), OpenWhy>
    requires { AllNew node.old }
    ensures met { OnOk result (Met (shuts_in node.old) (machine.seats (tree_of node.new))) }
    ensures reasons { OnOk result (Reasons (shuts_in node.old) (bads_in node.new)) }
    ensures err { IfErr result (λ e. e ≡ Memory) }
    ensures rests { Rested (shuts_in node.old) (machine.seats (tree_of node.new)) }
    ensures beside { beside_in node.new ≡ beside_in node.old }
    ensures planned { planned (tree_of node.new) ≡ planned (tree_of node.old) }
    ensures left { OnOk result (AllLeft node.new) }
    ensures there { OnOk result (AllThere node.new) }
{
    match node {
        Node::Opened(_, _) => unreachable!(),
        Node::Shut(kept) => match meet_leaf(alloc, &mut kept.shut) {
            Ok(Some(disk)) => {
                *node = Node::Opened(Mark::Left, hold(disk));
                Ok(())
            }
            Ok(None) => Ok(()),
            Err(why) => Err(why),
        },
        Node::Coherency(below) => meet(alloc, below),
        Node::Mirror(left, right) => match meet(alloc, left) {
            Ok(()) => meet(alloc, right),
            Err(why) => Err(why),
        },
    }
}
