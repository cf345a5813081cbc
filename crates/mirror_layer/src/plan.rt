//! The tree of a ground by its plan.

ghost use Rattle.std.specs.Prelude.{◌≡◌, IfOk};
ghost use Rattle.disk_format.specs.Shape.{IsShape};
ghost use Rattle.stack_accept.specs.Plan.{plan_of};
ghost use Rattle.mirror_layer.specs.View.{tree_of};
ghost use Rattle.mirror_layer.specs.Meeting.{AllEmpty, planned};

use crate::node::{Kept, Node, Shut};
use disk_format::ImageShape;
use disk_layer::Disk;
use spr_io::Store;
use stack_accept::GroundPlan;
use std::alloc::{AllocError, Global};

/// The tree of a plan, without its stores. So all memory of the tree is there before a store is moved.
pub(crate) fn empty_tree<S: Store>(
    alloc: Global,
    plan: &GroundPlan,
    shape: &ImageShape,
) -> Result<Node<Disk<S>, Shut<S>>, AllocError>
    requires { IsShape shape.now }
    ensures planned { IfOk result (λ node. planned (tree_of node) ≡ plan_of plan.now) }
    ensures empty { IfOk result (λ node. AllEmpty shape.now node) }
{
    match plan {
        GroundPlan::Disk { disk } => Ok(Node::Shut(Kept {
            shut: Shut {
                store: None,
                disk: *disk,
                shape: *shape,
                bad: None,
                blank: false,
                opened: 0,
            },
        })),
        GroundPlan::Mirror { left, right } => {
            let first = empty_tree(alloc, left, shape)?;
            let second = empty_tree(alloc, right, shape)?;
            let left_side = Box::new(alloc, first)?;
            let right_side = Box::new(alloc, second)?;
            Ok(Node::Mirror(left_side, right_side))
        }
        GroundPlan::Coherency { below } => {
            let part = empty_tree(alloc, below, shape)?;
            let side = Box::new(alloc, part)?;
            Ok(Node::Coherency(side))
        }
    }
}
