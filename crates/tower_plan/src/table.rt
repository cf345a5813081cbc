//! What the rules ask of the tree, worked out once per call: a path and the depths.

ghost use Rattle.std.specs.Prelude.{◌<◌, ◌≡◌};
ghost use Rattle.tower_core.specs.TreeShape.{is_within, nodes};
ghost use Rattle.tower_plan.specs.Plan.{depth_of};
ghost use Rattle.tower_core.specs.Flags.{AreFlags};
ghost use Rattle.tower_plan.specs.Table.{AreNumbers};

use hist_plain::MAX_NODES;
use tower_core::Tree;

/// Which nodes are on the path from the ground to the node, both included.
pub fn path(tree: &Tree, node: u32) -> [bool; MAX_NODES]
    requires { node < nodes tree.now }
    ensures { AreFlags (is_within tree.now node) (nodes tree.now) result }
{
    // The proof reads here that this is a tree of at most `MAX_NODES` nodes.
    let _nodes = tree.nodes();
    let mut on = [false; MAX_NODES];
    let mut at = node;
    while at != 0 {
        on[at as usize] = true;
        at = tree.parent(at);
    }
    on[0] = true;
    on
}

/// How many steps up from each node the ground is.
pub fn depths(tree: &Tree) -> [u32; MAX_NODES]
    ensures { AreNumbers (depth_of tree.now) (nodes tree.now) result }
{
    let mut depths = [0; MAX_NODES];
    for node in 1..tree.nodes() {
        depths[node as usize] = depths[tree.parent(node) as usize] + 1;
    }
    depths
}
