//! Which nodes are in a subtree, worked out once for all of them.

ghost use Rattle.std.specs.Prelude.{◌<◌, ◌≡◌};
ghost use Rattle.tower_core.specs.TreeShape.{is_within, nodes};
ghost use Rattle.tower_core.specs.Flags.{AreFlags};

use crate::Tree;
use hist_plain::MAX_NODES;

/// Which nodes are the top or below it. Looks at each node once.
pub fn subtree(tree: &Tree, top: u32) -> [bool; MAX_NODES]
    ensures { AreFlags (λ node. is_within tree.now node top) (nodes tree.now) result }
{
    let mut within = [false; MAX_NODES];
    for node in 0..tree.nodes() {
        within[node as usize] = is_next_within(tree, &within, node, top);
    }
    within
}

/// Whether a node is the top or below it; `earlier` says it of each earlier node.
fn is_next_within(tree: &Tree, earlier: &[bool; MAX_NODES], node: u32, top: u32) -> bool
    requires node_in { node < nodes tree.now }
    requires earlier { AreFlags (λ n. is_within tree.now n top) node earlier.now }
    ensures { result ≡ is_within tree.now node top }
{
    // The proof reads here that there are at most `MAX_NODES` nodes.
    let _nodes = tree.nodes();
    if node == top {
        return true;
    }
    node != 0 && earlier[tree.parent(node) as usize]
}
