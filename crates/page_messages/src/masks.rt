//! Sets of nodes as numbers.

ghost use Rattle.std.specs.Prelude.{◌≡◌, ◌<◌, ◌↔◌, ℕ, IsTrue, All, Contains};
ghost use Rattle.page_messages.specs.Masks.{IsIn, With, Without};

/// Whether a node is in the set.
pub fn has(mask: u32, node: u32) -> bool
    requires { node < 32 }
    ensures { IsTrue result ↔ IsIn mask node }
{
    (mask >> node) & 1 == 1
}

/// The set with the node.
pub fn with(mask: u32, node: u32) -> u32
    requires { node < 32 }
    ensures { With mask node result }
{
    mask | (1 << node)
}

/// The set without the node.
pub fn without(mask: u32, node: u32) -> u32
    requires { node < 32 }
    ensures { Without mask node result }
{
    mask & !(1 << node)
}

/// The set of these nodes.
pub fn set_of(nodes: &[u32]) -> u32
    requires { All (λ node. node < 32) nodes.now }
    ensures { (node : ℕ) → IsIn result node ↔ Contains nodes.now node }
{
    let mut mask = 0;
    for node in nodes {
        mask = with(mask, *node);
    }
    mask
}
