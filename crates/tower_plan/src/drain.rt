//! Which event comes next on the way to the end of a subtree's channels.

ghost use Rattle.std.specs.Prelude.{MatchOption, ℕ, ◌↔◌, ◌+◌, ◌<◌, ◌≡◌};
ghost use Rattle.tower_core.specs.TreeShape.{IsUpper, is_within, nodes};
ghost use Rattle.tower_core.specs.Column.{IsCoherent};
ghost use Rattle.tower_core.specs.Trail.{HoldsNothing, IsAllowed, IsSubtreeEmpty, state_after};
ghost use Rattle.tower_plan.specs.Plan.{IfDo};
ghost use Rattle.tower_plan.specs.Drain.{IsDrainAnswer, IsFirstHolder, IsLowestHeld, NoHolder, rights_below};
ghost use Rattle.tower_core.specs.Flags.{AreFlags};

use crate::plan::revoke;
use crate::table::depths;
use crate::{Next, Rights};
use hist_plain::MAX_NODES;
use tower_core::{Right, Tree, subtree};

/// The event that comes next on the way to the end of the channels of a subtree. On the lowest page
/// on which a node of the subtree has a right, the deepest such node, and of equal depth the one of
/// the greatest number, gets FlushBack if it has Write and DeleteRange if it has Read. Ready
/// means that no node of the subtree has a right. This rule is this project's own.
pub fn next_drain<R: Rights>(tree: &Tree, rights: &R, node: u32) -> Next
    requires same_tree { nodes tree.now ≡ R.node_count rights.now }
    requires upper { IsUpper tree.now node }
    requires coherent { (page : ℕ) → page < R.page_count rights.now →
        IsCoherent tree.now (R.state rights.now).len ((R.state rights.now).column page) }
    ensures rule { IsDrainAnswer tree.now (R.page_count rights.now) (R.state rights.now) node result }
    ensures ready { result ≡
        Next.Ready ↔ IsSubtreeEmpty tree.now (R.page_count rights.now) (R.state rights.now) node }
    ensures done { result ≡ Next.Ready ↔
        (rights_below tree.now (R.state rights.now) node (R.page_count rights.now) ≡ 0) }
    ensures allowed { IfDo result (IsAllowed tree.now (R.page_count rights.now) (R.state rights.now)) }
    ensures cheaper { IfDo result (λ event.
        rights_below tree.now (state_after tree.now (R.state rights.now) event)
        node (R.page_count rights.now) + 1
        ≡ rights_below tree.now (R.state rights.now) node (R.page_count rights.now)) }
{
    // The proof reads here that this is a tree of at most `MAX_NODES` nodes.
    let _nodes = tree.nodes();
    by_rule(tree, rights, node)
}

/// What the rule says.
fn by_rule<R: Rights>(tree: &Tree, rights: &R, top: u32) -> Next
    requires same_tree { nodes tree.now ≡ R.node_count rights.now }
    requires upper { IsUpper tree.now top }
    requires coherent { (page : ℕ) → page < R.page_count rights.now →
        IsCoherent tree.now (R.state rights.now).len ((R.state rights.now).column page) }
    ensures { IsDrainAnswer tree.now (R.page_count rights.now) (R.state rights.now) top result }
{
    // The proof reads here that this is a tree of at most `MAX_NODES` nodes.
    let _nodes = tree.nodes();
    match lowest_held(rights, top) {
        Some(page) => match first_holder(tree, rights, &subtree(tree, top), top, page) {
            Some(node) => Next::Do {
                event: revoke(Right::Write, rights.right(node, page), node, page),
            },
            None => Next::Ready,
        },
        None => Next::Ready,
    }
}

/// The lowest page on which the node has a right.
fn lowest_held<R: Rights>(rights: &R, node: u32) -> Option<u32>
    requires { node < R.node_count rights.now }
    ensures { MatchOption result
        (HoldsNothing (R.page_count rights.now) (R.state rights.now) node)
        (IsLowestHeld (R.page_count rights.now) (R.state rights.now) node) }
{
    for page in 0..rights.pages() {
        if rights.right(node, page) != Right::Nothing {
            return Some(page);
        }
    }
    None
}

/// The deepest node of the subtree with a right on the page, and of equal depth the one of the
/// greatest number.
fn first_holder<R: Rights>(
    tree: &Tree,
    rights: &R,
    within: &[bool; MAX_NODES],
    top: u32,
    page: u32,
) -> Option<u32>
    requires same_tree { nodes tree.now ≡ R.node_count rights.now }
    requires subtree { AreFlags (λ node. is_within tree.now node top) (nodes tree.now) within.now }
    requires page_in { page < R.page_count rights.now }
    ensures { MatchOption result
        (NoHolder tree.now ((R.state rights.now).column page) top)
        (IsFirstHolder tree.now ((R.state rights.now).column page) top) }
{
    let depths = depths(tree);
    let mut first: Option<u32> = None;
    for node in 0..tree.nodes() {
        if within[node as usize] && rights.right(node, page) != Right::Nothing {
            let comes_first = match first {
                Some(best) => depths[best as usize] <= depths[node as usize],
                None => true,
            };
            if comes_first {
                first = Some(node);
            }
        }
    }
    first
}
