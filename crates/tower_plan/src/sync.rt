//! Which event comes next on the way to a page that is on the ground.

ghost use Rattle.std.specs.Prelude.{IsTrue, MatchOption, ◌↔◌, ◌+◌, ◌<◌, ◌≡◌, ℕ};
ghost use Rattle.tower_core.specs.TreeShape.{IsTree, IsUpper, is_within, nodes};
ghost use Rattle.tower_core.specs.Column.{IsCoherent};
ghost use Rattle.tower_core.specs.Trail.{IsAllowed, IsSettled, state_after};
ghost use Rattle.tower_plan.specs.Plan.{IfDo};
ghost use Rattle.tower_plan.specs.Sync.{IsDeepestPusher, IsSyncAnswer, IsOneLess, IsSyncCost, NoPusher, pushing};

use crate::table::depths;
use crate::{Next, Rights};
use hist_plain::{Event, Keep};
use tower_core::{Right, Tree};

/// The deepest node that pushes its copy of the page.
fn deepest_pusher<R: Rights>(tree: &Tree, rights: &R, page: u32, keep: Keep) -> Option<u32>
    requires same_tree { nodes tree.now ≡ R.node_count rights.now }
    requires page_in { page < R.page_count rights.now }
    ensures { MatchOption result (NoPusher tree.now ((R.state rights.now).column page) keep)
        (IsDeepestPusher tree.now ((R.state rights.now).column page) keep) }
{
    let depths = depths(tree);
    let mut deepest: Option<u32> = None;
    for node in 1..tree.nodes() {
        let pushes = rights.right(node, page) == Right::Write
            && (keep == Keep::Read || rights.at(node, page) != rights.at(tree.parent(node), page));
        if pushes {
            let is_deeper = match deepest {
                Some(best) => depths[best as usize] <= depths[node as usize],
                None => true,
            };
            if is_deeper {
                deepest = Some(node);
            }
        }
    }
    deepest
}

/// The message by which a node pushes, on the path of who asks or off it.
fn push(keep: Keep, on_path: bool, node: u32, page: u32) -> Event
    ensures { result ≡ pushing keep on_path node page }
{
    match keep {
        Keep::Write => {
            if on_path {
                Event::SyncOut { node, page }
            } else {
                Event::WriteBack { node, page }
            }
        }
        Keep::Read => {
            if on_path {
                Event::WriteOut { node, page }
            } else {
                Event::DenyWrites { node, page }
            }
        }
    }
}

/// Whether the page is settled.
fn is_settled<R: Rights>(rights: &R, page: u32, from: u64) -> bool
    requires nodes { 0 < R.node_count rights.now }
    requires page_in { page < R.page_count rights.now }
    ensures { IsTrue result ↔ IsSettled from ((R.state rights.now).column page) }
{
    let at = rights.at(0, page);
    from <= at || rights.newest(page) <= at
}

/// What the rule says.
fn by_rule<R: Rights>(tree: &Tree, rights: &R, page: u32, node: u32, from: u64, keep: Keep) -> Next
    requires same_tree { nodes tree.now ≡ R.node_count rights.now }
    requires upper { IsUpper tree.now node }
    requires page_in { page < R.page_count rights.now }
    requires coherent { IsCoherent tree.now (R.state rights.now).len ((R.state rights.now).column page) }
    requires ground { ((R.state rights.now).column page).right 0 ≡ Right.Write }
    ensures { IsSyncAnswer tree.now (R.state rights.now) page node from keep result }
{
    // The proof reads here that this is a tree of at most `MAX_NODES` nodes.
    let _nodes = tree.nodes();
    if is_settled(rights, page, from) {
        return Next::Ready;
    }
    match deepest_pusher(tree, rights, page, keep) {
        Some(other) => Next::Do {
            event: push(keep, tree.within(node, other), other, page),
        },
        None => Next::Ready,
    }
}

/// The next event towards settling the page: until the disk has a copy at least as new as place
/// `from`. The deepest node with Write and a changed copy pushes it; if only Read is kept, the deepest
/// with Write. If the pushing node is on the path to the node of the sync, it sends SyncOut or
/// WriteOut, and else it gets WriteBack or DenyWrites. Ready means that the page is settled. This
/// rule is this project's own.
pub fn next_sync<R: Rights>(
    tree: &Tree,
    rights: &R,
    page: u32,
    node: u32,
    from: u64,
    keep: Keep,
) -> Next
    requires same_tree { nodes tree.now ≡ R.node_count rights.now }
    requires upper { IsUpper tree.now node }
    requires page_in { page < R.page_count rights.now }
    requires coherent { IsCoherent tree.now (R.state rights.now).len ((R.state rights.now).column page) }
    requires ground { ((R.state rights.now).column page).right 0 ≡ Right.Write }
    ensures rule { IsSyncAnswer tree.now (R.state rights.now) page node from keep result }
    ensures allowed { IfDo result (IsAllowed tree.now (R.page_count rights.now) (R.state rights.now)) }
    ensures ready { result ≡ Next.Ready ↔ IsSettled from ((R.state rights.now).column page) }
    ensures cheaper { IfDo result (λ event.
        IsOneLess (IsSyncCost tree.now ((R.state rights.now).column page) from keep)
        (IsSyncCost tree.now ((state_after tree.now (R.state rights.now) event).column page) from keep)) }
{
    // The proof reads here that this is a tree of at most `MAX_NODES` nodes.
    let _nodes = tree.nodes();
    by_rule(tree, rights, page, node, from, keep)
}
