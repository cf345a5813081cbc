//! Which event comes next on the way to an access.

ghost use Rattle.std.specs.Prelude.{IsTrue, MatchOption, ℕ, ◌+◌, ◌<◌, ◌≡◌, ◌≢◌, ◌≤◌, ◌↔◌, false};
ghost use Rattle.tower_core.specs.TreeShape.{IsChild, IsTree, IsUpper, frames_of, nodes};
ghost use Rattle.tower_core.specs.Column.{IsCoherent, MayStep};
ghost use Rattle.tower_core.specs.Trail.{IsAllowed, held_below, state_after};
ghost use Rattle.tower_core.specs.declared.step.Step.{Step as AStep};

use crate::Rights;
use crate::table::{depths, path};
use hist_plain::{Event, MAX_NODES};
use tower_core::{Right, Tree};

/// What comes next.
#[derive(Debug, Drop)]
pub enum Next {
    /// Nothing is left to do.
    Ready,
    /// This event comes next.
    Do { event: Event },
}

ghost use Rattle.tower_plan.specs.Plan.{IfDo, IsAnswer, IsFirstHindrance, IsFirstLacking, IsReady, IsVictim, MayAccessFor, NoHindrance, NoneLacks, cost_of, hinders, is_full, is_left, is_write, lacks, must_change, revoking};
ghost use Rattle.tower_core.specs.Count.{count_below};
ghost use Rattle.tower_core.specs.TreeShape.{is_within};
ghost use Rattle.tower_core.specs.Flags.{AreFlags};
ghost use Rattle.tower_plan.specs.Table.{AreNumbers};

/// Whether a node on the path lacks what is wanted.
fn lacks(want: Right, right: Right) -> bool
    ensures { result ≡ lacks want right }
{
    match want {
        Right::Nothing => false,
        Right::Read => right == Right::Nothing,
        Right::Write => right != Right::Write,
    }
}

/// Whether a node off the path hinders what is wanted.
fn hinders(want: Right, right: Right) -> bool
    ensures { result ≡ hinders want right }
{
    match want {
        Right::Nothing => false,
        Right::Read => right == Right::Write,
        Right::Write => right != Right::Nothing,
    }
}

/// The deepest node off the path that hinders, and of equal depth the one of the greatest number.
fn first_hindrance<R: Rights>(
    tree: &Tree,
    rights: &R,
    on: &[bool; MAX_NODES],
    node: u32,
    page: u32,
    want: Right,
) -> Option<u32>
    requires same_tree { nodes tree.now ≡ R.node_count rights.now }
    requires path { AreFlags (is_within tree.now node) (nodes tree.now) on.now }
    requires page_in { page < R.page_count rights.now }
    ensures { MatchOption result
        (NoHindrance tree.now ((R.state rights.now).column page) node want)
        (IsFirstHindrance tree.now ((R.state rights.now).column page) node want) }
{
    let depths = depths(tree);
    let mut first: Option<u32> = None;
    for other in 0..tree.nodes() {
        if !on[other as usize] && hinders(want, rights.right(other, page)) {
            let comes_first = match first {
                Some(best) => depths[best as usize] <= depths[other as usize],
                None => true,
            };
            if comes_first {
                first = Some(other);
            }
        }
    }
    first
}

/// The lowest node on the path that lacks the right.
fn first_lacking<R: Rights>(
    tree: &Tree,
    rights: &R,
    on: &[bool; MAX_NODES],
    node: u32,
    page: u32,
    want: Right,
) -> Option<u32>
    requires same_tree { nodes tree.now ≡ R.node_count rights.now }
    requires path { AreFlags (is_within tree.now node) (nodes tree.now) on.now }
    requires page_in { page < R.page_count rights.now }
    ensures { MatchOption result
        (NoneLacks tree.now ((R.state rights.now).column page) node want)
        (IsFirstLacking tree.now ((R.state rights.now).column page) node want) }
{
    for other in 0..tree.nodes() {
        if on[other as usize] && lacks(want, rights.right(other, page)) {
            return Some(other);
        }
    }
    None
}

/// Whether the node is a leaf with no frame left, and has nothing on the page.
fn is_full<R: Rights>(tree: &Tree, rights: &R, node: u32, page: u32) -> bool
    requires same_tree { nodes tree.now ≡ R.node_count rights.now }
    requires upper { IsUpper tree.now node }
    requires page_in { page < R.page_count rights.now }
    ensures { result ≡ is_full tree.now (R.page_count rights.now) (R.state rights.now) node page }
{
    let frames = tree.frames(node);
    rights.right(node, page) == Right::Nothing && frames != 0 && frames <= rights.held(node)
}

/// How many events are left before the access: at most the number of nodes.
pub fn cost<R: Rights>(tree: &Tree, rights: &R, node: u32, page: u32, want: Right) -> u32
    requires same_tree { nodes tree.now ≡ R.node_count rights.now }
    requires upper { IsUpper tree.now node }
    requires page_in { page < R.page_count rights.now }
    requires ground { ((R.state rights.now).column page).right 0 ≡ Right.Write }
    ensures count { result ≡ cost_of tree.now (R.page_count rights.now) (R.state rights.now) node page want }
    ensures few { result ≤ nodes tree.now }
{
    // The proof reads here that this is a tree of at most `MAX_NODES` nodes.
    let _nodes = tree.nodes();
    events_left(tree, rights, node, page, want)
}

/// How many events are left before the access.
fn events_left<R: Rights>(tree: &Tree, rights: &R, node: u32, page: u32, want: Right) -> u32
    requires same_tree { nodes tree.now ≡ R.node_count rights.now }
    requires upper { IsUpper tree.now node }
    requires page_in { page < R.page_count rights.now }
    ensures { result ≡ cost_of tree.now (R.page_count rights.now) (R.state rights.now) node page want }
{
    // The proof reads here that this is a tree of at most `MAX_NODES` nodes.
    let _nodes = tree.nodes();
    let left = count_left(tree, rights, &path(tree, node), node, page, want);
    left + u32::from(is_full(tree, rights, node, page))
}

/// How many nodes must change their right before the access.
fn count_left<R: Rights>(
    tree: &Tree,
    rights: &R,
    on: &[bool; MAX_NODES],
    node: u32,
    page: u32,
    want: Right,
) -> u32
    requires same_tree { nodes tree.now ≡ R.node_count rights.now }
    requires path { AreFlags (is_within tree.now node) (nodes tree.now) on.now }
    requires page_in { page < R.page_count rights.now }
    ensures count { result ≡
        count_below (is_left tree.now ((R.state rights.now).column page) node want) (nodes tree.now) }
    ensures few { result ≤ nodes tree.now }
{
    let mut left = 0;
    for other in 0..tree.nodes() {
        if is_left(on[other as usize], want, rights.right(other, page)) {
            left += 1;
        }
    }
    left
}

/// Whether a node on the path, or off it, must change its right.
fn is_left(is_on: bool, want: Right, right: Right) -> bool
    ensures { result ≡ must_change want is_on right }
{
    if is_on {
        lacks(want, right)
    } else {
        hinders(want, right)
    }
}

/// The event that takes from a node off the path what it has.
pub(crate) fn revoke(want: Right, have: Right, node: u32, page: u32) -> Event
    ensures { result ≡ revoking want have node page }
{
    match want {
        Right::Write => {
            if have == Right::Write {
                Event::FlushBack { node, page }
            } else {
                Event::DeleteRange { node, page }
            }
        }
        Right::Nothing | Right::Read => Event::DenyWrites { node, page },
    }
}

/// Whether a grant for this is one for writing.
fn is_write(want: Right) -> bool
    ensures { result ≡ is_write want }
{
    match want {
        Right::Nothing | Right::Read => false,
        Right::Write => true,
    }
}

/// The page that a full leaf gives back first.
fn victim<R: Rights>(tree: &Tree, rights: &R, node: u32, page: u32) -> Option<u32>
    requires same_tree { nodes tree.now ≡ R.node_count rights.now }
    requires upper { IsUpper tree.now node }
    requires page_in { page < R.page_count rights.now }
    ensures { MatchOption result
        (is_full tree.now (R.page_count rights.now) (R.state rights.now) node page ≡ false)
        (IsVictim tree.now (R.page_count rights.now) (R.state rights.now) node page) }
{
    if is_full(tree, rights, node, page) {
        rights.oldest(node)
    } else {
        None
    }
}

/// What the rules say.
fn by_rule<R: Rights>(tree: &Tree, rights: &R, node: u32, page: u32, want: Right) -> Next
    requires same_tree { nodes tree.now ≡ R.node_count rights.now }
    requires upper { IsUpper tree.now node }
    requires page_in { page < R.page_count rights.now }
    ensures rule { IsAnswer tree.now (R.page_count rights.now) (R.state rights.now) node page want result }
    ensures tree { IsTree tree.now }
{
    // The proof reads here that this is a tree of at most `MAX_NODES` nodes.
    let _nodes = tree.nodes();
    let on = path(tree, node);
    if let Some(other) = first_hindrance(tree, rights, &on, node, page, want) {
        let have = rights.right(other, page);
        return Next::Do {
            event: revoke(want, have, other, page),
        };
    }
    if let Some(victim) = victim(tree, rights, node, page) {
        return Next::Do {
            event: Event::PageOut { node, page: victim },
        };
    }
    match first_lacking(tree, rights, &on, node, page, want) {
        Some(other) => Next::Do {
            event: Event::PageIn {
                node: other,
                page,
                write: is_write(want),
            },
        },
        None => Next::Ready,
    }
}

/// Whether a child of the node hinders what is wanted there.
fn is_hindered_below<R: Rights>(tree: &Tree, rights: &R, node: u32, page: u32, want: Right) -> bool
    requires same_tree { nodes tree.now ≡ R.node_count rights.now }
    requires upper { IsUpper tree.now node }
    requires page_in { page < R.page_count rights.now }
    ensures free { result ≡ false → (child : ℕ) → IsChild tree.now child node →
        hinders want (((R.state rights.now).column page).right child) ≡ false }
    ensures tree { IsTree tree.now }
{
    for child in 1..tree.nodes() {
        if tree.parent(child) == node && hinders(want, rights.right(child, page)) {
            return true;
        }
    }
    false
}

/// Whether the access may be made at once: the node has the right, and no child of it hinders. Rights
/// are coherent, so nobody else hinders then, and each node on the path has the right too.
fn is_at_once<R: Rights>(tree: &Tree, rights: &R, node: u32, page: u32, want: Right) -> bool
    requires same_tree { nodes tree.now ≡ R.node_count rights.now }
    requires upper { IsUpper tree.now node }
    requires page_in { page < R.page_count rights.now }
    requires want { want ≢ Right.Nothing }
    requires coherent { IsCoherent tree.now (R.state rights.now).len ((R.state rights.now).column page) }
    ensures { IsTrue result → IsReady tree.now (R.page_count rights.now) (R.state rights.now) node page want }
{
    !lacks(want, rights.right(node, page)) && !is_hindered_below(tree, rights, node, page, want)
}

/// The event that comes next on the way to an access of the node that wants this right: Read for a
/// read, Write for a write or a clear.
///
/// First the deepest node off the path that hinders, and of equal depth the one of the greatest
/// number: for a read it has Write and gets DenyWrites, and for a write it has any right and gets
/// FlushBack or DeleteRange. Then, if the node is a leaf without a frame for the page, PageOut of
/// its least recently used page. Then the lowest node on the path that lacks the right gets a grant,
/// as PageIn. Ready means that the access is allowed. These rules are this project's own; the papers
/// ask only for one writer or many readers.
pub fn next_for<R: Rights>(tree: &Tree, rights: &R, node: u32, page: u32, want: Right) -> Next
    requires same_tree { nodes tree.now ≡ R.node_count rights.now }
    requires upper { IsUpper tree.now node }
    requires page_in { page < R.page_count rights.now }
    requires want { want ≢ Right.Nothing }
    requires coherent { IsCoherent tree.now (R.state rights.now).len ((R.state rights.now).column page) }
    requires ground { ((R.state rights.now).column page).right 0 ≡ Right.Write }
    requires framed { frames_of tree.now node ≢ 0 →
        held_below (R.state rights.now) node (R.page_count rights.now) ≤ frames_of tree.now node }
    ensures rule { IsAnswer tree.now (R.page_count rights.now) (R.state rights.now) node page want result }
    ensures may { result ≡ Next.Ready ↔ MayAccessFor tree.now ((R.state rights.now).column page) node want }
    ensures ready { result ≡ Next.Ready ↔
        (cost_of tree.now (R.page_count rights.now) (R.state rights.now) node page want ≡ 0) }
    ensures allowed { IfDo result (IsAllowed tree.now (R.page_count rights.now) (R.state rights.now)) }
    ensures cheaper { IfDo result (λ event.
        cost_of tree.now (R.page_count rights.now) (state_after tree.now (R.state rights.now) event)
        node page want + 1
        ≡ cost_of tree.now (R.page_count rights.now) (R.state rights.now) node page want) }
{
    // The proof reads here that this is a tree.
    let _nodes = tree.nodes();
    if is_at_once(tree, rights, node, page, want) {
        return Next::Ready;
    }
    by_rule(tree, rights, node, page, want)
}
