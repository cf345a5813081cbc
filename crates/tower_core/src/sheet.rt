//! A trail's rights, places, uses and lives, kept as tables.

ghost use Rattle.std.specs.Prelude.{◌≡◌, ◌≢◌, ◌<◌, ◌≤◌, ◌+◌, ℕ, All, IfOk, length, slice_get, slice_index, vec_len, Some};
ghost use Rattle.std.specs.Int.{from_bool};
ghost use Rattle.std.proofs.Props.{props};
ghost use Rattle.hist_plain.specs.declared.TheConstants.{MAX_EVENTS, MAX_PAGES};
ghost use Rattle.tower_core.specs.TreeShape.{nodes, IsUpper};
ghost use Rattle.tower_core.specs.Trail.{lives_after};
ghost use Rattle.tower_core.specs.Page.{IsHeldCounted};

use crate::page::Page;
use crate::{Right, Step, Tree, subtree};
use hist_plain::{Event, Op};
use std::alloc::{AllocError, Global};

/// The state after a file's trail: the rights, places, uses and lives. `seen` is the state that
/// contracts see. How many pages each node holds is kept too. What only `allowed` asks, as which page was used longest ago, is
/// found by a look at all pages.
#[derive(Drop)]
pub struct Sheet {
    lives: Vec<u32>,
    held: Vec<u32>,
    pages: Vec<Page>,
    len: u64,
    ghost grounded: { 0 < vec_len lives },
    ghost few: { vec_len pages ≤ MAX_PAGES },
    ghost counts: { vec_len held ≡ vec_len lives },
    ghost sized: { All (λ page. vec_len page.cells ≡ vec_len lives) pages.items } by { Prim.hlevel props },
    ghost counted: { All (λ life. life ≤ len) lives.items } by { Prim.hlevel props },
    ghost held_counted: { IsHeldCounted pages.items held.items } by { Prim.hlevel props },
}

impl Sheet {
    ghost use Rattle.std.specs.Prelude.{◌≡◌, ◌<◌, ◌≤◌, ◌↔◌, IsTrue, IfOk, IfNone, IfSome, length};
    ghost use Rattle.std.specs.Option.{ForSome};
    ghost use Rattle.hist_plain.specs.Event.{node_of, page_of, page_of_op};
    ghost use Rattle.tower_core.specs.TreeShape.{nodes, IsUpper};
    ghost use Rattle.tower_core.specs.Column.{MayStep, IsStepOf};
    ghost use Rattle.tower_core.specs.Trail.{IsAllowed, IsLine, IsOldest, MayAccess, IsSettled, IsAllSettled, IsLeastRecentlyUsed, IsSubtreeEmpty, HasRoom, HoldsNothing, holds, held_below, moved, of_page, start, state_after, step_of_access, lives_after};
    ghost use Rattle.tower_core.specs.Sheet.{nodes_of, pages_of, seen, comes_first};
    ghost use Rattle.tower_core.specs.declared.step.Step.TheVariants.{Grants};

    /// The sheet of an empty trail.
    pub fn new(alloc: Global, tree: &Tree, pages: u32) -> Result<Sheet, AllocError>
        requires { pages ≤ MAX_PAGES }
        ensures state { IfOk result (λ sheet. seen sheet ≡ start) }
        ensures nodes { IfOk result (λ sheet. nodes_of sheet ≡ nodes tree.now) }
        ensures pages { IfOk result (λ sheet. pages_of sheet ≡ pages) }
    {
        let nodes = tree.nodes() as usize;
        let mut tables = Vec::new(alloc);
        for _ in 0..pages {
            tables.push(Page::new(alloc, nodes)?)?;
        }
        Ok(Sheet {
            lives: zeros(alloc, nodes)?,
            held: counts_at_start(alloc, nodes, pages)?,
            pages: tables,
            len: 0,
        })
    }

    /// What the node may do with the page.
    pub fn right(&self, node: u32, page: u32) -> Right
        requires node_in { node < nodes_of self.now }
        requires page_in { page < pages_of self.now }
        ensures { result ≡ ((seen self.now).column page).right node }
    {
        let table = &self.pages[page as usize];
        table.cells[node as usize].right
    }

    /// The place whose bytes the node's copy shows.
    pub fn at(&self, node: u32, page: u32) -> u64
        requires node_in { node < nodes_of self.now }
        requires page_in { page < pages_of self.now }
        ensures { result ≡ ((seen self.now).column page).at node }
    {
        let table = &self.pages[page as usize];
        table.cells[node as usize].at
    }

    /// The place after the page's last effective write or clear.
    pub fn newest(&self, page: u32) -> u64
        requires { page < pages_of self.now }
        ensures { result ≡ ((seen self.now).column page).newest }
    {
        self.pages[page as usize].newest
    }

    /// The life of the node.
    pub fn life(&self, node: u32) -> u32
        requires { node < nodes_of self.now }
        ensures { result ≡ (seen self.now).life node }
    {
        self.lives[node as usize]
    }

    /// The trail's length.
    pub fn len(&self) -> u64
        ensures { result ≡ (seen self.now).len }
    {
        self.len
    }

    /// Whether the table of events allows the step on the page.
    fn may(&self, tree: &Tree, page: u32, step: Step) -> bool
        requires same_tree { nodes tree.now ≡ nodes_of self.now }
        requires upper { IsStepOf tree.now step }
        requires page_in { page < pages_of self.now }
        ensures { IsTrue result ↔ MayStep tree.now ((seen self.now).column page) step }
    {
        let table = &self.pages[page as usize];
        table.may(tree, step)
    }

    /// The place after the node's last use of the page.
    fn used(&self, node: u32, page: u32) -> u64
        requires node_in { node < nodes_of self.now }
        requires page_in { page < pages_of self.now }
        ensures { result ≡ (seen self.now).used page node }
    {
        let table = &self.pages[page as usize];
        table.cells[node as usize].used
    }

    /// The number of pages.
    pub fn pages(&self) -> u32
        ensures { result ≡ pages_of self.now }
    {
        self.pages.len() as u32
    }

    /// Whether the node has a right on the page.
    fn holds(&self, node: u32, page: u32) -> bool
        requires node_in { node < nodes_of self.now }
        requires page_in { page < pages_of self.now }
        ensures { result ≡ holds (((seen self.now).column page).right node) }
    {
        let table = &self.pages[page as usize];
        table.holds(node)
    }

    /// Whether the node holds the page, and used it last before another one, if there is one.
    fn comes_first(&self, node: u32, page: u32, other: Option<u32>) -> bool
        requires node_in { node < nodes_of self.now }
        requires page_in { page < pages_of self.now }
        requires other_in { IfSome other (λ p. p < pages_of self.now) }
        ensures { result ≡ comes_first (seen self.now) node page other }
    {
        match other {
            Some(other) => {
                self.holds(node, page) && self.used(node, page) < self.used(node, other)
            }
            None => self.holds(node, page),
        }
    }

    /// The node's least recently used page, if it has a right on any. It looks at all pages.
    pub fn oldest(&self, node: u32) -> Option<u32>
        requires { node < nodes_of self.now }
        ensures none { IfNone result (HoldsNothing (pages_of self.now) (seen self.now) node) }
        ensures some { IfSome result (IsOldest (pages_of self.now) (seen self.now) node) }
    {
        let mut first: Option<u32> = None;
        for page in 0..self.pages() {
            if self.comes_first(node, page, first) {
                first = Some(page);
            }
        }
        first
    }

    /// How many pages the node has a right on.
    pub fn held(&self, node: u32) -> u32
        requires { node < nodes_of self.now }
        ensures { result ≡ held_below (seen self.now) node (pages_of self.now) }
    {
        self.held[node as usize]
    }

    /// Whether a grant of the page to the node leaves it within its frames, if it is a leaf.
    fn has_room(&self, tree: &Tree, node: u32, page: u32) -> bool
        requires same_tree { nodes tree.now ≡ nodes_of self.now }
        requires node_in { node < nodes_of self.now }
        requires page_in { page < pages_of self.now }
        ensures { IsTrue result ↔ HasRoom tree.now (pages_of self.now) (seen self.now) node page }
    {
        let frames = tree.frames(node);
        frames == 0 || self.right(node, page) != Right::Nothing || self.held(node) < frames
    }

    /// Whether no page that the node holds was last used before this one.
    fn is_least_recently_used(&self, node: u32, page: u32) -> bool
        requires node_in { node < nodes_of self.now }
        requires page_in { page < pages_of self.now }
        ensures { IsTrue result ↔ IsLeastRecentlyUsed (pages_of self.now) (seen self.now) node page }
    {
        for other in 0..self.pages() {
            if self.comes_first(node, other, Some(page)) {
                return false;
            }
        }
        true
    }

    /// Whether the node has no right on any page.
    fn holds_nothing(&self, node: u32) -> bool
        requires { node < nodes_of self.now }
        ensures { IsTrue result ↔ HoldsNothing (pages_of self.now) (seen self.now) node }
    {
        self.held(node) == 0
    }

    /// Whether no node of the subtree has a right on any page.
    fn is_subtree_empty(&self, tree: &Tree, top: u32) -> bool
        requires { nodes tree.now ≡ nodes_of self.now }
        ensures { IsTrue result ↔ IsSubtreeEmpty tree.now (pages_of self.now) (seen self.now) top }
    {
        let within = subtree(tree, top);
        for node in 0..tree.nodes() {
            if within[node as usize] && !self.holds_nothing(node) {
                return false;
            }
        }
        true
    }

    /// Whether the page's bytes on the ground are from that place on, or the newest.
    fn is_page_settled(&self, page: u32, from: u64) -> bool
        requires { page < pages_of self.now }
        ensures { IsTrue result ↔ IsSettled from ((seen self.now).column page) }
    {
        let at = self.at(0, page);
        from <= at || self.newest(page) <= at
    }

    /// Whether that is so of each page.
    fn is_settled(&self, from: u64) -> bool
        ensures { IsTrue result ↔ IsAllSettled (pages_of self.now) from (seen self.now) }
    {
        for page in 0..self.pages() {
            if !self.is_page_settled(page, from) {
                return false;
            }
        }
        true
    }

    /// Whether the event may come next, by the table of events.
    pub fn allowed(&self, tree: &Tree, event: &Event) -> bool
        requires same_tree { nodes tree.now ≡ nodes_of self.now }
        requires page_in { ForSome (page_of event.now) (λ page. page < pages_of self.now) }
        ensures { IsTrue result ↔ IsAllowed tree.now (pages_of self.now) (seen self.now) event.now }
    {
        let node = event.node();
        node != 0 && node < tree.nodes() && self.line_holds(tree, event)
    }

    /// Whether the event's line of the table of events holds.
    fn line_holds(&self, tree: &Tree, event: &Event) -> bool
        requires same_tree { nodes tree.now ≡ nodes_of self.now }
        requires page_in { ForSome (page_of event.now) (λ page. page < pages_of self.now) }
        requires upper { IsUpper tree.now (node_of event.now) }
        ensures { IsTrue result ↔ IsLine tree.now (pages_of self.now) (seen self.now) event.now }
    {
        match event {
            Event::Access { node, life, op, .. } => {
                self.life(*node) != *life || self.may_access(tree, *node, op)
            }
            Event::PageIn { node, page, write } => self.may_grant(tree, *node, *page, *write),
            Event::ZeroFill { node, page, write } => {
                self.right(*node, *page) == Right::Nothing
                    && self.may_grant(tree, *node, *page, *write)
            }
            Event::PageOut { node, page } => {
                tree.frames(*node) != 0
                    && self.right(*node, *page) != Right::Nothing
                    && self.is_least_recently_used(*node, *page)
            }
            Event::WriteOut { node, page } | Event::DenyWrites { node, page } => {
                self.may(tree, *page, Step::Denies { node: *node })
            }
            Event::SyncOut { node, page } | Event::WriteBack { node, page } => {
                self.may(tree, *page, Step::Pushes { node: *node })
            }
            Event::FlushBack { node, page } => {
                self.may(tree, *page, Step::Flushes { node: *node })
            }
            Event::DeleteRange { node, page } => {
                self.may(tree, *page, Step::Deletes { node: *node })
            }
            Event::DestroyCache { node, .. } | Event::DonePager { node, .. } => {
                self.is_subtree_empty(tree, *node)
            }
            Event::Synced { from, .. } => *from <= self.len && self.is_settled(*from),
        }
    }

    /// Whether a grant of the page to the node may come next.
    fn may_grant(&self, tree: &Tree, node: u32, page: u32, write: bool) -> bool
        requires same_tree { nodes tree.now ≡ nodes_of self.now }
        requires page_in { page < pages_of self.now }
        requires upper { IsUpper tree.now node }
        ensures { IsTrue result ↔ (MayStep tree.now ((seen self.now).column page) (Grants node write)
            × HasRoom tree.now (pages_of self.now) (seen self.now) node page) }
    {
        self.may(tree, page, Step::Grants { node, write }) && self.has_room(tree, node, page)
    }

    /// Whether an access of the node's life may come next.
    fn may_access(&self, tree: &Tree, node: u32, op: &Op) -> bool
        requires same_tree { nodes tree.now ≡ nodes_of self.now }
        requires page_in { ForSome (page_of_op op.now) (λ page. page < pages_of self.now) }
        requires upper { IsUpper tree.now node }
        ensures { IsTrue result ↔ MayAccess tree.now (seen self.now) node op.now }
    {
        match op {
            Op::Read { page, .. } => self.may(tree, *page, Step::Reads { node }),
            Op::Write { page, .. } | Op::Clear { page } => {
                self.may(tree, *page, Step::Writes { node })
            }
            Op::Open => true,
        }
    }

    /// Enters an event that is one step on one page.
    fn step(&mut self, tree: &Tree, page: u32, step: Step)
        requires same_tree { nodes tree.now ≡ nodes_of self.old }
        requires page_in { page < pages_of self.old }
        requires upper { IsStepOf tree.now step }
        requires room { (seen self.old).len < MAX_EVENTS }
        ensures state { seen self.new ≡
            moved tree.now (seen self.old) (seen self.old).life (λ p. of_page p page step) }
        ensures nodes { nodes_of self.new ≡ nodes_of self.old }
        ensures pages { pages_of self.new ≡ pages_of self.old }
    {
        let len = self.len;
        let table = &mut self.pages[page as usize];
        let node = step.node();
        let had = table.holds(node);
        table.take(tree, step, len);
        let has = table.holds(node);
        recount(&mut self.held, node, had, has);
        self.len += 1;
    }

    /// Enters an event that touches no page and no life.
    fn pass(&mut self, tree: &Tree)
        requires room { (seen self.old).len < MAX_EVENTS }
        ensures state { seen self.new ≡
            moved tree.now (seen self.old) (seen self.old).life (λ p. Step.Untouched) }
        ensures nodes { nodes_of self.new ≡ nodes_of self.old }
        ensures pages { pages_of self.new ≡ pages_of self.old }
    {
        self.len += 1;
    }

    /// Enters an access of the node's life.
    fn access(&mut self, tree: &Tree, node: u32, op: &Op)
        requires same_tree { nodes tree.now ≡ nodes_of self.old }
        requires page_in { ForSome (page_of_op op.now) (λ page. page < pages_of self.old) }
        requires upper { IsUpper tree.now node }
        requires room { (seen self.old).len < MAX_EVENTS }
        ensures state { seen self.new ≡
            moved tree.now (seen self.old) (seen self.old).life (λ p. step_of_access p node op.now) }
        ensures nodes { nodes_of self.new ≡ nodes_of self.old }
        ensures pages { pages_of self.new ≡ pages_of self.old }
    {
        match op {
            Op::Read { page, .. } => self.step(tree, *page, Step::Reads { node }),
            Op::Write { page, .. } | Op::Clear { page } => {
                self.step(tree, *page, Step::Writes { node });
            }
            Op::Open => self.pass(tree),
        }
    }

    /// Enters an allowed event.
    pub fn take(&mut self, tree: &Tree, event: &Event)
        requires same_tree { nodes tree.now ≡ nodes_of self.old }
        requires page_in { ForSome (page_of event.now) (λ page. page < pages_of self.old) }
        requires allowed { IsAllowed tree.now (pages_of self.old) (seen self.old) event.now }
        requires room { (seen self.old).len < MAX_EVENTS }
        ensures state { seen self.new ≡ state_after tree.now (seen self.old) event.now }
        ensures nodes { nodes_of self.new ≡ nodes_of self.old }
        ensures pages { pages_of self.new ≡ pages_of self.old }
    {
        match event {
            Event::Access { node, life, op, .. } => {
                if *life == self.life(*node) {
                    self.access(tree, *node, op);
                } else {
                    self.pass(tree);
                }
            }
            Event::PageIn { node, page, write } | Event::ZeroFill { node, page, write } => {
                let (node, write) = (*node, *write);
                self.step(tree, *page, Step::Grants { node, write });
            }
            Event::PageOut { node, page } => {
                self.step(tree, *page, Step::PagesOut { node: *node });
            }
            Event::WriteOut { node, page } | Event::DenyWrites { node, page } => {
                self.step(tree, *page, Step::Denies { node: *node });
            }
            Event::SyncOut { node, page } | Event::WriteBack { node, page } => {
                self.step(tree, *page, Step::Pushes { node: *node });
            }
            Event::FlushBack { node, page } => {
                self.step(tree, *page, Step::Flushes { node: *node });
            }
            Event::DeleteRange { node, page } => {
                self.step(tree, *page, Step::Deletes { node: *node });
            }
            Event::DestroyCache { node, .. } => self.end_lives(tree, *node),
            Event::DonePager { .. } | Event::Synced { .. } => self.pass(tree),
        }
    }

    /// Enters the end of the caches of a subtree, whose nodes' lives go up by one.
    fn end_lives(&mut self, tree: &Tree, top: u32)
        requires same_tree { nodes tree.now ≡ nodes_of self.old }
        requires upper { IsUpper tree.now top }
        requires room { (seen self.old).len < MAX_EVENTS }
        ensures state { seen self.new ≡
            moved tree.now (seen self.old) (lives_after tree.now (seen self.old).life top) (λ p. Step.Untouched) }
        ensures nodes { nodes_of self.new ≡ nodes_of self.old }
        ensures pages { pages_of self.new ≡ pages_of self.old }
    {
        raise_lives(&mut self.lives, tree, top);
        self.len += 1;
    }
}

/// A zero for each node.
fn zeros(alloc: Global, nodes: usize) -> Result<Vec<u32>, AllocError>
    ensures len { IfOk result (λ xs. vec_len xs ≡ nodes) }
    ensures zeros { IfOk result (λ xs. All (λ x. x ≤ 0) xs.items) }
{
    vec![in alloc; 0; nodes]
}

/// The counts of held pages at the start: the ground alone holds pages.
fn counts_at_start(alloc: Global, nodes: usize, pages: u32) -> Result<Vec<u32>, AllocError>
    requires { 0 < nodes }
    ensures len { IfOk result (λ counts. vec_len counts ≡ nodes) }
    ensures ground { IfOk result (λ counts. slice_index counts.items 0 ≡ pages) }
    ensures others { IfOk result (λ counts. (n : ℕ) → 0 < n → slice_index counts.items n ≡ 0) }
{
    let mut counts = zeros(alloc, nodes)?;
    counts[0] = pages;
    Ok(counts)
}

/// Counts a page that a node had or has a right on.
fn recount(held: &mut Vec<u32>, node: u32, had: bool, has: bool)
    requires node_in { node < vec_len held.old }
    requires low { slice_index held.old.items node ≤ MAX_PAGES }
    requires had { from_bool had ≤ slice_index held.old.items node }
    ensures len { vec_len held.new ≡ vec_len held.old }
    ensures node { slice_index held.new.items node + from_bool had ≡
        slice_index held.old.items node + from_bool has }
    ensures others { (n : ℕ) → n ≢ node → slice_index held.new.items n ≡ slice_index held.old.items n }
{
    let count = &mut held[node as usize];
    *count += u32::from(has);
    *count -= u32::from(had);
}

/// Adds one to the life of each node of the subtree.
fn raise_lives(lives: &mut [u32], tree: &Tree, top: u32)
    requires same_tree { nodes tree.now ≡ length lives.old }
    requires upper { IsUpper tree.now top }
    requires room { All (λ life. life < MAX_EVENTS) lives.old }
    ensures { (n : ℕ) → slice_index lives.new n ≡ lives_after tree.now (slice_index lives.old) top n }
{
    let within = subtree(tree, top);
    for node in 0..tree.nodes() {
        if within[node as usize] {
            lives[node as usize] += 1;
        }
    }
}
