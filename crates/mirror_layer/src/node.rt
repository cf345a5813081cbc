//! Disks, mirrors of two, and coherency layers that write through, as a tree.

ghost use Rattle.std.specs.Prelude.{◌≡◌, ◌≤◌, true};
ghost use Rattle.mirror_rules.specs.Tree.{left_out};
ghost use Rattle.mirror_rules.specs.Tree as machine;
ghost use Rattle.mirror_layer.specs.Shut.{ShutSeen};
ghost use Rattle.mirror_layer.specs.View.{seat_of, tree_of, beside_in};

use crate::asked::{Held, Side};
use disk_format::{BadImage, ImageShape};
use spr_io::Store;
use std::marker::Model;

/// How an opened disk stands.
#[derive(Clone, Copy)]
pub enum Mark {
    /// It has the ground's pages, and is asked.
    Live,
    /// It refused what another disk took, or a call of its joining.
    Left,
    /// It refused a call in the opening before anything was written, and counts as down.
    Down,
}

/// A disk that was not opened, or not made.
#[derive(Drop)]
pub struct Shut<S: Store> {
    /// Its store, but for the time in which that is taken.
    pub(crate) store: Option<S>,
    pub(crate) disk: u32,
    pub(crate) shape: ImageShape,
    /// Why its blocks are no image, if they are none and no making of it was refused.
    pub(crate) bad: Option<BadImage>,
    /// Whether its block 0 was found to be all zeros.
    pub(crate) blank: bool,
    /// The store's count of faults when the ground took it.
    pub(crate) opened: u64,
}

impl<S: Store> Model for Shut<S> {
    ghost use Rattle.std.specs.Prelude.{is_some};
    ghost use Rattle.disk_format.specs.Shape.{IsShape};
    ghost use Rattle.mirror_layer.specs.Shut.{ShutSeen, Fits, CanRenew, Since, content_in, faults_in};

    ghost Value = { ShutSeen };

    ghost view = { λ s. record { disk = s.disk; shape = s.shape; there = is_some s.store; bad = s.bad; blank = s.blank; content = content_in (λ t. S.content t) s.store; faults = faults_in (λ t. S.faults t) s.store; opened = s.opened } };

    ghost invariant = { λ s. IsShape s.shape × Fits s.shape (λ t. S.size t) (λ t. S.number t) s.store × CanRenew s.bad s.blank s.opened (λ t. S.content t) (λ t. S.faults t) s.store × Since s.opened (λ t. S.faults t) s.store };
}

impl<S: Store> Shut<S> {
    /// What holds of each whose store is there, for proofs alone.
    pub(crate) fn sound(&self)
        requires { self.now.there ≡ true }
        ensures { self.now.opened ≤ self.now.faults }
    {
        let _ = &self.disk;
    }
}

/// A disk that was not opened, whatever its store.
pub trait Unopened: Drop {
    /// The disk.
    ghost shut: { Self → ShutSeen };
}

impl<S: Store> Unopened for Shut<S> {
    ghost shut = { λ s. s };
}

/// A disk that was not opened, which contracts see as one.
#[derive(Drop)]
pub struct Kept<H: Unopened> {
    pub(crate) shut: H,
}

impl<H: Unopened> Model for Kept<H> {
    ghost use Rattle.mirror_layer.specs.Shut.{ShutSeen};

    ghost Value = { ShutSeen };

    ghost view = { λ k. H.shut k.shut };
}

/// What a ground is made of.
#[derive(Drop)]
pub enum Node<D: Side, H: Unopened> {
    /// A disk that was opened.
    Opened(Mark, Held<D>),
    /// One that was not.
    Shut(Kept<H>),
    /// A coherency layer that writes through, and keeps no copy.
    Coherency(Box<Node<D, H>>),
    /// A mirror of two.
    Mirror(Box<Node<D, H>>, Box<Node<D, H>>),
}

/// The mark of a disk that is left out.
fn left(mark: Mark) -> Mark
    ensures { (d : machine.Cell) → seat_of result d ≡ left_out (seat_of mark d) }
{
    match mark {
        Mark::Live => Mark::Left,
        Mark::Left => Mark::Left,
        Mark::Down => Mark::Down,
    }
}

/// Whether a disk in it is live.
pub fn is_live<D: Side, H: Unopened>(node: &Node<D, H>) -> bool
    ensures { result ≡ machine.is_live (tree_of node.now) }
{
    match node {
        Node::Opened(mark, _) => match mark {
            Mark::Live => true,
            Mark::Left => false,
            Mark::Down => false,
        },
        Node::Shut(_) => false,
        Node::Coherency(below) => is_live(below),
        Node::Mirror(left, right) => {
            let first = is_live(left);
            let second = is_live(right);
            first || second
        }
    }
}

/// It becomes stale.
pub fn leave_out<D: Side, H: Unopened>(node: &mut Node<D, H>)
    ensures tree { tree_of node.new ≡ machine.stale (tree_of node.old) }
    ensures beside { beside_in node.new ≡ beside_in node.old }
{
    match node {
        Node::Opened(mark, _) => *mark = left(*mark),
        Node::Shut(_) => {}
        Node::Coherency(below) => leave_out(below),
        Node::Mirror(left, right) => {
            leave_out(left);
            leave_out(right);
        }
    }
}
