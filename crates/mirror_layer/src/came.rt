//! What a user is told of the disks of a ground.

ghost use Rattle.std.specs.Prelude.{◌≡◌, ◌≢◌, ◌+◌, ◌<◌, ◌≤◌, ℕ, Option, None, get_or, length};
ghost use Rattle.mirror_rules.specs.Tree as machine;
ghost use Rattle.mirror_rules.specs.Claims.{Every};
ghost use Rattle.mirror_layer.specs.View.{beside_in, seat_of, tree_of, why_of};
ghost use Rattle.mirror_layer.specs.Ground.{Differ};
ghost use Rattle.mirror_layer.specs.Came.{is_live_in};
ghost use Rattle.mirror_layer.specs.Coming.{Listed, came_of};
ghost use Rattle.mirror_layer.specs.Notices.{at_close, notice_word};

use crate::node::{Mark, Node, Shut};
use disk_layer::Disk;
use spr_io::Store;

/// What a user is told of a disk of a ground. An opening says each but `Out`, which a closing says.
#[derive(Clone, Copy, Debug, PartialEq, Eq)]
pub enum Notice {
    /// Its blocks are no image, and block 0 is not all zeros: it was left as it is.
    Bad,
    /// It is not live when the ground is closed.
    Out,
    /// It was blank, and was made.
    Made,
    /// In joining it got a page, or the ground's generation.
    Copied,
}

impl Notice {
    /// The word for a user.
    pub fn word(self) -> &'static str
        ensures { result.now ≡ notice_word self }
    {
        match self {
            Notice::Bad => "bad",
            Notice::Out => "out",
            Notice::Made => "made",
            Notice::Copied => "copied",
        }
    }
}

/// What is told of a disk when its ground is closed: of one that was found bad that it is; of any other that is not live, that it
/// is out; else what the opening made of it.
pub fn at_close(opened: Option<Notice>, live: bool) -> Option<Notice>
    ensures { result ≡ at_close opened live }
{
    match opened {
        Some(Notice::Bad) => Some(Notice::Bad),
        other => { if live { other } else { Some(Notice::Out) } }
    }
}

/// Whether the disk of this number is live in it.
#[tactic(auto, using(crate::proofs::LiveSteps::live_append))]
pub(crate) fn lives<S: Store>(node: &Node<Disk<S>, Shut<S>>, disk: usize) -> bool
    ensures { result ≡ is_live_in (machine.seats (tree_of node.now)) disk }
{
    match node {
        Node::Opened(mark, held) => match mark {
            Mark::Live => held.disk.number() as usize == disk,
            Mark::Left => false,
            Mark::Down => false,
        },
        Node::Shut(_) => false,
        Node::Coherency(below) => lives(below, disk),
        Node::Mirror(left, right) => {
            let first = lives(left, disk);
            let second = lives(right, disk);
            first || second
        }
    }
}

/// What a user is told of an opened disk, whose word this is if it is live.
fn of_opened(mark: &Mark, word: Option<Notice>) -> Option<Notice>
    ensures { (c : machine.Cell) → result ≡ came_of (seat_of mark.now c) word }
{
    match mark {
        Mark::Live => word,
        Mark::Left => None,
        Mark::Down => None,
    }
}

/// What a user is told of a disk that was not opened.
fn of_shut<S: Store>(shut: &Shut<S>) -> Option<Notice>
    ensures { (s : machine.Store) (word : Option Notice) → result ≡ came_of (machine.Out (why_of shut.now) s) word }
{
    if shut.bad.is_some() && !shut.blank {
        return Some(Notice::Bad);
    }
    None
}

/// Its disk's number.
fn number_of<S: Store>(shut: &Shut<S>) -> u32
    ensures { result ≡ shut.now.disk }
{
    shut.disk
}

/// Puts down what a user is told of the disk of this number.
fn set_at(came: &mut [Option<Notice>], disk: u32, word: Option<Notice>)
    requires { disk < length came.old }
    ensures at { get_or came.new disk None ≡ word }
    ensures others { (d : ℕ) → d ≢ disk → get_or came.new d None ≡ get_or came.old d None }
{
    came[disk as usize] = word;
}

/// Puts down what a user is told of each disk, at the place of its number. `words` says, by the
/// disks' places, what the opening made of each that is live; that of the first one stands at
/// `first`. It answers the place behind the last one.
pub(crate) fn tell<S: Store>(
    node: &Node<Disk<S>, Shut<S>>,
    first: usize,
    words: &[Option<Notice>],
    came: &mut [Option<Notice>],
) -> usize
    requires words { first + length (beside_in node.now) ≤ length words.now }
    requires below { Every (λ b. b.disk < length came.old) (beside_in node.now) }
    requires differ { Differ (beside_in node.now) }
    ensures next { result ≡ first + length (beside_in node.now) }
    ensures told { Listed came.new words.now first (beside_in node.now) (machine.seats (tree_of node.now)) }
    ensures others { (d : ℕ) → Every (λ b. b.disk ≢ d) (beside_in node.now) → get_or came.new d None ≡ get_or came.old d None }
{
    match node {
        Node::Opened(mark, held) => {
            set_at(came, held.disk.number(), of_opened(mark, words[first]));
            first + 1
        }
        Node::Shut(kept) => {
            set_at(came, number_of(&kept.shut), of_shut(&kept.shut));
            first + 1
        }
        Node::Coherency(below) => tell(below, first, words, came),
        Node::Mirror(left, right) => {
            let next = tell(left, first, words, came);
            tell(right, next, words, came)
        }
    }
}
