//! Why a ground is not opened.

ghost use Rattle.std.specs.Prelude.{◌≡◌, IfSome, IfNone, None, is_some, true};
ghost use Rattle.mirror_rules.specs.Claims.{Every};
ghost use Rattle.mirror_rules.specs.Opening.{IsBad, LastDown, NotGood};
ghost use Rattle.mirror_rules.specs.Tree as machine;
ghost use Rattle.mirror_layer.specs.View.{tree_of};
ghost use Rattle.mirror_layer.specs.Meeting.{AllLeft, AllThere};
ghost use Rattle.mirror_layer.specs.Refusing.{IsFirstBad, Refuses};

use crate::node::{Node, Shut};
use disk_format::BadImage;
use disk_layer::Disk;
use page_ground::StoreFault;
use spr_io::Store;
use thiserror::Error;

/// Why a ground is not opened.
#[derive(Clone, Copy, Debug, PartialEq, Eq, Error)]
pub enum Refusal {
    /// No disk has an image, and none is down: this is the first one.
    #[error("no image on disk {disk}")]
    BadImage {
        /// The disk, by its number.
        disk: u32,
        /// Where its blocks are no image, and why.
        bad: BadImage,
    },
    /// A store failed: that of the disk that was asked last.
    #[error("the store of a disk failed")]
    StoreFault {
        /// The disk, and its store's count of faults.
        fault: StoreFault,
    },
    /// Memory ran out.
    #[error("out of memory for the disks")]
    Memory,
}

/// A ground that is not opened: its stores, in the order of the disks, and the reason.
#[derive(Debug, Drop)]
pub struct OpenAll<S> {
    /// The stores, given back as they are.
    pub stores: Vec<S>,
    /// Why the mirror is not opened.
    pub why: Refusal,
}

/// The fault of a disk that is down.
fn down_fault<S: Store>(shut: &Shut<S>) -> Option<StoreFault>
    requires { shut.now.there ≡ true }
    ensures down { IfSome result (λ fault. (shut.now.bad ≡ None) × (fault ≡ record { disk = shut.now.disk; count = shut.now.faults })) }
    ensures bad { IfNone result (is_some shut.now.bad ≡ true) }
{
    match (&shut.store, &shut.bad) {
        (Some(store), None) => Some(StoreFault {
            disk: shut.disk,
            count: store.count(),
        }),
        _ => None,
    }
}

/// The fault of the last disk that is down, if no disk is good.
fn last_down<S: Store>(node: &Node<Disk<S>, Shut<S>>) -> Option<StoreFault>
    requires none { Every NotGood (machine.seats (tree_of node.now)) }
    requires shut { AllLeft node.now }
    requires there { AllThere node.now }
    ensures last { IfSome result (λ fault. LastDown fault.disk fault.count (machine.seats (tree_of node.now))) }
    ensures bad { IfNone result (Every IsBad (machine.seats (tree_of node.now))) }
{
    match node {
        Node::Opened(_, _) => unreachable!(),
        Node::Shut(kept) => down_fault(&kept.shut),
        Node::Coherency(below) => last_down(below),
        Node::Mirror(left, right) => match last_down(right) {
            Some(fault) => Some(fault),
            None => last_down(left),
        },
    }
}

/// The number of a disk, and why its blocks are no image.
fn bad_of<S: Store>(shut: &Shut<S>) -> (u32, Option<BadImage>)
    ensures disk { result.0 ≡ shut.now.disk }
    ensures bad { result.1 ≡ shut.now.bad }
{
    (shut.disk, shut.bad)
}

/// The first disk, whose blocks are no image, and why.
fn first_bad<S: Store>(node: &Node<Disk<S>, Shut<S>>) -> (u32, BadImage)
    requires bad { Every IsBad (machine.seats (tree_of node.now)) }
    requires shut { AllLeft node.now }
    ensures { IsFirstBad node.now result.0 result.1 }
{
    match node {
        Node::Opened(_, _) => unreachable!(),
        Node::Shut(kept) => match bad_of(&kept.shut) {
            (disk, Some(bad)) => (disk, bad),
            (_, None) => unreachable!(),
        },
        Node::Coherency(below) => first_bad(below),
        Node::Mirror(left, _) => first_bad(left),
    }
}

/// Why a ground is not opened of which no disk is good.
pub(crate) fn why_none<S: Store>(node: &Node<Disk<S>, Shut<S>>) -> Refusal
    requires none { Every NotGood (machine.seats (tree_of node.now)) }
    requires shut { AllLeft node.now }
    requires there { AllThere node.now }
    ensures { Refuses node.now result }
{
    match last_down(node) {
        Some(fault) => Refusal::StoreFault { fault },
        None => {
            let (disk, bad) = first_bad(node);
            Refusal::BadImage { disk, bad }
        }
    }
}
