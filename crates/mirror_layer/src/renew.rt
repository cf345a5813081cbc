//! The blank disks of a ground are made, from left to right.

ghost use Rattle.std.specs.Prelude.{◌≡◌, ◌+◌, ◌<◌, ◌≤◌, ◌^◌, ℕ, Bool, IfOk, IfErr, IfSome, OnOk, is_some, length, replicate, false, true};
ghost use Rattle.disk_format.specs.Shape.{IsShape};
ghost use Rattle.disk_layer.specs.Disk.{IsBlank, Suits};
ghost use Rattle.disk_layer.specs.Calls.{Stored};
ghost use Rattle.disk_layer.specs.Making.{SameMaking, pages_made};
ghost use Rattle.mirror_rules.specs.Tree as machine;
ghost use Rattle.mirror_rules.specs.Claims.{Every, Nth};
ghost use Rattle.mirror_rules.specs.Opening.{Renews};
ghost use Rattle.mirror_layer.specs.View.{tree_of, beside_in, why_of};
ghost use Rattle.mirror_layer.specs.Calls.{HasPages, all_told, answered};
ghost use Rattle.mirror_layer.specs.Places.{IsLeaf, IsSpare, LeafTells, first_seat, first_beside};
ghost use Rattle.mirror_layer.specs.Renewing.{IsHole, IsUnmade, MakesPage, MakesPages, MadeDisk, LeftUnmade, RenewsShut, RenewsLeaf, blanks, zero_page};

use crate::asked::hold;
use crate::node::{Mark, Node, Shut};
use crate::place::exchange_at;
use crate::round::read;
use disk_format::ImageShape;
use disk_layer::{Disk, FreshImage, Making};
use page_ground::{StoreFault, is_zero_page};
use spr_io::Store;
use std::alloc::{AllocError, Global};

/// Gives a disk in the making the ground's page, if that is not zeros. False if it refuses. The slice is one page.
fn make_page<S: Store>(
    node: &mut Node<Disk<S>, Shut<S>>,
    making: &mut Making<S>,
    page: u32,
    ours: &mut [u8],
) -> Result<bool, StoreFault>
    requires live { machine.is_live (tree_of node.old) ≡ true }
    requires suits { HasPages page (length ours.old) node.old }
    requires page { page < making.old.shape.pages }
    requires size { length ours.old ≡ making.old.shape.page_size }
    requires hole { IsHole making.old.shape page (pages_made making.old) }
    ensures makes { (told : Bool) → (told ≡ true → all_told (beside_in node.old) ≡ true) → MakesPage told page (machine.seats (tree_of node.old)) making.old result (machine.seats (tree_of node.new)) making.new }
    ensures rest { SameMaking making.old making.new }
    ensures blank { IsUnmade making.old.shape making.old.content → IsUnmade making.old.shape making.new.content }
    ensures beside { beside_in node.new ≡ beside_in node.old }
{
    match read(node, page, ours) {
        Err(fault) => Err(fault),
        Ok(()) => {
            if is_zero_page(ours) {
                return Ok(true);
            }
            match making.write(page, ours) {
                Ok(()) => Ok(true),
                Err(_) => Ok(false),
            }
        }
    }
}

/// Gives a disk in the making all pages of a ground, from the first. False if it refuses one. The slice is one page.
fn make_pages<S: Store>(
    node: &mut Node<Disk<S>, Shut<S>>,
    making: &mut Making<S>,
    shape: &ImageShape,
    ours: &mut [u8],
) -> Result<bool, StoreFault>
    requires live { machine.is_live (tree_of node.old) ≡ true }
    requires shapes { Every (λ b. b.shape ≡ shape.now) (beside_in node.old) }
    requires shape { making.old.shape ≡ shape.now }
    requires ours { length ours.old ≡ shape.now.page_size }
    requires holes { IfSome (pages_made making.old) (λ ps. ps ≡ replicate shape.now.pages (zero_page shape.now)) }
    ensures makes { (told : Bool) → (told ≡ true → all_told (beside_in node.old) ≡ true) → MakesPages told shape.now.pages (machine.seats (tree_of node.old)) making.old result (machine.seats (tree_of node.new)) making.new }
    ensures rest { SameMaking making.old making.new }
    ensures blank { IsUnmade shape.now making.old.content → IsUnmade shape.now making.new.content }
    ensures beside { beside_in node.new ≡ beside_in node.old }
{
    for page in 0..shape.pages {
        match make_page(node, making, page, ours) {
            Ok(true) => {}
            Ok(false) => return Ok(false),
            Err(fault) => return Err(fault),
        }
    }
    Ok(true)
}

/// A store that was not made a disk.
#[derive(Drop)]
struct Unmade<S> {
    store: S,
    /// The ground's fault, if that refused a read. Else the store refused a call.
    gone: Option<StoreFault>,
}

/// Makes a store a disk of a ground of this generation: the pages come first, and the header last. The slice is one page.
fn make<S: Store>(
    node: &mut Node<Disk<S>, Shut<S>>,
    store: S,
    disk: u32,
    fresh: FreshImage,
    generation: u64,
    shape: &ImageShape,
    ours: &mut [u8],
) -> Result<Disk<S>, Unmade<S>>
    requires live { machine.is_live (tree_of node.old) ≡ true }
    requires fresh { fresh ≡ shape.now }
    requires suits { Suits shape.now (S.size store) (S.number store) }
    requires zeros { IsBlank (S.content store) }
    requires shapes { Every (λ b. b.shape ≡ shape.now) (beside_in node.old) }
    requires ours { length ours.old ≡ shape.now.page_size }
    requires low { 1 ≤ generation }
    requires high { generation < 2 ^ 63 }
    ensures made { IfOk result (λ d. (told : Bool) → (told ≡ true → all_told (beside_in node.old) ≡ true) → MadeDisk told generation shape.now.pages (machine.seats (tree_of node.old)) (machine.seats (tree_of node.new)) (record { disk = disk; shape = shape.now; content = S.content store; faults = S.faults store }) d) }
    ensures left { IfErr result (λ e. (told : Bool) → (told ≡ true → all_told (beside_in node.old) ≡ true) → LeftUnmade told generation shape.now.pages (machine.seats (tree_of node.old)) (machine.seats (tree_of node.new)) (record { disk = disk; shape = shape.now; content = S.content store; faults = S.faults store }) e.gone (S.content e.store) (S.faults e.store)) }
    ensures suits { IfErr result (λ e. Suits shape.now (S.size e.store) (S.number e.store)) }
    ensures told { IfErr result (λ e. is_some (S.content e.store) ≡ is_some (S.content store)) }
    ensures beside { beside_in node.new ≡ beside_in node.old }
{
    match Making::begin(fresh, store, disk) {
        Err(err) => Err(Unmade {
            store: err.store,
            gone: None,
        }),
        Ok(begun) => {
            let mut making = begun;
            match make_pages(node, &mut making, shape, ours) {
                Ok(true) => match making.end(generation) {
                    Ok(made) => Ok(made),
                    Err(err) => Err(Unmade {
                        store: err.store,
                        gone: None,
                    }),
                },
                Ok(false) => Err(Unmade {
                    store: making.leave(),
                    gone: None,
                }),
                Err(fault) => Err(Unmade {
                    store: making.leave(),
                    gone: Some(fault),
                }),
            }
        }
    }
}

/// Makes a blank disk that was taken out of the ground. None if it refuses a call, and then it is no longer told as blank.
fn renew_shut<S: Store>(
    node: &mut Node<Disk<S>, Shut<S>>,
    shut: &mut Shut<S>,
    fresh: FreshImage,
    generation: u64,
    shape: &ImageShape,
    ours: &mut [u8],
) -> Result<Option<Disk<S>>, StoreFault>
    requires blank { why_of shut.old ≡ machine.Blank }
    requires live { machine.is_live (tree_of node.old) ≡ true }
    requires fresh { fresh ≡ shape.now }
    requires shape { shut.old.shape ≡ shape.now }
    requires shapes { Every (λ b. b.shape ≡ shape.now) (beside_in node.old) }
    requires ours { length ours.old ≡ shape.now.page_size }
    requires low { 1 ≤ generation }
    requires high { generation < 2 ^ 63 }
    ensures renews { (told : Bool) → (told ≡ true → all_told (beside_in node.old) ≡ true) → RenewsShut told generation shape.now.pages (machine.seats (tree_of node.old)) shut.old result (machine.seats (tree_of node.new)) shut.new }
    ensures there { shut.old.there ≡ true }
    ensures taken { shut.old.opened ≡ shut.old.faults }
    ensures beside { beside_in node.new ≡ beside_in node.old }
{
    let bad = shut.bad.take();
    let Some(store) = shut.store.take() else {
        unreachable!()
    };
    match make(node, store, shut.disk, fresh, generation, shape, ours) {
        Ok(disk) => Ok(Some(disk)),
        Err(unmade) => {
            shut.store = Some(unmade.store);
            match unmade.gone {
                None => Ok(None),
                Some(fault) => {
                    shut.bad = bad;
                    Err(fault)
                }
            }
        }
    }
}

/// Whether it was found blank, and no making of it was refused.
fn is_blank<S: Store>(shut: &Shut<S>) -> bool
    ensures blank { result ≡ true → why_of shut.now ≡ machine.Blank }
    ensures other { result ≡ false → why_of shut.now ≡ machine.Blank → ⊥ }
{
    shut.bad.is_some() && shut.blank
}

/// Adds the memory for the making of each blank disk.
fn take_images<S: Store>(
    alloc: Global,
    node: &Node<Disk<S>, Shut<S>>,
    shape: &ImageShape,
    images: &mut Vec<FreshImage>,
) -> Result<(), AllocError>
    requires shape { IsShape shape.now }
    ensures many { OnOk result (length images.new.items ≡ length images.old.items + blanks (machine.seats (tree_of node.now))) }
    ensures shapes { Every (λ f. f ≡ shape.now) images.old.items → Every (λ f. f ≡ shape.now) images.new.items }
{
    match node {
        Node::Opened(_, _) => Ok(()),
        Node::Shut(kept) => {
            if is_blank(&kept.shut) {
                images.push(FreshImage::new(alloc, shape)?)?;
            }
            Ok(())
        }
        Node::Coherency(below) => take_images(alloc, below, shape, images),
        Node::Mirror(left, right) => {
            take_images(alloc, left, shape, images)?;
            take_images(alloc, right, shape, images)
        }
    }
}

/// The memory for the making of each blank disk.
pub(crate) fn images_for<S: Store>(
    alloc: Global,
    node: &Node<Disk<S>, Shut<S>>,
    shape: &ImageShape,
) -> Result<Vec<FreshImage>, AllocError>
    requires shape { IsShape shape.now }
    ensures many { IfOk result (λ v. length v.items ≡ blanks (machine.seats (tree_of node.now))) }
    ensures shapes { IfOk result (λ v. Every (λ f. f ≡ shape.now) v.items) }
{
    let mut images = Vec::new(alloc);
    take_images(alloc, node, shape, &mut images)?;
    Ok(images)
}

/// The memory for one making.
fn one_of(images: &mut Vec<FreshImage>, shape: &ImageShape) -> FreshImage
    requires some { 1 ≤ length images.old.items }
    requires images { Every (λ f. f ≡ shape.now) images.old.items }
    ensures image { result ≡ shape.now }
    ensures images { Every (λ f. f ≡ shape.now) images.new.items }
    ensures left { length images.old.items ≡ length images.new.items + 1 }
{
    let Some(image) = images.pop() else {
        unreachable!()
    };
    image
}

/// Makes a leaf that was taken out of the ground, if it is a blank disk.
fn renew_leaf<S: Store>(
    node: &mut Node<Disk<S>, Shut<S>>,
    leaf: &mut Node<Disk<S>, Shut<S>>,
    images: &mut Vec<FreshImage>,
    generation: u64,
    shape: &ImageShape,
    ours: &mut [u8],
) -> Result<(), StoreFault>
    requires leaf { IsLeaf leaf.old }
    requires live { (s : machine.Store) → first_seat leaf.old ≡ machine.Out machine.Blank s → machine.is_live (tree_of node.old) ≡ true }
    requires room { (s : machine.Store) → first_seat leaf.old ≡ machine.Out machine.Blank s → 1 ≤ length images.old.items }
    requires images { Every (λ f. f ≡ shape.now) images.old.items }
    requires shapes { Every (λ b. b.shape ≡ shape.now) (beside_in node.old) }
    requires shape { (first_beside leaf.old).shape ≡ shape.now }
    requires ours { length ours.old ≡ shape.now.page_size }
    requires low { 1 ≤ generation }
    requires high { generation < 2 ^ 63 }
    ensures renews { (told : Bool) → LeafTells told (beside_in node.old) leaf.old → RenewsLeaf told generation shape.now.pages (machine.seats (tree_of node.old)) (first_seat leaf.old) result (machine.seats (tree_of node.new)) (first_seat leaf.new) }
    ensures leaf { IsLeaf leaf.new }
    ensures out { (i : ℕ) (b : machine.Why) (s : machine.Store) → Nth i (machine.seats (tree_of node.old)) (machine.Out b s) → Nth i (machine.seats (tree_of node.new)) (machine.Out b s) }
    ensures room { length images.old.items ≤ blanks (machine.seats (tree_of leaf.old)) + length images.new.items }
    ensures images { Every (λ f. f ≡ shape.now) images.new.items }
    ensures beside { beside_in node.new ≡ beside_in node.old }
    ensures own { first_beside leaf.new ≡ first_beside leaf.old }
{
    match leaf {
        Node::Opened(_, _) => Ok(()),
        Node::Shut(kept) => {
            if !is_blank(&kept.shut) {
                return Ok(());
            }
            let fresh = one_of(images, shape);
            match renew_shut(node, &mut kept.shut, fresh, generation, shape, ours) {
                Err(fault) => Err(fault),
                Ok(None) => Ok(()),
                Ok(Some(disk)) => {
                    *leaf = Node::Opened(Mark::Live, hold(disk));
                    Ok(())
                }
            }
        }
        Node::Coherency(_) => unreachable!(),
        Node::Mirror(_, _) => unreachable!(),
    }
}

/// Makes the disk at a place, if it is blank. `spare` is a leaf that is no disk's, which stands at the place meanwhile.
fn renew_at<S: Store>(
    node: &mut Node<Disk<S>, Shut<S>>,
    place: usize,
    generation: u64,
    spare: &mut Node<Disk<S>, Shut<S>>,
    images: &mut Vec<FreshImage>,
    shape: &ImageShape,
    ours: &mut [u8],
) -> Result<(), StoreFault>
    requires live { machine.is_live (tree_of node.old) ≡ true }
    requires place { place < length (beside_in node.old) }
    requires spare { IsSpare shape.now spare.old }
    requires room { blanks (machine.seats (tree_of node.old)) ≤ length images.old.items }
    requires images { Every (λ f. f ≡ shape.now) images.old.items }
    requires shapes { Every (λ b. b.shape ≡ shape.now) (beside_in node.old) }
    requires ours { length ours.old ≡ shape.now.page_size }
    requires low { 1 ≤ generation }
    requires high { generation < 2 ^ 63 }
    ensures renews { (told : Bool) → (told ≡ true → all_told (beside_in node.old) ≡ true) → Renews told generation shape.now.pages place 1 (machine.seats (tree_of node.old)) (answered result) (machine.seats (tree_of node.new)) }
    ensures live { machine.is_live (tree_of node.new) ≡ true }
    ensures spare { IsSpare shape.now spare.new }
    ensures room { OnOk result (blanks (machine.seats (tree_of node.new)) ≤ length images.new.items) }
    ensures images { Every (λ f. f ≡ shape.now) images.new.items }
    ensures beside { beside_in node.new ≡ beside_in node.old }
{
    exchange_at(node, place, spare);
    let answer = renew_leaf(node, spare, images, generation, shape, ours);
    exchange_at(node, place, spare);
    answer
}

/// Makes each blank disk of a ground of this generation, from left to right, with memory for each. A disk that refuses a call of
/// its making is left out. Ends if the ground refuses a read. It takes no memory.
pub(crate) fn renew_all<S: Store>(
    node: &mut Node<Disk<S>, Shut<S>>,
    disks: usize,
    generation: u64,
    spare: &mut Node<Disk<S>, Shut<S>>,
    images: &mut Vec<FreshImage>,
    shape: &ImageShape,
    ours: &mut [u8],
) -> Result<(), StoreFault>
    requires live { machine.is_live (tree_of node.old) ≡ true }
    requires disks { disks ≡ length (beside_in node.old) }
    requires spare { IsSpare shape.now spare.old }
    requires room { blanks (machine.seats (tree_of node.old)) ≤ length images.old.items }
    requires images { Every (λ f. f ≡ shape.now) images.old.items }
    requires shapes { Every (λ b. b.shape ≡ shape.now) (beside_in node.old) }
    requires ours { length ours.old ≡ shape.now.page_size }
    requires low { 1 ≤ generation }
    requires high { generation < 2 ^ 63 }
    ensures renews { (told : Bool) → (told ≡ true → all_told (beside_in node.old) ≡ true) → Renews told generation shape.now.pages 0 disks (machine.seats (tree_of node.old)) (answered result) (machine.seats (tree_of node.new)) }
    ensures live { machine.is_live (tree_of node.new) ≡ true }
    ensures spare { IsSpare shape.now spare.new }
    ensures beside { beside_in node.new ≡ beside_in node.old }
{
    for place in 0..disks {
        match renew_at(node, place, generation, spare, images, shape, ours) {
            Ok(()) => {}
            Err(fault) => return Err(fault),
        }
    }
    Ok(())
}
