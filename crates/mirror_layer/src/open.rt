//! A ground is opened over its stores.

ghost use Rattle.std.specs.Prelude.{◌≡◌, ◌<◌, ◌≤◌, ◌^◌, ◌||◌, ltb, ℕ, [], IfOk, IfErr, OnOk, OnErr, length, replicate, vec_capacity, map, Some, true};
ghost use Rattle.std.specs.List.Sorted.{IsPermutation};
ghost use Rattle.disk_format.specs.Shape.{IsShape};
ghost use Rattle.stack_accept.specs.Plan.{disks_in, numbers_below, plan_of};
ghost use Rattle.disk_layer.specs.Disk.{Suits};
ghost use Rattle.mirror_rules.specs.Tree as machine;
ghost use Rattle.mirror_rules.specs.Claims.{Every, Pairs};
ghost use Rattle.mirror_layer.specs.Ground.{Counted};
ghost use Rattle.mirror_layer.specs.View.{tree_of, beside_in};
ghost use Rattle.mirror_layer.specs.Meeting.{AllEmpty, AllNew, planned, shuts_in};
ghost use Rattle.mirror_layer.specs.Places.{IsSpare};
ghost use Rattle.mirror_layer.specs.Bringing.{IsReady, RefusedOver, UnitedAs};

use crate::admit::is_good;
use crate::came::Notice;
use crate::choose::choose;
use crate::close::give_back;
use crate::fill::fill_all;
use crate::meet::meet;
use crate::node::{Kept, Node, Shut};
use crate::plan::empty_tree;
use crate::refuse::{OpenAll, Refusal, why_none};
use crate::renew::{images_for, renew_all};
use disk_format::ImageShape;
use disk_layer::Disk;
use spr_io::Store;
use stack_accept::GroundPlan;
use std::alloc::{AllocError, Global};

/// All memory of an opening, and of the ground that comes of it.
#[derive(Drop)]
pub(crate) struct Room<S: Store> {
    /// The disks, whose stores are missing yet.
    pub node: Node<Disk<S>, Shut<S>>,
    /// Room for a place for each store.
    pub places: Vec<Option<S>>,
    /// Room for the stores when they go back.
    pub emptied: Vec<S>,
    /// A leaf that is no disk's.
    pub spare: Node<Disk<S>, Shut<S>>,
    /// A page of the ground.
    pub ours: Vec<u8>,
    /// A page of a disk that joins.
    pub its: Vec<u8>,
    /// By the disks' places, what the opening makes of each that is live at its end.
    pub words: Vec<Option<Notice>>,
    /// The ground's generation, once it is opened, and whether it owes a raise.
    pub generation: u64,
    pub owed: bool,
}

/// A leaf that is no disk's.
fn spare_leaf<S: Store>(shape: &ImageShape) -> Node<Disk<S>, Shut<S>>
    requires { IsShape shape.now }
    ensures { IsSpare shape.now result }
{
    Node::Shut(Kept {
        shut: Shut {
            store: None,
            disk: 0,
            shape: *shape,
            bad: None,
            blank: false,
            opened: 0,
        },
    })
}

/// Takes all memory of an opening.
pub(crate) fn room_for<S: Store>(
    alloc: Global,
    plan: &GroundPlan,
    shape: &ImageShape,
    disks: usize,
) -> Result<Room<S>, AllocError>
    requires { IsShape shape.now }
    ensures planned { IfOk result (λ room. planned (tree_of room.node) ≡ plan_of plan.now) }
    ensures empty { IfOk result (λ room. AllEmpty shape.now room.node) }
    ensures spare { IfOk result (λ room. IsSpare shape.now room.spare) }
    ensures places { IfOk result (λ room. (room.places.items ≡ []) × (disks ≤ vec_capacity room.places)) }
    ensures emptied { IfOk result (λ room. (room.emptied.items ≡ []) × (disks ≤ vec_capacity room.emptied)) }
    ensures ours { IfOk result (λ room. length room.ours.items ≡ shape.now.page_size) }
    ensures its { IfOk result (λ room. length room.its.items ≡ shape.now.page_size) }
    ensures words { IfOk result (λ room. length room.words.items ≡ disks) }
{
    Ok(Room {
        node: empty_tree(alloc, plan, shape)?,
        places: Vec::with_capacity(alloc, disks)?,
        emptied: Vec::with_capacity(alloc, disks)?,
        spare: spare_leaf(shape),
        ours: vec![in alloc; 0u8; shape.page_size as usize]?,
        its: vec![in alloc; 0u8; shape.page_size as usize]?,
        words: vec![in alloc; None; disks]?,
        generation: 0,
        owed: false,
    })
}

/// Gives each store its place, in order. There is room for them.
pub(crate) fn set_out<S: Store>(stores: Vec<S>, places: &mut Vec<Option<S>>)
    requires empty { places.old.items ≡ [] }
    requires room { length stores.items ≤ vec_capacity places.old }
    ensures { places.new.items ≡ map (λ s. Some s) stores.items }
{
    for store in stores {
        places.push_reserved(Some(store));
    }
}

/// Opens each disk; the good ones become one ground, and then the blank ones are made and join it. It answers the ground's
/// generation. All memory is taken before a store is written.
///
/// `came` gets, by the disks' places, what the opening makes of each that is live at its end.
pub(crate) fn unite<S: Store>(
    alloc: Global,
    node: &mut Node<Disk<S>, Shut<S>>,
    disks: usize,
    spare: &mut Node<Disk<S>, Shut<S>>,
    shape: &ImageShape,
    ours: &mut [u8],
    its: &mut [u8],
    came: &mut [Option<Notice>],
) -> Result<u64, Refusal>
    requires shape { IsShape shape.now }
    requires new { AllNew node.old }
    requires disks { disks ≡ length (beside_in node.old) }
    requires spare { IsSpare shape.now spare.old }
    requires shapes { Every (λ b. b.shape ≡ shape.now) (beside_in node.old) }
    requires ours { length ours.old ≡ shape.now.page_size }
    requires its { length its.old ≡ shape.now.page_size }
    requires came { length came.old ≡ disks }
    ensures united { UnitedAs result shape.now (shuts_in node.old) (beside_in node.old) (machine.seats (tree_of node.new)) came.new }
    ensures live { OnOk result (machine.is_live (tree_of node.new) ≡ true) }
    ensures high { IfOk result (λ g. g < 2 ^ 63) }
    ensures beside { beside_in node.new ≡ beside_in node.old }
{
    if meet(alloc, node).is_err() {
        return Err(Refusal::Memory);
    }
    if !is_good(node) {
        return Err(why_none(node));
    }
    let Ok(found) = images_for(alloc, node, shape) else {
        return Err(Refusal::Memory);
    };
    let mut images = found;
    match choose(node, disks, spare, shape, ours, its, came) {
        Err(fault) => Err(Refusal::StoreFault { fault }),
        Ok(generation) => {
            match renew_all(node, disks, generation, spare, &mut images, shape, ours) {
                Ok(()) => Ok(generation),
                Err(fault) => Err(Refusal::StoreFault { fault }),
            }
        }
    }
}

/// Whether a ground of so many disks and this generation owes a raise when it is opened: but for a ground of one disk whose
/// generation is 1 it does.
fn owes(disks: usize, generation: u64) -> bool
    ensures { result ≡ (ltb 1 disks || ltb 1 generation) }
{
    disks > 1 || generation > 1
}

/// What holds of every tree whose disks have their stores, for proofs alone.
fn sound_all<S: Store>(node: &Node<Disk<S>, Shut<S>>)
    requires { Every (λ b. b.there ≡ true) (beside_in node.now) }
    ensures { Pairs Counted (beside_in node.now) (machine.seats (tree_of node.now)) }
{
    match node {
        Node::Opened(_, held) => {
            held.disk.sound();
        }
        Node::Shut(kept) => kept.shut.sound(),
        Node::Coherency(below) => sound_all(below),
        Node::Mirror(left, right) => {
            sound_all(left);
            sound_all(right);
        }
    }
}

/// How many stores there are.
fn number_of<S: Store>(stores: &Vec<S>) -> usize
    ensures { result ≡ length stores.now.items }
{
    stores.as_slice().len()
}

/// Opens a ground of this plan over its stores, in all memory that it needs.
pub(crate) fn open_over<S: Store>(
    alloc: Global,
    plan: &GroundPlan,
    stores: Vec<S>,
    shape: &ImageShape,
) -> Result<Room<S>, OpenAll<S>>
    requires shape { IsShape shape.now }
    requires plan { IsPermutation (disks_in (plan_of plan.now)) (numbers_below (length stores.items)) }
    requires suits { Every (λ s. Suits shape.now (S.size s) (S.number s)) stores.items }
    ensures ready { IfOk result (λ room. IsReady (λ s. S.content s) (λ s. S.faults s) shape.now stores.items (plan_of plan.now) (beside_in room.node) (machine.seats (tree_of room.node)) room.owed room.generation room.words.items room.places.items room.emptied.items (vec_capacity room.emptied)) }
    ensures refused { IfErr result (λ e. RefusedOver (λ s. S.content s) (λ s. S.faults s) shape.now stores.items (plan_of plan.now) e.why e.stores.items) }
{
    let disks = number_of(&stores);
    let Ok(found) = room_for(alloc, plan, shape, disks) else {
        return Err(OpenAll {
            stores,
            why: Refusal::Memory,
        });
    };
    let mut room = found;
    set_out(stores, &mut room.places);
    fill_all(&mut room.node, shape, &mut room.places);
    match unite(
        alloc,
        &mut room.node,
        disks,
        &mut room.spare,
        shape,
        &mut room.ours,
        &mut room.its,
        &mut room.words,
    ) {
        Ok(generation) => {
            sound_all(&room.node);
            room.generation = generation;
            room.owed = owes(disks, generation);
            Ok(room)
        }
        Err(why) => {
            let mut places = room.places;
            let stores = give_back(room.node, &mut places, room.emptied);
            Err(OpenAll { stores, why })
        }
    }
}
