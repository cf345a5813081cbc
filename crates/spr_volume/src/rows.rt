//! Rows of locks and of seats, one for each file of a volume, in the order of the files.

ghost use Rattle.std.specs.Prelude.{◌≡◌, ◌+◌, ◌<◌, ◌≤◌, ◌++◌, [], IfErr, IfOk, List, OnOk, length, map, reverse, vec_capacity};
ghost use Rattle.std.specs.List.{AllByRecursion};
ghost use Rattle.stack_engine.specs.Tower.{TowerSeen};
ghost use Rattle.spr_volume.specs.Rows.{AreClosed, AreFree, AreFresh, AreMet, AreNeighbours, AreWhole, IsClosed, IsFresh, IsWhole, IsWithin, above, below};

use crate::shared_tower::SharedTower;
use hist_lock::{HistLock, Seat};
use page_ground::Ground;
use stack_engine::Tower;
use std::alloc::{AllocError, Global};

/// A row of locks, and a row of their seats.
pub(crate) struct Rows<G: Ground> {
    /// The locks.
    pub(crate) locks: Vec<HistLock<SharedTower<G>>>,
    /// The seats.
    pub(crate) seats: Vec<Seat<SharedTower<G>>>,
}

impl<G: Ground> Rows<G> {
    /// Empty rows with room for so many files.
    pub(crate) fn new(alloc: Global, files: usize) -> Result<Rows<G>, AllocError>
        ensures empty { IfOk result (λ r. (r.locks.items ≡ []) × (r.seats.items ≡ [])) }
        ensures room { IfOk result (λ r. (files ≤ vec_capacity r.locks) × (files ≤ vec_capacity r.seats)) }
    {
        let locks = Vec::with_capacity(alloc, files)?;
        match Vec::with_capacity(alloc, files) {
            Ok(seats) => Ok(Rows { locks, seats }),
            Err(err) => {
                locks.destroy_empty();
                Err(err)
            }
        }
    }
}

/// Puts a lock round each tower, for the callers from 0 up to `callers`. The towers stand last one first, and those
/// that are left when memory runs out stay.
pub(crate) fn lock_all<G: Ground>(
    alloc: Global,
    towers: &mut Vec<Tower<G>>,
    locks: &mut Vec<HistLock<SharedTower<G>>>,
    seats: &mut Vec<Seat<SharedTower<G>>>,
    callers: u32,
) -> Result<(), AllocError>
    requires callers { 0 < callers }
    requires empty { (locks.old.items ≡ []) × (seats.old.items ≡ []) }
    requires room { (length towers.old.items ≤ vec_capacity locks.old) × (length towers.old.items ≤ vec_capacity seats.old) }
    ensures made { (made : List TowerSeen) × (reverse towers.old.items ≡ made ++ reverse towers.new.items) × AreFresh callers made locks.new.items seats.new.items }
    ensures ok { OnOk result (towers.new.items ≡ []) }
    ensures room { length locks.new.items + length towers.new.items ≤ vec_capacity towers.new }
{
    while let Some(tower) = towers.pop() {
        match lock_tower(alloc, tower, callers) {
            Ok((lock, seat)) => {
                locks.push_reserved(lock);
                seats.push_reserved(seat);
            }
            Err(tower) => {
                towers.push_reserved(tower);
                return Err(AllocError);
            }
        }
    }
    Ok(())
}

/// Puts a lock round a tower, for the callers from 0 up to `callers`, with the seat of all of them; or gives the tower back, if memory
/// ran out.
fn lock_tower<G: Ground>(
    alloc: Global,
    tower: Tower<G>,
    callers: u32,
) -> Result<(HistLock<SharedTower<G>>, Seat<SharedTower<G>>), Tower<G>>
    requires { 0 < callers }
    ensures fresh { IfOk result (λ r. IsFresh callers tower r.0 r.1) }
    ensures err { IfErr result (λ back. back ≡ tower) }
{
    let shared = SharedTower::new(alloc, tower)?;
    match HistLock::new(alloc, shared, 0, callers) {
        Ok(row) => Ok(row),
        Err(shared) => Err(shared.into_tower()),
    }
}

/// Ends a lock with the seat of all its callers.
fn close<G: Ground>(lock: HistLock<SharedTower<G>>, seat: Seat<SharedTower<G>>) -> Tower<G>
    requires { IsWhole lock seat }
    ensures { IsClosed lock seat result }
{
    lock.close(seat).into_tower()
}

/// Ends all locks, each with the seat of all its callers, and gives their towers in order, before those that stand in
/// `room`, last one first. It takes no memory.
pub(crate) fn close_all<G: Ground>(
    locks: Vec<HistLock<SharedTower<G>>>,
    seats: Vec<Seat<SharedTower<G>>>,
    room: Vec<Tower<G>>,
) -> Vec<Tower<G>>
    requires seats { AreWhole locks.items seats.items }
    requires room { length locks.items + length room.items ≤ vec_capacity room }
    ensures { (closed : List TowerSeen) × (result.items ≡ closed ++ reverse room.items) × AreClosed locks.items seats.items closed }
{
    let mut locks = locks;
    let mut seats = seats;
    let mut towers = room;
    while let Some(lock) = locks.pop() {
        let seat = seats.take_last();
        towers.push_reserved(close(lock, seat));
    }
    locks.destroy_empty();
    seats.destroy_empty();
    towers.reverse();
    towers
}

/// Cuts the callers of each seat in two: the seat keeps those below `at`, and a new seat has the others.
pub(crate) fn split_all<G: Ground>(
    locks: &Vec<HistLock<SharedTower<G>>>,
    seats: &mut Vec<Seat<SharedTower<G>>>,
    others: &mut Vec<Seat<SharedTower<G>>>,
    at: u32,
)
    requires seats { AreFree locks.now.items seats.old.items }
    requires at { AllByRecursion (IsWithin at) seats.old.items }
    requires empty { others.old.items ≡ [] }
    requires room { length seats.old.items ≤ vec_capacity others.old }
    ensures low { seats.new.items ≡ map (below at) seats.old.items }
    ensures high { others.new.items ≡ map (above at) seats.old.items }
{
    for index in 0..locks.len() {
        let other = locks[index].split(&mut seats[index], at).unwrap();
        others.push_reserved(other);
    }
}

/// Takes into each seat the one of the neighbouring callers above.
pub(crate) fn meet_all<G: Ground>(
    locks: &Vec<HistLock<SharedTower<G>>>,
    seats: &mut Vec<Seat<SharedTower<G>>>,
    others: Vec<Seat<SharedTower<G>>>,
)
    requires seats { AreFree locks.now.items seats.old.items }
    requires others { AreFree locks.now.items others.items }
    requires neighbours { AreNeighbours seats.old.items others.items }
    ensures { AreMet seats.old.items others.items seats.new.items }
{
    let mut others = others;
    while let Some(other) = others.pop() {
        let index = others.len();
        locks[index].meet(&mut seats[index], other);
    }
    others.destroy_empty();
}
