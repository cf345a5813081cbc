//! A mirror of the disks 0 and 1, over stores in memory.

ghost use Rattle.std.specs.Prelude.{◌≡◌, IfOk, length, true};
ghost use Rattle.disk_layer.specs.Disk.{Suits};
ghost use Rattle.mirror_rules.specs.Claims.{Every};
ghost use Rattle.stack_accept.specs.Plan.{OnDisk, OnMirror, plan_of};

use crate::disk::Ram;
use crate::say::{say_bad, say_bytes, say_called, say_notices};
use crate::shape::{fits, shape};
use crate::store::{block_of, new_store};
use disk_format::check_image;
use disk_layer::Disk;
use mirror_layer::{AnyGround, Notice, OpenAll, Refusal};
use page_ground::Ground;
use spr_io::{MemStore, Store};
use stack_accept::GroundPlan;
use std::alloc::{AllocError, Global};
use trial_words::{Halt, byte, long, number, say};

/// A mirror that is open, over disks of two pages of 64 bytes.
#[derive(Drop)]
struct Mirror {
    disks: AnyGround<MemStore>,
    ghost small: { disks.shape ≡ record { page_size = 64; pages = 2 } },
}

/// The stores of the disks, in order, and the mirror over them while it is open.
#[derive(Drop)]
pub struct MirrorCase {
    stores: Vec<MemStore>,
    /// What the last opening that was done made of each disk.
    came: [Option<Notice>; 2],
    mirror: Option<Mirror>,
}

/// A mirror of the disks 0 and 1.
fn plan(alloc: Global) -> Result<GroundPlan, AllocError>
    ensures { IfOk result (λ plan. plan_of plan ≡ OnMirror (OnDisk 0) (OnDisk 1)) }
{
    let left = Box::new(alloc, GroundPlan::Disk { disk: 0 })?;
    let right = Box::new(alloc, GroundPlan::Disk { disk: 1 })?;
    Ok(GroundPlan::Mirror { left, right })
}

/// Whether there are two stores, each of the blocks of a disk.
fn are_two(stores: &[MemStore]) -> bool
    ensures two { result ≡ true → length stores.now ≡ 2 }
    ensures suits { result ≡ true → Every (λ s. Suits (record { page_size = 64; pages = 2 }) s.size (length s.content.blocks)) stores.now }
{
    match stores {
        [left, right] => fits(left) && fits(right),
        _ => false,
    }
}

/// Opens a mirror over two stores. `came` gets what that made of each disk.
fn opened(
    alloc: Global,
    stores: Vec<MemStore>,
    came: &mut [Option<Notice>],
) -> Result<Result<AnyGround<MemStore>, OpenAll<MemStore>>, Halt>
    requires { length came.old ≡ 2 }
    ensures { IfOk result (λ answer. IfOk answer (λ disks. disks.shape ≡ record { page_size = 64; pages = 2 })) }
{
    let plan = plan(alloc)?;
    if !are_two(stores.as_slice()) {
        return Err(Halt::Impossible);
    }
    Ok(AnyGround::open(alloc, &plan, stores, &shape(), came))
}

/// Appends why a mirror was not opened.
fn say_refusal(answer: &mut String, why: Refusal) -> Result<(), Halt> {
    match why {
        Refusal::BadImage { disk, bad } => {
            write!(answer, "disk {disk}: ")?;
            Ok(say_bad(answer, &bad)?)
        }
        Refusal::StoreFault { fault } => Ok(say_called(answer, Err(fault))?),
        Refusal::Memory => Err(Halt::Memory),
    }
}

/// A disk of a fresh image on a store.
fn formatted(alloc: Global, store: MemStore, disk: u32) -> Result<Ram, Halt>
    ensures { IfOk result (λ disk. disk.shape ≡ record { page_size = 64; pages = 2 }) }
{
    let shape = shape();
    if !fits(&store) {
        return Err(Halt::Impossible);
    }
    Disk::format(alloc, store, disk, &shape).map_err(|_| Halt::Impossible)
}

/// A disk's store, closed with a byte in each place of its first page, and a generation.
fn imaged(
    alloc: Global,
    store: MemStore,
    disk: u32,
    filled: u8,
    generation: u64,
) -> Result<MemStore, Halt> {
    if generation == 0 || generation > 9_223_372_036_854_775_807 {
        return Err(Halt::Impossible);
    }
    let mut disk = formatted(alloc, store, disk)?;
    if disk.write(0, &[filled; 64]).is_err() || disk.raise(generation).is_err() {
        return Err(Halt::Impossible);
    }
    Ok(disk.close())
}

/// The front of the image on a store: the header's block, and the map's.
fn front_of(alloc: Global, store: &MemStore) -> Result<Vec<u8>, Halt> {
    let (Some(header), Some(map)) = (block_of(store, 0), block_of(store, 1)) else {
        return Err(Halt::Impossible);
    };
    let mut front = Vec::from_slice(alloc, header)?;
    front.extend_from_slice(map)?;
    Ok(front)
}

/// Appends the generation of the image on a store, or why there is none.
fn say_held(alloc: Global, store: &MemStore, answer: &mut String) -> Result<(), Halt> {
    let front = front_of(alloc, store)?;
    let shape = shape();
    if front.len() != 64 * (1 + shape.map_blocks() as usize) {
        return Err(Halt::Impossible);
    }
    match check_image(alloc, &shape, &front) {
        Ok(image) => {
            let generation = image.generation;
            Ok(writeln!(answer, "generation {generation}")?)
        }
        Err(bad) => Ok(say_bad(answer, &bad)?),
    }
}

impl Mirror {
    /// Reads a page, and appends it.
    fn read(&mut self, page: u32, answer: &mut String) -> Result<(), Halt> {
        if page >= 2 {
            return Err(Halt::Impossible);
        }
        let mut out = [0xffu8; 64];
        match self.disks.read(page, &mut out) {
            Ok(()) => Ok(say_bytes(answer, &out)?),
            Err(fault) => Ok(say_called(answer, Err(fault))?),
        }
    }

    /// Writes a page that has one byte in each place.
    fn write(&mut self, page: u32, filled: u8, answer: &mut String) -> Result<(), Halt> {
        if page >= 2 {
            return Err(Halt::Impossible);
        }
        let called = self.disks.write(page, &[filled; 64]);
        Ok(say_called(answer, called)?)
    }

    /// Does a call.
    fn call(&mut self, words: &[&str], answer: &mut String) -> Result<(), Halt> {
        match words {
            ["read", page] => self.read(number(page)?, answer),
            ["write", page, filled] => self.write(number(page)?, byte(filled)?, answer),
            ["flush"] => {
                let called = self.disks.flush();
                Ok(say_called(answer, called)?)
            }
            _ => Err(Halt::Unread),
        }
    }
}

impl MirrorCase {
    /// No disks.
    pub fn new(alloc: Global) -> MirrorCase {
        MirrorCase {
            stores: Vec::new(alloc),
            came: [None; 2],
            mirror: None,
        }
    }

    /// The number of the next disk.
    fn next(&self) -> u32 {
        if self.stores.is_empty() { 0 } else { 1 }
    }

    /// Puts a store behind the others, whose calls fail as the words say: one of zeros, of a fresh image, or of one that was
    /// closed.
    fn add(&mut self, alloc: Global, words: &[&str]) -> Result<(), Halt> {
        let disk = self.next();
        let store = match words {
            ["zeros", fails @ ..] => new_store(alloc, 64, 4, fails)?,
            ["fresh", fails @ ..] => {
                let store = new_store(alloc, 64, 4, fails)?;
                formatted(alloc, store, disk)?.close()
            }
            ["closed", filled, generation, fails @ ..] => {
                let store = new_store(alloc, 64, 4, fails)?;
                imaged(alloc, store, disk, byte(filled)?, long(generation)?)?
            }
            _ => return Err(Halt::Unread),
        };
        self.stores.push(store).map_err(|_| Halt::Memory)
    }

    /// Opens the mirror over the stores. If it is refused they stay, and the reason is appended.
    fn open(&mut self, alloc: Global, answer: &mut String) -> Result<(), Halt> {
        let mut stores = Vec::new(alloc);
        stores.append(&mut self.stores)?;
        match opened(alloc, stores, &mut self.came)? {
            Ok(disks) => {
                self.mirror = Some(Mirror { disks });
                Ok(say(answer, "done")?)
            }
            Err(refused) => {
                self.stores = refused.stores;
                say_refusal(answer, refused.why)
            }
        }
    }

    /// Closes the mirror.
    fn close(&mut self) -> Result<(), Halt> {
        match self.mirror.take() {
            Some(mirror) => {
                self.stores = mirror.disks.close();
                Ok(())
            }
            None => Err(Halt::Impossible),
        }
    }

    /// Does a step: a store is added, the mirror is opened, called or closed, or what its opening made of the disks or what a disk's
    /// store holds is told.
    pub fn step(&mut self, alloc: Global, words: &[&str], answer: &mut String) -> Result<(), Halt> {
        match words {
            ["disk", rest @ ..] => self.add(alloc, rest),
            ["open"] => self.open(alloc, answer),
            ["close"] => self.close(),
            ["came"] => Ok(say_notices(answer, &self.came)?),
            ["holds", disk] => match self.stores.get(number(disk)? as usize) {
                Some(store) => say_held(alloc, store, answer),
                None => Err(Halt::Impossible),
            },
            _ => match &mut self.mirror {
                Some(mirror) => mirror.call(words, answer),
                None => Err(Halt::Impossible),
            },
        }
    }
}
