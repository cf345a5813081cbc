//! Callers on two threads at one file of three layers, two of them upon the third; a trail that is full; and that towers,
//! volumes and their passes may cross threads.

ghost use Rattle.std.specs.Prelude.{◌≡◌, ◌<◌, ◌≤◌, IfOk};
ghost use Rattle.tower_core.specs.TreeShape.{IsUpper};
ghost use Rattle.stack_engine.specs.Engine.{tree_in};
ghost use Rattle.rust_tests.specs.Sample.{HasOne, IsFor, IsSmall};

use hist_lock::{HistLock, Seat};
use hist_plain::{Answer, Bytes, Event, Gate, MAX_EVENTS, Op, OpenGate, fits};
use page_ground::Ground;
use spr_volume::{FilesPass, Pass, SharedFiles, SharedTower, Volume};
use stack_engine::{Moved, StepErr, Tower, Trail};
use std::alloc::{AllocError, Global};
use std::sync::Wait;
use std::sync::atomic::{AtomicBool, Ordering};
use std::test::Fail;
use std::thread::{Threads, join_mut, yield_now};
use trial_parts::{Ram, tower_of};

/// The layer on the disk.
const LOWER: u32 = 1;
/// A layer on the lower one.
const LEFT: u32 = 2;
/// Another layer on the lower one.
const RIGHT: u32 = 3;

/// A tower of the three layers, over four pages of 64 bytes.
fn tower(alloc: Global) -> Result<Tower<Ram>, Fail>
    ensures { IfOk result IsSmall }
{
    let tree = ["0", "0", "1", "1", "frames", "0", "0", "0", "0"];
    match tower_of(alloc, &tree, 4, 0) {
        Ok(tower) if tower.tree().nodes() == 4 => Ok(tower),
        _ => Err(Fail::from(AllocError)),
    }
}

/// A volume of the one file, and the pass of three callers.
fn mounted(alloc: Global) -> Result<(SharedFiles<Ram>, FilesPass<Ram>), Fail>
    ensures files { IfOk result (λ r. HasOne r.0) }
    ensures pass { IfOk result (λ r. IsFor r.0 0 3 r.1) }
    ensures callers { IfOk result (λ r. r.0.end ≡ 3) }
{
    let mut towers = Vec::new(alloc);
    towers.push(tower(alloc)?)?;
    match SharedFiles::mount(alloc, towers, 3) {
        Ok(mounted) => Ok(mounted),
        Err(_towers) => Err(Fail::from(AllocError)),
    }
}

/// Writes the first bytes of page 0 at a layer, and tells whether it was done.
fn write<R: Wait, T: Gate>(
    rt: &R,
    alloc: Global,
    volume: &SharedFiles<Ram>,
    pass: &mut FilesPass<Ram>,
    caller: u32,
    node: u32,
    gate: &T,
) -> bool
    requires file { HasOne volume.now }
    requires pass { IsFor volume.now pass.old.first pass.old.end pass.old }
    requires caller { (pass.old.first ≤ caller) × (caller < pass.old.end) }
    requires node { (0 < node) × (node < 4) }
    ensures pass { IsFor volume.now pass.old.first pass.old.end pass.new }
{
    let Ok(bytes) = Bytes::of(alloc, b"abcd") else {
        return false;
    };
    let op = Op::Write {
        page: 0,
        off: 0,
        bytes,
    };
    if !fits(&op, 64, 4) {
        return false;
    }
    volume
        .access(rt, pass, caller, 0, node, 0, &op, &mut [], gate)
        .is_ok()
}

/// Reads the first bytes of a page at the left layer, and tells whether they are zeros.
fn reads_zeros<R: Wait>(
    rt: &R,
    volume: &SharedFiles<Ram>,
    pass: &mut FilesPass<Ram>,
    caller: u32,
    page: u32,
) -> bool
    requires file { HasOne volume.now }
    requires pass { IsFor volume.now pass.old.first pass.old.end pass.old }
    requires caller { (pass.old.first ≤ caller) × (caller < pass.old.end) }
    ensures pass { IsFor volume.now pass.old.first pass.old.end pass.new }
{
    let op = Op::Read {
        page,
        off: 0,
        len: 4,
    };
    if !fits(&op, 64, 4) {
        return false;
    }
    let mut out = [9u8; 4];
    let answered = volume.access(rt, pass, caller, 0, LEFT, 0, &op, &mut out, &OpenGate);
    answered.is_ok() && out == [0; 4]
}

/// How many times each of two writers writes.
const TIMES: u32 = 200;

/// Writes page 0 so many times, and tells whether each write was done.
fn write_often<R: Wait>(
    rt: &R,
    alloc: Global,
    volume: &SharedFiles<Ram>,
    pass: &mut FilesPass<Ram>,
    caller: u32,
    node: u32,
) -> bool
    requires file { HasOne volume.now }
    requires pass { IsFor volume.now pass.old.first pass.old.end pass.old }
    requires caller { (pass.old.first ≤ caller) × (caller < pass.old.end) }
    requires node { (0 < node) × (node < 4) }
    ensures pass { IsFor volume.now pass.old.first pass.old.end pass.new }
{
    for _time in 0..TIMES {
        if !write(rt, alloc, volume, pass, caller, node, &OpenGate) {
            return false;
        }
    }
    true
}

/// How often a thread looks at most for what another does.
const LOOKS: u32 = 10_000_000;

/// Waits until a flag is set, and tells whether it was set in time.
fn is_set_in_time(flag: &AtomicBool) -> bool {
    for _look in 0..LOOKS {
        if flag.load(Ordering::SeqCst) {
            return true;
        }
        yield_now();
    }
    false
}

/// A gate that holds a caller after the message that takes a page from the left layer, until the others are through.
#[derive(Drop)]
struct HoldingGate {
    /// A caller is held.
    held: AtomicBool,
    /// The others are through.
    through: AtomicBool,
    /// They were not through in time.
    late: AtomicBool,
}

impl HoldingGate {
    /// A gate that holds nobody yet.
    fn new() -> HoldingGate {
        HoldingGate {
            held: AtomicBool::new(false),
            through: AtomicBool::new(false),
            late: AtomicBool::new(false),
        }
    }
}

impl Gate for HoldingGate {
    fn between(&self, _caller: u32, _file: u32, event: &Event) {
        if let Event::DeleteRange { node: LEFT, .. } = event {
            self.held.store(true, Ordering::SeqCst);
            if !is_set_in_time(&self.through) {
                self.late.store(true, Ordering::SeqCst);
            }
        }
    }
}

/// While another caller is held, one caller reads a page that the left layer has, and another one that it has not.
fn read_meanwhile<R: Wait>(
    rt: &R,
    volume: &SharedFiles<Ram>,
    pass: &mut FilesPass<Ram>,
    gate: &HoldingGate,
) -> bool
    requires file { HasOne volume.now }
    requires pass { IsFor volume.now 1 3 pass.old }
    ensures pass { IsFor volume.now 1 3 pass.new }
{
    if !is_set_in_time(&gate.held) {
        return false;
    }
    let hit = reads_zeros(rt, volume, pass, 1, 1);
    let miss = reads_zeros(rt, volume, pass, 2, 2);
    gate.through.store(true, Ordering::SeqCst);
    hit && miss
}

/// What two threads do at once.
#[derive(Clone, Copy)]
enum Scene {
    /// Each writes one page, at two layers that stand on one.
    TwoWriters,
    /// One writes at the lower layer and is held, while the other reads at the left one.
    HeldWriter,
}

/// What the first thread does, for caller 0.
fn first_part<R: Wait>(
    rt: &R,
    alloc: Global,
    volume: &SharedFiles<Ram>,
    pass: &mut FilesPass<Ram>,
    scene: Scene,
    gate: &HoldingGate,
) -> bool
    requires file { HasOne volume.now }
    requires pass { IsFor volume.now 0 1 pass.old }
    ensures pass { IsFor volume.now 0 1 pass.new }
{
    match scene {
        Scene::TwoWriters => write_often(rt, alloc, volume, pass, 0, LEFT),
        Scene::HeldWriter => write(rt, alloc, volume, pass, 0, LOWER, gate),
    }
}

/// What the second thread does, for the callers 1 and 2.
fn second_part<R: Wait>(
    rt: &R,
    alloc: Global,
    volume: &SharedFiles<Ram>,
    pass: &mut FilesPass<Ram>,
    scene: Scene,
    gate: &HoldingGate,
) -> bool
    requires file { HasOne volume.now }
    requires pass { IsFor volume.now 1 3 pass.old }
    ensures pass { IsFor volume.now 1 3 pass.new }
{
    match scene {
        Scene::TwoWriters => write_often(rt, alloc, volume, pass, 1, RIGHT),
        Scene::HeldWriter => read_meanwhile(rt, volume, pass, gate),
    }
}

/// The two parts at once, and whether each went well.
fn at_once<R: Threads + Wait + Sync>(
    rt: &R,
    alloc: Global,
    volume: &SharedFiles<Ram>,
    low: &mut FilesPass<Ram>,
    high: &mut FilesPass<Ram>,
    scene: Scene,
    gate: &HoldingGate,
) -> (bool, bool)
    requires file { HasOne volume.now }
    requires low { IsFor volume.now 0 1 low.old }
    requires high { IsFor volume.now 1 3 high.old }
    ensures low { IsFor volume.now 0 1 low.new }
    ensures high { IsFor volume.now 1 3 high.new }
{
    join_mut(
        rt,
        &mut || -> bool
            requires { HasOne volume.now × IsFor volume.now 0 1 low.now }
            ensures { IsFor volume.entry.now 0 1 low.exit.now }
        { first_part(rt, alloc, volume, low, scene, gate) },
        &mut || -> bool
            requires { HasOne volume.now × IsFor volume.now 1 3 high.now }
            ensures { IsFor volume.entry.now 1 3 high.exit.now }
        { second_part(rt, alloc, volume, high, scene, gate) },
    )
}

/// Plays a scene at a fresh file of which the left layer has two pages, and gives what happened and how the parts went.
fn played<R: Threads + Wait + Sync>(
    rt: &R,
    alloc: Global,
    scene: Scene,
    gate: &HoldingGate,
) -> Result<(Trail, (bool, bool)), Fail> {
    let (volume, mut low) = mounted(alloc)?;
    let first = reads_zeros(rt, &volume, &mut low, 0, 0);
    let second = reads_zeros(rt, &volume, &mut low, 0, 1);
    let Ok(mut high) = volume.split(alloc, &mut low, 1) else {
        let _towers = volume.unmount(low);
        return Err(Fail::from(AllocError));
    };
    let parts = at_once(rt, alloc, &volume, &mut low, &mut high, scene, gate);
    volume.meet(&mut low, high);
    let mut towers = volume.unmount(low);
    let Some(tower) = towers.pop() else {
        return Err(Fail::from(AllocError));
    };
    let (_disk, trail) = tower.close();
    let ready = first && second;
    Ok((trail, (ready && parts.0, ready && parts.1)))
}

/// Whether a caller's events are numbered in order from 0, and there are so many of them.
fn are_in_order(trail: &Trail, caller: u32, count: u32) -> bool {
    let mut next = 0;
    for place in 0..trail.len() {
        if let Some(
            Event::Access {
                caller: by,
                number,
                ..
            },
        ) = trail.get(place)
        {
            if *by == caller {
                if next >= count || *number != next {
                    return false;
                }
                next += 1;
            }
        }
    }
    next == count
}

/// Each writer gets on, and its events stand in order: those of the first follow its two reads.
#[test]
fn writers_at_once(rt: HostRuntime) -> Result<(), Fail> {
    let gate = HoldingGate::new();
    let (trail, parts) = played(&rt, rt.alloc(), Scene::TwoWriters, &gate)?;
    assert_eq!(rt; parts, (true, true));
    assert!(rt; trail.len() < 10_000, "{} events", trail.len());
    assert!(rt; are_in_order(&trail, 0, TIMES + 2), "left");
    assert!(rt; are_in_order(&trail, 1, TIMES), "right");
    Ok(())
}

/// While one caller is held between two messages of its miss, others read.
#[test]
fn others_act_during_a_miss(rt: HostRuntime) -> Result<(), Fail> {
    let gate = HoldingGate::new();
    let (_trail, parts) = played(&rt, rt.alloc(), Scene::HeldWriter, &gate)?;
    assert_eq!(rt; parts, (true, true));
    assert!(rt; !gate.late.load(Ordering::SeqCst));
    Ok(())
}

/// The tower of the three layers, for callers to share.
fn shared(alloc: Global) -> Result<SharedTower<Ram>, Fail>
    ensures lower { IfOk result (λ s. IsUpper (tree_in s.began.engine) 1) }
{
    let tower = tower(alloc)?;
    match SharedTower::new(alloc, tower) {
        Ok(shared) => Ok(shared),
        Err(_tower) => Err(Fail::from(AllocError)),
    }
}

/// Tries an open of the lower layer.
fn open(shared: &mut SharedTower<Ram>) -> Result<Moved, StepErr>
    requires lower { IsUpper (tree_in shared.old.began.engine) 1 }
    ensures began { shared.new.began ≡ shared.old.began }
{
    shared.try_access(0, LOWER, 0, &Op::Open, &mut [])
}

/// Tries so many opens, one at least, and gives how far the last one got.
fn open_often(shared: &mut SharedTower<Ram>, times: u64) -> Result<Moved, StepErr>
    requires lower { IsUpper (tree_in shared.old.began.engine) 1 }
    ensures began { shared.new.began ≡ shared.old.began }
{
    for _time in 1..times {
        let _moved = open(shared);
    }
    open(shared)
}

/// Whether an open was answered with the first life.
fn is_opened(moved: &Result<Moved, StepErr>) -> bool {
    matches!(
        moved,
        Ok(Moved::Done {
            answer: Answer::Life { life: 0 }
        })
    )
}

/// A trail that has all events that it may have takes none, and tells so.
#[test]
fn a_full_trail(rt: HostRuntime) -> Result<(), Fail> {
    let mut shared = shared(rt.alloc())?;
    let last = open_often(&mut shared, MAX_EVENTS);
    let more = open(&mut shared);
    let place = shared.place();
    let (_disk, _trail) = shared.into_tower().close();
    assert!(rt; is_opened(&last));
    assert_eq!(rt; more.err(), Some(StepErr::TrailFull));
    assert_eq!(rt; place, 4_194_304);
    Ok(())
}

fn needs_send<X: Send>() {}

fn needs_sync<X: Sync>() {}

/// That it is proved shows: a tower and a shared one may cross threads.
fn towers_cross<G: Ground>() {
    needs_send::<Tower<G>>();
    needs_send::<SharedTower<G>>();
    needs_send::<Seat<SharedTower<G>>>();
    needs_sync::<HistLock<SharedTower<G>>>();
}

/// That it is proved shows: files and their passes may cross threads if the grounds may, and files may be shared.
fn files_cross<G: Ground + Send>() {
    needs_send::<SharedFiles<G>>();
    needs_sync::<SharedFiles<G>>();
    needs_send::<FilesPass<G>>();
}

/// The same for a volume.
fn volumes_cross<G: Ground + Send>() {
    needs_send::<Volume<G>>();
    needs_sync::<Volume<G>>();
    needs_send::<Pass<G>>();
}

#[test]
fn volumes_cross_threads(_rt: HostRuntime) -> Result<(), Fail> {
    towers_cross::<Ram>();
    files_cross::<Ram>();
    volumes_cross::<Ram>();
    Ok(())
}
