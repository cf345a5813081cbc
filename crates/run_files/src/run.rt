//! A run over the files of a stack: their stores are taken, opened, run over and given back, and the report is written.

ghost use Rattle.std.specs.Prelude.{◌≡◌, ℕ, [], List, None, Option, length, map};
ghost use Rattle.std.specs.List.{AllByRecursion};
ghost use Rattle.script_text.specs.Grammar.{IsScript};
ghost use Rattle.stack_accept.specs.Sound.{IsMount};
ghost use Rattle.spr_io.specs.Berth.{BaySeen};
ghost use Rattle.spr_report.specs.Tracing.{AreReported};
ghost use Rattle.spr_client.specs.Calls.{AreOfStack};
ghost use Rattle.spr_client.specs.Lines.{AreCalls};
ghost use Rattle.file_stores.specs.Keys.{EachAt, AreStores, stores_of};
ghost use Rattle.file_stores.specs.Held.{IsRoom};
ghost use Rattle.file_stores.specs.Files.{FileSeen, stores_in};
ghost use Rattle.file_stores.specs.Written.{Written, WrittenBeside};
ghost use Rattle.stack_engine.specs.Tower.{TowerSeen};
ghost use Rattle.run_files.specs.Held.{AreFiles, AreMade, Halts, IsTaken, OpensEach};
ghost use Rattle.run_files.specs.Play.{ArePlayed};
ghost use Rattle.run_files.specs.Room.{HasAnswerRoom};
ghost use Rattle.run_files.specs.Run.{SaysRun, traced_by};
ghost use Rattle.run_files.specs.Sums.{SaysSum};
ghost use Rattle.run_files.specs.Wanted.{SaysWanted};
ghost use Rattle.run_files.specs.Told.{Tells, Stopped};

use crate::ended::status_of;
use crate::held::{close_towers, open_files, put_rest};
use crate::play::{Answers, play};
use crate::room::{Asked, Files, Shelves, room_for_answers, room_for_stores};
use crate::shut::{give_files, shut_files};
use crate::sums::sum_open;
use file_stores::{FileStores, Stop, by_file, finish_lost, give_back, stopped, take_stores};
use name_context::Names;
use pager_channel::Ops;
use script_text::Script;
use spr_client::LineGate;
use spr_io::{Bay, Sink};
use spr_report::{Run, Status, finish, report};
use stack_accept::Mounted;
use std::alloc::{AllocError, Global};
use std::sync::Wait;
use std::thread::Threads;

/// What is written of a run.
#[derive(Clone, Copy, Debug)]
pub(crate) enum Wanted {
    /// The report.
    Report {
        /// Whether the page messages are traced.
        trace: bool,
    },
    /// How many calls were answered, and the sum of the bytes at the end.
    Sum,
}

/// What a run is given.
#[derive(Clone, Copy)]
pub(crate) struct Given<'a> {
    /// The mounted stack.
    pub mount: &'a Mounted,
    /// The script.
    pub script: &'a Script,
    /// The number of each operation of the page messages.
    pub ops: &'a Ops,
}

/// The numbers of the operations, if the page messages are traced.
fn traced_by(ops: &Ops, trace: bool) -> Option<Ops>
    ensures { result ≡ traced_by ops.now trace }
{
    if trace { Some(*ops) } else { None }
}

/// Writes the report of a run and its status; if memory runs out for the report, a line for each store that is lost.
fn tell<R: Threads + Sync, K: Sink>(
    rt: &R,
    alloc: Global,
    run: &Run<'_>,
    status: Status,
    sink: &mut K,
) -> Status
    requires logs { AreReported run.now.mount.now run.now.mount.now.files (map (λ t. t.log) run.now.logs.now) }
    requires said { length run.now.said.now ≡ length run.now.script.now.clients }
    requires closing { length run.now.closing.now ≡ length run.now.mount.now.files }
    ensures { Tells run.now.mount.now run.now.script.now run.now.traced (record { logs = map (λ t. t.log) run.now.logs.now; names = run.now.names.now }) (map (λ v. v.items) run.now.said.now) run.now.closing.now run.now.lost.now status (K.told sink.old) (K.told sink.new) result }
{
    match report(rt, alloc, run) {
        Ok(text) => finish(sink, &[&text], status),
        Err(AllocError) => finish_lost(sink, run.mount, run.lost, Status::Memory),
    }
}

/// Closes the files that the script was run over, gives their stores back, tells of their disks, and writes the report.
fn end_run<R: Threads + Sync, B: Bay, K: Sink, N: Sink>(
    rt: &R,
    alloc: Global,
    given: &Given<'_>,
    trace: bool,
    bay: &mut B,
    sink: &mut K,
    notices: &mut N,
    files: Files<B::Store>,
    names: Names,
    answers: Answers,
) -> Status
    requires mount { IsMount given.now.mount.now }
    requires stores { AreStores given.now.mount.now (stores_of given.now.mount.now) }
    requires begun { (olds : List FileSeen) × (begun : List TowerSeen) × AreFiles given.now.mount.now olds × OpensEach given.now.mount.now olds begun × AreMade given.now.mount.now olds begun (map (λ m. m.items) files.made.items) × (loss : Option ℕ) × ArePlayed given.now.mount.now loss given.now.script.now begun files.towers.items names (map (λ v. v.items) answers.said.items) answers.closing.items }
    requires towers { AreOfStack given.now.mount.now files.towers.items }
    requires made { length files.made.items ≡ length files.towers.items }
    requires said { length answers.said.items ≡ length given.now.script.now.clients }
    requires closing { length answers.closing.items ≡ length given.now.mount.now.files }
    requires closed { IsRoom (length given.now.mount.now.files) files.closed }
    requires trails { IsRoom (length given.now.mount.now.files) files.trails }
    requires told { IsRoom (length given.now.mount.now.files) files.notices }
    requires back { IsRoom (length (stores_of given.now.mount.now)) files.back }
    requires lost { IsRoom (length (stores_of given.now.mount.now)) files.lost }
    ensures ended { (before : BaySeen) (olds : List FileSeen) (begun : List TowerSeen) → IsTaken given.now.mount.now before (B.told bay.old) (stores_of given.now.mount.now) (stores_in olds) → AreFiles given.now.mount.now olds → OpensEach given.now.mount.now olds begun
        → AreMade given.now.mount.now olds begun (map (λ m. m.items) files.made.items) → (loss : Option ℕ) → ArePlayed given.now.mount.now loss given.now.script.now begun files.towers.items names (map (λ v. v.items) answers.said.items) answers.closing.items
        → WrittenBeside (SaysRun given.now.mount.now loss given.now.script.now (traced_by given.now.ops.now trace) before (B.told bay.new)) (K.told sink.old) (K.told sink.new) (N.told notices.old) (N.told notices.new) result }
{
    let (trails, lost) = shut_files(given.mount, bay, notices, files);
    let run = Run {
        mount: given.mount,
        script: given.script,
        logs: &trails,
        names: &names,
        traced: traced_by(given.ops, trace),
        said: &answers.said,
        closing: &answers.closing,
        lost: &lost,
    };
    let status = status_of(&answers.said, &answers.closing, &lost);
    tell(rt, alloc, &run, status, sink)
}

/// Closes the files that were opened, gives all stores back, and writes why the script was not run.
fn return_all<B: Bay, K: Sink>(
    mount: &Mounted,
    bay: &mut B,
    sink: &mut K,
    files: Files<B::Store>,
    stop: Stop,
) -> Status
    requires mount { IsMount mount.now }
    requires stores { AreStores mount.now (stores_of mount.now) }
    requires halts { (olds : List FileSeen) × AreFiles mount.now olds × Halts mount.now olds files.towers.items files.rest.items stop }
    requires made { length files.made.items ≡ length files.towers.items }
    requires closed { IsRoom (length mount.now.files) files.closed }
    requires trails { IsRoom (length mount.now.files) files.trails }
    requires told { IsRoom (length mount.now.files) files.notices }
    requires back { IsRoom (length (stores_of mount.now)) files.back }
    requires lost { IsRoom (length (stores_of mount.now)) files.lost }
    ensures ended { (before : BaySeen) (olds : List FileSeen) → IsTaken mount.now before (B.told bay.old) (stores_of mount.now) (stores_in olds) → AreFiles mount.now olds
        → Halts mount.now olds files.towers.items files.rest.items stop → Written (Stopped mount.now before (B.told bay.new)) (K.told sink.old) (K.told sink.new) result }
{
    let Files {
        towers,
        made,
        rest,
        mut closed,
        mut trails,
        notices: mut told,
        back,
        mut lost,
    } = files;
    close_towers(towers, made, &mut closed, &mut trails, &mut told);
    put_rest(&mut closed, rest);
    give_files(mount, bay, closed, back, &mut lost);
    stopped(sink, mount, stop, &lost)
}

/// Runs the script over the open files, closes them and gives their stores back, and writes the report. If memory runs out before
/// that, the script is not run.
fn run_open<R: Threads + Wait + Sync, B: Bay, K: Sink, N: Sink, T: LineGate>(
    rt: &R,
    alloc: Global,
    given: &Given<'_>,
    trace: bool,
    bay: &mut B,
    sink: &mut K,
    notices: &mut N,
    files: Files<B::Store>,
    asked: Asked,
    gate: &T,
) -> Status
    requires mount { IsMount given.now.mount.now }
    requires script { IsScript given.now.script.now }
    requires calls { AllByRecursion (AreCalls given.now.mount.now) given.now.script.now.phases }
    requires answers { HasAnswerRoom given.now.mount.now given.now.script.now asked }
    requires stores { AreStores given.now.mount.now (stores_of given.now.mount.now) }
    requires opened { (olds : List FileSeen) × AreFiles given.now.mount.now olds × OpensEach given.now.mount.now olds files.towers.items × AreMade given.now.mount.now olds files.towers.items (map (λ m. m.items) files.made.items) }
    requires made { length files.made.items ≡ length files.towers.items }
    requires rest { files.rest.items ≡ [] }
    requires closed { IsRoom (length given.now.mount.now.files) files.closed }
    requires trails { IsRoom (length given.now.mount.now.files) files.trails }
    requires told { IsRoom (length given.now.mount.now.files) files.notices }
    requires back { IsRoom (length (stores_of given.now.mount.now)) files.back }
    requires lost { IsRoom (length (stores_of given.now.mount.now)) files.lost }
    ensures ended { (before : BaySeen) (olds : List FileSeen) → IsTaken given.now.mount.now before (B.told bay.old) (stores_of given.now.mount.now) (stores_in olds) → AreFiles given.now.mount.now olds
        → OpensEach given.now.mount.now olds files.towers.items → AreMade given.now.mount.now olds files.towers.items (map (λ m. m.items) files.made.items)
        → WrittenBeside (SaysRun given.now.mount.now asked.loss given.now.script.now (traced_by given.now.ops.now trace) before (B.told bay.new)) (K.told sink.old) (K.told sink.new) (N.told notices.old) (N.told notices.new) result }
{
    let Files {
        towers,
        made,
        rest,
        closed,
        trails,
        notices: told,
        back,
        lost,
    } = files;
    match play(
        rt,
        alloc,
        given.mount,
        given.script,
        given.ops,
        towers,
        asked,
        gate,
    ) {
        Ok((towers, names, answers)) => {
            let files = Files {
                towers,
                made,
                rest,
                closed,
                trails,
                notices: told,
                back,
                lost,
            };
            end_run(
                rt, alloc, given, trace, bay, sink, notices, files, names, answers,
            )
        }
        Err(towers) => {
            let files = Files {
                towers,
                made,
                rest,
                closed,
                trails,
                notices: told,
                back,
                lost,
            };
            return_all(given.mount, bay, sink, files, Stop::Memory)
        }
    }
}

/// Runs the script over the open files, and writes of it what is wanted.
fn run_as_wanted<R: Threads + Wait + Sync, B: Bay, K: Sink, N: Sink, T: LineGate>(
    rt: &R,
    alloc: Global,
    given: &Given<'_>,
    wanted: Wanted,
    bay: &mut B,
    sink: &mut K,
    notices: &mut N,
    files: Files<B::Store>,
    asked: Asked,
    gate: &T,
) -> Status
    requires mount { IsMount given.now.mount.now }
    requires script { IsScript given.now.script.now }
    requires calls { AllByRecursion (AreCalls given.now.mount.now) given.now.script.now.phases }
    requires answers { HasAnswerRoom given.now.mount.now given.now.script.now asked }
    requires stores { AreStores given.now.mount.now (stores_of given.now.mount.now) }
    requires opened { (olds : List FileSeen) × AreFiles given.now.mount.now olds × OpensEach given.now.mount.now olds files.towers.items × AreMade given.now.mount.now olds files.towers.items (map (λ m. m.items) files.made.items) }
    requires made { length files.made.items ≡ length files.towers.items }
    requires rest { files.rest.items ≡ [] }
    requires closed { IsRoom (length given.now.mount.now.files) files.closed }
    requires trails { IsRoom (length given.now.mount.now.files) files.trails }
    requires told { IsRoom (length given.now.mount.now.files) files.notices }
    requires back { IsRoom (length (stores_of given.now.mount.now)) files.back }
    requires lost { IsRoom (length (stores_of given.now.mount.now)) files.lost }
    ensures ended { (before : BaySeen) (olds : List FileSeen) → IsTaken given.now.mount.now before (B.told bay.old) (stores_of given.now.mount.now) (stores_in olds) → AreFiles given.now.mount.now olds
        → OpensEach given.now.mount.now olds files.towers.items → AreMade given.now.mount.now olds files.towers.items (map (λ m. m.items) files.made.items)
        → WrittenBeside (SaysWanted given.now.mount.now asked.loss given.now.script.now given.now.ops.now wanted before (B.told bay.new)) (K.told sink.old) (K.told sink.new) (N.told notices.old) (N.told notices.new) result }
{
    match wanted {
        Wanted::Report { trace } => run_open(
            rt, alloc, given, trace, bay, sink, notices, files, asked, gate,
        ),
        Wanted::Sum => sum_open(rt, alloc, given, bay, sink, notices, files, asked, gate),
    }
}

/// Opens the files over the stores that were taken, runs the script over them, gives the stores back, and writes how that ended.
fn run_taken<R: Threads + Wait + Sync, B: Bay, K: Sink, N: Sink, T: LineGate>(
    rt: &R,
    alloc: Global,
    given: &Given<'_>,
    wanted: Wanted,
    bay: &mut B,
    sink: &mut K,
    notices: &mut N,
    parts: Vec<FileStores<B::Store>>,
    files: Files<B::Store>,
    asked: Asked,
    gate: &T,
) -> Status
    requires mount { IsMount given.now.mount.now }
    requires script { IsScript given.now.script.now }
    requires calls { AllByRecursion (AreCalls given.now.mount.now) given.now.script.now.phases }
    requires answers { HasAnswerRoom given.now.mount.now given.now.script.now asked }
    requires stores { AreStores given.now.mount.now (stores_of given.now.mount.now) }
    requires parts { AreFiles given.now.mount.now parts.items }
    requires towers { IsRoom (length given.now.mount.now.files) files.towers }
    requires made { IsRoom (length given.now.mount.now.files) files.made }
    requires rest { IsRoom (length given.now.mount.now.files) files.rest }
    requires closed { IsRoom (length given.now.mount.now.files) files.closed }
    requires trails { IsRoom (length given.now.mount.now.files) files.trails }
    requires told { IsRoom (length given.now.mount.now.files) files.notices }
    requires back { IsRoom (length (stores_of given.now.mount.now)) files.back }
    requires lost { IsRoom (length (stores_of given.now.mount.now)) files.lost }
    ensures ended { (before : BaySeen) → IsTaken given.now.mount.now before (B.told bay.old) (stores_of given.now.mount.now) (stores_in parts.items) → WrittenBeside (SaysWanted given.now.mount.now asked.loss given.now.script.now given.now.ops.now wanted before (B.told bay.new)) (K.told sink.old) (K.told sink.new) (N.told notices.old) (N.told notices.new) result }
{
    let mut files = files;
    match open_files(
        alloc,
        given.mount,
        given.ops,
        parts,
        &mut files.towers,
        &mut files.made,
        &mut files.rest,
    ) {
        Ok(()) => run_as_wanted(
            rt, alloc, given, wanted, bay, sink, notices, files, asked, gate,
        ),
        Err(stop) => return_all(given.mount, bay, sink, files, stop),
    }
}

/// Takes the stores of the files, opens them and runs the script over them, gives the stores back, and writes how that ended.
fn run_all<R: Threads + Wait + Sync, B: Bay, K: Sink, N: Sink, T: LineGate>(
    rt: &R,
    alloc: Global,
    given: &Given<'_>,
    wanted: Wanted,
    bay: &mut B,
    sink: &mut K,
    notices: &mut N,
    shelves: Shelves<B::Store>,
    asked: Asked,
    gate: &T,
) -> Status
    requires script { IsScript given.now.script.now }
    requires calls { AllByRecursion (AreCalls given.now.mount.now) given.now.script.now.phases }
    requires answers { HasAnswerRoom given.now.mount.now given.now.script.now asked }
    requires keys { shelves.keys.items ≡ stores_of given.now.mount.now }
    requires stores { AreStores given.now.mount.now shelves.keys.items }
    requires taken { IsRoom (length shelves.keys.items) shelves.taken }
    requires rooms { length shelves.rooms.items ≡ length given.now.mount.now.files }
    requires empty { EachAt (λ at room. IsRoom (length given.now.mount.now.disks) room) shelves.rooms.items }
    requires parts { IsRoom (length given.now.mount.now.files) shelves.parts }
    requires towers { IsRoom (length given.now.mount.now.files) shelves.files.towers }
    requires made { IsRoom (length given.now.mount.now.files) shelves.files.made }
    requires rest { IsRoom (length given.now.mount.now.files) shelves.files.rest }
    requires closed { IsRoom (length given.now.mount.now.files) shelves.files.closed }
    requires trails { IsRoom (length given.now.mount.now.files) shelves.files.trails }
    requires told { IsRoom (length given.now.mount.now.files) shelves.files.notices }
    requires back { IsRoom (length shelves.keys.items) shelves.files.back }
    requires lost { IsRoom (length shelves.keys.items) shelves.files.lost }
    ensures { WrittenBeside (SaysWanted given.now.mount.now asked.loss given.now.script.now given.now.ops.now wanted (B.told bay.old) (B.told bay.new)) (K.told sink.old) (K.told sink.new) (N.told notices.old) (N.told notices.new) result }
{
    let Shelves {
        keys,
        mut taken,
        rooms,
        mut parts,
        files,
    } = shelves;
    match take_stores(given.mount, bay, &keys, &mut taken) {
        Ok(()) => {
            by_file(given.mount, taken, rooms, &mut parts);
            run_taken(
                rt, alloc, given, wanted, bay, sink, notices, parts, files, asked, gate,
            )
        }
        Err(stop) => {
            let mut lost = files.lost;
            give_back(given.mount, bay, taken, &mut lost);
            stopped(sink, given.mount, stop, &lost)
        }
    }
}

/// Takes the stores of the files of a stack, opens them and runs a script over them, gives the stores back, and writes how that
/// ended. All room for that but the text's is made first.
fn run_as<R: Threads + Wait + Sync, B: Bay, K: Sink, N: Sink, T: LineGate>(
    rt: &R,
    alloc: Global,
    given: &Given<'_>,
    wanted: Wanted,
    loss: Option<u32>,
    bay: &mut B,
    sink: &mut K,
    notices: &mut N,
    gate: &T,
) -> Status
    requires script { IsScript given.now.script.now }
    requires calls { AllByRecursion (AreCalls given.now.mount.now) given.now.script.now.phases }
    ensures { WrittenBeside (SaysWanted given.now.mount.now loss given.now.script.now given.now.ops.now wanted (B.told bay.old) (B.told bay.new)) (K.told sink.old) (K.told sink.new) (N.told notices.old) (N.told notices.new) result }
{
    let Ok(asked) = room_for_answers(alloc, given.mount, given.script, loss) else {
        return stopped(sink, given.mount, Stop::Memory, &[]);
    };
    let Ok(shelves) = room_for_stores(alloc, given.mount) else {
        return stopped(sink, given.mount, Stop::Memory, &[]);
    };
    run_all(
        rt, alloc, given, wanted, bay, sink, notices, shelves, asked, gate,
    )
}

/// Runs a script over the files of a stack: takes their stores, opens the files, runs the phases and the closing syncs, gives the
/// stores back, and writes the report and the status. All room for that but the report's is made first.
///
/// If a number is given, from 2 to 1,000, each client's calls to other machines go over a link of its own, which loses the packets
/// whose number this one divides.
///
/// A run of the script writes to the sink of notices a line for each disk in a mirror of which something is told. If that sink
/// fails, nothing else changes.
///
/// The order of the steps and the texts are this project's own.
pub fn run_files<R: Threads + Wait + Sync, B: Bay, K: Sink, N: Sink, T: LineGate>(
    rt: &R,
    alloc: Global,
    mount: &Mounted,
    script: &Script,
    ops: &Ops,
    trace: bool,
    loss: Option<u32>,
    bay: &mut B,
    sink: &mut K,
    notices: &mut N,
    gate: &T,
) -> Status
    requires script { IsScript script.now }
    requires calls { AllByRecursion (AreCalls mount.now) script.now.phases }
    ensures says { WrittenBeside (SaysRun mount.now loss script.now (traced_by ops.now trace) (B.told bay.old) (B.told bay.new)) (K.told sink.old) (K.told sink.new) (N.told notices.old) (N.told notices.new) result }
{
    let given = Given { mount, script, ops };
    let wanted = Wanted::Report { trace };
    run_as(rt, alloc, &given, wanted, loss, bay, sink, notices, gate)
}

/// Runs a script over the files of a stack as `run_files` does, and writes a sum in place of the report: how many calls of the
/// second phase were answered, and the sum of all bytes of all files at the end. For that all pages of each file are read when all
/// files are open, and its log is played on them at the end. A page that cannot be read ends the run before the script.
///
/// The order of the steps and the texts are this project's own.
pub fn sum_files<R: Threads + Wait + Sync, B: Bay, K: Sink, N: Sink, T: LineGate>(
    rt: &R,
    alloc: Global,
    mount: &Mounted,
    script: &Script,
    ops: &Ops,
    bay: &mut B,
    sink: &mut K,
    notices: &mut N,
    gate: &T,
) -> Status
    requires script { IsScript script.now }
    requires calls { AllByRecursion (AreCalls mount.now) script.now.phases }
    ensures says { WrittenBeside (SaysSum mount.now None script.now (B.told bay.old) (B.told bay.new)) (K.told sink.old) (K.told sink.new) (N.told notices.old) (N.told notices.new) result }
{
    let given = Given { mount, script, ops };
    run_as(
        rt,
        alloc,
        &given,
        Wanted::Sum,
        None,
        bay,
        sink,
        notices,
        gate,
    )
}
