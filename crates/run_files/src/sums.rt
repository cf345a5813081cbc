//! The run of a generated script: its files are read before it, and summed behind it.

ghost use Rattle.std.specs.Prelude.{◌≡◌, ◌++◌, ◌*◌, ℕ, IfErr, IfOk, List, Option, length, map};
ghost use Rattle.std.specs.List.{AllByRecursion};
ghost use Rattle.hist_plain.specs.File.{Counted};
ghost use Rattle.script_text.specs.Grammar.{IsScript};
ghost use Rattle.stack_accept.specs.Sound.{IsMount};
ghost use Rattle.spr_io.specs.Berth.{BaySeen};
ghost use Rattle.spr_client.specs.Calls.{AreOfStack};
ghost use Rattle.spr_client.specs.Lines.{AreCalls};
ghost use Rattle.spr_report.specs.Tracing.{AreReported};
ghost use Rattle.spr_report.specs.Writing.{Finishes};
ghost use Rattle.gen_summary.specs.Summary.{summary};
ghost use Rattle.name_context.specs.History.{NamesSeen};
ghost use Rattle.script_meaning.specs.Stack.{pages_of};
ghost use Rattle.file_stores.specs.Keys.{EachAt, AreStores, stores_of};
ghost use Rattle.file_stores.specs.Held.{IsRoom};
ghost use Rattle.file_stores.specs.Files.{FileSeen, stores_in};
ghost use Rattle.file_stores.specs.Stop.{lost_text};
ghost use Rattle.file_stores.specs.Written.{WrittenBeside};
ghost use Rattle.stack_engine.specs.Tower.{TowerSeen};
ghost use Rattle.run_files.specs.Beginning.{AreRead, AreTried};
ghost use Rattle.run_files.specs.Held.{AreFiles, AreMade, IsTaken, OpensEach};
ghost use Rattle.run_files.specs.Play.{ArePlayed, IsUnwritten};
ghost use Rattle.run_files.specs.Room.{HasAnswerRoom};
ghost use Rattle.run_files.specs.Sums.{AreLasts, IsHalt, SaysSum, SumTold, summed_calls};

use crate::beginning::begin_files;
use crate::ended::status_of;
use crate::lasting::files_at_end;
use crate::play::{Answers, play};
use crate::room::{Asked, Files};
use crate::run::Given;
use crate::shut::shut_files;
use file_stores::{FileGround, Stop, finish_lost, stopped};
use gen_summary::summary;
use page_ground::Ground;
use script_meaning::StoreKey;
use script_text::{CallLine, Said, Script};
use spr_client::LineGate;
use spr_io::{Bay, Failed, Sink};
use spr_report::{Status, write_all};
use stack_accept::Mounted;
use stack_engine::Tower;
use std::alloc::{AllocError, Global};
use std::sync::Wait;
use std::thread::Threads;
use tower_log::Trail;

/// The calls that are summed: those of the second phase.
fn summed_calls(script: &Script) -> &[CallLine]
    ensures { result.now ≡ summed_calls script.now }
{
    match script.phases.as_slice().get(1) {
        Some(phase) => phase.as_slice(),
        None => &[],
    }
}

/// The sum of a run, by what the files began with and their logs.
fn sum_text(
    alloc: Global,
    mount: &Mounted,
    script: &Script,
    said: &[Vec<Said>],
    begun: &[Vec<u8>],
    logs: &[Trail],
) -> Result<Vec<u8>, AllocError>
    requires sound { IsMount mount.now }
    requires begun { length begun.now ≡ length mount.now.files }
    requires sized { EachAt (λ at bytes. length bytes ≡ pages_of mount.now at * mount.now.page_size) (map (λ b. b.items) begun.now) }
    requires logs { AreReported mount.now mount.now.files (map (λ t. t.log) logs.now) }
    ensures { IfOk result (λ text. (lasts : List Counted) × AreLasts mount.now (map (λ b. b.items) begun.now) (map (λ t. t.log) logs.now) lasts × (text.items ≡ summary (summed_calls script.now) (map (λ v. v.items) said.now) lasts)) }
{
    let lasts = files_at_end(alloc, mount, begun, logs)?;
    summary(alloc, summed_calls(script), said, &lasts)
}

/// Writes a text, a line for each store that is lost, and the status.
fn tell_text<K: Sink>(
    sink: &mut K,
    mount: &Mounted,
    text: &[u8],
    lost: &[StoreKey],
    status: Status,
) -> Status
    ensures { Finishes (K.told sink.old) (K.told sink.new) (text.now ++ lost_text mount.now lost.now) status result }
{
    match write_all(sink, text) {
        Ok(()) => finish_lost(sink, mount, lost, status),
        Err(Failed) => Status::SinkFault,
    }
}

/// Writes the sum of a run and its status; if memory runs out for the sum, a line for each store that is lost.
fn tell_sum<K: Sink>(
    alloc: Global,
    given: &Given<'_>,
    said: &[Vec<Said>],
    begun: &[Vec<u8>],
    logs: &[Trail],
    lost: &[StoreKey],
    status: Status,
    sink: &mut K,
) -> Status
    requires sound { IsMount given.now.mount.now }
    requires begun { length begun.now ≡ length given.now.mount.now.files }
    requires sized { EachAt (λ at bytes. length bytes ≡ pages_of given.now.mount.now at * given.now.mount.now.page_size) (map (λ b. b.items) begun.now) }
    requires logs { AreReported given.now.mount.now given.now.mount.now.files (map (λ t. t.log) logs.now) }
    ensures { SumTold given.now.mount.now given.now.script.now (map (λ b. b.items) begun.now) (map (λ t. t.log) logs.now) (map (λ v. v.items) said.now) lost.now status (K.told sink.old) (K.told sink.new) result }
{
    match sum_text(alloc, given.mount, given.script, said, begun, logs) {
        Ok(text) => tell_text(sink, given.mount, &text, lost, status),
        Err(AllocError) => finish_lost(sink, given.mount, lost, Status::Memory),
    }
}

/// Reads the open files and runs the script over them: the files, what they began with, and the answers. If a page cannot be
/// read, or memory runs out before the script, the files are handed back with the reason.
fn play_read<R: Threads + Wait + Sync, G: Ground + Send + Drop, T: LineGate>(
    rt: &R,
    alloc: Global,
    given: &Given<'_>,
    towers: Vec<Tower<G>>,
    asked: Asked,
    gate: &T,
) -> Result<(Vec<Tower<G>>, Vec<Vec<u8>>, Answers), (Vec<Tower<G>>, Stop)>
    requires script { IsScript given.now.script.now }
    requires calls { AllByRecursion (AreCalls given.now.mount.now) given.now.script.now.phases }
    requires towers { AreOfStack given.now.mount.now towers.items }
    requires unwritten { AllByRecursion IsUnwritten towers.items }
    requires room { HasAnswerRoom given.now.mount.now given.now.script.now asked }
    ensures played { IfOk result (λ r. (begun : List TowerSeen) × (names : NamesSeen) × AreRead towers.items begun (map (λ b. b.items) r.1.items) × ArePlayed given.now.mount.now asked.loss given.now.script.now begun r.0.items names (map (λ v. v.items) r.2.said.items) r.2.closing.items) }
    ensures halted { IfErr result (λ e. AreTried (length given.now.script.now.clients) towers.items e.0.items × IsHalt (length given.now.script.now.clients) e.0.items e.1) }
{
    let number = towers.as_slice().len();
    let caller = given.script.clients.as_slice().len() as u32;
    let Ok(mut begun) = Vec::with_capacity(alloc, number) else {
        return Err((towers, Stop::Memory));
    };
    let Ok(mut bytes) = Vec::with_capacity(alloc, number) else {
        return Err((towers, Stop::Memory));
    };
    if let Err(stop) = begin_files(alloc, towers, caller, &mut begun, &mut bytes) {
        return Err((begun, stop));
    }
    match play(
        rt,
        alloc,
        given.mount,
        given.script,
        given.ops,
        begun,
        asked,
        gate,
    ) {
        Ok((towers, _names, answers)) => Ok((towers, bytes, answers)),
        Err(towers) => Err((towers, Stop::Memory)),
    }
}

/// Closes the files that the script was run over, gives their stores back, tells of their disks, and writes the sum.
fn end_sum<B: Bay, K: Sink, N: Sink>(
    alloc: Global,
    given: &Given<'_>,
    bay: &mut B,
    sink: &mut K,
    notices: &mut N,
    files: Files<B::Store>,
    bytes: Vec<Vec<u8>>,
    answers: Answers,
) -> Status
    requires mount { IsMount given.now.mount.now }
    requires stores { AreStores given.now.mount.now (stores_of given.now.mount.now) }
    requires begun { (olds : List FileSeen) × (opened : List TowerSeen) × (begun : List TowerSeen) × (names : NamesSeen) × AreFiles given.now.mount.now olds × OpensEach given.now.mount.now olds opened × AreMade given.now.mount.now olds opened (map (λ m. m.items) files.made.items)
        × AreRead opened begun (map (λ b. b.items) bytes.items) × (loss : Option ℕ) × ArePlayed given.now.mount.now loss given.now.script.now begun files.towers.items names (map (λ v. v.items) answers.said.items) answers.closing.items }
    requires made { length files.made.items ≡ length files.towers.items }
    requires closed { IsRoom (length given.now.mount.now.files) files.closed }
    requires trails { IsRoom (length given.now.mount.now.files) files.trails }
    requires told { IsRoom (length given.now.mount.now.files) files.notices }
    requires back { IsRoom (length (stores_of given.now.mount.now)) files.back }
    requires lost { IsRoom (length (stores_of given.now.mount.now)) files.lost }
    ensures ended { (before : BaySeen) (olds : List FileSeen) (opened begun : List TowerSeen) (names : NamesSeen) → IsTaken given.now.mount.now before (B.told bay.old) (stores_of given.now.mount.now) (stores_in olds) → AreFiles given.now.mount.now olds → OpensEach given.now.mount.now olds opened
        → AreMade given.now.mount.now olds opened (map (λ m. m.items) files.made.items) → AreRead opened begun (map (λ b. b.items) bytes.items)
        → (loss : Option ℕ) → ArePlayed given.now.mount.now loss given.now.script.now begun files.towers.items names (map (λ v. v.items) answers.said.items) answers.closing.items
        → WrittenBeside (SaysSum given.now.mount.now loss given.now.script.now before (B.told bay.new)) (K.told sink.old) (K.told sink.new) (N.told notices.old) (N.told notices.new) result }
{
    let (logs, lost) = shut_files(given.mount, bay, notices, files);
    let status = status_of(&answers.said, &answers.closing, &lost);
    tell_sum(
        alloc,
        given,
        &answers.said,
        &bytes,
        &logs,
        &lost,
        status,
        sink,
    )
}

/// Closes the files over which the script was not run, gives their stores back, tells of their disks, and writes why.
fn end_unplayed<B: Bay, K: Sink, N: Sink>(
    given: &Given<'_>,
    bay: &mut B,
    sink: &mut K,
    notices: &mut N,
    files: Files<B::Store>,
    stop: Stop,
) -> Status
    requires mount { IsMount given.now.mount.now }
    requires stores { AreStores given.now.mount.now (stores_of given.now.mount.now) }
    requires tried { (olds : List FileSeen) × (opened : List TowerSeen) × AreFiles given.now.mount.now olds × OpensEach given.now.mount.now olds opened × AreMade given.now.mount.now olds opened (map (λ m. m.items) files.made.items)
        × AreTried (length given.now.script.now.clients) opened files.towers.items }
    requires halt { IsHalt (length given.now.script.now.clients) files.towers.items stop }
    requires made { length files.made.items ≡ length files.towers.items }
    requires closed { IsRoom (length given.now.mount.now.files) files.closed }
    requires trails { IsRoom (length given.now.mount.now.files) files.trails }
    requires told { IsRoom (length given.now.mount.now.files) files.notices }
    requires back { IsRoom (length (stores_of given.now.mount.now)) files.back }
    requires lost { IsRoom (length (stores_of given.now.mount.now)) files.lost }
    ensures ended { (before : BaySeen) (olds : List FileSeen) (opened : List TowerSeen) → IsTaken given.now.mount.now before (B.told bay.old) (stores_of given.now.mount.now) (stores_in olds) → AreFiles given.now.mount.now olds → OpensEach given.now.mount.now olds opened
        → AreMade given.now.mount.now olds opened (map (λ m. m.items) files.made.items) → AreTried (length given.now.script.now.clients) opened files.towers.items
        → (loss : Option ℕ) → WrittenBeside (SaysSum given.now.mount.now loss given.now.script.now before (B.told bay.new)) (K.told sink.old) (K.told sink.new) (N.told notices.old) (N.told notices.new) result }
{
    let shut = shut_files(given.mount, bay, notices, files);
    stopped(sink, given.mount, stop, &shut.1)
}

/// Reads the open files, runs the script over them, closes them and gives their stores back, and writes the sum; or why the script
/// was not run.
pub(crate) fn sum_open<R: Threads + Wait + Sync, B: Bay, K: Sink, N: Sink, T: LineGate>(
    rt: &R,
    alloc: Global,
    given: &Given<'_>,
    bay: &mut B,
    sink: &mut K,
    notices: &mut N,
    files: Files<B::Store>,
    asked: Asked,
    gate: &T,
) -> Status
    requires mount { IsMount given.now.mount.now }
    requires script { IsScript given.now.script.now }
    requires calls { AllByRecursion (AreCalls given.now.mount.now) given.now.script.now.phases }
    requires answers { HasAnswerRoom given.now.mount.now given.now.script.now asked }
    requires stores { AreStores given.now.mount.now (stores_of given.now.mount.now) }
    requires opened { (olds : List FileSeen) × AreFiles given.now.mount.now olds × OpensEach given.now.mount.now olds files.towers.items × AreMade given.now.mount.now olds files.towers.items (map (λ m. m.items) files.made.items) }
    requires made { length files.made.items ≡ length files.towers.items }
    requires closed { IsRoom (length given.now.mount.now.files) files.closed }
    requires trails { IsRoom (length given.now.mount.now.files) files.trails }
    requires told { IsRoom (length given.now.mount.now.files) files.notices }
    requires back { IsRoom (length (stores_of given.now.mount.now)) files.back }
    requires lost { IsRoom (length (stores_of given.now.mount.now)) files.lost }
    ensures ended { (before : BaySeen) (olds : List FileSeen) → IsTaken given.now.mount.now before (B.told bay.old) (stores_of given.now.mount.now) (stores_in olds) → AreFiles given.now.mount.now olds
        → OpensEach given.now.mount.now olds files.towers.items → AreMade given.now.mount.now olds files.towers.items (map (λ m. m.items) files.made.items)
        → WrittenBeside (SaysSum given.now.mount.now asked.loss given.now.script.now before (B.told bay.new)) (K.told sink.old) (K.told sink.new) (N.told notices.old) (N.told notices.new) result }
{
    let Files {
        towers,
        made,
        rest,
        closed,
        trails,
        notices: told,
        back,
        lost,
    } = files;
    match play_read(rt, alloc, given, towers, asked, gate) {
        Ok((towers, bytes, answers)) => {
            let files = Files {
                towers,
                made,
                rest,
                closed,
                trails,
                notices: told,
                back,
                lost,
            };
            end_sum(alloc, given, bay, sink, notices, files, bytes, answers)
        }
        Err((towers, stop)) => {
            let files = Files {
                towers,
                made,
                rest,
                closed,
                trails,
                notices: told,
                back,
                lost,
            };
            end_unplayed(given, bay, sink, notices, files, stop)
        }
    }
}
