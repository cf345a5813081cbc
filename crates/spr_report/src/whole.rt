//! The whole text of a run.

ghost use Rattle.std.specs.Prelude.{◌≡◌, ◌<◌, ◌++◌, ℕ, IfSome, IsOk, OnOk, IfOk, Some, map, length, slice_get};
ghost use Rattle.std.specs.List.{flat_map};
ghost use Rattle.stack_accept.specs.Sound.{IsInLimits};
ghost use Rattle.script_meaning.specs.Stack.{node_names};
ghost use Rattle.tower_log.specs.Log.{entries_of, trail_of};
ghost use Rattle.spr_report.specs.Tracing.{IsNextOf, AreNextOf, IsReported, AreReported, traced_after};
ghost use Rattle.spr_report.specs.Traced.{traced_by};
ghost use Rattle.spr_report.specs.Report.{IsClientText, IsFileText, client_parts, entry_lines, file_part, file_parts, callers_of, closing_lines, lost_line, report};

use crate::answer::{put_client, put_closing};
use crate::event::{Names, put_entry};
use crate::names_lines::put_names;
use crate::tracing::Tracer;
use crate::writing::lost_pieces;
use hist_plain::Event;
use name_context::Names as StackNames;
use pager_channel::Ops;
use script_meaning::StoreKey;
use script_text::{ClientLine, Reply, Said, Script};
use stack_accept::{FileEntry, Mounted};
use std::alloc::{AllocError, Global};
use std::thread::{Threads, map_indices};
use text_words::{put, put_line};
use tower_log::Trail;
use value_types::Text;

/// All that a report tells of a run.
#[derive(Clone, Copy)]
pub struct Run<'a> {
    /// The mounted stack.
    pub mount: &'a Mounted,
    /// The script.
    pub script: &'a Script,
    /// The numbers of the operations, if messages are traced.
    pub traced: Option<Ops>,
    /// Each file's log, in the order of the files.
    pub logs: &'a [Trail],
    /// The names, with the history of the calls on them.
    pub names: &'a StackNames,
    /// Each client's answers, in the order of the clients.
    pub said: &'a [Vec<Said>],
    /// The answer of each file's closing sync.
    pub closing: &'a [Reply],
    /// The stores that the bay refused to take back.
    pub lost: &'a [StoreKey],
}

/// The names of the callers: the clients, and then `mount`.
fn caller_names<'a>(alloc: Global, clients: &'a [ClientLine]) -> Result<Vec<&'a [u8]>, AllocError>
    ensures { IfOk result (λ v. map (λ n. n.now) v.items ≡ callers_of clients.now) }
{
    let mut names: Vec<&[u8]> = Vec::new(alloc);
    for client in clients {
        names.push(client.name.as_str().as_bytes())?;
    }
    names.push(b"mount")?;
    Ok(names)
}

/// The text of the part of the client of a number.
fn client_text(alloc: Global, run: &Run<'_>, number: usize) -> Result<Vec<u8>, AllocError>
    requires number { number < length run.now.script.now.clients }
    requires said { length run.now.said.now ≡ length run.now.script.now.clients }
    ensures { IfOk result (λ text. IsClientText run.now.mount.now.disks run.now.script.now.clients (map (λ v. v.items) run.now.said.now) number text.items) }
{
    let mut text = Vec::new(alloc);
    let client = &run.script.clients.as_slice()[number];
    let (disks, name) = (run.mount.disks(), client.name.as_str());
    put_client(alloc, &mut text, disks, name, &run.said[number])?;
    Ok(text)
}

/// The text of the part of each client, in the order of the clients. Each is made on a thread of its own, where one can be made.
fn client_texts<R: Threads + Sync>(
    rt: &R,
    alloc: Global,
    run: &Run<'_>,
) -> Result<Vec<Result<Vec<u8>, AllocError>>, AllocError>
    requires { length run.now.said.now ≡ length run.now.script.now.clients }
    ensures len { IfOk result (λ texts. length texts.items ≡ length run.now.script.now.clients) }
    ensures each { IfOk result (λ texts. (number : ℕ) (text : _) → slice_get texts.items number ≡ Some text → IfOk text (λ bytes. IsClientText run.now.mount.now.disks run.now.script.now.clients (map (λ v. v.items) run.now.said.now) number bytes.items)) }
{
    map_indices(
        rt,
        alloc,
        run.script.clients.as_slice().len(),
        &|number: usize| -> Result<Vec<u8>, AllocError>
            requires { (number < length run.now.script.now.clients) × (length run.now.said.now ≡ length run.now.script.now.clients) }
            ensures { IfOk result (λ text. IsClientText run.entry.now.mount.now.disks run.entry.now.script.now.clients (map (λ v. v.items) run.entry.now.said.now) number text.items) }
        { client_text(alloc, run, number) },
    )
}

/// Appends a text, if there was memory for it.
fn put_text(out: &mut Vec<u8>, text: &Result<Vec<u8>, AllocError>) -> Result<(), AllocError>
    ensures put { OnOk result (IfOk text.now (λ bytes. out.new.items ≡ out.old.items ++ bytes.items)) }
    ensures there { OnOk result (IsOk text.now) }
{
    match text {
        Ok(bytes) => put(out, bytes),
        Err(_) => Err(AllocError),
    }
}

/// Appends a part for each client.
fn put_clients<R: Threads + Sync>(
    rt: &R,
    alloc: Global,
    out: &mut Vec<u8>,
    run: &Run<'_>,
) -> Result<(), AllocError>
    requires { length run.now.said.now ≡ length run.now.script.now.clients }
    ensures { OnOk result (out.new.items ≡ out.old.items ++ client_parts run.now.mount.now.disks run.now.script.now.clients (map (λ v. v.items) run.now.said.now)) }
{
    let texts = client_texts(rt, alloc, run)?;
    for text in &texts {
        put_text(out, text)?;
    }
    Ok(())
}

/// Enters the event in the sheet, if messages are traced.
fn advance(tracer: &mut Option<Tracer<'_>>, event: &Event)
    requires { IfSome (traced_by tracer.old) (λ t. IsNextOf t event.now) }
    ensures { traced_by tracer.new ≡ traced_after (traced_by tracer.old) event.now }
{
    if let Some(tracer) = tracer {
        tracer.take(event);
    }
}

/// Appends the lines of the entries of a log.
fn put_entries(
    alloc: Global,
    out: &mut Vec<u8>,
    names: &Names,
    tracer: &mut Option<Tracer<'_>>,
    log: &Trail,
) -> Result<(), AllocError>
    requires { IfSome (traced_by tracer.old) (λ t. AreNextOf t (trail_of log.now.log)) }
    ensures { OnOk result (out.new.items ≡ out.old.items ++ entry_lines (map (λ n. n.now) names.now.callers.now) (node_names names.now.nodes.now) 0 (traced_by tracer.old) (entries_of log.now.log)) }
{
    for place in 0..log.len() {
        if let Some(entry) = log.entry(place) {
            put_entry(alloc, out, names, place, tracer, entry)?;
            advance(tracer, &entry.event);
        }
    }
    Ok(())
}

/// Appends the part of a file, which has this number: its name, and the lines of its log.
fn put_file(
    alloc: Global,
    out: &mut Vec<u8>,
    names: &Names,
    run: &Run<'_>,
    number: u32,
    file: &FileEntry,
    log: &Trail,
) -> Result<(), AllocError>
    requires pages { IsInLimits file.now.pages }
    requires log { IsReported run.now.mount.now file.now log.now.log }
    requires nodes { names.now.nodes.now ≡ run.now.mount.now.nodes }
    ensures { OnOk result (out.new.items ≡ out.old.items ++ file_part (map (λ n. n.now) names.now.callers.now) run.now.mount.now run.now.traced number file.now log.now.log) }
{
    put_line(out, &[b"file", file.name.as_str().as_bytes()])?;
    let mut tracer = Tracer::start(alloc, run.mount, run.traced, number, file)?;
    put_entries(alloc, out, names, &mut tracer, log)
}

/// The text of the part of a file, which has this number.
fn file_text(
    alloc: Global,
    names: &Names,
    run: &Run<'_>,
    number: usize,
) -> Result<Vec<u8>, AllocError>
    requires number { number < length run.now.mount.now.files }
    requires logs { AreReported run.now.mount.now run.now.mount.now.files (map (λ t. t.log) run.now.logs.now) }
    requires nodes { names.now.nodes.now ≡ run.now.mount.now.nodes }
    ensures { IfOk result (λ text. IsFileText (map (λ n. n.now) names.now.callers.now) run.now.mount.now run.now.traced (map (λ t. t.log) run.now.logs.now) number text.items) }
{
    let mut text = Vec::new(alloc);
    let file = &run.mount.files()[number];
    put_file(
        alloc,
        &mut text,
        names,
        run,
        number as u32,
        file,
        &run.logs[number],
    )?;
    Ok(text)
}

/// The text of the part of each file, in the order of the files. Each is made on a thread of its own, where one can be made.
fn file_texts<R: Threads + Sync>(
    rt: &R,
    alloc: Global,
    names: &Names,
    run: &Run<'_>,
) -> Result<Vec<Result<Vec<u8>, AllocError>>, AllocError>
    requires logs { AreReported run.now.mount.now run.now.mount.now.files (map (λ t. t.log) run.now.logs.now) }
    requires nodes { names.now.nodes.now ≡ run.now.mount.now.nodes }
    ensures len { IfOk result (λ texts. length texts.items ≡ length run.now.mount.now.files) }
    ensures each { IfOk result (λ texts. (number : ℕ) (text : _) → slice_get texts.items number ≡ Some text → IfOk text (λ bytes. IsFileText (map (λ n. n.now) names.now.callers.now) run.now.mount.now run.now.traced (map (λ t. t.log) run.now.logs.now) number bytes.items)) }
{
    map_indices(
        rt,
        alloc,
        run.mount.files().len(),
        &|number: usize| -> Result<Vec<u8>, AllocError>
            requires { (number < length run.now.mount.now.files) × AreReported run.now.mount.now run.now.mount.now.files (map (λ t. t.log) run.now.logs.now) × (names.now.nodes.now ≡ run.now.mount.now.nodes) }
            ensures { IfOk result (λ text. IsFileText (map (λ n. n.now) names.entry.now.callers.now) run.entry.now.mount.now run.entry.now.traced (map (λ t. t.log) run.entry.now.logs.now) number text.items) }
        { file_text(alloc, names, run, number) },
    )
}

/// Appends the part of each file.
fn put_files<R: Threads + Sync>(
    rt: &R,
    alloc: Global,
    out: &mut Vec<u8>,
    names: &Names,
    run: &Run<'_>,
) -> Result<(), AllocError>
    requires logs { AreReported run.now.mount.now run.now.mount.now.files (map (λ t. t.log) run.now.logs.now) }
    requires nodes { names.now.nodes.now ≡ run.now.mount.now.nodes }
    ensures { OnOk result (out.new.items ≡ out.old.items ++ file_parts (map (λ n. n.now) names.now.callers.now) run.now.mount.now run.now.traced 0 run.now.mount.now.files (map (λ t. t.log) run.now.logs.now)) }
{
    let texts = file_texts(rt, alloc, names, run)?;
    for text in &texts {
        put_text(out, text)?;
    }
    Ok(())
}

/// Appends the lines of the closing syncs that failed.
fn put_closings(
    alloc: Global,
    out: &mut Vec<u8>,
    disks: &[Text],
    files: &[FileEntry],
    closing: &[Reply],
) -> Result<(), AllocError>
    requires { length closing.now ≡ length files.now }
    ensures { OnOk result (out.new.items ≡ out.old.items ++ closing_lines disks.now files.now closing.now) }
{
    for (i, file) in files.iter().enumerate() {
        put_closing(alloc, out, disks, file.name.as_str(), &closing[i])?;
    }
    Ok(())
}

/// Appends the pieces, one after another.
fn put_pieces(out: &mut Vec<u8>, pieces: &[&[u8]]) -> Result<(), AllocError>
    ensures { OnOk result (out.new.items ≡ out.old.items ++ flat_map (λ p. p.now) pieces.now) }
{
    for piece in pieces {
        put(out, piece)?;
    }
    Ok(())
}

/// Appends a line for each store that the bay refused to take back.
fn put_lost(out: &mut Vec<u8>, mount: &Mounted, lost: &[StoreKey]) -> Result<(), AllocError>
    ensures { OnOk result (out.new.items ≡ out.old.items ++ flat_map (lost_line mount.now) lost.now) }
{
    for one in lost {
        put_pieces(out, &lost_pieces(mount, *one))?;
    }
    Ok(())
}

/// The text of a run that reached its phases, without the line of its status: the answers of each
/// client, the log of each file, the history of the names, the closing syncs that failed, and the stores that were lost. The parts of
/// the clients are made at once, and then those of the files, each on a thread of its own where one can be made.
pub fn report<R: Threads + Sync>(
    rt: &R,
    alloc: Global,
    run: &Run<'_>,
) -> Result<Vec<u8>, AllocError>
    requires logs { AreReported run.now.mount.now run.now.mount.now.files (map (λ t. t.log) run.now.logs.now) }
    requires said { length run.now.said.now ≡ length run.now.script.now.clients }
    requires closing { length run.now.closing.now ≡ length run.now.mount.now.files }
    ensures { IfOk result (λ text. text.items ≡ report run.now.mount.now run.now.script.now run.now.traced (map (λ t. t.log) run.now.logs.now) run.now.names.now.history (map (λ v. v.items) run.now.said.now) run.now.closing.now run.now.lost.now) }
{
    let mut out = Vec::new(alloc);
    let mount = run.mount;
    let clients = run.script.clients.as_slice();
    let callers = caller_names(alloc, clients)?;
    let names = Names {
        callers: &callers,
        nodes: mount.nodes(),
    };
    put_clients(rt, alloc, &mut out, run)?;
    put_files(rt, alloc, &mut out, &names, run)?;
    put_names(alloc, &mut out, &callers, run.names)?;
    put_closings(alloc, &mut out, mount.disks(), mount.files(), run.closing)?;
    put_lost(&mut out, mount, run.lost)?;
    Ok(out)
}
