//! A bay of stores in the host's files.

ghost use Rattle.std.specs.Prelude.{◌≡◌, ◌++◌, ◌∷◌, [], IfOk, OnOk, OnErr, OnSome, IfSome, IfNone, position, true, false, Some, None};
ghost use Rattle.spr_io.specs.Berth.{taken, given, lost, SameBerths, SameElsewhere};
ghost use Rattle.spr_io.specs.Raw.{HasLength, after_set_len};
ghost use Rattle.spr_io.specs.Host.{is_entry, berth_in};

use crate::host_file::HostFile;
use crate::host_store::HostStore;
use crate::ordinals::count_fault;
use crate::outside::{Bay, BayErr, Failed, Store};
use crate::raw::RawFile;
use std::alloc::{AllocError, Global};
use std::fs::{File, OpenOptions};
use std::io::ErrorKind;
use std::marker::Model;
use std::rt::Files;
use std::{fs, io};

/// The name of a store that was taken, whether it is out, and its count of faults.
#[derive(Debug, Drop)]
struct Entry {
    disk: String,
    file: String,
    out: bool,
    /// The count of faults when the store was taken or given back last.
    count: u64,
    /// Whether a sync was refused: of a store that was given back, or before a store was given out.
    spoiled: bool,
}

impl Model for Entry {
    ghost use Rattle.std.specs.Prelude.{string_bytes};
    ghost use Rattle.spr_io.specs.Host as host;

    ghost Value = { host.Entry };

    ghost view = { λ e. record { disk = string_bytes e.disk; file = string_bytes e.file; out = e.out; count = e.count } };
}

impl Entry {
    /// The entry of a store that was never taken.
    fn new(alloc: Global, disk: &str, file: &str) -> Result<Entry, AllocError>
        ensures { IfOk result (λ entry. entry ≡ record { disk = disk.now; file = file.now; out = false; count = 0 }) }
    {
        Ok(Entry {
            disk: String::from_str(alloc, disk)?,
            file: String::from_str(alloc, file)?,
            out: false,
            count: 0,
            spoiled: false,
        })
    }

    fn is_of(&self, disk: &str, file: &str) -> bool
        ensures { result ≡ is_entry disk.now file.now self.now }
    {
        self.disk.as_str() == disk && self.file.as_str() == file
    }

    /// Opens the store's host file, if the store is not out and no sync of the file was refused.
    fn take<R: Files<File = File>>(
        &mut self,
        rt: &R,
        path: &str,
        size: u32,
        blocks: u32,
    ) -> Option<HostStore<HostFile>>
        ensures some { IfSome result (λ store. (self.old.out ≡ false) × (store ≡ record { size = size; blocks = blocks; count = self.old.count; spoiled = false; file = None }) × (self.new ≡ record self.old { out = true })) }
        ensures none { IfNone result (self.new ≡ self.old) }
    {
        if self.out || self.spoiled {
            return None;
        }
        let len = u64::from(size) * u64::from(blocks);
        let Ok(mut file) = open_image(rt, path, len) else {
            return None;
        };
        if keep_image(rt, &mut file).is_err() {
            self.spoiled = true;
            return None;
        }
        self.out = true;
        Some(HostStore::new(file, size, blocks, self.count))
    }

    /// Notes that the store is back, with its count of faults and whether it was spoiled, if it was out.
    fn give(&mut self, count: u64, spoiled: bool) -> bool
        ensures answer { result ≡ self.old.out }
        ensures given { self.old.out ≡ true → self.new ≡ record self.old { out = false; count = count } }
        ensures same { self.old.out ≡ false → self.new ≡ self.old }
    {
        if !self.out {
            return false;
        }
        self.out = false;
        self.count = count;
        self.spoiled = spoiled;
        true
    }
}

/// Whether a host file has any byte; it is not opened, and not made if it is missing.
fn is_there<R: Files>(rt: &R, path: &str) -> io::Result<bool> {
    match fs::metadata(rt, path) {
        Ok(found) => Ok(found.len() > 0),
        Err(e) if e.kind() == ErrorKind::NotFound => Ok(false),
        Err(e) => Err(e),
    }
}

/// Opens a host file to read and write it, and makes it if it is missing; the file is locked while it is open.
fn open_locked<R: Files<File = File>>(rt: &R, path: &str) -> io::Result<HostFile> {
    let mut how = OpenOptions::new();
    how.read(true);
    how.write(true);
    how.create(true);
    let file = how.open(rt, path)?;
    file.try_lock()?;
    Ok(HostFile::new(file))
}

/// Makes an empty file one of `len` zeros, and refuses one of another length.
fn fit<F: RawFile>(file: &mut F, len: u64) -> Result<(), Failed>
    ensures long { OnOk result (HasLength len (F.seen file.new)) }
    ensures zeros { OnOk result (HasLength 0 (F.seen file.old) → F.seen file.new ≡ after_set_len len (F.seen file.old)) }
    ensures err { OnErr result (F.seen file.new ≡ F.seen file.old) }
{
    let found = file.len()?;
    if found == 0 {
        return file.set_len(len);
    }
    if found != len {
        return Err(Failed);
    }
    Ok(())
}

/// Opens a host file of `len` bytes; one that is missing or empty is made of zeros.
fn open_image<R: Files<File = File>>(rt: &R, path: &str, len: u64) -> Result<HostFile, Failed> {
    let Ok(mut file) = open_locked(rt, path) else {
        return Err(Failed);
    };
    fit(&mut file, len)?;
    Ok(file)
}

/// Syncs the current folder, which holds the names of the host files; it must be one that can be read.
fn sync_folder<R: Files<File = File>>(rt: &R) -> io::Result<()> {
    fs::open(rt, ".")?.sync_all()
}

/// Has the host keep a file's bytes and its name.
fn keep_image<R: Files<File = File>>(rt: &R, file: &mut HostFile) -> Result<(), Failed> {
    file.sync()?;
    match sync_folder(rt) {
        Ok(()) => Ok(()),
        Err(_) => Err(Failed),
    }
}

/// Where the entry of a disk and a file stands.
fn place_of(entries: &[Entry], disk: &str, file: &str) -> Option<usize>
    ensures { result ≡ position (is_entry disk.now file.now) entries.now }
{
    entries.iter().position(|e| e.is_of(disk, file))
}

/// Adds an entry of a disk and a file, if there is none.
fn enter(alloc: Global, entries: &mut Vec<Entry>, disk: &str, file: &str) -> Result<(), AllocError>
    ensures { SameBerths (berth_in entries.old.items) (berth_in entries.new.items) }
{
    if place_of(entries, disk, file).is_none() {
        entries.push(Entry::new(alloc, disk, file)?)?;
    }
    Ok(())
}

/// Takes the store of an entry, if it is not out and its host file can be opened.
fn take<R: Files<File = File>>(
    rt: &R,
    entries: &mut [Entry],
    disk: &str,
    file: &str,
    path: &str,
    size: u32,
    blocks: u32,
) -> Option<HostStore<HostFile>>
    ensures store { IfSome result (λ store. store ≡ record { size = size; blocks = blocks; count = (berth_in entries.old disk.now file.now).faults; spoiled = false; file = None }) }
    ensures was_in { OnSome result ((berth_in entries.old disk.now file.now).out ≡ false) }
    ensures taken { OnSome result (berth_in entries.new disk.now file.now ≡ taken (berth_in entries.old disk.now file.now)) }
    ensures others { OnSome result (SameElsewhere disk.now file.now (berth_in entries.old) (berth_in entries.new)) }
    ensures none { IfNone result (SameBerths (berth_in entries.old) (berth_in entries.new)) }
{
    match place_of(entries, disk, file) {
        Some(at) => match entries[at].take(rt, path, size, blocks) {
            Some(store) => Some(store),
            None => None,
        },
        None => None,
    }
}

/// Notes that the store of an entry is back, if it was out.
fn give(entries: &mut [Entry], disk: &str, file: &str, count: u64, spoiled: bool) -> bool
    ensures answer { result ≡ (berth_in entries.old disk.now file.now).out }
    ensures given { result ≡ true → berth_in entries.new disk.now file.now ≡ given None count (berth_in entries.old disk.now file.now) }
    ensures lost { result ≡ false → berth_in entries.new disk.now file.now ≡ lost count (berth_in entries.old disk.now file.now) }
    ensures others { SameElsewhere disk.now file.now (berth_in entries.old) (berth_in entries.new) }
{
    match place_of(entries, disk, file) {
        Some(at) => entries[at].give(count, spoiled),
        None => false,
    }
}

/// Stores in the host's files: disk `d` of file `f` is the file `d.f.img` of the current folder.
///
/// A file of another length than its store's is a fault; one that is missing or empty starts as zeros. A file is locked
/// while its store is held, so that no other program takes it (one that asks for no lock is not kept out), and it and
/// the folder are synced before its store is given out. After a sync was refused, then or while a store of it was out, the
/// file may read as bytes that are on no disk though a later sync answers Ok: so each later take of it from this bay is a
/// fault.
#[derive(Drop)]
pub struct HostBay<R> {
    rt: R,
    alloc: Global,
    entries: Vec<Entry>,
    faults: u64,
}

impl<R> Model for HostBay<R> {
    ghost use Rattle.spr_io.specs.Host.{HostEntries};

    ghost Value = { HostEntries };

    ghost view = { λ b. record { entries = b.entries.items; faults = b.faults } };
}

impl<R: Files<File = File> + Drop> HostBay<R> {
    /// The files that a runtime reaches; no store of them was taken.
    pub fn new(rt: R, alloc: Global) -> HostBay<R>
        ensures { result ≡ record { entries = []; faults = 0 } }
    {
        HostBay {
            rt,
            alloc,
            entries: Vec::new(alloc),
            faults: 0,
        }
    }
}

impl<R: Files<File = File> + Drop> Bay for HostBay<R> {
    type Store = HostStore<HostFile>;

    ghost told = { λ b. record { berths = berth_in b.entries; faults = b.faults } };

    /// Whether the file is there and is not empty, also while its store is out.
    fn has(&mut self, disk: &str, file: &str) -> Result<bool, BayErr> {
        let Ok(path) = format!(in self.alloc; "{disk}.{file}.img") else {
            return Err(BayErr::Memory);
        };
        match is_there(&self.rt, path.as_str()) {
            Ok(there) => Ok(there),
            Err(_) => {
                count_fault(&mut self.faults);
                Err(BayErr::Failed)
            }
        }
    }

    fn take(
        &mut self,
        disk: &str,
        file: &str,
        size: u32,
        blocks: u32,
    ) -> Result<HostStore<HostFile>, BayErr> {
        // What the host has of the file in its memory stays there: dropping it needs `posix_fadvise`, which only the crate
        // `libc` has, and this repository does not use that.
        if enter(self.alloc, &mut self.entries, disk, file).is_err() {
            return Err(BayErr::Memory);
        }
        let Ok(path) = format!(in self.alloc; "{disk}.{file}.img") else {
            return Err(BayErr::Memory);
        };
        match take(
            &self.rt,
            &mut self.entries,
            disk,
            file,
            path.as_str(),
            size,
            blocks,
        ) {
            Some(store) => Ok(store),
            None => {
                count_fault(&mut self.faults);
                Err(BayErr::Failed)
            }
        }
    }

    fn give(&mut self, disk: &str, file: &str, store: HostStore<HostFile>) -> Result<(), Failed> {
        let (count, spoiled) = (store.count(), store.is_spoiled());
        if give(&mut self.entries, disk, file, count, spoiled) {
            return Ok(());
        }
        count_fault(&mut self.faults);
        Err(Failed)
    }
}
