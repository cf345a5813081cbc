//! A file that is open over its stores: on one disk, or on disks in mirrors.

ghost use Rattle.std.specs.Prelude.{◌≡◌, IfOk};
ghost use Rattle.file_stores.specs.Under.{seen_under};
ghost use Rattle.file_stores.specs.Files.{IsFile};
ghost use Rattle.script_meaning.specs.Stack.{pages_of};

use crate::say::{say_bytes, say_called, say_notices};
use crate::stop::say_stop;
use file_stores::{
    FileGround, FileStores, Unopened, as_file, close_file, open_file, stores_of_one, take_stores,
};
use mirror_layer::Notice;
use page_ground::Ground;
use script_meaning::{disk_name, file_name, pages_of};
use spr_io::{Bay, MemBay, MemStore};
use stack_accept::Mounted;
use std::alloc::Global;
use trial_words::{Halt, byte, number, say};

/// What lies under a file that is open, of pages of 64 bytes.
#[derive(Drop)]
struct OpenFile {
    under: FileGround<MemStore>,
    /// What the opening made of each disk.
    came: Vec<Option<Notice>>,
    file: u32,
    pages: u32,
    ghost size: { (seen_under under).page_size ≡ 64 },
    ghost many: { (seen_under under).number ≡ pages },
}

/// The file that is open, if one is.
#[derive(Drop)]
pub struct FileCase {
    open: Option<OpenFile>,
}

/// Takes the stores of a file of a bay.
fn taken(
    alloc: Global,
    mount: &Mounted,
    bay: &mut MemBay,
    file: u32,
) -> Result<FileStores<MemStore>, Halt>
    ensures is { IfOk result (λ f. IsFile mount.now f) }
    ensures file { IfOk result (λ f. f.file ≡ file) }
{
    if file as usize >= mount.files().len() {
        return Err(Halt::Impossible);
    }
    let keys = stores_of_one(alloc, mount, file)?;
    let mut stores = Vec::with_capacity(alloc, keys.len())?;
    let room = Vec::with_capacity(alloc, mount.disks().len())?;
    if take_stores(mount, bay, &keys, &mut stores).is_err() {
        return Err(Halt::Impossible);
    }
    Ok(as_file(mount, file, stores, room))
}

/// Gives the stores of a file back to a bay.
fn give(mount: &Mounted, bay: &mut MemBay, stores: FileStores<MemStore>) -> Result<(), Halt> {
    let FileStores { file, stores } = stores;
    let mut disk = 0u32;
    for store in stores {
        if bay
            .give(disk_name(mount, disk), file_name(mount, file), store)
            .is_err()
        {
            return Err(Halt::Impossible);
        }
        disk = disk.saturating_add(1);
    }
    Ok(())
}

/// Opens a file of pages of 64 bytes.
fn opened(
    alloc: Global,
    mount: &Mounted,
    stores: FileStores<MemStore>,
) -> Result<OpenFile, Unopened<MemStore>>
    requires file { IsFile mount.now stores }
    requires size { mount.now.page_size ≡ 64 }
{
    let file = stores.file;
    let pages = pages_of(mount, file);
    match open_file(alloc, mount, stores) {
        Ok((under, came)) => Ok(OpenFile {
            under,
            came,
            file,
            pages,
        }),
        Err(refused) => Err(refused),
    }
}

impl OpenFile {
    /// Reads a page, and appends it.
    fn read(&mut self, page: u32, answer: &mut String) -> Result<(), Halt> {
        if page >= self.pages {
            return Err(Halt::Impossible);
        }
        let mut out = [0xffu8; 64];
        match self.under.read(page, &mut out) {
            Ok(()) => Ok(say_bytes(answer, &out)?),
            Err(fault) => Ok(say_called(answer, Err(fault))?),
        }
    }

    /// Writes a page that has one byte in each place.
    fn write(&mut self, page: u32, filled: u8, answer: &mut String) -> Result<(), Halt> {
        if page >= self.pages {
            return Err(Halt::Impossible);
        }
        let called = self.under.write(page, &[filled; 64]);
        Ok(say_called(answer, called)?)
    }

    /// Keeps all pages.
    fn flush(&mut self, answer: &mut String) -> Result<(), Halt> {
        let called = self.under.flush();
        Ok(say_called(answer, called)?)
    }

    /// Does a call.
    fn call(&mut self, words: &[&str], answer: &mut String) -> Result<(), Halt> {
        match words {
            ["read", page] => self.read(number(page)?, answer),
            ["write", page, filled] => self.write(number(page)?, byte(filled)?, answer),
            ["flush"] => self.flush(answer),
            ["came"] => Ok(say_notices(answer, &self.came)?),
            _ => Err(Halt::Unread),
        }
    }
}

impl FileCase {
    /// No file is open.
    pub fn new() -> FileCase {
        FileCase { open: None }
    }

    /// Opens a file over its stores, which are taken of the bay. If it is refused they go back, and the reason is appended.
    fn open(
        &mut self,
        alloc: Global,
        mount: &Mounted,
        bay: &mut MemBay,
        file: u32,
        answer: &mut String,
    ) -> Result<(), Halt> {
        let stores = taken(alloc, mount, bay, file)?;
        if mount.page_size() != 64 {
            return Err(Halt::Impossible);
        }
        match opened(alloc, mount, stores) {
            Ok(open) => {
                self.open = Some(open);
                Ok(say(answer, "done")?)
            }
            Err(Unopened { stores, stop }) => {
                say_stop(answer, stop)?;
                give(mount, bay, stores)
            }
        }
    }

    /// Closes the file, and gives its stores back.
    fn close(&mut self, mount: &Mounted, bay: &mut MemBay) -> Result<(), Halt> {
        match self.open.take() {
            Some(open) => give(mount, bay, close_file(open.under, open.file)),
            None => Err(Halt::Impossible),
        }
    }

    /// Does a step: the file is opened, called or closed.
    pub fn step(
        &mut self,
        alloc: Global,
        mount: &Mounted,
        bay: &mut Option<MemBay>,
        words: &[&str],
        answer: &mut String,
    ) -> Result<(), Halt> {
        let Some(bay) = bay else {
            return Err(Halt::Impossible);
        };
        match words {
            ["open", file] => self.open(alloc, mount, bay, number(file)?, answer),
            ["close"] => self.close(mount, bay),
            _ => match &mut self.open {
                Some(open) => open.call(words, answer),
                None => Err(Halt::Impossible),
            },
        }
    }
}
