//! The stores of files: those that are out of the bay, parted by their files, and put together again.

ghost use Rattle.std.specs.Prelude.{◌≡◌, ◌++◌, ◌+◌, ◌^◌, ◌<◌, ◌≤◌, [], IfOk, length, take, vec_capacity};
ghost use Rattle.std.specs.Vec.Iter.{into_iter_items, into_iter_len};
ghost use Rattle.file_stores.specs.Keys.{EachAt, stores_of, stores_of_file};
ghost use Rattle.file_stores.specs.Held.{IsRoom, IsFit, keys_of};
ghost use Rattle.file_stores.specs.Files.{IsFile, stores_in};

use crate::held::Held;
use script_meaning::StoreKey;
use spr_io::Store;
use stack_accept::Mounted;
use std::alloc::{AllocError, Global};
use std::marker::Model;
use std::vec::IntoIter;

/// The stores of a file while they are out of the bay, in the order of the disks.
#[derive(Drop)]
pub struct FileStores<S: Store> {
    /// The file.
    pub file: u32,
    /// The stores, given back as they are.
    pub stores: Vec<S>,
}

impl<S: Store> Model for FileStores<S> {
    ghost use Rattle.std.specs.Prelude.{map};
    ghost use Rattle.file_stores.specs.Files.{FileSeen, keyed};

    ghost Value = { FileSeen };

    ghost view = { λ f. record { file = f.file; stores = keyed f.file 0 (map (λ s. record { size = S.size s; number = S.number s; state = record { content = S.content s; faults = S.faults s } }) f.stores.items) } };
}

/// Room for the stores of each file of a stack.
pub fn rooms_of<S: Store>(alloc: Global, mount: &Mounted) -> Result<Vec<Vec<S>>, AllocError>
    ensures number { IfOk result (λ rooms. length rooms.items ≡ length mount.now.files) }
    ensures empty { IfOk result (λ rooms. EachAt (λ at room. IsRoom (length mount.now.disks) room) rooms.items) }
{
    let disks = mount.disks().len();
    let files = mount.files().len();
    let mut rooms = Vec::with_capacity(alloc, files)?;
    for _ in 0..files {
        rooms.push_reserved(Vec::with_capacity(alloc, disks)?);
    }
    Ok(rooms)
}

/// Takes the stores of a file, which come next, into their room.
fn next_file<S: Store>(
    file: u32,
    disks: usize,
    rest: &mut IntoIter<Held<S>, Global>,
    room: Vec<S>,
) -> FileStores<S>
    requires room { IsRoom disks room }
    requires many { into_iter_len rest.old ≡ length (into_iter_items rest.old) }
    requires keys { take disks (keys_of (into_iter_items rest.old)) ≡ stores_of_file disks file }
    ensures all { into_iter_items rest.old ≡ result.stores ++ into_iter_items rest.new }
    ensures many { into_iter_len rest.new ≡ length (into_iter_items rest.new) }
    ensures file { result.file ≡ file }
    ensures keys { keys_of result.stores ≡ stores_of_file disks file }
{
    let mut stores = room;
    for _ in 0..disks {
        if let Some(held) = rest.next() {
            stores.push_reserved(held.store);
        }
    }
    FileStores { file, stores }
}

/// Parts stores, which come by file and then by disk, by their files. There is room for each file's, and for the files.
pub fn by_file<S: Store>(
    mount: &Mounted,
    stores: Vec<Held<S>>,
    rooms: Vec<Vec<S>>,
    files: &mut Vec<FileStores<S>>,
)
    requires stores { keys_of stores.items ≡ stores_of mount.now }
    requires fit { EachAt (λ at store. IsFit mount.now store) stores.items }
    requires rooms { length rooms.items ≡ length mount.now.files }
    requires empty { EachAt (λ at room. IsRoom (length mount.now.disks) room) rooms.items }
    requires files { IsRoom (length mount.now.files) files.old }
    ensures all { stores_in files.new.items ≡ stores.items }
    ensures each { EachAt (λ at f. (f.file ≡ at) × IsFile mount.now f) files.new.items }
    ensures number { length files.new.items ≡ length mount.now.files }
{
    let disks = mount.disks().len();
    let mut rest = stores.into_iter();
    for room in rooms {
        let file = files.len() as u32;
        files.push_reserved(next_file(file, disks, &mut rest, room));
    }
}

/// Makes the stores of one file of those that were taken, one for each disk. There is room for them.
pub fn as_file<S: Store>(
    mount: &Mounted,
    file: u32,
    stores: Vec<Held<S>>,
    room: Vec<S>,
) -> FileStores<S>
    requires file { file < length mount.now.files }
    requires stores { keys_of stores.items ≡ stores_of_file (length mount.now.disks) file }
    requires fit { EachAt (λ at store. IsFit mount.now store) stores.items }
    requires room { IsRoom (length mount.now.disks) room }
    ensures all { result.stores ≡ stores.items }
    ensures file { result.file ≡ file }
    ensures is { IsFile mount.now result }
{
    let disks = mount.disks().len();
    let mut rest = stores.into_iter();
    next_file(file, disks, &mut rest, room)
}

/// Puts the stores of a file behind others, in order. The room for them is there.
pub fn put_file<S: Store>(file: FileStores<S>, stores: &mut Vec<Held<S>>)
    requires short { length file.stores < 2 ^ 32 }
    requires room { length stores.old.items + length file.stores ≤ vec_capacity stores.old }
    ensures all { stores.new.items ≡ stores.old.items ++ file.stores }
    ensures room { vec_capacity stores.new ≡ vec_capacity stores.old }
{
    let FileStores {
        file: number,
        stores: rest,
    } = file;
    let mut disk = 0;
    for store in rest {
        let key = StoreKey { file: number, disk };
        stores.push_reserved(Held { key, store });
        disk += 1;
    }
}

/// Puts the stores of files behind others, in order. The room for them is there.
pub fn put_files<S: Store>(files: Vec<FileStores<S>>, stores: &mut Vec<Held<S>>)
    requires short { EachAt (λ at f. length f.stores < 2 ^ 32) files.items }
    requires room { length stores.old.items + length (stores_in files.items) ≤ vec_capacity stores.old }
    ensures all { stores.new.items ≡ stores.old.items ++ stores_in files.items }
    ensures room { vec_capacity stores.new ≡ vec_capacity stores.old }
{
    for file in files {
        put_file(file, stores);
    }
}
