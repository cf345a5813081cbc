//! The command that prints the pages of a file.

ghost use Rattle.std.specs.Prelude.{◌≡◌, ◌<◌, ◌*◌, ◌^◌, [], IfOk, length};
ghost use Rattle.page_ground.specs.Pages.{cut};
ghost use Rattle.script_meaning.specs.Stack.{pages_of};
ghost use Rattle.spr_io.specs.Berth.{BaySeen};
ghost use Rattle.file_stores.specs.Keys.{AreStores, EachAt, stores_of_file};
ghost use Rattle.file_stores.specs.Held.{AreGiven, AreOut, IsFit, IsRoom, keys_of};
ghost use Rattle.file_stores.specs.State.{RoseBy};
ghost use Rattle.file_stores.specs.Written.{WrittenBeside};
ghost use Rattle.image_commands.specs.Says.{SaysDump, PrintsPages};

use crate::pages::{ReadFile, lines_of, read_stores};
use crate::told::tell;
use file_stores::{
    FileStores, Held, Stop, as_file, give_back, put_file, shape_of, stopped, stores_of_one,
    take_stores, write_notices,
};
use script_meaning::StoreKey;
use spr_io::{Bay, Sink, Store};
use spr_report::Status;
use stack_accept::Mounted;
use std::alloc::{AllocError, Global};

/// The stores of a file, and room for what becomes of them and for the pages.
#[derive(Drop)]
struct FileRoom<S: Store> {
    /// Which stores there are.
    keys: Vec<StoreKey>,
    /// Those that were taken.
    taken: Vec<Held<S>>,
    /// Room for them as those of a file.
    stores: Vec<S>,
    /// Room for them as they go back.
    left: Vec<Held<S>>,
    /// Room for those that are lost.
    lost: Vec<StoreKey>,
    /// Room for the pages.
    bytes: Vec<u8>,
}

/// Lists the stores of a file, and makes the room for them and for its pages.
fn room_for<S: Store>(alloc: Global, mount: &Mounted, file: u32) -> Result<FileRoom<S>, AllocError>
    requires { file < length mount.now.files }
    ensures keys { IfOk result (λ room. room.keys.items ≡ stores_of_file (length mount.now.disks) file) }
    ensures are { IfOk result (λ room. AreStores mount.now room.keys.items) }
    ensures taken { IfOk result (λ room. IsRoom (length mount.now.disks) room.taken) }
    ensures stores { IfOk result (λ room. IsRoom (length mount.now.disks) room.stores) }
    ensures left { IfOk result (λ room. IsRoom (length mount.now.disks) room.left) }
    ensures lost { IfOk result (λ room. IsRoom (length mount.now.disks) room.lost) }
    ensures bytes { IfOk result (λ room. length room.bytes.items ≡ pages_of mount.now file * mount.now.page_size) }
{
    let keys = stores_of_one(alloc, mount, file)?;
    let number = mount.disks().len();
    let shape = shape_of(mount, StoreKey { file, disk: 0 });
    Ok(FileRoom {
        keys,
        taken: Vec::with_capacity(alloc, number)?,
        stores: Vec::with_capacity(alloc, number)?,
        left: Vec::with_capacity(alloc, number)?,
        lost: Vec::with_capacity(alloc, number)?,
        bytes: vec![in alloc; 0u8; (shape.pages * shape.page_size) as usize]?,
    })
}

/// Writes the pages of a file that were read, a line for each store that is lost, and the status.
fn print_pages<K: Sink>(
    alloc: Global,
    mount: &Mounted,
    file: u32,
    bytes: &[u8],
    lost: &[StoreKey],
    sink: &mut K,
) -> Status
    requires file { file < length mount.now.files }
    requires size { length bytes.now ≡ pages_of mount.now file * mount.now.page_size }
    ensures { PrintsPages mount.now (cut mount.now.page_size (pages_of mount.now file) bytes.now) lost.now (K.told sink.old) (K.told sink.new) result }
{
    let shape = shape_of(mount, StoreKey { file, disk: 0 });
    match lines_of(alloc, &shape, bytes) {
        Ok(text) => tell(sink, mount, &text, lost),
        Err(AllocError) => stopped(sink, mount, Stop::Memory, lost),
    }
}

/// Gives the stores of a file back, in order. The room for that is there.
fn give_file<B: Bay>(
    mount: &Mounted,
    bay: &mut B,
    stores: FileStores<B::Store>,
    left: Vec<Held<B::Store>>,
    lost: &mut Vec<StoreKey>,
)
    requires short { length stores.stores < 2 ^ 32 }
    requires stores { AreStores mount.now (keys_of stores.stores) }
    requires left { IsRoom (length stores.stores) left }
    requires lost { IsRoom (length stores.stores) lost.old }
    ensures { AreGiven mount.now (B.told bay.old) (B.told bay.new) stores.stores lost.new.items }
{
    let mut left = left;
    put_file(stores, &mut left);
    give_back(mount, bay, left, lost);
}

/// Reads the pages of a file from its stores, gives them back, and writes the pages, or why they were not read. The room for
/// that is there.
fn dump_taken<B: Bay, K: Sink, N: Sink>(
    alloc: Global,
    mount: &Mounted,
    file: u32,
    bay: &mut B,
    sink: &mut K,
    notices: &mut N,
    room: FileRoom<B::Store>,
) -> Status
    requires file { file < length mount.now.files }
    requires keys { keys_of room.taken.items ≡ stores_of_file (length mount.now.disks) file }
    requires fit { EachAt (λ at store. IsFit mount.now store) room.taken.items }
    requires stores { IsRoom (length mount.now.disks) room.stores }
    requires left { IsRoom (length mount.now.disks) room.left }
    requires lost { IsRoom (length mount.now.disks) room.lost }
    requires bytes { length room.bytes.items ≡ pages_of mount.now file * mount.now.page_size }
    ensures ended { (before : BaySeen) → AreOut mount.now before (B.told bay.old) room.taken.items → RoseBy 0 before.faults (B.told bay.old).faults → WrittenBeside (SaysDump mount.now before (B.told bay.new) file) (K.told sink.old) (K.told sink.new) (N.told notices.old) (N.told notices.new) result }
{
    let FileRoom {
        keys: _,
        taken,
        stores,
        left,
        mut lost,
        mut bytes,
    } = room;
    let stores = as_file(mount, file, taken, stores);
    let ReadFile {
        stores,
        notices: told,
        outcome,
    } = read_stores(alloc, mount, stores, &mut bytes);
    give_file(mount, bay, stores, left, &mut lost);
    // That the sink of notices fails changes nothing else.
    let _ = write_notices(notices, mount, file, &told);
    match outcome {
        Ok(()) => print_pages(alloc, mount, file, &bytes, &lost, sink),
        Err(stop) => stopped(sink, mount, stop, &lost),
    }
}

/// Takes the stores of a file, reads its pages, gives the stores back, and writes how that ended. The room for that is there.
fn dump_all<B: Bay, K: Sink, N: Sink>(
    alloc: Global,
    mount: &Mounted,
    file: u32,
    bay: &mut B,
    sink: &mut K,
    notices: &mut N,
    room: FileRoom<B::Store>,
) -> Status
    requires file { file < length mount.now.files }
    requires keys { room.keys.items ≡ stores_of_file (length mount.now.disks) file }
    requires are { AreStores mount.now room.keys.items }
    requires taken { IsRoom (length mount.now.disks) room.taken }
    requires stores { IsRoom (length mount.now.disks) room.stores }
    requires left { IsRoom (length mount.now.disks) room.left }
    requires lost { IsRoom (length mount.now.disks) room.lost }
    requires bytes { length room.bytes.items ≡ pages_of mount.now file * mount.now.page_size }
    ensures { WrittenBeside (SaysDump mount.now (B.told bay.old) (B.told bay.new) file) (K.told sink.old) (K.told sink.new) (N.told notices.old) (N.told notices.new) result }
{
    let mut room = room;
    match take_stores(mount, bay, &room.keys, &mut room.taken) {
        Ok(()) => dump_taken(alloc, mount, file, bay, sink, notices, room),
        Err(stop) => {
            give_back(mount, bay, room.taken, &mut room.lost);
            stopped(sink, mount, stop, &room.lost)
        }
    }
}

/// Prints the pages of a file: takes its stores, opens its image over them, reads the pages from the lowest, closes it and gives
/// the stores back; and writes a line for each page, one for each store that is lost, and the status. The opening may write to
/// disks in mirrors, and nothing else does.
///
/// If the image was opened, the sink of notices gets a line for each disk in a mirror of which something is told. If that sink
/// fails, nothing else changes.
///
/// The order of the steps and the texts are this project's own.
pub fn dump_file<B: Bay, K: Sink, N: Sink>(
    alloc: Global,
    mount: &Mounted,
    file: u32,
    bay: &mut B,
    sink: &mut K,
    notices: &mut N,
) -> Status
    requires { file < length mount.now.files }
    ensures dumps { WrittenBeside (SaysDump mount.now (B.told bay.old) (B.told bay.new) file) (K.told sink.old) (K.told sink.new) (N.told notices.old) (N.told notices.new) result }
{
    match room_for(alloc, mount, file) {
        Ok(room) => dump_all(alloc, mount, file, bay, sink, notices, room),
        Err(AllocError) => stopped(sink, mount, Stop::Memory, &[]),
    }
}
