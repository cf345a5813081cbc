//! A file's image over its stores: how it is opened and closed.

ghost use Rattle.std.specs.Prelude.{◌≡◌, IfOk, IfErr, length};
ghost use Rattle.file_stores.specs.Keys.{stores_of_file};
ghost use Rattle.file_stores.specs.Held.{keys_of};
ghost use Rattle.file_stores.specs.Files.{IsFile};
ghost use Rattle.file_stores.specs.Opening.{IsOpened, IsLeft, IsUnopened, refused_by};

use crate::files::FileStores;
use crate::ground::{Either, FileGround};
use crate::keys::shape_of;
use crate::stop::Stop;
use crate::whole_disk::WholeDisk;
use mirror_layer::{AnyGround, Notice, Refusal};
use script_meaning::StoreKey;
use spr_io::Store;
use stack_accept::Mounted;
use std::alloc::Global;

/// A file whose image is not opened: its stores, which are handed back, and why.
#[derive(Drop)]
pub struct Unopened<S: Store> {
    /// The stores, given back as they are.
    pub stores: FileStores<S>,
    /// Which store could not be opened, and why.
    pub stop: Stop,
}

/// The stop that a refusal of a file's disks in mirrors is.
fn refused_by(file: u32, why: Refusal) -> Stop
    ensures { result ≡ refused_by file why }
{
    match why {
        Refusal::BadImage { disk, bad } => Stop::Image {
            store: StoreKey { file, disk },
            place: bad.place,
            why: bad.why,
        },
        Refusal::StoreFault { fault } => Stop::Store {
            store: StoreKey {
                file,
                disk: fault.disk,
            },
            count: fault.count,
        },
        Refusal::Memory => Stop::Memory,
    }
}

/// Opens the image of a file over its stores. `opened` gets what the opening made of each disk in mirrors, by their numbers.
fn open_in<S: Store>(
    alloc: Global,
    mount: &Mounted,
    stores: FileStores<S>,
    opened: &mut [Option<Notice>],
) -> Result<FileGround<S>, Unopened<S>>
    requires file { IsFile mount.now stores }
    requires room { length opened.old ≡ length stores.stores }
    ensures opened { IfOk result (IsOpened mount.now stores opened.new) }
    ensures room { length opened.new ≡ length opened.old }
    ensures file { IfErr result (λ e. e.stores.file ≡ stores.file) }
    ensures keys { IfErr result (λ e. keys_of e.stores.stores ≡ keys_of stores.stores) }
    ensures refused { IfErr result (λ e. IsUnopened mount.now stores e.stores e.stop) }
{
    let FileStores { file, stores } = stores;
    let first = StoreKey { file, disk: 0 };
    let shape = shape_of(mount, first);
    if stores.as_slice().len() == 1 {
        return match WholeDisk::open(alloc, stores, &shape) {
            Ok(disk) => Ok(FileGround {
                either: Either::One(disk),
            }),
            Err(refused) => Err(Unopened {
                stores: FileStores {
                    file,
                    stores: refused.stores,
                },
                stop: Stop::refused(first, refused.why),
            }),
        };
    }
    match AnyGround::open(alloc, mount.ground(), stores, &shape, opened) {
        Ok(mirrors) => Ok(FileGround {
            either: Either::Many(mirrors),
        }),
        Err(refused) => Err(Unopened {
            stores: FileStores {
                file,
                stores: refused.stores,
            },
            stop: refused_by(file, refused.why),
        }),
    }
}

/// Opens the image of a file over its stores: over one a disk, over several disks in mirrors. A refusal hands the stores
/// back.
///
/// Beside what lies under the file it answers what the opening made of each disk in mirrors, by their numbers. Of a disk alone
/// nothing is told.
pub fn open_file<S: Store>(
    alloc: Global,
    mount: &Mounted,
    stores: FileStores<S>,
) -> Result<(FileGround<S>, Vec<Option<Notice>>), Unopened<S>>
    requires file { IsFile mount.now stores }
    ensures opened { IfOk result (λ file. IsOpened mount.now stores file.1.items file.0) }
    ensures many { IfOk result (λ file. length file.1.items ≡ length stores.stores) }
    ensures file { IfErr result (λ e. e.stores.file ≡ stores.file) }
    ensures keys { IfErr result (λ e. keys_of e.stores.stores ≡ keys_of stores.stores) }
    ensures refused { IfErr result (λ e. IsUnopened mount.now stores e.stores e.stop) }
{
    let Ok(room) = vec![in alloc; None; mount.disks().len()] else {
        return Err(Unopened {
            stores,
            stop: Stop::Memory,
        });
    };
    let mut opened = room;
    match open_in(alloc, mount, stores, &mut opened) {
        Ok(ground) => Ok((ground, opened)),
        Err(unopened) => Err(unopened),
    }
}

/// Closes what lies under a file, and gives the file's stores back. It asks no store, and takes no memory.
pub fn close_file<S: Store>(ground: FileGround<S>, file: u32) -> FileStores<S>
    ensures file { result.file ≡ file }
    ensures keys { keys_of result.stores ≡ stores_of_file (length result.stores) file }
    ensures left { IsLeft ground result }
{
    let stores = match ground.either {
        Either::One(disk) => disk.close(),
        Either::Many(mirrors) => mirrors.close(),
    };
    FileStores { file, stores }
}
