//! The files of a run over their stores: how they are opened and closed.

ghost use Rattle.std.specs.Prelude.{◌≡◌, ◌+◌, ◌++◌, ◌<◌, ◌≤◌, ◌^◌, [], Some, IfOk, IfErr, OnOk, length, map, vec_capacity};
ghost use Rattle.stack_accept.specs.Sound.{IsMount};
ghost use Rattle.stack_engine.specs.Engine.{log_in, machines_in};
ghost use Rattle.stack_engine.specs.Start as engines;
ghost use Rattle.spr_volume.specs.Passes.{logs};
ghost use Rattle.script_meaning.specs.Stack.{pages_of};
ghost use Rattle.page_messages.specs.Paged.{IsPagedFile};
ghost use Rattle.file_stores.specs.Keys.{EachAt};
ghost use Rattle.file_stores.specs.Held.{IsRoom};
ghost use Rattle.file_stores.specs.Files.{ArePairs, IsFile, Lasts};
ghost use Rattle.file_stores.specs.Under.{IsSound as IsSoundUnder, seen_under};
ghost use Rattle.file_stores.specs.Notices.{AreAtClose};
ghost use Rattle.run_files.specs.Held.{machines_by_node, paged, BeganOn, Opens, OpensEach, AreMade, OpensSome, IsUnheld, IsShut, AreShut, AreEnded};

use crate::layers::{copy_tree, machines_of};
use file_stores::{
    FileGround, FileStores, Stop, Unopened, close_file, end_notices, open_file, shape_of,
};
use mirror_layer::Notice;
use page_messages::PagedFile;
use pager_channel::Ops;
use script_meaning::StoreKey;
use spr_io::Store;
use stack_accept::Mounted;
use stack_engine::Tower;
use std::alloc::Global;
use tower_log::Trail;

/// A file, as its messages name it.
fn paged_file(mount: &Mounted, file: u32) -> PagedFile
    requires file { file < length mount.now.files }
    ensures value { result ≡ paged mount.now file }
    ensures paged { IsPagedFile result }
    ensures sound { IsMount mount.now }
{
    let shape = shape_of(mount, StoreKey { file, disk: 0 });
    PagedFile {
        number: file,
        page_size: shape.page_size,
        pages: shape.pages,
    }
}

/// Opens a tower over what lies under a file. No page is read. Want of memory hands that back.
fn open_tower<S: Store>(
    alloc: Global,
    mount: &Mounted,
    file: u32,
    ground: FileGround<S>,
    ops: &Ops,
) -> Result<Tower<FileGround<S>>, FileGround<S>>
    requires file { file < length mount.now.files }
    requires size { (seen_under ground).page_size ≡ mount.now.page_size }
    requires number { (seen_under ground).number ≡ pages_of mount.now file }
    ensures sound { IsSoundUnder ground }
    ensures opened { IfOk result (λ t. engines.Opens mount.now.tree (paged mount.now file) (seen_under ground) t.engine) }
    ensures free { IfOk result (λ t. t.turns ≡ []) }
    ensures machines { IfOk result (λ t. machines_in t.engine ≡ machines_by_node mount.now) }
    ensures began { IfOk result (BeganOn mount.now file ground) }
    ensures back { IfErr result (λ g. g ≡ ground) }
{
    // The proof reads here how often the stores of disks failed before these were opened.
    ground.sound();
    let paged = paged_file(mount, file);
    let Ok(tree) = copy_tree(alloc, mount.tree()) else {
        return Err(ground);
    };
    let Ok(machines) = machines_of(alloc, mount) else {
        return Err(ground);
    };
    Tower::open(alloc, tree, paged, machines, ground, *ops)
}

/// Opens a file over its stores, and tells what that made of its disks. A refusal hands the stores back.
fn open_one<S: Store>(
    alloc: Global,
    mount: &Mounted,
    stores: FileStores<S>,
    ops: &Ops,
) -> Result<(Tower<FileGround<S>>, Vec<Option<Notice>>), Unopened<S>>
    requires file { IsFile mount.now stores }
    ensures opened { IfOk result (λ file. (opens : Opens mount.now stores file.0) × (file.1.items ≡ opens.made)) }
    ensures file { IfErr result (λ e. e.stores.file ≡ stores.file) }
    ensures pairs { IfErr result (λ e. ArePairs Lasts stores.stores e.stores.stores) }
    ensures cause { IfErr result (λ e. IsUnheld mount.now stores e.stores e.stop) }
{
    let file = stores.file;
    let (ground, made) = match open_file(alloc, mount, stores) {
        Ok(opened) => opened,
        Err(unopened) => return Err(unopened),
    };
    match open_tower(alloc, mount, file, ground, ops) {
        Ok(tower) => Ok((tower, made)),
        Err(ground) => Err(Unopened {
            stores: close_file(ground, file),
            stop: Stop::Memory,
        }),
    }
}

/// Opens the files over their stores, in order, as far as that goes, and tells what that made of the disks of each; the stores of
/// those that are left over go to `rest`. The room for all is there.
pub(crate) fn open_files<S: Store>(
    alloc: Global,
    mount: &Mounted,
    ops: &Ops,
    files: Vec<FileStores<S>>,
    towers: &mut Vec<Tower<FileGround<S>>>,
    made: &mut Vec<Vec<Option<Notice>>>,
    rest: &mut Vec<FileStores<S>>,
) -> Result<(), Stop>
    requires files { EachAt (λ at f. IsFile mount.now f) files.items }
    requires towers { IsRoom (length files.items) towers.old }
    requires made { IsRoom (length files.items) made.old }
    requires rest { IsRoom (length files.items) rest.old }
    ensures opened { OnOk result (OpensEach mount.now files.items towers.new.items) }
    ensures made { OnOk result (AreMade mount.now files.items towers.new.items (map (λ m. m.items) made.new.items)) }
    ensures many { length made.new.items ≡ length towers.new.items }
    ensures none_left { OnOk result (rest.new.items ≡ []) }
    ensures stopped { IfErr result (OpensSome mount.now files.items towers.new.items rest.new.items) }
{
    let mut stopped = None;
    for file in files {
        if stopped.is_some() {
            rest.push_reserved(file);
            continue;
        }
        match open_one(alloc, mount, file, ops) {
            Ok((tower, disks)) => {
                towers.push_reserved(tower);
                made.push_reserved(disks);
            }
            Err(unopened) => {
                rest.push_reserved(unopened.stores);
                stopped = Some(unopened.stop);
            }
        }
    }
    match stopped {
        None => Ok(()),
        Some(stop) => Err(stop),
    }
}

/// Closes the tower of a file, and tells of its disks, by what its opening made of them.
fn close<S: Store>(
    file: u32,
    tower: Tower<FileGround<S>>,
    made: Vec<Option<Notice>>,
) -> (FileStores<S>, Trail, Vec<Option<Notice>>)
    ensures ended { (shut : IsShut file tower result.0) × AreAtClose shut.under made.items result.2.items }
    ensures log { result.1.log ≡ log_in tower.engine }
{
    let mut notices = made;
    let (ground, trail) = tower.close();
    ground.sound();
    end_notices(&ground, &mut notices);
    (close_file(ground, file), trail, notices)
}

/// Closes the towers of the files, in order: the files' stores, their logs, and what is told of their disks, by what the openings
/// made of them. The room for them is there.
pub(crate) fn close_towers<S: Store>(
    towers: Vec<Tower<FileGround<S>>>,
    made: Vec<Vec<Option<Notice>>>,
    files: &mut Vec<FileStores<S>>,
    trails: &mut Vec<Trail>,
    notices: &mut Vec<Vec<Option<Notice>>>,
)
    requires few { length towers.items < 2 ^ 32 }
    requires made { length made.items ≡ length towers.items }
    requires files { IsRoom (length towers.items) files.old }
    requires trails { IsRoom (length towers.items) trails.old }
    requires notices { IsRoom (length towers.items) notices.old }
    ensures shut { AreShut 0 towers.items files.new.items }
    ensures ended { AreEnded 0 towers.items files.new.items (map (λ m. m.items) made.items) (map (λ m. m.items) notices.new.items) }
    ensures logs { map (λ t. t.log) trails.new.items ≡ logs towers.items }
    ensures room { vec_capacity files.new ≡ vec_capacity files.old }
{
    let mut rest = made.into_iter();
    for tower in towers {
        let Some(disks) = rest.next() else {
            unreachable!()
        };
        let (file, trail, ended) = close(trails.as_slice().len() as u32, tower, disks);
        files.push_reserved(file);
        trails.push_reserved(trail);
        notices.push_reserved(ended);
    }
}

/// Puts the stores of files behind others. The room for them is there.
pub(crate) fn put_rest<S: Store>(files: &mut Vec<FileStores<S>>, rest: Vec<FileStores<S>>)
    requires { length files.old.items + length rest.items ≤ vec_capacity files.old }
    ensures { files.new.items ≡ files.old.items ++ rest.items }
{
    for file in rest {
        files.push_reserved(file);
    }
}
