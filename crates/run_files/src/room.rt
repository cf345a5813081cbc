//! Room for all that a run needs, made before it takes a store: behind that the stores always go back, and each line has its
//! answer.

ghost use Rattle.std.specs.Prelude.{◌≡◌, IfOk, length};
ghost use Rattle.script_text.specs.Grammar.{IsScript};
ghost use Rattle.file_stores.specs.Keys.{AreStores, EachAt, stores_of};
ghost use Rattle.file_stores.specs.Held.{IsRoom};
ghost use Rattle.run_files.specs.Room.{HasAnswerRoom};

use file_stores::{FileGround, FileStores, Held, rooms_of, stores_of};
use mirror_layer::Notice;
use run_phases::{Worker, workers_of};
use script_meaning::StoreKey;
use script_text::{Reply, Said, Script};
use spr_io::Store;
use stack_accept::Mounted;
use stack_engine::Tower;
use std::alloc::{AllocError, Global};
use tower_log::Trail;

/// Room for the answers of a run.
#[derive(Drop)]
pub(crate) struct Asked {
    /// The number that divides those of the packets which each client's link loses, if calls to other machines may be lost.
    pub loss: Option<u32>,
    /// The clients, each with room for its answers.
    pub clients: Vec<Worker>,
    /// Room for the clients' answers.
    pub said: Vec<Vec<Said>>,
    /// Room for the answers of the closing syncs.
    pub closing: Vec<Reply>,
}

/// Room for the stores of a run.
#[derive(Drop)]
pub(crate) struct Shelves<S: Store> {
    /// Which stores there are.
    pub keys: Vec<StoreKey>,
    /// The stores that were taken.
    pub taken: Vec<Held<S>>,
    /// Room for the stores of each file.
    pub rooms: Vec<Vec<S>>,
    /// Room for the files' stores.
    pub parts: Vec<FileStores<S>>,
    /// Room for what is made of them.
    pub files: Files<S>,
}

/// The files of a run.
#[derive(Drop)]
pub(crate) struct Files<S: Store> {
    /// The files that are open.
    pub towers: Vec<Tower<FileGround<S>>>,
    /// What their openings made of the disks of each.
    pub made: Vec<Vec<Option<Notice>>>,
    /// The stores of files that were not opened.
    pub rest: Vec<FileStores<S>>,
    /// Room for the stores of closed files.
    pub closed: Vec<FileStores<S>>,
    /// Room for the logs of the files.
    pub trails: Vec<Trail>,
    /// Room for what is told of the disks of each.
    pub notices: Vec<Vec<Option<Notice>>>,
    /// Room for all stores, as they go back.
    pub back: Vec<Held<S>>,
    /// Room for the stores that were lost.
    pub lost: Vec<StoreKey>,
}

/// Makes room for the answers of a script, whose clients lose packets by this number, if there is one.
pub(crate) fn room_for_answers(
    alloc: Global,
    mount: &Mounted,
    script: &Script,
    loss: Option<u32>,
) -> Result<Asked, AllocError>
    requires { IsScript script.now }
    ensures room { IfOk result (HasAnswerRoom mount.now script.now) }
    ensures loss { IfOk result (λ asked. asked.loss ≡ loss) }
{
    Ok(Asked {
        loss,
        clients: workers_of(alloc, mount, script, loss)?,
        said: Vec::with_capacity(alloc, script.clients.as_slice().len())?,
        closing: Vec::with_capacity(alloc, mount.files().len())?,
    })
}

/// Makes room for so many files, and for so many stores in all.
fn room_for_files<S: Store>(
    alloc: Global,
    number: usize,
    stores: usize,
) -> Result<Files<S>, AllocError>
    ensures towers { IfOk result (λ r. IsRoom number r.towers) }
    ensures made { IfOk result (λ r. IsRoom number r.made) }
    ensures rest { IfOk result (λ r. IsRoom number r.rest) }
    ensures closed { IfOk result (λ r. IsRoom number r.closed) }
    ensures trails { IfOk result (λ r. IsRoom number r.trails) }
    ensures notices { IfOk result (λ r. IsRoom number r.notices) }
    ensures back { IfOk result (λ r. IsRoom stores r.back) }
    ensures lost { IfOk result (λ r. IsRoom stores r.lost) }
{
    Ok(Files {
        towers: Vec::with_capacity(alloc, number)?,
        made: Vec::with_capacity(alloc, number)?,
        rest: Vec::with_capacity(alloc, number)?,
        closed: Vec::with_capacity(alloc, number)?,
        trails: Vec::with_capacity(alloc, number)?,
        notices: Vec::with_capacity(alloc, number)?,
        back: Vec::with_capacity(alloc, stores)?,
        lost: Vec::with_capacity(alloc, stores)?,
    })
}

/// Makes room for the stores of a stack, and for the files over them.
pub(crate) fn room_for_stores<S: Store>(
    alloc: Global,
    mount: &Mounted,
) -> Result<Shelves<S>, AllocError>
    ensures keys { IfOk result (λ r. r.keys.items ≡ stores_of mount.now) }
    ensures stores { IfOk result (λ r. AreStores mount.now r.keys.items) }
    ensures taken { IfOk result (λ r. IsRoom (length r.keys.items) r.taken) }
    ensures rooms { IfOk result (λ r. length r.rooms.items ≡ length mount.now.files) }
    ensures empty { IfOk result (λ r. EachAt (λ at room. IsRoom (length mount.now.disks) room) r.rooms.items) }
    ensures parts { IfOk result (λ r. IsRoom (length mount.now.files) r.parts) }
    ensures towers { IfOk result (λ r. IsRoom (length mount.now.files) r.files.towers) }
    ensures made { IfOk result (λ r. IsRoom (length mount.now.files) r.files.made) }
    ensures rest { IfOk result (λ r. IsRoom (length mount.now.files) r.files.rest) }
    ensures closed { IfOk result (λ r. IsRoom (length mount.now.files) r.files.closed) }
    ensures trails { IfOk result (λ r. IsRoom (length mount.now.files) r.files.trails) }
    ensures notices { IfOk result (λ r. IsRoom (length mount.now.files) r.files.notices) }
    ensures back { IfOk result (λ r. IsRoom (length r.keys.items) r.files.back) }
    ensures lost { IfOk result (λ r. IsRoom (length r.keys.items) r.files.lost) }
{
    let keys = stores_of(alloc, mount)?;
    let number = mount.files().len();
    let stores = keys.as_slice().len();
    Ok(Shelves {
        keys,
        taken: Vec::with_capacity(alloc, stores)?,
        rooms: rooms_of(alloc, mount)?,
        parts: Vec::with_capacity(alloc, number)?,
        files: room_for_files(alloc, number, stores)?,
    })
}
