//! The end of open files: they are closed, their stores given back, and it is told of their disks.

ghost use Rattle.std.specs.Prelude.{◌≡◌, ◌<◌, ◌^◌, [], List, Option, get_or, length, map};
ghost use Rattle.stack_accept.specs.Sound.{IsMount};
ghost use Rattle.file_stores.specs.Keys.{EachAt, AreStores, stores_of};
ghost use Rattle.file_stores.specs.Held.{AreGiven, IsRoom, keys_of};
ghost use Rattle.file_stores.specs.Files.{FileSeen, stores_in};
ghost use Rattle.file_stores.specs.Notices.{all_notices};
ghost use Rattle.mirror_layer.specs.declared.came.Notice.{Notice as ANotice};
ghost use Rattle.spr_report.specs.Writing.{Writes};
ghost use Rattle.spr_volume.specs.Passes.{logs};
ghost use Rattle.run_files.specs.Held.{AreEnded, AreShut};
ghost use Rattle.run_files.specs.Shut.{AreClosed, HasStores};

use crate::held::close_towers;
use crate::room::Files;
use file_stores::{FileStores, Held, give_back, put_files, write_notices};
use mirror_layer::Notice;
use script_meaning::StoreKey;
use spr_io::{Bay, Failed, Sink};
use stack_accept::Mounted;
use tower_log::Trail;

/// What is told of the disks of a file.
fn notices_of(files: &[Vec<Option<Notice>>], file: u32) -> &[Option<Notice>]
    ensures { result.now ≡ get_or (map (λ f. f.items) files.now) file [] }
{
    match files.get(file as usize) {
        Some(notices) => notices,
        None => &[],
    }
}

/// Writes what is told of the disks of each file.
fn tell_notices<N: Sink>(
    sink: &mut N,
    mount: &Mounted,
    files: &[Vec<Option<Notice>>],
) -> Result<(), Failed>
    ensures { Writes (N.told sink.old) (N.told sink.new) (all_notices mount.now (map (λ f. f.items) files.now)) result }
{
    for file in 0..mount.files().len() as u32 {
        write_notices(sink, mount, file, notices_of(files, file))?;
    }
    Ok(())
}

/// Gives the stores of closed files back, in the order in which they came.
pub(crate) fn give_files<B: Bay>(
    mount: &Mounted,
    bay: &mut B,
    closed: Vec<FileStores<B::Store>>,
    back: Vec<Held<B::Store>>,
    lost: &mut Vec<StoreKey>,
)
    requires keys { keys_of (stores_in closed.items) ≡ stores_of mount.now }
    requires stores { AreStores mount.now (stores_of mount.now) }
    requires short { EachAt (λ at f. length f.stores < 2 ^ 32) closed.items }
    requires back { IsRoom (length (stores_of mount.now)) back }
    requires lost { IsRoom (length (stores_of mount.now)) lost.old }
    ensures { AreGiven mount.now (B.told bay.old) (B.told bay.new) (stores_in closed.items) lost.new.items }
{
    let mut stores = back;
    put_files(closed, &mut stores);
    give_back(mount, bay, stores, lost);
}

/// Closes the files, gives their stores back, and tells of their disks: the files' logs, and the stores that are lost. That the
/// sink of notices fails changes nothing else. The room for all that is there.
pub(crate) fn shut_files<B: Bay, N: Sink>(
    mount: &Mounted,
    bay: &mut B,
    notices: &mut N,
    files: Files<B::Store>,
) -> (Vec<Trail>, Vec<StoreKey>)
    requires mount { IsMount mount.now }
    requires stores { AreStores mount.now (stores_of mount.now) }
    requires towers { length files.towers.items ≡ length mount.now.files }
    requires made { length files.made.items ≡ length files.towers.items }
    requires own { (news : List FileSeen) (told : List (List (Option ANotice))) → AreShut 0 files.towers.items news → AreEnded 0 files.towers.items news (map (λ m. m.items) files.made.items) told → HasStores mount.now news }
    requires closed { IsRoom (length mount.now.files) files.closed }
    requires trails { IsRoom (length mount.now.files) files.trails }
    requires told { IsRoom (length mount.now.files) files.notices }
    requires back { IsRoom (length (stores_of mount.now)) files.back }
    requires lost { IsRoom (length (stores_of mount.now)) files.lost }
    ensures closed { AreClosed mount.now files.towers.items (map (λ m. m.items) files.made.items) (B.told bay.old) (B.told bay.new) result.1.items (N.told notices.old) (N.told notices.new) }
    ensures logs { map (λ t. t.log) result.0.items ≡ logs files.towers.items }
{
    let Files {
        towers,
        made,
        mut closed,
        mut trails,
        notices: mut told,
        back,
        mut lost,
        ..
    } = files;
    close_towers(towers, made, &mut closed, &mut trails, &mut told);
    give_files(mount, bay, closed, back, &mut lost);
    let _ = tell_notices(notices, mount, &told);
    (trails, lost)
}
