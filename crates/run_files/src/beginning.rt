//! What the open files begin as: their pages, read from the ground before any event.

ghost use Rattle.std.specs.Prelude.{◌≡◌, ◌*◌, [], IfErr, IfOk, OnOk, length, map};
ghost use Rattle.std.specs.List.{AllByRecursion};
ghost use Rattle.stack_engine.specs.Engine.{file_in};
ghost use Rattle.file_stores.specs.Held.{IsRoom};
ghost use Rattle.run_files.specs.Play.{IsUnwritten};
ghost use Rattle.run_files.specs.Beginning.{AreRead, AreTried, AreUnread, IsCut, IsRead, IsTried, IsUnread};

use file_stores::Stop;
use page_ground::Ground;
use script_meaning::StoreKey;
use stack_engine::{StepErr, Tower};
use std::alloc::Global;

/// Reads the pages of a file, one after another from the lowest, for a caller.
fn read_pages<G: Ground>(tower: &mut Tower<G>, caller: u32, bytes: &mut [u8]) -> Result<(), StepErr>
    requires unwritten { IsUnwritten tower.old }
    requires size { length bytes.old ≡ (file_in tower.old.engine).pages * (file_in tower.old.engine).page_size }
    ensures read { OnOk result (IsRead tower.old tower.new bytes.new) }
    ensures tried { IsTried caller tower.old tower.new }
    ensures failed { IfErr result (IsCut caller tower.new) }
{
    // The proof reads here, and behind each read, what holds of every tower.
    tower.sound();
    let file = tower.file();
    let size = file.page_size as usize;
    for page in 0..file.pages {
        let from = page as usize * size;
        let read = tower.read_ground(caller, page, &mut bytes[from..from + size]);
        tower.sound();
        read?;
    }
    Ok(())
}

/// The bytes of a file that has no event yet, read for a caller.
fn begin_file<G: Ground>(alloc: Global, tower: &mut Tower<G>, caller: u32) -> Result<Vec<u8>, Stop>
    requires unwritten { IsUnwritten tower.old }
    ensures read { IfOk result (λ bytes. IsRead tower.old tower.new bytes.items) }
    ensures tried { IsTried caller tower.old tower.new }
    ensures why { IfErr result (IsUnread caller tower.new) }
{
    let file = tower.file();
    let size = file.pages as usize * file.page_size as usize;
    let Ok(mut bytes) = vec![in alloc; 0u8; size] else {
        return Err(Stop::Memory);
    };
    match read_pages(tower, caller, &mut bytes) {
        Ok(()) => Ok(bytes),
        Err(StepErr::StoreFault { disk, count }) => {
            let store = StoreKey {
                file: file.number,
                disk,
            };
            Err(Stop::Store { store, count })
        }
        Err(StepErr::Memory) => Err(Stop::Memory),
        Err(StepErr::TrailFull) => unreachable!(),
    }
}

/// Reads the open files, which have no event yet, in order, for a caller: the bytes of each, as far as that goes. The room for
/// the files and for their bytes is there.
pub(crate) fn begin_files<G: Ground + Drop>(
    alloc: Global,
    towers: Vec<Tower<G>>,
    caller: u32,
    begun: &mut Vec<Tower<G>>,
    bytes: &mut Vec<Vec<u8>>,
) -> Result<(), Stop>
    requires unwritten { AllByRecursion IsUnwritten towers.items }
    requires begun { IsRoom (length towers.items) begun.old }
    requires bytes { IsRoom (length towers.items) bytes.old }
    ensures read { OnOk result (AreRead towers.items begun.new.items (map (λ b. b.items) bytes.new.items)) }
    ensures tried { AreTried caller towers.items begun.new.items }
    ensures why { IfErr result (AreUnread caller begun.new.items) }
{
    let mut stopped = None;
    for tower in towers {
        let mut tower = tower;
        if stopped.is_some() {
            begun.push_reserved(tower);
            continue;
        }
        match begin_file(alloc, &mut tower, caller) {
            Ok(read) => {
                bytes.push_reserved(read);
                begun.push_reserved(tower);
            }
            Err(stop) => {
                begun.push_reserved(tower);
                stopped = Some(stop);
            }
        }
    }
    match stopped {
        None => Ok(()),
        Some(stop) => Err(stop),
    }
}
