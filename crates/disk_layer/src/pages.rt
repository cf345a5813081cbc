//! All pages of a disk.

ghost use Rattle.std.specs.Prelude.{◌≡◌, ◌*◌, OnOk, IfErr, IfSome, length};
ghost use Rattle.page_ground.specs.Seen.{Keeps, IsFault};
ghost use Rattle.disk_layer.specs.Disk.{HasImage, seen_of, pages_on, counting};
ghost use Rattle.page_ground.specs.Pages.{cut};

use crate::layer::Disk;
use page_ground::{Ground, StoreFault};
use spr_io::Store;

/// Reads all pages of a disk, one after another from the lowest.
pub fn read_pages<S: Store>(disk: &mut Disk<S>, out: &mut [u8]) -> Result<(), StoreFault>
    requires { length out.old ≡ disk.old.shape.pages * disk.old.shape.page_size }
    ensures pages { OnOk result (IfSome (pages_on disk.old) (λ pages. pages ≡ cut disk.old.shape.page_size disk.old.shape.pages out.new)) }
    ensures calm { OnOk result (disk.new ≡ disk.old) }
    ensures rest { disk.new ≡ counting disk.new.faults disk.old }
    ensures image { HasImage disk.new }
    ensures keeps { Keeps (seen_of disk.old) (seen_of disk.new) }
    ensures fault { IfErr result (IsFault (seen_of disk.old) (seen_of disk.new)) }
    ensures counted { IfErr result (λ f. f.count ≡ disk.new.faults) }
{
    disk.sound();
    let shape = disk.shape();
    let size = shape.page_size as usize;
    for page in 0..shape.pages {
        let from = page as usize * size;
        disk.read(page, &mut out[from..from + size])?;
    }
    Ok(())
}
