//! All pages of a file.

ghost use Rattle.std.specs.Prelude.{◌≡◌, ◌*◌, OnOk, IfErr, length};
ghost use Rattle.file_stores.specs.Under.{Many};
ghost use Rattle.file_stores.specs.Reading.{Fails, ReadsAll, shape_under};

use crate::ground::{Either, FileGround};
use disk_format::ImageShape;
use mirror_layer::AnyGround;
use page_ground::{Ground, StoreFault};
use spr_io::Store;

/// Reads all pages of disks in mirrors.
fn read_mirrors<S: Store>(
    mirrors: &mut AnyGround<S>,
    shape: &ImageShape,
    out: &mut [u8],
) -> Result<(), StoreFault>
    requires shape { mirrors.old.shape ≡ shape.now }
    requires size { length out.old ≡ shape.now.pages * shape.now.page_size }
    ensures read { OnOk result (ReadsAll (Many mirrors.old) (Many mirrors.new) out.new) }
    ensures fault { IfErr result (Fails (Many mirrors.old) (Many mirrors.new)) }
{
    mirrors.sound();
    let size = shape.page_size as usize;
    for page in 0..shape.pages {
        let from = page as usize * size;
        mirrors.read(page, &mut out[from..from + size])?;
    }
    Ok(())
}

/// Reads all pages of a file, one after another from the lowest. No block is written.
pub fn read_file<S: Store>(
    ground: &mut FileGround<S>,
    shape: &ImageShape,
    out: &mut [u8],
) -> Result<(), StoreFault>
    requires shape { shape_under ground.old ≡ shape.now }
    requires size { length out.old ≡ shape.now.pages * shape.now.page_size }
    ensures read { OnOk result (ReadsAll ground.old ground.new out.new) }
    ensures fault { IfErr result (Fails ground.old ground.new) }
{
    match &mut ground.either {
        Either::One(disk) => disk.read_all(out),
        Either::Many(mirrors) => read_mirrors(mirrors, shape, out),
    }
}
