//! Which stores a stack has, and their shapes.

ghost use Rattle.std.specs.Prelude.{◌≡◌, ◌<◌, ◌++◌, IfOk, OnOk, length, map};
ghost use Rattle.std.specs.List.{range_with_len};
ghost use Rattle.stack_accept.specs.Sound.{IsMount};
ghost use Rattle.disk_format.specs.Shape.{IsShape};
ghost use Rattle.file_stores.specs.Keys.{stores_of, stores_of_file, image_shape, AreStores};

use disk_format::ImageShape;
use script_meaning::{StoreKey, pages_of};
use stack_accept::Mounted;
use std::alloc::{AllocError, Global};

/// Puts a file's store on each disk behind others.
fn put_stores(keys: &mut Vec<StoreKey>, file: u32, disks: u32) -> Result<(), AllocError>
    ensures { OnOk result (keys.new.items ≡ keys.old.items ++ stores_of_file disks file) }
{
    for disk in 0..disks {
        keys.push(StoreKey { file, disk })?;
    }
    Ok(())
}

/// The stores of a stack: one for each file on each disk, by file and then by disk.
pub fn stores_of(alloc: Global, mount: &Mounted) -> Result<Vec<StoreKey>, AllocError>
    ensures value { IfOk result (λ keys. keys.items ≡ stores_of mount.now) }
    ensures stores { IfOk result (λ keys. AreStores mount.now keys.items) }
{
    let disks = mount.disks().len() as u32;
    let mut keys = Vec::new(alloc);
    for file in 0..mount.files().len() as u32 {
        put_stores(&mut keys, file, disks)?;
    }
    Ok(keys)
}

/// The stores of one file of a stack: one on each disk, in order.
pub fn stores_of_one(alloc: Global, mount: &Mounted, file: u32) -> Result<Vec<StoreKey>, AllocError>
    requires { file < length mount.now.files }
    ensures value { IfOk result (λ keys. keys.items ≡ stores_of_file (length mount.now.disks) file) }
    ensures stores { IfOk result (λ keys. AreStores mount.now keys.items) }
{
    let disks = mount.disks().len() as u32;
    let mut keys = Vec::new(alloc);
    put_stores(&mut keys, file, disks)?;
    Ok(keys)
}

/// The shape of the image on a store.
pub fn shape_of(mount: &Mounted, key: StoreKey) -> ImageShape
    requires { key.file < length mount.now.files }
    ensures shape { result ≡ image_shape mount.now key }
    ensures within { IsShape result }
    ensures sound { IsMount mount.now }
{
    ImageShape {
        page_size: mount.page_size(),
        pages: pages_of(mount, key.file),
    }
}
