//! The shape of the disks of the cases.

ghost use Rattle.std.specs.Prelude.{◌≡◌, length, true};
ghost use Rattle.disk_format.specs.Shape.{IsShape};
ghost use Rattle.disk_layer.specs.Disk.{Suits};

use disk_format::ImageShape;
use spr_io::MemStore;

/// The shape of each disk: two pages of 64 bytes, and so four blocks.
pub fn shape() -> ImageShape
    ensures shape { result ≡ record { page_size = 64; pages = 2 } }
    ensures within { IsShape result }
{
    ImageShape {
        page_size: 64,
        pages: 2,
    }
}

/// Whether a store has the blocks of that shape.
pub fn fits(store: &MemStore) -> bool
    ensures { result ≡ true → Suits (record { page_size = 64; pages = 2 }) store.now.size (length store.now.content.blocks) }
{
    store.has_shape(64, 4)
}
