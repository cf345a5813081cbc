//! The shape of an image.

ghost use Rattle.std.specs.Prelude.{◌≡◌, ◌≤◌};
ghost use Rattle.disk_format.specs.Shape.{IsShape, map_blocks, blocks_of};

/// The shape of an image: a block for the header, some for the map, and one for each page.
#[derive(Clone, Copy, Debug, PartialEq, Eq)]
pub struct ImageShape {
    /// The bytes of a page and of a block: a power of two from 64 to 4,096.
    pub page_size: u32,
    /// How many pages there are: 1 to 1,024.
    pub pages: u32,
}

impl ImageShape {
    /// How many blocks the map has: the least number with four bytes for each page.
    #[tactic(auto, using(crate::proofs::ShapeLaws::few_blocks), unfolding(crate::specs::Shape::map_blocks))]
    pub fn map_blocks(&self) -> u32
        requires { IsShape self.now }
        ensures blocks { result ≡ map_blocks self.now }
        ensures few { result ≤ 64 }
    {
        (4 * self.pages).div_ceil(self.page_size)
    }

    /// How many blocks an image has.
    pub fn blocks(&self) -> u32
        requires { IsShape self.now }
        ensures { result ≡ blocks_of self.now }
    {
        1 + self.map_blocks() + self.pages
    }
}
