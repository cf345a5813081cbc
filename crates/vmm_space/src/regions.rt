//! A region of a space, and what an address in it leads to.

use crate::why::TranslateErr;
use tower_core::Right;
use value_types::Text;

/// A region: a file's first pages, at addresses that follow one another.
#[derive(Debug, Drop)]
pub struct Region {
    /// The client's own name for the region.
    pub name: Text,
    /// The number of the file.
    pub file: u32,
    /// The node of the virtual memory manager that holds the file's pages.
    pub leaf: u32,
    /// The life of the manager's file, with which each access is made.
    pub life: u32,
    /// The address of its first byte: a multiple of the page size, in bytes.
    pub address: u64,
    /// How many pages it has.
    pub pages: u32,
    /// Whether it is mapped for writing.
    pub write: bool,
}

/// What an address leads to.
#[derive(Clone, Copy, Debug, PartialEq, Eq)]
pub struct Place {
    /// The number of the file.
    pub file: u32,
    /// The node of the virtual memory manager that holds the file's pages.
    pub leaf: u32,
    /// The life of the manager's file, with which the access is made.
    pub life: u32,
    /// The number of the page in the file.
    pub page: u32,
    /// The place in the page, in bytes.
    pub off: u32,
    /// What the region was mapped for: writing or reading.
    pub right: Right,
}

impl Region {
    ghost use Rattle.std.specs.Prelude.{◌≡◌, ◌*◌, ◌<◌, IfOk, true};
    ghost use Rattle.vmm_space.specs.Regions.{is_named, has_address, meets, access_in, IsWithin};

    /// Whether it has the name.
    pub(crate) fn is_named(&self, name: &str) -> bool
        ensures { result ≡ is_named name.now self.now }
    {
        self.name.as_str() == name
    }

    /// How many bytes it has, if a page has so many.
    fn len(&self, page_size: u32) -> u64
        ensures { result ≡ self.now.pages * page_size }
    {
        u64::from(self.pages) * u64::from(page_size)
    }

    /// Whether one of its bytes has the address.
    pub(crate) fn has_address(&self, page_size: u32, address: u64) -> bool
        ensures { result ≡ has_address page_size address self.now }
    {
        self.address <= address && address - self.address < self.len(page_size)
    }

    /// Whether its bytes meet those of so many pages from an address on.
    pub(crate) fn meets(&self, page_size: u32, address: u64, pages: u32) -> bool
        ensures { result ≡ meets page_size address pages self.now }
    {
        if self.address <= address {
            address - self.address < self.len(page_size)
        } else {
            self.address - address < u64::from(pages) * u64::from(page_size)
        }
    }

    /// What so many bytes from an address of it on lead to. It fails if they are none or of two pages, or if it is for
    /// writing and the region is mapped for reading.
    pub(crate) fn access(
        &self,
        page_size: u32,
        address: u64,
        len: u32,
        write: bool,
    ) -> Result<Place, TranslateErr>
        requires page { 0 < page_size }
        requires inside { has_address page_size address self.now ≡ true }
        ensures value { result ≡ access_in page_size address len write self.now }
        ensures within { IfOk result (IsWithin page_size len self.now) }
    {
        let from_start = address - self.address;
        let off = from_start % u64::from(page_size);
        if len == 0 || off + u64::from(len) > u64::from(page_size) {
            return Err(TranslateErr::CrossesPage);
        }
        if write && !self.write {
            return Err(TranslateErr::NotWritable);
        }
        Ok(Place {
            file: self.file,
            leaf: self.leaf,
            life: self.life,
            page: (from_start / u64::from(page_size)) as u32,
            off: off as u32,
            right: if self.write {
                Right::Write
            } else {
                Right::Read
            },
        })
    }
}
