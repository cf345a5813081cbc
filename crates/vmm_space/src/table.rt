//! The regions of a space.

ghost use Rattle.std.specs.Prelude.{◌≡◌, ◌≤◌, ◌<◌, [], true, false, None, Some, IfOk, IfErr, IfSome, OnOk, OnErr, MatchResult, length, map, position};
ghost use Rattle.std.specs.List.{list_any, find};
ghost use Rattle.std.specs.Option.{option_map};
ghost use Rattle.vmm_space.specs.Regions.{is_named, has_address, meets};
ghost use Rattle.vmm_space.specs.declared.regions.Region.{Region};
ghost use Rattle.vmm_space.specs.Spaces.{SpaceShape, IsSpace, blank_of, with_region, without_region, has_region, refusal, RefusesMap, translation, LeadsInto};

use crate::MAX_ADDRESS;
use crate::regions::{Place, Region};
use crate::why::{NoRegion, SpaceErr, TranslateErr};
use memory_object::CacheRights;
use stack_accept::{FileEntry, Mounted};
use std::alloc::{AllocError, Global};
use std::marker::Model;
use value_types::Text;

/// The regions of a client's address space. Contracts see the page size, each file's number of pages, and the regions in
/// the order in which they were mapped.
#[derive(Debug, Drop)]
pub struct Space {
    page_size: u32,
    files: Vec<u32>,
    regions: Vec<Region>,
}

impl Model for Space {
    ghost use Rattle.vmm_space.specs.Spaces.{SpaceShape, AreSound};

    ghost Value = { SpaceShape };

    ghost view = { λ s. record { page_size = s.page_size; files = s.files.items; regions = s.regions.items } };

    ghost invariant = { λ s. AreSound s.page_size s.files.items s.regions.items };
}

/// How many pages each file has.
fn pages_of(alloc: Global, files: &[FileEntry]) -> Result<Vec<u32>, AllocError>
    ensures { IfOk result (λ pages. pages.items ≡ map (λ file. file.pages) files.now) }
{
    files.iter().map(|file| file.pages).collect(alloc)
}

/// Whether a region has the name.
fn any_named(regions: &[Region], name: &str) -> bool
    ensures { result ≡ list_any (is_named name.now) regions.now }
{
    regions.iter().any(|region| region.is_named(name))
}

/// The place of the first region of the name.
fn place_of(regions: &[Region], name: &str) -> Option<usize>
    ensures value { result ≡ position (is_named name.now) regions.now }
    ensures inside { IfSome result (λ place. place < length regions.now) }
{
    regions.iter().position(|region| region.is_named(name))
}

/// Whether a region meets so many pages from an address on.
fn any_meets(regions: &[Region], page_size: u32, address: u64, pages: u32) -> bool
    ensures { result ≡ list_any (meets page_size address pages) regions.now }
{
    regions
        .iter()
        .any(|region| region.meets(page_size, address, pages))
}

/// The region that has the address.
fn region_at(regions: &[Region], page_size: u32, address: u64) -> Option<&Region>
    ensures { option_map (λ region. region.now) result ≡ find (has_address page_size address) regions.now }
{
    regions
        .iter()
        .find(|region| region.has_address(page_size, address))
}

impl Space {
    /// A space with no region, over the files of a mounted stack. An error is that memory ran out.
    pub fn new(alloc: Global, mounted: &Mounted) -> Result<Space, AllocError>
        ensures { IfOk result (λ space. space ≡ blank_of mounted.now) }
    {
        let files = pages_of(alloc, mounted.files())?;
        Ok(Space {
            page_size: mounted.page_size(),
            files,
            regions: Vec::new(alloc),
        })
    }

    /// Whether so many first pages of a file can be mapped under a name, from an address on: the answer that `map` would give,
    /// but for memory. It takes no memory.
    pub fn may_map(&self, name: &str, file: u32, address: u64, pages: u32) -> Result<(), SpaceErr>
        requires file { file < length self.now.files }
        requires address { address ≤ MAX_ADDRESS }
        ensures value { MatchResult result (λ _. refusal self.now name.now file address pages ≡ None) (λ why. refusal self.now name.now file address pages ≡ Some why) }
        ensures sound { IsSpace self.now }
    {
        if any_named(&self.regions, name) {
            return Err(SpaceErr::RegionExists);
        }
        if address % u64::from(self.page_size) != 0 {
            return Err(SpaceErr::Unaligned);
        }
        if pages == 0 || self.files[file as usize] < pages {
            return Err(SpaceErr::TooLong);
        }
        if any_meets(&self.regions, self.page_size, address, pages) {
            return Err(SpaceErr::Overlap);
        }
        Ok(())
    }

    /// Maps the first pages of the rights' file, so many of them, under a name, from an address on, for reading or for writing
    /// too. Each access goes to the rights' manager, with life 0 until `set_life`. It fails for the first reason of
    /// `SpaceErr`, and then nothing changes.
    pub fn map(
        &mut self,
        name: Text,
        rights: CacheRights,
        address: u64,
        pages: u32,
        write: bool,
    ) -> Result<(), SpaceErr>
        requires file { rights.file < length self.old.files }
        requires address { address ≤ MAX_ADDRESS }
        ensures may { OnOk result (refusal self.old name rights.file address pages ≡ None) }
        ensures ok { OnOk result (self.new ≡ with_region self.old (record { name = name; file = rights.file; leaf = rights.leaf; life = 0; address = address; pages = pages; write = write })) }
        ensures why { IfErr result (RefusesMap (refusal self.old name rights.file address pages)) }
        ensures err { OnErr result (self.new ≡ self.old) }
    {
        self.may_map(name.as_str(), rights.file, address, pages)?;
        self.regions.reserve(1)?;
        self.regions.push_reserved(Region {
            name,
            file: rights.file,
            leaf: rights.leaf,
            life: 0,
            address,
            pages,
            write,
        });
        Ok(())
    }

    /// Sets the life of the last region. If there is no region, nothing changes.
    pub fn set_life(&mut self, life: u32)
        ensures last { (space : SpaceShape) (region : Region) → self.old ≡ with_region space region → self.new ≡ with_region space (record region { life = life }) }
        ensures none { self.old.regions ≡ [] → self.new ≡ self.old }
    {
        let Some(last) = self.regions.last_mut() else {
            return;
        };
        last.life = life;
    }

    /// Gives the last region up. If there is no region, nothing changes.
    pub fn give_up_last(&mut self)
        ensures last { (space : SpaceShape) (region : Region) → self.old ≡ with_region space region → self.new ≡ space }
        ensures none { self.old.regions ≡ [] → self.new ≡ self.old }
    {
        let _region = self.regions.pop();
    }

    /// Takes the region of a name away. It fails if there is none, and takes no memory.
    pub fn unmap(&mut self, name: &str) -> Result<(), NoRegion>
        ensures found { OnOk result (has_region name.now self.old ≡ true) }
        ensures ok { OnOk result (self.new ≡ without_region name.now self.old) }
        ensures none { OnErr result (has_region name.now self.old ≡ false) }
        ensures err { OnErr result (self.new ≡ self.old) }
    {
        let Some(place) = place_of(&self.regions, name) else {
            return Err(NoRegion);
        };
        let _region = self.regions.remove(place);
        Ok(())
    }

    /// What so many bytes from an address on lead to, for a load or for a store. It fails for the first reason of
    /// `TranslateErr`, and takes no memory.
    pub fn translate(&self, address: u64, len: u32, write: bool) -> Result<Place, TranslateErr>
        requires { address ≤ MAX_ADDRESS }
        ensures value { result ≡ translation self.now address len write }
        ensures leads { IfOk result (LeadsInto self.now len) }
    {
        match region_at(&self.regions, self.page_size, address) {
            Some(region) => region.access(self.page_size, address, len, write),
            None => Err(TranslateErr::Unmapped { address }),
        }
    }
}
