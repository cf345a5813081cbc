//! One leaf's own table.

ghost use Rattle.std.specs.Prelude.{◌≤◌};
ghost use Rattle.std.proofs.Props.{props};
ghost use Rattle.page_messages.specs.Paged.{IsPagedFile};
ghost use Rattle.vmm_cache.specs.Bare.{IsBare};
ghost use Rattle.vmm_cache.specs.Frames.{AreFramed};

use crate::frames;
use lru::LruCache;
use page_messages::{PagedFile, Slot};
use std::alloc::{AllocError, Global};
use std::num::NonZeroUsize;
use tower_core::Right;

/// One leaf's own table for one file: its frames, in which the pages are that it holds, by their last uses. Of each it
/// has its right, its copy, and whether that is changed. It has no children.
#[derive(Debug, Drop)]
pub struct Leaf {
    pub(crate) file: PagedFile,
    pub(crate) held: LruCache<u32, Slot>,
    /// What the leaf has of a page that it does not hold.
    pub(crate) bare: Slot,
    ghost paged: { IsPagedFile file },
    ghost few: { held.cap ≤ 1024 },
    ghost framed: { AreFramed file held } by { Prim.hlevel props },
    ghost nothing: { IsBare bare } by { Prim.hlevel props },
}

impl Leaf {
    ghost use Rattle.std.specs.Prelude.{◌≡◌, ◌≢◌, ◌+◌, ◌<◌, ◌≤◌, ◌↔◌, ℕ, IsTrue, IsNone, IfOk, IfSome, [], length, take, drop, replicate};
    ghost use Rattle.hist_plain.specs.Plain.{overwritten};
    ghost use Rattle.tower_core.specs.declared.right.Right.{Right as ARight};
    ghost use Rattle.page_messages.specs.Slot.{side_of};
    ghost use Rattle.page_messages.specs.Seen.{no_side};
    ghost use Rattle.vmm_cache.specs.Bare.{IsSeenAs};
    ghost use Rattle.vmm_cache.specs.Uses.{oldest, used_last};
    ghost use Rattle.vmm_cache.specs.Leaf.{file_of, frames_of, uses_of, side, held_of, IsLeaf, MayRead, MayWrite, IsUse, IsWrite};

    /// The table of a leaf with so many frames for the file of this number, of which it holds no page. An error is want of
    /// memory.
    pub fn new(
        alloc: Global,
        page_size: u32,
        pages: u32,
        frames: u32,
        tag: u32,
    ) -> Result<Leaf, AllocError>
        requires some { 0 < page_size }
        requires small { page_size ≤ 4096 }
        requires pages { 0 < pages }
        requires few { pages ≤ 1024 }
        requires frames { 0 < frames }
        requires few_frames { frames ≤ 1024 }
        ensures file { IfOk result (λ leaf. file_of leaf ≡ record { number = tag; page_size = page_size; pages = pages }) }
        ensures frames { IfOk result (λ leaf. frames_of leaf ≡ frames) }
        ensures uses { IfOk result (λ leaf. uses_of leaf ≡ []) }
        ensures bare { IfOk result (λ leaf. (page : ℕ) → side leaf page ≡ no_side) }
    {
        let room = NonZeroUsize::new(frames as usize).unwrap();
        Ok(Leaf {
            file: PagedFile {
                number: tag,
                page_size,
                pages,
            },
            held: LruCache::new(alloc, room)?,
            bare: Slot::new(alloc),
        })
    }

    /// The file that the table is of.
    pub fn file(&self) -> PagedFile
        ensures file { result ≡ file_of self.now }
        ensures paged { IsPagedFile result }
    {
        self.file
    }

    /// How many frames the leaf has: it holds at most so many pages.
    pub fn frames(&self) -> u32
        ensures frames { result ≡ frames_of self.now }
        ensures some { 0 < result }
        ensures few { result ≤ 1024 }
    {
        // Only the proof needs this: that there is a frame.
        let _len = self.held.len();
        self.held.cap().get() as u32
    }

    /// A page of the table.
    pub(crate) fn slot(&self, page: u32) -> &Slot
        ensures { IsSeenAs (file_of self.now) (side self.now page) (side_of result.now) }
    {
        match self.held.peek(&page) {
            Some(slot) => slot,
            None => &self.bare,
        }
    }

    /// What the leaf may do with a page.
    pub fn right(&self, page: u32) -> Right
        ensures { result ≡ (side self.now page).right }
    {
        self.slot(page).right()
    }

    /// How many pages the leaf holds.
    pub fn held(&self) -> u32
        ensures held { result ≡ held_of self.now }
        ensures leaf { IsLeaf self.now }
    {
        self.held.len() as u32
    }

    /// The page that goes out first: of the pages that the leaf holds, the one whose last use is the oldest. None if it
    /// holds none.
    pub fn victim(&self) -> Option<u32>
        ensures { result ≡ oldest (uses_of self.now) }
    {
        match self.held.peek_lru() {
            Some((page, _)) => Some(*page),
            None => None,
        }
    }

    /// A use of a page that the leaf holds. It takes no memory.
    pub fn touch(&mut self, page: u32)
        requires { MayRead self.old page }
        ensures { IsUse self.old self.new page (used_last page (uses_of self.old)) }
    {
        frames::use_page(&mut self.held, page);
    }

    /// Whether the leaf may read a page of its own.
    pub fn may_read(&self, page: u32) -> bool
        ensures { IsTrue result ↔ MayRead self.now page }
    {
        self.right(page) != Right::Nothing
    }

    /// Whether the leaf may write a page of its own.
    pub fn may_write(&self, page: u32) -> bool
        ensures { IsTrue result ↔ MayWrite self.now page }
    {
        self.right(page) == Right::Write
    }

    /// Lends bytes of the leaf's copy.
    pub fn lend(&self, page: u32, off: u32, len: u32) -> &[u8]
        requires may { MayRead self.now page }
        requires range { off + len ≤ (file_of self.now).page_size }
        ensures { result.now ≡ take len (drop off (side self.now page).copy) }
    {
        let start = off as usize;
        &self.slot(page).copy()[start..start + len as usize]
    }

    /// A write of the leaf's own. It is no use of the page yet: that is `touch`.
    pub fn change(&mut self, page: u32, off: u32, bytes: &[u8])
        requires may { MayWrite self.old page }
        requires range { off + length bytes.now ≤ (file_of self.old).page_size }
        ensures { IsWrite self.old self.new page (overwritten (side self.old page).copy off bytes.now) }
    {
        frames::write(&mut self.held, page, off, bytes);
    }

    /// A clear of the leaf's own. It is no use of the page yet: that is `touch`.
    pub fn blank(&mut self, page: u32)
        requires { MayWrite self.old page }
        ensures { IsWrite self.old self.new page (replicate (file_of self.old).page_size 0) }
    {
        frames::clear(&mut self.held, page);
    }
}
