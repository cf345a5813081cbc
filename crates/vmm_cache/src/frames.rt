//! The frames of a leaf, in which the pages are that it holds.

ghost use Rattle.std.specs.Prelude.{◌≡◌, ◌+◌, ◌<◌, ◌≤◌, ℕ, OnOk, OnErr, IsSome, None, length, replicate};
ghost use Rattle.hist_plain.specs.Plain.{overwritten};
ghost use Rattle.layer_laws.specs.Side.{written};
ghost use Rattle.page_messages.specs.Kinds.{bytes_down};
ghost use Rattle.page_messages.specs.After.{after_pager};
ghost use Rattle.page_messages.specs.Slot.{side_of};
ghost use Rattle.vmm_cache.specs.Uses.{used_last};
ghost use Rattle.vmm_cache.specs.Frames.{FramesPage, FreesPage, side_in, slot_in, uses_in};

use lru::LruCache;
use page_messages::Slot;
use pager_channel::Frame;
use std::alloc::AllocError;

/// A use of a page that has a frame.
pub(crate) fn use_page(held: &mut LruCache<u32, Slot>, page: u32)
    requires { IsSome (slot_in held.old page) }
    ensures { FramesPage held.old held.new page (side_in held.old page) (used_last page (uses_in held.old)) }
{
    // Only the proof needs this: that each page stands there once.
    let _len = held.len();
    let _found = held.promote(&page);
}

/// Frees the frame of a page, and its copy.
pub(crate) fn free(held: &mut LruCache<u32, Slot>, page: u32)
    ensures { FreesPage held.old held.new page }
{
    // Only the proof needs this: that each page stands there once.
    let _len = held.len();
    let _slot = held.pop(&page);
}

/// Takes a free frame for a page that has none. An error is want of memory.
pub(crate) fn fill(held: &mut LruCache<u32, Slot>, page: u32, slot: Slot) -> Result<(), AllocError>
    requires absent { slot_in held.old page ≡ None }
    requires room { length (uses_in held.old) < held.old.cap }
    ensures ok { OnOk result (FramesPage held.old held.new page (side_of slot) (used_last page (uses_in held.old))) }
    ensures err { OnErr result (held.new ≡ held.old) }
{
    match held.put(page, slot) {
        Ok(_) => Ok(()),
        Err(_) => Err(AllocError),
    }
}

/// A page that has a frame gets the right that a frame without bytes leaves, and its copy shows what the pager's does.
pub(crate) fn settle(held: &mut LruCache<u32, Slot>, page: u32, frame: &Frame<'_>)
    requires { IsSome (slot_in held.old page) }
    ensures { (page_size : ℕ) → bytes_down page_size frame.now ≡ None →
        FramesPage held.old held.new page (after_pager page_size frame.now (side_in held.old page)) (uses_in held.old) }
{
    if let Some(slot) = held.peek_mut(&page) {
        slot.finish(None, frame);
    }
}

/// Writes bytes of the leaf's own into the copy of a page that has a frame.
pub(crate) fn write(held: &mut LruCache<u32, Slot>, page: u32, off: u32, bytes: &[u8])
    requires held { IsSome (slot_in held.old page) }
    requires range { off + length bytes.now ≤ length (side_in held.old page).copy }
    ensures { FramesPage held.old held.new page (written (overwritten (side_in held.old page).copy off bytes.now) (side_in held.old page)) (uses_in held.old) }
{
    if let Some(slot) = held.peek_mut(&page) {
        slot.write(off, bytes);
    }
}

/// Makes the copy of a page that has a frame zeros.
pub(crate) fn clear(held: &mut LruCache<u32, Slot>, page: u32)
    requires { IsSome (slot_in held.old page) }
    ensures { FramesPage held.old held.new page (written (replicate (length (side_in held.old page).copy) 0) (side_in held.old page)) (uses_in held.old) }
{
    if let Some(slot) = held.peek_mut(&page) {
        slot.clear();
    }
}
