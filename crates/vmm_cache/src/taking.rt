//! What frames make of a leaf's table.

ghost use Rattle.std.specs.Prelude.{◌≡◌, IfErr, OnOk, OnErr};
ghost use Rattle.page_messages.specs.Seen.{no_side};
ghost use Rattle.tower_core.specs.declared.right.Right.{Right as ARight};
ghost use Rattle.page_messages.specs.After.{after_pager};
ghost use Rattle.vmm_cache.specs.Uses.{used_last, without};
ghost use Rattle.vmm_cache.specs.Leaf.{file_of, uses_of, side, MayRead, HasFrame, AllowsFirst, AllowsSecond, ChangesPage, IsKeeping, IsGranting, IsFirstChange, IsSecondChange, IsLeft, IsRefusal, IsFirstCopy, IsForFirstCopy};

use crate::frames;
use crate::leaf::Leaf;
use page_messages::{About, Answer, Called, NodeErr, Slot, answer_in, called_in};
use pager_channel::Frame;
use std::alloc::AllocError;

impl Leaf {
    /// Makes the change of the leaf that was ordered, once its answer is written: `serve_cache` answered Ok to this frame,
    /// and the leaf has not changed since. It takes no memory and cannot be refused.
    pub fn finish(&mut self, frame: &Frame<'_>)
        requires { AllowsFirst self.old frame.now }
        ensures { IsFirstChange self.old self.new frame.now }
    {
        if let (Some(what), Some(About::Page { page })) = (
            called_in(frame),
            self.file.about(frame),
        ) {
            match what {
                Called::FlushBack | Called::DeleteRange => self.free_page(page),
                Called::DenyWrites | Called::WriteBack => self.settle_page(page, frame),
                Called::Destroy => {}
            }
        }
    }

    /// Takes the answer of the pager to a question. Memory may lack only for a grant of a page of which the leaf has
    /// nothing. A refusal leaves the table.
    pub fn accept_reply(&mut self, frame: &Frame<'_>) -> Result<(), NodeErr>
        ensures allowed { OnOk result (AllowsSecond self.old frame.now) }
        ensures taken { OnOk result (IsSecondChange self.old self.new frame.now) }
        ensures refused { IfErr result (IsRefusal self.old frame.now (AllowsSecond self.old frame.now)) }
        ensures memory { IfErr result (IsFirstCopy self.old frame.now) }
        ensures err { OnErr result (IsLeft self.old self.new) }
    {
        if !self.allows_second(frame) {
            return Err(self.not_allowed(frame));
        }
        match self.take_second(frame) {
            Ok(()) => Ok(()),
            Err(_) => Err(NodeErr::Memory),
        }
    }

    /// Makes the change of a second frame that the table allows.
    fn take_second(&mut self, frame: &Frame<'_>) -> Result<(), AllocError>
        requires allowed { AllowsSecond self.old frame.now }
        ensures ok { OnOk result (IsSecondChange self.old self.new frame.now) }
        ensures memory { OnErr result (IsForFirstCopy self.old frame.now) }
        ensures err { OnErr result (IsLeft self.old self.new) }
    {
        if let (Some(what), Some(About::Page { page })) = (
            answer_in(frame),
            self.file.about(frame),
        ) {
            match what {
                Answer::Grant => return self.take_page(page, frame),
                Answer::Upgrade => {
                    self.touch(page);
                    self.settle_page(page, frame);
                }
                Answer::PageOut => self.free_page(page),
                Answer::WriteOut | Answer::Sync => self.settle_page(page, frame),
                Answer::Done => {}
            }
        }
        Ok(())
    }

    /// Keeps a page that it holds with the right of a frame that brings no bytes.
    fn settle_page(&mut self, page: u32, frame: &Frame<'_>)
        requires held { MayRead self.old page }
        requires keeps { IsKeeping (file_of self.old).page_size frame.now }
        ensures { ChangesPage self.old self.new page (after_pager (file_of self.old).page_size frame.now (side self.old page)) (uses_of self.old) }
    {
        frames::settle(&mut self.held, page, frame);
    }

    /// Gives up a page, its copy and its frame.
    fn free_page(&mut self, page: u32)
        ensures { ChangesPage self.old self.new page no_side (without page (uses_of self.old)) }
    {
        frames::free(&mut self.held, page);
    }

    /// Takes a page that is granted into a free frame.
    fn take_page(&mut self, page: u32, frame: &Frame<'_>) -> Result<(), AllocError>
        requires nothing { (side self.old page).right ≡ ARight.Nothing }
        requires frame { HasFrame self.old }
        requires grants { IsGranting (file_of self.old) page frame.now }
        ensures ok { OnOk result (ChangesPage self.old self.new page (after_pager (file_of self.old).page_size frame.now (side self.old page)) (used_last page (uses_of self.old))) }
        ensures err { OnErr result (IsLeft self.old self.new) }
    {
        // Only the proof needs this: that the leaf has a frame left.
        let _held = self.held();
        let mut slot = Slot::new(*self.held.allocator());
        slot.accept(None, frame, self.file.page_size)?;
        frames::fill(&mut self.held, page, slot)
    }
}
