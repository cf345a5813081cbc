//! What a leaf's own table allows.

ghost use Rattle.std.specs.Prelude.{◌≡◌, ◌↔◌, IsTrue};
ghost use Rattle.page_messages.specs.declared.refusal.NodeErr.{NodeErr as ARefusal};
ghost use Rattle.page_messages.specs.Paged.{page_named};
ghost use Rattle.vmm_cache.specs.Leaf.{file_of, FramesTake, MayObeyAt, MayTakeAt, AllowsFirst, AllowsSecond};

use crate::leaf::Leaf;
use page_messages::{About, Answer, Called, Message, NodeErr, answer_in, called_in};
use pager_channel::Frame;

impl Leaf {
    /// Whether the frames allow an answer about a page.
    fn frames_take(&self, what: Answer, page: u32) -> bool
        ensures { IsTrue result ↔ FramesTake self.now what page }
    {
        match what {
            Answer::Grant => self.held() < self.frames(),
            Answer::PageOut => self.victim() == Some(page),
            Answer::Upgrade | Answer::WriteOut | Answer::Sync | Answer::Done => true,
        }
    }

    /// Whether the leaf may be ordered to do this.
    fn may_obey(&self, what: Called, about: About) -> bool
        ensures { IsTrue result ↔ MayObeyAt self.now what about }
    {
        match about {
            About::Page { page } => self.slot(page).allows(Message::Orders { what }),
            About::Channel => what == Called::Destroy && self.held.is_empty(),
        }
    }

    /// Whether the leaf may be answered this.
    fn may_take(&self, what: Answer, about: About) -> bool
        ensures { IsTrue result ↔ MayTakeAt self.now what about }
    {
        match about {
            About::Page { page } => {
                self.slot(page).allows(Message::Answers { what }) && self.frames_take(what, page)
            }
            About::Channel => what == Answer::Done && self.held.is_empty(),
        }
    }

    /// Whether the table allows the first frame, an order of the pager.
    pub(crate) fn allows_first(&self, frame: &Frame<'_>) -> bool
        ensures { IsTrue result ↔ AllowsFirst self.now frame.now }
    {
        match (called_in(frame), self.file.about(frame)) {
            (Some(what), Some(about)) => self.may_obey(what, about),
            _ => false,
        }
    }

    /// Whether the table allows the second frame, an answer of the pager.
    pub(crate) fn allows_second(&self, frame: &Frame<'_>) -> bool
        ensures { IsTrue result ↔ AllowsSecond self.now frame.now }
    {
        match (answer_in(frame), self.file.about(frame)) {
            (Some(what), Some(about)) => self.may_take(what, about),
            _ => false,
        }
    }

    /// The refusal of a frame that the table forbids.
    pub(crate) fn not_allowed(&self, frame: &Frame<'_>) -> NodeErr
        ensures { result ≡ ARefusal.NotAllowed (page_named (file_of self.now) frame.now) }
    {
        NodeErr::NotAllowed {
            page: self.file.page_named(frame),
        }
    }
}
