//! What a node's own table allows.

ghost use Rattle.std.specs.Prelude.{◌≡◌, ◌<◌, ◌↔◌, IsTrue, IfSome, All};
ghost use Rattle.page_messages.specs.Masks.{IsIn};
ghost use Rattle.page_messages.specs.Message.{Allows, IsKnown};
ghost use Rattle.page_messages.specs.Paged.{IsInside, page_named};
ghost use Rattle.page_messages.specs.Slot.{side_of};
ghost use Rattle.page_messages.specs.declared.refusal.NodeErr.{NodeErr as ARefusal};
ghost use Rattle.coherency_layer.specs.Node.{file_of, HasChild, slots_about, AllowsAbout, AllowsFirst, AllowsSecond};

use crate::node::Node;
use page_messages::{About, Answer, Message, NodeErr, Slot, first_in, second_in};
use pager_channel::Frame;

/// Whether each of these pages allows the message.
fn all_allow(slots: &[Slot], message: Message) -> bool
    requires { IsKnown message }
    ensures { IsTrue result ↔ All (λ slot. Allows (side_of slot) message) slots.now }
{
    for slot in slots {
        if !slot.allows(message) {
            return false;
        }
    }
    true
}

impl Node {
    /// The pages that decide a message.
    fn slots_about(&self, about: About) -> &[Slot]
        requires { IsInside (file_of self.now) about }
        ensures { result.now ≡ slots_about self.now about }
    {
        match about {
            About::Page { page } => &self.slots[page as usize..page as usize + 1],
            About::Channel => &self.slots,
        }
    }

    /// Whether the table allows a frame that is this message.
    fn allows(&self, frame: &Frame<'_>, message: Message) -> bool
        requires { IsKnown message }
        ensures { IsTrue result ↔ AllowsAbout self.now frame.now message }
    {
        match self.file.about(frame) {
            Some(about) => all_allow(self.slots_about(about), message),
            None => false,
        }
    }

    /// Whether the table allows the first frame, of the child or else of the pager.
    pub(crate) fn allows_first(&self, child: Option<u32>, frame: &Frame<'_>) -> bool
        requires { IfSome child (HasChild self.now) }
        ensures { IsTrue result ↔ AllowsFirst self.now child frame.now }
    {
        match first_in(child, frame) {
            Some(message) => self.allows(frame, message),
            None => false,
        }
    }

    /// Whether the table allows the second frame, of the child or else of the pager.
    pub(crate) fn allows_second(&self, child: Option<u32>, frame: &Frame<'_>) -> bool
        requires { IfSome child (HasChild self.now) }
        ensures { IsTrue result ↔ AllowsSecond self.now child frame.now }
    {
        let to_leaf = Message::Answers {
            what: Answer::PageOut,
        };
        match second_in(child, frame) {
            Some(message) => message != to_leaf && self.allows(frame, message),
            None => false,
        }
    }

    /// The refusal of a frame that the table forbids.
    pub(crate) fn not_allowed(&self, frame: &Frame<'_>) -> NodeErr
        ensures { result ≡ ARefusal.NotAllowed (page_named (file_of self.now) frame.now) }
    {
        NodeErr::NotAllowed {
            page: self.file.page_named(frame),
        }
    }
}
