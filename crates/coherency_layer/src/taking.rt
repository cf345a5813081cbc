//! What frames make of a node's table.

ghost use Rattle.std.specs.Prelude.{IfSome, IfErr, OnOk, OnErr};
ghost use Rattle.coherency_layer.specs.Node.{HasChild, AllowsFirst, AllowsSecond, IsChange, IsLeft, IsRefusal, IsFirstCopy, IsForFirstCopy};

use crate::node::Node;
use page_messages::{About, NodeErr};
use pager_channel::Frame;
use std::alloc::AllocError;

impl Node {
    /// Makes the change of the node that was asked or ordered, once its answer is written: the matching serve call
    /// answered Ok to this frame, and the node has not changed since. It takes no memory and cannot be refused.
    pub fn finish(&mut self, child: Option<u32>, frame: &Frame<'_>)
        requires child { IfSome child (HasChild self.old) }
        requires allowed { AllowsFirst self.old child frame.now }
        ensures { IsChange self.old self.new child frame.now }
    {
        if let Some(About::Page { page }) = self.file.about(frame) {
            let slot = &mut self.slots[page as usize];
            slot.finish(child, frame);
        }
    }

    /// Takes the answer of a child to an order, or else of the pager to a question. Memory may lack only for a page of
    /// which the node has nothing and kept no copy. A refusal leaves the table.
    pub fn accept_reply(&mut self, child: Option<u32>, frame: &Frame<'_>) -> Result<(), NodeErr>
        requires { IfSome child (HasChild self.old) }
        ensures allowed { OnOk result (AllowsSecond self.old child frame.now) }
        ensures taken { OnOk result (IsChange self.old self.new child frame.now) }
        ensures refused { IfErr result (IsRefusal self.old frame.now (AllowsSecond self.old child frame.now)) }
        ensures memory { IfErr result (IsFirstCopy self.old frame.now) }
        ensures err { OnErr result (IsLeft self.old self.new) }
    {
        if !self.allows_second(child, frame) {
            return Err(self.not_allowed(frame));
        }
        match self.take_second(child, frame) {
            Ok(()) => Ok(()),
            Err(_) => Err(NodeErr::Memory),
        }
    }

    /// Makes the change of a second frame that the table allows.
    fn take_second(&mut self, child: Option<u32>, frame: &Frame<'_>) -> Result<(), AllocError>
        requires child { IfSome child (HasChild self.old) }
        requires allowed { AllowsSecond self.old child frame.now }
        ensures ok { OnOk result (IsChange self.old self.new child frame.now) }
        ensures memory { OnErr result (IsForFirstCopy self.old frame.now) }
        ensures err { OnErr result (IsLeft self.old self.new) }
    {
        if let Some(About::Page { page }) = self.file.about(frame) {
            let page_size = self.file.page_size;
            let slot = &mut self.slots[page as usize];
            return slot.accept(child, frame, page_size);
        }
        Ok(())
    }
}
