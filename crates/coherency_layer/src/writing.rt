//! What a node writes.

ghost use Rattle.std.specs.Prelude.{◌≡◌, ◌≢◌, ◌<◌, ◌≤◌, ◌+◌, ◌^◌, ℕ, List, OnOk, OnErr, IfErr, IsOk, length, Some, None, Err};
ghost use Rattle.marshal_buf.specs.Held.{IsAsBefore};
ghost use Rattle.pager_channel.specs.Frame.{IsFrame};
ghost use Rattle.page_messages.specs.declared.refusal.NodeErr.{NodeErr as ARefusal};
ghost use Rattle.page_messages.specs.Paged.{about_of};
ghost use Rattle.page_messages.specs.Letters.{question, order};
ghost use Rattle.page_messages.specs.Sealed.{sealed, PutsFrame};
ghost use Rattle.coherency_layer.specs.Node.{file_of, side, HasChild, MayAskAbout, MayCallAbout, AllowsFirst, IsRefusal, WritesReply, WritesAnswer};

use crate::node::Node;
use marshal_buf::Buf;
use page_messages::{Asked, Called, Letter, NodeErr, asked_in, called_in};
use pager_channel::{Frame, Ops};
use std::alloc::AllocError;

impl Node {
    /// Writes what the node asks its pager about a page; the end of the channel is about no page. It cannot be refused
    /// where there is room for a head and a page; want of memory leaves the bytes as they were.
    #[tactic(auto, using(crate::proofs::Asking::may_ask_here))]
    pub fn ask(&self, ops: &Ops, what: Asked, page: u32, buf: &mut Buf) -> Result<(), AllocError>
        requires may { MayAskAbout self.now what page }
        requires few { length buf.old.bytes < 2 ^ 31 }
        ensures ok { OnOk result (PutsFrame (sealed ops.now (file_of self.now) page (question (side self.now page) what)) buf.old buf.new) }
        ensures frame { IsFrame ops.now (sealed ops.now (file_of self.now) page (question (side self.now page) what)) }
        ensures err { OnErr result (IsAsBefore buf.old buf.new) }
        ensures room { 24 + (file_of self.now).page_size ≤ buf.old.spare → IsOk result }
    {
        self.file
            .put(ops, page, &self.slot(page).question(what), buf)
    }

    /// Writes what the node orders a child to do with a page. It cannot be refused where there is room for a head and a
    /// page; want of memory leaves the bytes as they were.
    pub fn make_callback(
        &self,
        ops: &Ops,
        child: u32,
        what: Called,
        page: u32,
        buf: &mut Buf,
    ) -> Result<(), AllocError>
        requires may { MayCallAbout self.now child what page }
        requires few { length buf.old.bytes < 2 ^ 31 }
        ensures ok { OnOk result (PutsFrame (sealed ops.now (file_of self.now) page (order what)) buf.old buf.new) }
        ensures frame { IsFrame ops.now (sealed ops.now (file_of self.now) page (order what)) }
        ensures err { OnErr result (IsAsBefore buf.old buf.new) }
        ensures room { 24 + (file_of self.now).page_size ≤ buf.old.spare → IsOk result }
    {
        self.file.put(ops, page, &Letter::order(what), buf)
    }

    /// Writes the answer to a question that the table allows.
    fn answer(
        &self,
        ops: &Ops,
        child: u32,
        frame: &Frame<'_>,
        buf: &mut Buf,
    ) -> Result<(), AllocError>
        requires child { HasChild self.now child }
        requires allowed { AllowsFirst self.now (Some child) frame.now }
        requires few { length buf.old.bytes < 2 ^ 31 }
        ensures ok { OnOk result (WritesAnswer ops.now self.now child frame.now buf.old buf.new) }
        ensures err { OnErr result (IsAsBefore buf.old buf.new) }
        ensures room { 24 + (file_of self.now).page_size ≤ buf.old.spare → IsOk result }
    {
        match (asked_in(frame), self.file.about(frame)) {
            (Some(what), Some(about)) => {
                let page = about.page();
                let letter = self.slot(page).answer(child, what);
                self.file.put(ops, page, &letter, buf)
            }
            _ => unreachable!(),
        }
    }

    /// Writes the answer to an order that the table allows.
    fn reply(&self, ops: &Ops, frame: &Frame<'_>, buf: &mut Buf) -> Result<(), AllocError>
        requires allowed { AllowsFirst self.now None frame.now }
        requires few { length buf.old.bytes < 2 ^ 31 }
        ensures ok { OnOk result (WritesReply ops.now self.now frame.now buf.old buf.new) }
        ensures err { OnErr result (IsAsBefore buf.old buf.new) }
        ensures room { 24 + (file_of self.now).page_size ≤ buf.old.spare → IsOk result }
    {
        match (called_in(frame), self.file.about(frame)) {
            (Some(what), Some(about)) => {
                let page = about.page();
                let letter = self.slot(page).reply(what);
                self.file.put(ops, page, &letter, buf)
            }
            _ => unreachable!(),
        }
    }

    /// Writes the answer to a child's question, and changes nothing. It is refused for want of memory only where there
    /// is no room for a head and a page; a refusal leaves the bytes as they were.
    pub fn serve_pager(
        &self,
        ops: &Ops,
        child: u32,
        frame: &Frame<'_>,
        buf: &mut Buf,
    ) -> Result<(), NodeErr>
        requires child { HasChild self.now child }
        requires few { length buf.old.bytes < 2 ^ 31 }
        ensures allowed { OnOk result (AllowsFirst self.now (Some child) frame.now) }
        ensures answered { OnOk result (WritesAnswer ops.now self.now child frame.now buf.old buf.new) }
        ensures refused { IfErr result (IsRefusal self.now frame.now (AllowsFirst self.now (Some child) frame.now)) }
        ensures err { OnErr result (IsAsBefore buf.old buf.new) }
        ensures room { 24 + (file_of self.now).page_size ≤ buf.old.spare → result ≢ Err ARefusal.Memory }
    {
        if !self.allows_first(Some(child), frame) {
            return Err(self.not_allowed(frame));
        }
        match self.answer(ops, child, frame, buf) {
            Ok(()) => Ok(()),
            Err(_) => Err(NodeErr::Memory),
        }
    }

    /// Writes the answer to the pager's order, and changes nothing. It is refused for want of memory only where there is
    /// no room for a head and a page; a refusal leaves the bytes as they were.
    pub fn serve_cache(&self, ops: &Ops, frame: &Frame<'_>, buf: &mut Buf) -> Result<(), NodeErr>
        requires { length buf.old.bytes < 2 ^ 31 }
        ensures allowed { OnOk result (AllowsFirst self.now None frame.now) }
        ensures answered { OnOk result (WritesReply ops.now self.now frame.now buf.old buf.new) }
        ensures refused { IfErr result (IsRefusal self.now frame.now (AllowsFirst self.now None frame.now)) }
        ensures err { OnErr result (IsAsBefore buf.old buf.new) }
        ensures room { 24 + (file_of self.now).page_size ≤ buf.old.spare → result ≢ Err ARefusal.Memory }
    {
        if !self.allows_first(None, frame) {
            return Err(self.not_allowed(frame));
        }
        match self.reply(ops, frame, buf) {
            Ok(()) => Ok(()),
            Err(_) => Err(NodeErr::Memory),
        }
    }
}
