//! What a leaf writes.

ghost use Rattle.std.specs.Prelude.{◌≡◌, ◌≢◌, ◌<◌, ◌≤◌, ◌+◌, ◌^◌, OnOk, OnErr, IfErr, IsOk, length, Err};
ghost use Rattle.marshal_buf.specs.Held.{IsAsBefore};
ghost use Rattle.pager_channel.specs.Frame.{IsFrame};
ghost use Rattle.page_messages.specs.declared.refusal.NodeErr.{NodeErr as ARefusal};
ghost use Rattle.page_messages.specs.Paged.{page_about};
ghost use Rattle.page_messages.specs.Letters.{IsLetter, question, reply};
ghost use Rattle.page_messages.specs.Sealed.{sealed, PutsFrame};
ghost use Rattle.vmm_cache.specs.Leaf.{file_of, side, MayAskAbout, MayObeyAt, AllowsFirst, IsRefusal, WritesReply};

use crate::leaf::Leaf;
use marshal_buf::Buf;
use page_messages::{About, Asked, Called, Letter, NodeErr, called_in};
use pager_channel::{Frame, Ops};
use std::alloc::AllocError;

impl Leaf {
    /// What the leaf asks about a page.
    fn question(&self, what: Asked, page: u32) -> Letter<'_>
        requires { MayAskAbout self.now what page }
        ensures is { result ≡ question (side self.now page) what }
        ensures letter { IsLetter (file_of self.now).page_size result }
    {
        self.slot(page).question(what)
    }

    /// What the leaf answers to an order.
    fn reply_letter(&self, what: Called, about: About) -> Letter<'_>
        requires { MayObeyAt self.now what about }
        ensures is { result ≡ reply (side self.now (page_about about)) what }
        ensures letter { IsLetter (file_of self.now).page_size result }
    {
        self.slot(about.page()).reply(what)
    }

    /// Writes what the leaf asks its pager about a page; the end of the channel is about no page. It cannot be refused
    /// where there is room for a head and a page; want of memory leaves the bytes as they were.
    pub fn ask(&self, ops: &Ops, what: Asked, page: u32, buf: &mut Buf) -> Result<(), AllocError>
        requires may { MayAskAbout self.now what page }
        requires few { length buf.old.bytes < 2 ^ 31 }
        ensures ok { OnOk result (PutsFrame (sealed ops.now (file_of self.now) page (question (side self.now page) what)) buf.old buf.new) }
        ensures frame { IsFrame ops.now (sealed ops.now (file_of self.now) page (question (side self.now page) what)) }
        ensures err { OnErr result (IsAsBefore buf.old buf.new) }
        ensures room { 24 + (file_of self.now).page_size ≤ buf.old.spare → IsOk result }
    {
        self.file.put(ops, page, &self.question(what, page), buf)
    }

    /// Writes the answer to an order that the table allows.
    fn reply(&self, ops: &Ops, frame: &Frame<'_>, buf: &mut Buf) -> Result<(), AllocError>
        requires allowed { AllowsFirst self.now frame.now }
        requires few { length buf.old.bytes < 2 ^ 31 }
        ensures ok { OnOk result (WritesReply ops.now self.now frame.now buf.old buf.new) }
        ensures err { OnErr result (IsAsBefore buf.old buf.new) }
        ensures room { 24 + (file_of self.now).page_size ≤ buf.old.spare → IsOk result }
    {
        match (called_in(frame), self.file.about(frame)) {
            (Some(what), Some(about)) => {
                let letter = self.reply_letter(what, about);
                self.file.put(ops, about.page(), &letter, buf)
            }
            _ => unreachable!(),
        }
    }

    /// Writes the answer to the pager's order, and changes nothing. It is refused for want of memory only where there is
    /// no room for a head and a page; a refusal leaves the bytes as they were.
    pub fn serve_cache(&self, ops: &Ops, frame: &Frame<'_>, buf: &mut Buf) -> Result<(), NodeErr>
        requires { length buf.old.bytes < 2 ^ 31 }
        ensures allowed { OnOk result (AllowsFirst self.now frame.now) }
        ensures answered { OnOk result (WritesReply ops.now self.now frame.now buf.old buf.new) }
        ensures refused { IfErr result (IsRefusal self.now frame.now (AllowsFirst self.now frame.now)) }
        ensures err { OnErr result (IsAsBefore buf.old buf.new) }
        ensures room { 24 + (file_of self.now).page_size ≤ buf.old.spare → result ≢ Err ARefusal.Memory }
    {
        if !self.allows_first(frame) {
            return Err(self.not_allowed(frame));
        }
        match self.reply(ops, frame, buf) {
            Ok(()) => Ok(()),
            Err(_) => Err(NodeErr::Memory),
        }
    }
}
