//! The file that the messages of a channel are about.

ghost use Rattle.std.specs.Prelude.{◌≡◌, ◌<◌, ◌≤◌, ◌+◌, ◌^◌, ◌%◌, ◌==◌, ◌&&◌, nat_lt, IfSome, IsSome, OnOk, OnErr, IsOk, length};
ghost use Rattle.std.specs.Bool.{then_some};
ghost use Rattle.marshal_buf.specs.Held.{IsAsBefore};
ghost use Rattle.pager_channel.specs.Frame.{IsHead, IsFrame};
ghost use Rattle.pager_channel.specs.Numbers.{IsFoundAgain};
ghost use Rattle.pager_channel.specs.Size.{data_size};
ghost use Rattle.page_messages.specs.declared.paged.About.{About as AnAbout};
ghost use Rattle.page_messages.specs.Paged.{IsPagedFile, IsInside, IsOfPage, about_of, page_about, page_at, page_named};
ghost use Rattle.page_messages.specs.Letters.{IsLetter};
ghost use Rattle.page_messages.specs.Sealed.{head_of, sealed, PutsFrame};

use crate::kinds::access_of;
use crate::letter::Letter;
use marshal_buf::Buf;
use pager_channel::{Frame, Head, Operation, Ops, put_frame};
use std::alloc::AllocError;

/// The subcontract of the objects of a channel.
const CHANNEL: u16 = 2;

/// The file that the messages of a channel are about.
#[derive(Clone, Copy, Debug, PartialEq, Eq)]
pub struct PagedFile {
    /// Its number, which the heads have as their tag.
    pub number: u32,
    /// How many bytes a page has, at most 4,096.
    pub page_size: u32,
    /// How many pages it has, at most 1,024.
    pub pages: u32,
}

/// What a message is about.
#[derive(Clone, Copy, Debug, PartialEq, Eq)]
pub enum About {
    /// One page.
    Page {
        /// The page, counted from 0.
        page: u32,
    },
    /// The channel as a whole.
    Channel,
}

impl About {
    /// One of the pages that decide the message: the page, or the first page.
    pub fn page(self) -> u32
        ensures { result ≡ page_about self }
    {
        match self {
            About::Page { page } => page,
            About::Channel => 0,
        }
    }
}

/// What the end of a channel is about.
fn about_channel(head: &Head) -> Option<About>
    ensures is { result ≡ then_some (head.now.offset == 0 && head.now.size == 0) AnAbout.Channel }
    ensures no_page { IsOfPage result → ⊥ }
{
    (head.offset == 0 && head.size == 0).then_some(About::Channel)
}

impl PagedFile {
    /// What a message about a page is about.
    fn about_page(&self, head: &Head) -> Option<About>
        requires { IsPagedFile self.now }
        ensures inside { IfSome result (IsInside self.now) }
        ensures size { IsSome result → head.now.size ≡ self.now.page_size }
        ensures is { result ≡ then_some (head.now.size == self.now.page_size && head.now.offset % self.now.page_size == 0 && nat_lt (page_at self.now head.now.offset) self.now.pages) (AnAbout.Page (page_at self.now head.now.offset)) }
    {
        let size = u64::from(self.page_size);
        let page = head.offset / size;
        if head.size == self.page_size && head.offset % size == 0 && page < u64::from(self.pages) {
            Some(About::Page { page: page as u32 })
        } else {
            None
        }
    }

    /// What the frame is about, if it is a channel's frame of this file.
    pub fn about(&self, frame: &Frame<'_>) -> Option<About>
        requires { IsPagedFile self.now }
        ensures is { result ≡ about_of self.now frame.now }
        ensures inside { IfSome result (IsInside self.now) }
        ensures size { IsOfPage result → frame.now.head.size ≡ self.now.page_size }
        ensures sized { length frame.now.body ≡ data_size frame.now.head }
    {
        let head = frame.head();
        if head.subcontract != CHANNEL || head.tag != self.number {
            return None;
        }
        match frame.which() {
            Operation::Done | Operation::Destroy => about_channel(&head),
            _ => self.about_page(&head),
        }
    }

    /// The page that a refusal of the frame names.
    pub fn page_named(&self, frame: &Frame<'_>) -> u32
        requires { IsPagedFile self.now }
        ensures { result ≡ page_named self.now frame.now }
    {
        let page = frame.head().offset / u64::from(self.page_size);
        page.min(u64::from(u32::MAX)) as u32
    }

    /// The head of a letter about a page.
    fn head(&self, ops: &Ops, page: u32, letter: &Letter<'_>) -> Head
        requires file { IsPagedFile self.now }
        requires letter { IsLetter self.now.page_size letter.now }
        ensures is { result ≡ head_of ops.now self.now page letter.now }
        ensures head { IsHead result }
        ensures found { IsFoundAgain ops.now letter.now.which }
    {
        let paged = letter.is_paged();
        let offset = u64::from(page) * u64::from(self.page_size);
        Head {
            subcontract: CHANNEL,
            operation: ops.number(letter.which()),
            tag: self.number,
            offset: if paged { offset } else { 0 },
            size: if paged { self.page_size } else { 0 },
            access: access_of(letter.right()),
            flags: letter.flags(),
        }
    }

    /// Puts the frame of a letter about a page. Whoever reads it reads this frame. It cannot be refused where there is
    /// room for a head and a page; want of memory leaves the bytes as they were.
    pub fn put(
        &self,
        ops: &Ops,
        page: u32,
        letter: &Letter<'_>,
        buf: &mut Buf,
    ) -> Result<(), AllocError>
        requires file { IsPagedFile self.now }
        requires letter { IsLetter self.now.page_size letter.now }
        requires few { length buf.old.bytes < 2 ^ 31 }
        ensures ok { OnOk result (PutsFrame (sealed ops.now self.now page letter.now) buf.old buf.new) }
        ensures frame { IsFrame ops.now (sealed ops.now self.now page letter.now) }
        ensures err { OnErr result (IsAsBefore buf.old buf.new) }
        ensures room { 24 + self.now.page_size ≤ buf.old.spare → IsOk result }
    {
        let head = self.head(ops, page, letter);
        put_frame(&head, letter.body(), buf)
    }
}
