//! One page of a node's table.

ghost use Rattle.std.specs.Prelude.{◌≡◌, ◌≢◌, ◌+◌, ◌<◌, ◌≤◌, ◌++◌, ◌↔◌, IsTrue, OnOk, OnErr, IsOk, IsSome, IsNone, IfSome, length, replicate, ℕ, Bool, Some, None, true};
ghost use Rattle.tower_core.specs.declared.right.Right.{Right as ARight};
ghost use Rattle.layer_laws.specs.Side.{own_after, written};
ghost use Rattle.pager_channel.specs.Flags.{has_data};
ghost use Rattle.page_messages.specs.Rules.{NoKidHolds, NoKidWrites, MayAsk, MayServe, MayCall, MayObey, MayTake};
ghost use Rattle.page_messages.specs.Kinds.{bytes_down};
ghost use Rattle.page_messages.specs.Message.{Allows, IsKnown};
ghost use Rattle.page_messages.specs.Letters.{IsLetter, pushed, question, answer, reply};
ghost use Rattle.page_messages.specs.After.{after_pager, after_child, page_after};
ghost use Rattle.page_messages.specs.Slot.{side_of, IsSlot};
ghost use Rattle.hist_plain.specs.Plain.{overwritten};

use crate::kids::Kids;
use crate::kinds::{Answer, Asked, Called, right_of};
use crate::letter::Letter;
use crate::message::Message;
use pager_channel::{DATA, Frame, Operation, REPLY, TO_CACHE};
use std::alloc::{AllocError, Global};
use tower_core::Right;

/// One page of a node's table: the node's right, its copy, whether the copy may differ from its parent's, and what each
/// child may do.
#[derive(Debug, Drop)]
pub struct Slot {
    right: Right,
    copy: Vec<u8>,
    changed: bool,
    kids: Kids,
}

impl Slot {
    /// A page of which nobody has anything.
    pub fn new(alloc: Global) -> Slot
        ensures right { (side_of result).right ≡ ARight.Nothing }
        ensures kids { NoKidHolds (side_of result) }
        ensures slot { (page_size children : ℕ) → IsSlot page_size children result }
    {
        Slot {
            right: Right::Nothing,
            copy: Vec::new(alloc),
            changed: false,
            kids: Kids::none(),
        }
    }

    /// What the node may do with the page.
    pub fn right(&self) -> Right
        ensures { result ≡ (side_of self.now).right }
    {
        self.right
    }

    /// What a child may do with it.
    pub fn child_right(&self, child: u32) -> Right
        requires { child < 32 }
        ensures { result ≡ (side_of self.now).kids child }
    {
        self.kids.right(child)
    }

    /// Whether the copy may differ from what the parent's shows.
    pub fn is_changed(&self) -> bool
        ensures { result ≡ (side_of self.now).changed }
    {
        self.changed
    }

    /// Lends the copy.
    pub fn copy(&self) -> &[u8]
        ensures { result.now ≡ (side_of self.now).copy }
    {
        &self.copy
    }

    /// Whether the page allows the message.
    pub fn allows(&self, message: Message) -> bool
        requires { IsKnown message }
        ensures { IsTrue result ↔ Allows (side_of self.now) message }
    {
        match message {
            Message::Asks { child, full, what } => self.may_serve(child, full, what),
            Message::Orders { what } => self.may_obey(what),
            Message::Answers { what } => self.may_take(what),
            Message::Replies { child, what } => self.may_call(child, what),
        }
    }

    /// Whether the node may read its copy: it has one, and no child has Write.
    pub fn may_read(&self) -> bool
        ensures { IsTrue result ↔ (((side_of self.now).right ≢ ARight.Nothing) × NoKidWrites (side_of self.now)) }
    {
        self.right != Right::Nothing && self.kids.none_writes()
    }

    /// Whether the node may write its copy: it has Write, and no child has a right.
    pub fn may_write(&self) -> bool
        ensures { IsTrue result ↔ (((side_of self.now).right ≡ ARight.Write) × NoKidHolds (side_of self.now)) }
    {
        self.right == Right::Write && self.kids.none_holds()
    }

    /// Whether a child may ask this, with data or without.
    fn may_serve(&self, child: u32, full: bool, what: Asked) -> bool
        requires { child < 32 }
        ensures { IsTrue result ↔ MayServe (side_of self.now) child full what }
    {
        let right = self.kids.right(child);
        match what {
            Asked::PageInRead => {
                self.right != Right::Nothing && right == Right::Nothing && self.kids.none_writes()
            }
            Asked::PageInWrite => {
                self.right == Right::Write
                    && right != Right::Write
                    && self.kids.no_other_holds(child)
            }
            Asked::PageOut => right == Right::Write || (right == Right::Read && !full),
            Asked::WriteOut | Asked::Sync => right == Right::Write,
            Asked::Done => right == Right::Nothing,
        }
    }

    /// Whether the node may order a child to do this, and be answered by it.
    fn may_call(&self, child: u32, what: Called) -> bool
        requires { child < 32 }
        ensures { IsTrue result ↔ MayCall (side_of self.now) child what }
    {
        let right = self.kids.right(child);
        match what {
            Called::FlushBack | Called::DenyWrites | Called::WriteBack => right == Right::Write,
            Called::DeleteRange => right == Right::Read,
            Called::Destroy => right == Right::Nothing,
        }
    }

    /// Whether the node may be ordered to do this.
    fn may_obey(&self, what: Called) -> bool
        ensures { IsTrue result ↔ MayObey (side_of self.now) what }
    {
        match what {
            Called::FlushBack => self.right == Right::Write && self.kids.none_holds(),
            Called::DenyWrites => self.right == Right::Write && self.kids.none_writes(),
            Called::WriteBack => self.right == Right::Write,
            Called::DeleteRange => self.right == Right::Read && self.kids.none_holds(),
            Called::Destroy => self.right == Right::Nothing && self.kids.none_holds(),
        }
    }

    /// Whether the node may be answered this.
    fn may_take(&self, what: Answer) -> bool
        ensures { IsTrue result ↔ MayTake (side_of self.now) what }
    {
        match what {
            Answer::Grant => self.right == Right::Nothing,
            Answer::Upgrade => self.right == Right::Read,
            Answer::PageOut => self.right != Right::Nothing && self.kids.none_holds(),
            Answer::WriteOut => self.right == Right::Write && self.kids.none_writes(),
            Answer::Sync => self.right == Right::Write,
            Answer::Done => self.right == Right::Nothing && self.kids.none_holds(),
        }
    }

    /// A letter that gives the copy back, where it is changed.
    fn pushed(&self, which: Operation, right: Right, flags: u8) -> Letter<'_>
        requires { flags < 8 }
        ensures { result ≡ pushed (side_of self.now) which right flags }
    {
        if self.changed {
            Letter::new(which, right, flags + DATA, &self.copy)
        } else {
            Letter::bare(which, right, flags)
        }
    }

    /// What the node writes to ask its pager.
    #[tactic(auto, using(crate::proofs::LetterLaws::question_letter))]
    pub fn question(&self, what: Asked) -> Letter<'_>
        ensures is { result ≡ question (side_of self.now) what }
        ensures letter { (page_size children : ℕ) → IsSlot page_size children self.now → MayAsk (side_of self.now) what → IsLetter page_size (question (side_of self.now) what) }
    {
        match what {
            Asked::PageInRead => Letter::bare(Operation::PageIn, Right::Read, 0),
            Asked::PageInWrite => Letter::bare(Operation::PageIn, Right::Write, 0),
            Asked::PageOut => self.pushed(Operation::PageOut, Right::Nothing, 0),
            Asked::WriteOut => self.pushed(Operation::WriteOut, Right::Read, 0),
            Asked::Sync => self.pushed(Operation::Sync, Right::Write, 0),
            Asked::Done => Letter::bare(Operation::Done, Right::Nothing, 0),
        }
    }

    /// What the node writes to answer an order.
    #[tactic(auto, using(crate::proofs::LetterLaws::reply_letter))]
    pub fn reply(&self, what: Called) -> Letter<'_>
        ensures is { result ≡ reply (side_of self.now) what }
        ensures letter { (page_size children : ℕ) → IsSlot page_size children self.now → MayObey (side_of self.now) what → IsLetter page_size (reply (side_of self.now) what) }
    {
        let flags = TO_CACHE + REPLY;
        match what {
            Called::FlushBack => self.pushed(Operation::FlushBack, Right::Nothing, flags),
            Called::DenyWrites => self.pushed(Operation::DenyWrites, Right::Read, flags),
            Called::WriteBack => self.pushed(Operation::WriteBack, Right::Write, flags),
            Called::DeleteRange => Letter::bare(Operation::DeleteRange, Right::Nothing, flags),
            Called::Destroy => Letter::bare(Operation::Destroy, Right::Nothing, flags),
        }
    }

    /// What the node writes to answer a question of a child.
    #[tactic(auto, using(crate::proofs::LetterLaws::served_letter))]
    pub fn answer(&self, child: u32, what: Asked) -> Letter<'_>
        requires { child < 32 }
        ensures is { result ≡ answer ((side_of self.now).kids child) (side_of self.now).copy what }
        ensures letter { (page_size children : ℕ) (full : Bool) → IsSlot page_size children self.now → MayServe (side_of self.now) child full what
            → IsLetter page_size (answer ((side_of self.now).kids child) (side_of self.now).copy what) }
    {
        Letter::answer(self.kids.right(child), &self.copy, what)
    }

    /// The node has another right, and its copy shows what its parent's does.
    fn set_right(&mut self, right: Right)
        ensures { side_of self.new ≡ own_after right None (side_of self.old) }
    {
        self.right = right;
        self.changed = false;
    }

    /// The node has another right, and a copy with these bytes. It needs memory only where no copy was kept.
    fn take_page(&mut self, right: Right, bytes: &[u8]) -> Result<(), AllocError>
        requires { 0 < length (side_of self.old).copy → length (side_of self.old).copy ≡ length bytes.now }
        ensures ok { OnOk result (side_of self.new ≡ own_after right (Some bytes.now) (side_of self.old)) }
        ensures err { OnErr result (side_of self.new ≡ side_of self.old) }
        ensures room { 0 < length (side_of self.old).copy → IsOk result }
    {
        if self.copy.is_empty() {
            self.copy.extend_from_slice(bytes)?;
        } else {
            self.copy.copy_from_slice(bytes);
        }
        self.set_right(right);
        Ok(())
    }

    /// The node has another right, and a copy of zeros. It needs memory only where no copy was kept.
    fn take_zeros(&mut self, right: Right, page_size: u32) -> Result<(), AllocError>
        requires { 0 < length (side_of self.old).copy → length (side_of self.old).copy ≡ page_size }
        ensures ok { OnOk result (side_of self.new ≡ own_after right (Some (replicate page_size 0)) (side_of self.old)) }
        ensures err { OnErr result (side_of self.new ≡ side_of self.old) }
        ensures room { 0 < length (side_of self.old).copy → IsOk result }
    {
        if self.copy.is_empty() {
            self.copy.resize(page_size as usize, 0)?;
        } else {
            self.copy.fill(0);
        }
        self.set_right(right);
        Ok(())
    }

    /// Takes the right and the bytes of a frame that came from the parent. It needs memory only where the frame brings
    /// bytes and no copy was kept.
    fn take(&mut self, frame: &Frame<'_>, page_size: u32) -> Result<(), AllocError>
        requires room { 0 < length (side_of self.old).copy → length (side_of self.old).copy ≡ page_size }
        requires size { frame.now.head.size ≡ page_size }
        ensures ok { OnOk result (side_of self.new ≡ after_pager page_size frame.now (side_of self.old)) }
        ensures err { OnErr result (side_of self.new ≡ side_of self.old) }
        ensures memory { OnErr result (IsSome (bytes_down page_size frame.now)) }
        ensures room { 0 < length (side_of self.old).copy → IsOk result }
    {
        let right = right_of(frame.head().access);
        if frame.which() == Operation::ZeroFill {
            return self.take_zeros(right, page_size);
        }
        match frame.data() {
            Some(bytes) => self.take_page(right, bytes),
            None => {
                self.set_right(right);
                Ok(())
            }
        }
    }

    /// Takes the right and the bytes of a frame that came from a child.
    fn hear(&mut self, child: u32, frame: &Frame<'_>)
        requires child { child < 32 }
        requires sized { has_data frame.now.head.flags ≡ true → length frame.now.body ≡ length (side_of self.old).copy }
        ensures { side_of self.new ≡ after_child child frame.now (side_of self.old) }
    {
        self.kids.set(child, right_of(frame.head().access));
        if let Some(bytes) = frame.data() {
            self.copy.copy_from_slice(bytes);
            self.changed = true;
        }
    }

    /// Takes what a first frame says, one of the child or else of the pager. An order brings no bytes.
    pub fn finish(&mut self, child: Option<u32>, frame: &Frame<'_>)
        requires child { IfSome child (λ c. c < 32) }
        requires sized { IsSome child → has_data frame.now.head.flags ≡ true → length frame.now.body ≡ length (side_of self.old).copy }
        ensures { (page_size : ℕ) → (IsNone child → bytes_down page_size frame.now ≡ None) → side_of self.new ≡ page_after child page_size frame.now (side_of self.old) }
    {
        match child {
            Some(child) => self.hear(child, frame),
            None => self.set_right(right_of(frame.head().access)),
        }
    }

    /// Takes what a second frame says, one of the child or else of the pager. It needs memory only for bytes of the
    /// pager's, where no copy was kept.
    pub fn accept(
        &mut self,
        child: Option<u32>,
        frame: &Frame<'_>,
        page_size: u32,
    ) -> Result<(), AllocError>
        requires child { IfSome child (λ c. c < 32) }
        requires sized { IsSome child → has_data frame.now.head.flags ≡ true → length frame.now.body ≡ length (side_of self.old).copy }
        requires room { 0 < length (side_of self.old).copy → length (side_of self.old).copy ≡ page_size }
        requires size { frame.now.head.size ≡ page_size }
        ensures ok { OnOk result (side_of self.new ≡ page_after child page_size frame.now (side_of self.old)) }
        ensures err { OnErr result (side_of self.new ≡ side_of self.old) }
        ensures pager { OnErr result (IsNone child) }
        ensures bytes { OnErr result (IsSome (bytes_down page_size frame.now)) }
        ensures room { 0 < length (side_of self.old).copy → IsOk result }
    {
        match child {
            Some(child) => {
                self.hear(child, frame);
                Ok(())
            }
            None => self.take(frame, page_size),
        }
    }

    /// Writes bytes of the node's own into its copy.
    pub fn write(&mut self, off: u32, bytes: &[u8])
        requires { off + length bytes.now ≤ length (side_of self.old).copy }
        ensures is { side_of self.new ≡ written (overwritten (side_of self.old).copy off bytes.now) (side_of self.old) }
        ensures len { length (side_of self.new).copy ≡ length (side_of self.old).copy }
    {
        let start = off as usize;
        self.copy[start..start + bytes.len()].copy_from_slice(bytes);
        self.changed = true;
    }

    /// Makes the copy zeros.
    pub fn clear(&mut self)
        ensures { side_of self.new ≡ written (replicate (length (side_of self.old).copy) 0) (side_of self.old) }
    {
        self.copy.fill(0);
        self.changed = true;
    }
}
