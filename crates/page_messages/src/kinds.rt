//! The kinds of messages: the table of frames.

ghost use Rattle.std.specs.Prelude.{◌≡◌, ◌<◌, ◌≤◌};
ghost use Rattle.page_messages.specs.Kinds.{access_of, right_of, is_with_or_without, is_granted, page_asked, question_of, order_of, answer_of, reply_of, asked_in, called_in, answer_in, reply_in};

use pager_channel::{DATA, Frame, Operation, REPLY, TO_CACHE};
use tower_core::Right;

/// What a node asks of its pager.
#[derive(Clone, Copy, Debug, PartialEq, Eq)]
pub enum Asked {
    /// A page for reading.
    PageInRead,
    /// A page for writing.
    PageInWrite,
    /// To take a page back; the node then has nothing.
    PageOut,
    /// To take a page's bytes; the node keeps it for reading.
    WriteOut,
    /// To take a page's bytes; the node keeps its right.
    Sync,
    /// To end the channel.
    Done,
}

/// What a pager orders a child to do.
#[derive(Clone, Copy, Debug, PartialEq, Eq)]
pub enum Called {
    /// To give a page's bytes back, and then have nothing.
    FlushBack,
    /// To give a page's bytes back, and keep it for reading.
    DenyWrites,
    /// To give a page's bytes back, and keep its right.
    WriteBack,
    /// To have nothing of a page that it reads.
    DeleteRange,
    /// To end the channel.
    Destroy,
}

/// What a pager answers.
#[derive(Clone, Copy, Debug, PartialEq, Eq)]
pub enum Answer {
    /// A page and its bytes, for reading or for writing.
    Grant,
    /// The right to write a page that the node reads.
    Upgrade,
    /// The page was taken back.
    PageOut,
    /// The bytes were taken; the node keeps the page for reading.
    WriteOut,
    /// The bytes were taken; the node keeps its right.
    Sync,
    /// The channel has ended.
    Done,
}

/// The right of a head's access byte.
pub(crate) fn right_of(access: u8) -> Right
    ensures { result ≡ right_of access }
{
    match access {
        0 => Right::Nothing,
        1 => Right::Read,
        _ => Right::Write,
    }
}

/// A right as a head has it.
pub(crate) fn access_of(right: Right) -> u8
    ensures value { result ≡ access_of right }
    ensures most { result ≤ 2 }
{
    match right {
        Right::Nothing => 0,
        Right::Read => 1,
        Right::Write => 2,
    }
}

/// Whether the flags are these, with data or without.
fn is_with_or_without(base: u8, flags: u8) -> bool
    requires { base < 8 }
    ensures { result ≡ is_with_or_without base flags }
{
    flags == base || flags == base + DATA
}

/// Whether a page is granted, for reading or for writing.
fn is_granted(access: u8) -> bool
    ensures { result ≡ is_granted access }
{
    access == 1 || access == 2
}

/// The question for a page.
fn page_asked(access: u8) -> Option<Asked>
    ensures { result ≡ page_asked access }
{
    if access == 1 {
        Some(Asked::PageInRead)
    } else {
        (access == 2).then_some(Asked::PageInWrite)
    }
}

/// The question that a frame is, if it is one.
fn question_of(which: Operation, flags: u8, access: u8) -> Option<Asked>
    ensures { result ≡ question_of which flags access }
{
    match which {
        Operation::PageIn => { if flags == 0 { page_asked(access) } else { None } }
        Operation::PageOut => {
            (is_with_or_without(0, flags) && access == 0).then_some(Asked::PageOut)
        }
        Operation::WriteOut => {
            (is_with_or_without(0, flags) && access == 1).then_some(Asked::WriteOut)
        }
        Operation::Sync => (is_with_or_without(0, flags) && access == 2).then_some(Asked::Sync),
        Operation::Done => (flags == 0 && access == 0).then_some(Asked::Done),
        _ => None,
    }
}

/// The order that a frame is, if it is one.
fn order_of(which: Operation, flags: u8, access: u8) -> Option<Called>
    ensures { result ≡ order_of which flags access }
{
    if flags != TO_CACHE {
        return None;
    }
    match which {
        Operation::FlushBack => (access == 0).then_some(Called::FlushBack),
        Operation::DenyWrites => (access == 1).then_some(Called::DenyWrites),
        Operation::WriteBack => (access == 2).then_some(Called::WriteBack),
        Operation::DeleteRange => (access == 0).then_some(Called::DeleteRange),
        Operation::Destroy => (access == 0).then_some(Called::Destroy),
        _ => None,
    }
}

/// The answer to a question that a frame is, if it is one.
fn answer_of(which: Operation, flags: u8, access: u8) -> Option<Answer>
    ensures { result ≡ answer_of which flags access }
{
    match which {
        Operation::PageIn => {
            if flags == REPLY + DATA {
                is_granted(access).then_some(Answer::Grant)
            } else {
                (flags == REPLY && access == 2).then_some(Answer::Upgrade)
            }
        }
        Operation::ZeroFill => (flags == TO_CACHE && is_granted(access)).then_some(Answer::Grant),
        Operation::PageOut => (flags == REPLY && access == 0).then_some(Answer::PageOut),
        Operation::WriteOut => (flags == REPLY && access == 1).then_some(Answer::WriteOut),
        Operation::Sync => (flags == REPLY && access == 2).then_some(Answer::Sync),
        Operation::Done => (flags == REPLY && access == 0).then_some(Answer::Done),
        _ => None,
    }
}

/// The answer to an order that a frame is, if it is one.
fn reply_of(which: Operation, flags: u8, access: u8) -> Option<Called>
    ensures { result ≡ reply_of which flags access }
{
    let bare = flags == TO_CACHE + REPLY;
    let pushed = is_with_or_without(TO_CACHE + REPLY, flags);
    match which {
        Operation::FlushBack => (pushed && access == 0).then_some(Called::FlushBack),
        Operation::DenyWrites => (pushed && access == 1).then_some(Called::DenyWrites),
        Operation::WriteBack => (pushed && access == 2).then_some(Called::WriteBack),
        Operation::DeleteRange => (bare && access == 0).then_some(Called::DeleteRange),
        Operation::Destroy => (bare && access == 0).then_some(Called::Destroy),
        _ => None,
    }
}

/// The question that a frame is, if it is one.
pub fn asked_in(frame: &Frame<'_>) -> Option<Asked>
    ensures { result ≡ asked_in frame.now }
{
    let head = frame.head();
    question_of(frame.which(), head.flags, head.access)
}

/// The order that a frame is, if it is one.
pub fn called_in(frame: &Frame<'_>) -> Option<Called>
    ensures { result ≡ called_in frame.now }
{
    let head = frame.head();
    order_of(frame.which(), head.flags, head.access)
}

/// The answer to a question that a frame is, if it is one.
pub fn answer_in(frame: &Frame<'_>) -> Option<Answer>
    ensures { result ≡ answer_in frame.now }
{
    let head = frame.head();
    answer_of(frame.which(), head.flags, head.access)
}

/// The answer to an order that a frame is, if it is one.
pub fn reply_in(frame: &Frame<'_>) -> Option<Called>
    ensures { result ≡ reply_in frame.now }
{
    let head = frame.head();
    reply_of(frame.which(), head.flags, head.access)
}
