//! What is written to ask, to order and to answer.

ghost use Rattle.std.specs.Prelude.{◌≡◌, ℕ, length};
ghost use Rattle.page_messages.specs.Rights.{IsForPage};
ghost use Rattle.page_messages.specs.Letters.{IsLetter, bare, is_zeros, grant, write_grant, answer, order, is_paged};

use crate::kinds::{Asked, Called};
use pager_channel::{DATA, Operation, REPLY, TO_CACHE};
use std::marker::Model;
use tower_core::Right;

/// What is written about a page: an operation, the right that the cache has after the message, the flags and the data.
#[derive(Debug, Drop)]
pub struct Letter<'a> {
    which: Operation,
    right: Right,
    flags: u8,
    body: &'a [u8],
}

impl<'a> Model for Letter<'a> {
    ghost use Rattle.page_messages.specs.Letters.{LetterSeen};

    ghost Value = { LetterSeen };

    ghost view = { λ l. record { which = l.which; right = l.right; flags = l.flags; body = l.body.now } };
}

/// Whether all bytes are zeros.
fn is_zeros(bytes: &[u8]) -> bool
    ensures { result ≡ is_zeros bytes.now }
{
    bytes.iter().all(|byte| *byte == 0)
}

impl<'a> Letter<'a> {
    /// One with these data.
    pub(crate) fn new(which: Operation, right: Right, flags: u8, body: &'a [u8]) -> Letter<'a>
        ensures { result ≡ record { which = which; right = right; flags = flags; body = body.now } }
    {
        Letter {
            which,
            right,
            flags,
            body,
        }
    }

    /// One without data.
    pub(crate) fn bare(which: Operation, right: Right, flags: u8) -> Letter<'a>
        ensures { result ≡ bare which right flags }
    {
        Letter::new(which, right, flags, &[])
    }

    /// Its operation.
    pub fn which(&self) -> Operation
        ensures { result ≡ self.now.which }
    {
        self.which
    }

    /// Whether it is about a page; the end of a channel is about none.
    pub(crate) fn is_paged(&self) -> bool
        ensures { result ≡ is_paged self.now.which }
    {
        !matches!(self.which, Operation::Done | Operation::Destroy)
    }

    /// The right that the cache has after it.
    pub fn right(&self) -> Right
        ensures { result ≡ self.now.right }
    {
        self.right
    }

    /// Its flags.
    pub fn flags(&self) -> u8
        ensures { result ≡ self.now.flags }
    {
        self.flags
    }

    /// Its data.
    pub fn body(&self) -> &'a [u8]
        ensures { result.now ≡ self.now.body }
    {
        self.body
    }

    /// A grant of a page with these bytes. A page of zeros goes without data.
    fn grant(right: Right, page: &'a [u8]) -> Letter<'a>
        ensures { result ≡ grant right page.now }
    {
        if is_zeros(page) {
            Letter::bare(Operation::ZeroFill, right, TO_CACHE)
        } else {
            Letter::new(Operation::PageIn, right, REPLY + DATA, page)
        }
    }

    /// A grant for writing, to a node that has this right.
    fn write_grant(right: Right, page: &'a [u8]) -> Letter<'a>
        ensures { result ≡ write_grant right page.now }
    {
        match right {
            Right::Nothing => Letter::grant(Right::Write, page),
            Right::Read | Right::Write => Letter::bare(Operation::PageIn, Right::Write, REPLY),
        }
    }

    /// What a node that has this right is answered, where the page has these bytes.
    #[tactic(auto, using(crate::proofs::LetterLaws::answer_letter))]
    pub fn answer(right: Right, page: &'a [u8], what: Asked) -> Letter<'a>
        ensures is { result ≡ answer right page.now what }
        ensures letter { (page_size : ℕ) → (IsForPage what → length page.now ≡ page_size) → IsLetter page_size (answer right page.now what) }
    {
        match what {
            Asked::PageInRead => Letter::grant(Right::Read, page),
            Asked::PageInWrite => Letter::write_grant(right, page),
            Asked::PageOut => Letter::bare(Operation::PageOut, Right::Nothing, REPLY),
            Asked::WriteOut => Letter::bare(Operation::WriteOut, Right::Read, REPLY),
            Asked::Sync => Letter::bare(Operation::Sync, Right::Write, REPLY),
            Asked::Done => Letter::bare(Operation::Done, Right::Nothing, REPLY),
        }
    }

    /// What is ordered.
    #[tactic(auto, using(crate::proofs::LetterLaws::order_letter))]
    pub fn order(what: Called) -> Letter<'a>
        ensures is { result ≡ order what }
        ensures letter { (page_size : ℕ) → IsLetter page_size (order what) }
    {
        match what {
            Called::FlushBack => Letter::bare(Operation::FlushBack, Right::Nothing, TO_CACHE),
            Called::DenyWrites => Letter::bare(Operation::DenyWrites, Right::Read, TO_CACHE),
            Called::WriteBack => Letter::bare(Operation::WriteBack, Right::Write, TO_CACHE),
            Called::DeleteRange => Letter::bare(Operation::DeleteRange, Right::Nothing, TO_CACHE),
            Called::Destroy => Letter::bare(Operation::Destroy, Right::Nothing, TO_CACHE),
        }
    }
}
