//! A frame that was read.

ghost use Rattle.std.specs.Prelude.{◌≡◌, length, MatchOption, true, false};
ghost use Rattle.pager_channel.specs.Flags.{has_data};
ghost use Rattle.pager_channel.specs.Size.{data_size};

use crate::{Head, Operation};
use std::marker::Model;

/// A frame that was read. Its data are lent by the bytes that it was read from. Only [`crate::read_frame`] makes one.
#[derive(Debug, Drop)]
pub struct Frame<'a> {
    head: Head,
    which: Operation,
    body: &'a [u8],
}

impl<'a> Model for Frame<'a> {
    ghost use Rattle.std.specs.Prelude.{◌≡◌, length};
    ghost use Rattle.pager_channel.specs.Size.{data_size};
    ghost use Rattle.pager_channel.specs.Seen.{FrameSeen};

    ghost Value = { FrameSeen };

    ghost view = { λ f. record { head = f.head; which = f.which; body = f.body.now } };

    ghost invariant = { λ f. length f.body.now ≡ data_size f.head };
}

impl<'a> Frame<'a> {
    pub(crate) fn new(head: Head, which: Operation, body: &'a [u8]) -> Frame<'a>
        requires { length body.now ≡ data_size head }
        ensures { result ≡ record { head = head; which = which; body = body.now } }
    {
        Frame { head, which, body }
    }

    /// What stands at its front. Its data have as many bytes as this says.
    pub fn head(&self) -> Head
        ensures head { result ≡ self.now.head }
        ensures sized { length self.now.body ≡ data_size self.now.head }
    {
        self.head
    }

    /// Its operation.
    pub fn which(&self) -> Operation
        ensures { result ≡ self.now.which }
    {
        self.which
    }

    /// Its data, which are empty where it has none.
    pub fn body(&self) -> &'a [u8]
        ensures value { result.now ≡ self.now.body }
        ensures sized { length result.now ≡ data_size self.now.head }
    {
        self.body
    }

    /// Its data, if it has any.
    pub fn data(&self) -> Option<&'a [u8]>
        ensures { MatchOption result (has_data self.now.head.flags ≡ false)
            (λ lent. (has_data self.now.head.flags ≡ true) × (lent.now ≡ self.now.body) × (length lent.now ≡ self.now.head.size)) }
    {
        if self.head.has_data() {
            Some(self.body)
        } else {
            None
        }
    }
}
