//! A message that a node was sent.

ghost use Rattle.std.specs.Prelude.{◌≡◌};
ghost use Rattle.page_messages.specs.Message.{first_in, second_in};

use crate::kinds::{Answer, Asked, Called, answer_in, asked_in, called_in, reply_in};
use pager_channel::Frame;

/// A message that a node was sent.
#[derive(Clone, Copy, Debug, PartialEq, Eq)]
pub enum Message {
    /// A child asks.
    Asks {
        /// The child.
        child: u32,
        /// Whether it gives data back.
        full: bool,
        /// What it asks.
        what: Asked,
    },
    /// The pager orders.
    Orders {
        /// What it orders.
        what: Called,
    },
    /// The pager answers a question.
    Answers {
        /// What it answers.
        what: Answer,
    },
    /// A child answers an order.
    Replies {
        /// The child.
        child: u32,
        /// What it was ordered.
        what: Called,
    },
}

/// The message of a first frame, if it is one: a question of the child, or else an order of the pager.
pub fn first_in(child: Option<u32>, frame: &Frame<'_>) -> Option<Message>
    ensures { result ≡ first_in child frame.now }
{
    match child {
        Some(child) => {
            let what = asked_in(frame)?;
            let full = frame.head().has_data();
            Some(Message::Asks { child, full, what })
        }
        None => {
            let what = called_in(frame)?;
            Some(Message::Orders { what })
        }
    }
}

/// The message of a second frame, if it is one: the child's answer to an order, or else the pager's to a question.
pub fn second_in(child: Option<u32>, frame: &Frame<'_>) -> Option<Message>
    ensures { result ≡ second_in child frame.now }
{
    match child {
        Some(child) => {
            let what = reply_in(frame)?;
            Some(Message::Replies { child, what })
        }
        None => {
            let what = answer_in(frame)?;
            Some(Message::Answers { what })
        }
    }
}
