//! The messages about a file's pages that go over a pager-cache channel: what they ask and answer, what one node's own
//! table decides of them, and one page of such a table.
//!
//! The names of the messages, and that there is one writer or many readers of a page, are the Spring papers' rule.
//! The table of frames is this project's own.
#![tactic(auto)]

mod kids;
mod kinds;
mod law;
mod letter;
mod masks;
mod message;
mod paged;
mod refusal;
mod slot;

pub use kids::Kids;
pub use kinds::{Answer, Asked, Called, answer_in, asked_in, called_in, reply_in};
pub use law::{
    sent_brings_its_bytes, sent_has_its_right, sent_is_about_its_page, sent_is_what_was_meant,
};
pub use letter::Letter;
pub use masks::{has, set_of};
pub use message::{Message, first_in, second_in};
pub use paged::{About, PagedFile};
pub use refusal::NodeErr;
pub use slot::Slot;
