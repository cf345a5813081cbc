//! Links that lose calls and replies: a client's file calls go to another machine, are tried again if they or their replies are lost,
//! and are served once. That a subcontract may hide such failures from its caller is the Spring papers' rule. The forms, the numbers
//! and the tries are this project's own.
#![tactic(auto)]

mod calling;
mod carrier;
mod ends;
mod law;
mod link;
mod links;
mod reading;
mod refusal;
mod reply;
mod request;
mod returned;
mod serve;
mod why;
mod writing;

pub use calling::{TRIES, call};
pub use carrier::Carrier;
pub use ends::{CallerEnd, ServerEnd};
pub use law::{calls_in_turn, test_tells_the_number};
pub use link::{Link, Lost};
pub use links::{EveryLink, SureLink};
pub use reading::{read_reply, read_request};
pub use refusal::LinkErr;
pub use request::Request;
pub use returned::Returned;
pub use serve::{Serve, ServeErr, Served};
pub use why::{BadLink, LinkWhy};
pub use writing::{put_reply, put_request};

/// The most bytes that `out` of a call has.
pub const MAX_OUT: usize = 4_096;
/// The most bytes of a reply: the fields, and as many data.
pub const MAX_REPLY: usize = 4_129;
