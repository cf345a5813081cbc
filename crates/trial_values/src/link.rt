//! Calls over a link.

use crate::link_forms;
use crate::say::{bytes_of, count_of, say_hex, small_of};
use crate::wired::Wired;
use dfs_layer::{put_packet, read_packet};
use hist_plain::Answer;
use link_lossy::{EveryLink, Link, LinkErr, Served, SureLink};
use marshal_buf::Buf;
use std::alloc::{AllocError, Global};
use std::sync::Wait;
use trial_words::say;

/// The link of a case.
#[derive(Drop)]
pub enum LinkCase {
    /// There is none yet.
    None,
    /// One that loses nothing.
    Sure(Wired<SureLink>),
    /// One that loses each so-manieth packet.
    Every(Wired<EveryLink>),
}

/// Tells what a call answers, and what `out` has then.
fn say_answer(
    answered: &Result<Served, LinkErr>,
    out: &[u8],
    answer: &mut String,
) -> Result<(), AllocError> {
    match answered {
        Ok(served) => say_served(served, answer)?,
        Err(LinkErr::Link { count }) => writeln!(answer, "link {count}")?,
        Err(LinkErr::StoreFault { disk, count }) => writeln!(answer, "store {disk} {count}")?,
        Err(LinkErr::TrailFull) => say(answer, "trail full")?,
        Err(LinkErr::Memory) => say(answer, "memory")?,
    }
    answer.push_str("out ")?;
    say_hex(answer, out)
}

/// Tells what a call is answered, and at which place.
fn say_served(served: &Served, answer: &mut String) -> Result<(), AllocError> {
    let place = served.place;
    match served.answer {
        Answer::Bytes => writeln!(answer, "bytes at {place}"),
        Answer::Done => writeln!(answer, "done at {place}"),
        Answer::Life { life } => writeln!(answer, "life {life} at {place}"),
        Answer::Revoked { life } => writeln!(answer, "revoked {life} at {place}"),
    }
}

/// The packet of a frame, from the machine 1 to the machine 2.
fn packet_bytes(alloc: Global, frame: &str) -> Result<Buf, AllocError> {
    let frame = bytes_of(alloc, frame)?;
    let mut buf = Buf::new(alloc);
    if frame.len() <= 1_000 {
        put_packet(1, 2, &frame, &mut buf)?;
    }
    Ok(buf)
}

/// Makes a call of a life with a frame, and an `out` of so many bytes, each of them ee.
fn make<R: Wait, L: Link + Drop>(
    rt: &R,
    alloc: Global,
    wired: &mut Wired<L>,
    words: [&str; 3],
    answer: &mut String,
) -> Result<(), AllocError> {
    let [life, frame, len] = words;
    let mut out = Vec::new(alloc);
    out.resize(count_of(len) as usize % 1_000, 0xee)?;
    let bytes = packet_bytes(alloc, frame)?;
    match read_packet(bytes.as_slice()) {
        Ok(packet) => match wired.call(rt, alloc, small_of(life), packet, &mut out) {
            Some(answered) => say_answer(&answered, &out, answer),
            None => say(answer, "impossible"),
        },
        Err(_) => say(answer, "impossible"),
    }
}

/// Tells how many calls were served, and the link's count.
fn tell<L: Link + Drop>(wired: &Wired<L>, answer: &mut String) -> Result<(), AllocError> {
    let (served, count) = (wired.served(), wired.count());
    writeln!(answer, "{served} served, count {count}")
}

impl LinkCase {
    /// `link CALL ..`
    pub fn step<R: Wait>(
        &mut self,
        rt: &R,
        alloc: Global,
        words: &[&str],
        answer: &mut String,
    ) -> Result<(), AllocError> {
        match words {
            ["sure"] => *self = LinkCase::Sure(Wired::new(alloc, SureLink::new())?),
            ["every", n] => {
                *self = LinkCase::Every(Wired::new(alloc, EveryLink::new(small_of(n)))?);
            }
            ["call", life, frame, len] => {
                return self.call(rt, alloc, [life, frame, len], answer);
            }
            ["told"] => return self.told(answer),
            _ => return link_forms::step(alloc, words, answer),
        }
        Ok(())
    }

    /// Makes a call.
    fn call<R: Wait>(
        &mut self,
        rt: &R,
        alloc: Global,
        words: [&str; 3],
        answer: &mut String,
    ) -> Result<(), AllocError> {
        match self {
            LinkCase::None => say(answer, "no link"),
            LinkCase::Sure(wired) => make(rt, alloc, wired, words, answer),
            LinkCase::Every(wired) => make(rt, alloc, wired, words, answer),
        }
    }

    /// Tells what came of the calls so far.
    fn told(&self, answer: &mut String) -> Result<(), AllocError> {
        match self {
            LinkCase::None => say(answer, "no link"),
            LinkCase::Sure(wired) => tell(wired, answer),
            LinkCase::Every(wired) => tell(wired, answer),
        }
    }
}
