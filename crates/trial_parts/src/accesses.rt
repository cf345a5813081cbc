//! Accesses in words: `read PAGE OFF LEN`, `write PAGE OFF HEX`, `clear PAGE` and `open`; and what they are answered.

ghost use Rattle.std.specs.Prelude.{◌≡◌};
ghost use Rattle.hist_plain.specs.Plain.{asked_by};

use hist_plain::{Answer, Bytes, Keep, Op};
use pager_channel::Ops;
use std::alloc::Global;
use trial_words::{Halt, bytes, number, put_hex, three, two};

/// The numbers of an interface text that declares the operations in this order, those of the length first.
pub fn operations() -> Ops {
    Ops::new([0, 1, 2, 3, 4], [0, 1, 2, 3, 4, 5], [2, 3, 4, 5, 6, 0, 1])
}

/// Which right a sync leaves.
pub fn keep_of(word: &str) -> Result<Keep, Halt> {
    match word {
        "write" => Ok(Keep::Write),
        "read" => Ok(Keep::Read),
        _ => Err(Halt::Unread),
    }
}

/// The access of a name and what follows.
pub fn access_named(alloc: Global, name: &str, rest: &[&str]) -> Result<Op, Halt> {
    match (name, rest) {
        ("open", []) => Ok(Op::Open),
        ("read", [page, off, len]) => {
            let (page, off, len) = three(page, off, len)?;
            Ok(Op::Read { page, off, len })
        }
        ("write", [page, off, word]) => {
            let (page, off) = two(page, off)?;
            let bytes = Bytes::from_vec(bytes(alloc, word)?);
            Ok(Op::Write { page, off, bytes })
        }
        ("clear", [page]) => Ok(Op::Clear {
            page: number(page)?,
        }),
        _ => Err(Halt::Unread),
    }
}

/// An access of some words: its name, and the page and the range that it is of.
pub fn access_of(alloc: Global, words: &[&str]) -> Result<Op, Halt> {
    match words {
        [name, rest @ ..] => access_named(alloc, name, rest),
        [] => Err(Halt::Unread),
    }
}

/// What the words before `life LIFE` are, and the life; it is 0 where none stands.
pub fn lived<'a, 'b>(words: &'a [&'b str]) -> Result<(&'a [&'b str], u32), Halt> {
    match words {
        [rest @ .., "life", life] => Ok((rest, number(life)?)),
        _ => Ok((words, 0)),
    }
}

/// How many bytes an access reads.
pub fn asked(op: &Op) -> usize
    ensures { result ≡ asked_by op.now }
{
    match op {
        Op::Read { len, .. } => *len as usize,
        Op::Write { .. } | Op::Clear { .. } | Op::Open => 0,
    }
}

/// Appends what an event was answered, where `out` has the bytes of a read.
pub fn put_given(
    alloc: Global,
    given: Answer,
    out: &[u8],
    answer: &mut String,
) -> Result<(), Halt> {
    match given {
        Answer::Bytes => put_hex(alloc, out, answer)?,
        Answer::Done => answer.push_str("done")?,
        Answer::Life { life } => write!(answer, "life {life}")?,
        Answer::Revoked { life } => write!(answer, "revoked, life {life}")?,
    }
    Ok(())
}

/// The same as a line.
pub fn put_answer(
    alloc: Global,
    given: Answer,
    out: &[u8],
    answer: &mut String,
) -> Result<(), Halt> {
    put_given(alloc, given, out, answer)?;
    Ok(answer.push('\n')?)
}
