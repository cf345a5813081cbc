//! Scripts: their texts, and the answers to their lines.

use crate::say::{count_of, say_again};
use script_text::{Call, CallLine, Reply, Script, parse_script, print_script, put_reply};
use std::alloc::{AllocError, Global};
use trial_words::{say, say_text};
use value_types::{Bytes, Items, Text};

/// `script CALL ..` over the text of a script.
pub fn step(
    alloc: Global,
    words: &[&str],
    text: &[u8],
    answer: &mut String,
) -> Result<(), AllocError> {
    let script = match parse_script(alloc, text) {
        Ok(script) => script,
        Err(refused) => {
            let (line, why) = (refused.line, refused.why.word());
            return writeln!(answer, "script {line} {why}");
        }
    };
    match words {
        ["read"] => say(answer, "script"),
        ["print"] => print(alloc, &script, text, answer),
        ["phases"] => phases(&script, answer),
        ["line", number] => line(&script, count_of(number), answer),
        _ => say(answer, "no such step"),
    }
}

/// Whether the text of a script is printed again.
fn print(
    alloc: Global,
    script: &Script,
    text: &[u8],
    answer: &mut String,
) -> Result<(), AllocError> {
    let printed = print_script(alloc, script)?;
    say_again(alloc, answer, text, printed.as_slice())
}

/// The number of clients, and of lines of each phase.
fn phases(script: &Script, answer: &mut String) -> Result<(), AllocError> {
    let count = script.clients.as_slice().len();
    writeln!(answer, "{count} clients")?;
    for phase in script.phases.as_slice() {
        let count = phase.as_slice().len();
        writeln!(answer, "a phase of {count} lines")?;
    }
    Ok(())
}

/// The line of a phase that has the number.
fn find_in(lines: &[CallLine], number: u64) -> Option<&CallLine> {
    lines.iter().find(|line| u64::from(line.line) == number)
}

/// Who calls at the line of the number, and for what.
fn line(script: &Script, number: u64, answer: &mut String) -> Result<(), AllocError> {
    for phase in script.phases.as_slice() {
        if let Some(line) = find_in(phase.as_slice(), number) {
            let client = line.client;
            write!(answer, "client {client} ")?;
            return say_call(answer, &line.call);
        }
    }
    say(answer, "none")
}

/// Appends a call; the calls but `sync` are told by no name.
fn say_call(answer: &mut String, call: &Call) -> Result<(), AllocError> {
    match call {
        Call::Sync { object } => {
            let object = object.as_str();
            writeln!(answer, "sync {object}")
        }
        _ => say(answer, "another call"),
    }
}

/// `answer REPLY ..`: how a reply is written where the disks are `d` and `e_1`.
pub fn answer_step(alloc: Global, words: &[&str], answer: &mut String) -> Result<(), AllocError> {
    let Some(reply) = reply_of(alloc, words)? else {
        return say(answer, "no such reply");
    };
    let disks = [Text::of(alloc, "d")?, Text::of(alloc, "e_1")?];
    let mut out = Vec::new(alloc);
    put_reply(alloc, &mut out, &disks, &reply)?;
    say_text(alloc, answer, &out)?;
    say(answer, "")
}

/// The reply that words name.
fn reply_of(alloc: Global, words: &[&str]) -> Result<Option<Reply>, AllocError> {
    match words {
        [name] => match plain_reply(name) {
            Some(reply) => Ok(Some(reply)),
            None => list_reply(alloc, words),
        },
        [name, number] => match numbered_reply(name, count_of(number)) {
            Some(reply) => Ok(Some(reply)),
            None => named_reply(alloc, words),
        },
        _ => named_reply(alloc, words),
    }
}

/// A reply that is its name alone.
fn plain_reply(name: &str) -> Option<Reply> {
    match name {
        "Done" => Some(Reply::Done),
        "NoObject" => Some(Reply::NoObject),
        "BadObject" => Some(Reply::BadObject),
        "ObjectExists" => Some(Reply::ObjectExists),
        "NotOnePage" => Some(Reply::NotOnePage),
        "TrailFull" => Some(Reply::TrailFull),
        "Memory" => Some(Reply::Memory),
        "NoManager" => Some(Reply::NoManager),
        "RegionExists" => Some(Reply::RegionExists),
        "Unaligned" => Some(Reply::Unaligned),
        "TooLong" => Some(Reply::TooLong),
        "Overlap" => Some(Reply::Overlap),
        "NoRegion" => Some(Reply::NoRegion),
        "CrossesPage" => Some(Reply::CrossesPage),
        "NotWritable" => Some(Reply::NotWritable),
        _ => None,
    }
}

/// A number of 32 bits.
fn small(number: u64) -> u32 {
    match u32::try_from(number) {
        Ok(small) => small,
        Err(_) => 0,
    }
}

/// A reply of a name and a number.
fn numbered_reply(name: &str, number: u64) -> Option<Reply> {
    match name {
        "Life" => Some(Reply::Life {
            life: small(number),
        }),
        "Revoked" => Some(Reply::Revoked {
            life: small(number),
        }),
        "Unmapped" => Some(Reply::Unmapped { address: number }),
        "Link" => Some(Reply::Link { count: number }),
        _ => None,
    }
}

/// A reply of a name and a part of a path, a disk and a count, or of a list.
fn named_reply(alloc: Global, words: &[&str]) -> Result<Option<Reply>, AllocError> {
    let reply = match words {
        ["NotBound", part] => Reply::NotBound {
            part: Text::of(alloc, part)?,
        },
        ["AlreadyBound", part] => Reply::AlreadyBound {
            part: Text::of(alloc, part)?,
        },
        ["NotContext", part] => Reply::NotContext {
            part: Text::of(alloc, part)?,
        },
        ["NotObject", part] => Reply::NotObject {
            part: Text::of(alloc, part)?,
        },
        ["Store", disk, count] => Reply::Store {
            disk: small(count_of(disk)),
            count: count_of(count),
        },
        _ => return list_reply(alloc, words),
    };
    Ok(Some(reply))
}

/// A reply of names, or of bytes, which are told as decimal numbers.
fn list_reply(alloc: Global, words: &[&str]) -> Result<Option<Reply>, AllocError> {
    match words {
        ["Names", rest @ ..] => Ok(Some(names(alloc, rest)?)),
        ["Bytes", rest @ ..] => Ok(Some(bytes(alloc, rest)?)),
        _ => Ok(None),
    }
}

/// The reply of these names.
fn names(alloc: Global, words: &[&str]) -> Result<Reply, AllocError> {
    let mut names = Items::new(alloc);
    for word in words {
        names.push(Text::of(alloc, word)?)?;
    }
    Ok(Reply::Names { names })
}

/// The reply of these bytes.
fn bytes(alloc: Global, words: &[&str]) -> Result<Reply, AllocError> {
    let mut bytes = Vec::new(alloc);
    for word in words {
        bytes.push((count_of(word) % 256) as u8)?;
    }
    Ok(Reply::Bytes {
        bytes: Bytes::from_vec(bytes),
    })
}
