//! Writing the answer to a line.

ghost use Rattle.std.specs.Prelude.{◌≡◌, ◌++◌, ◌∷◌, [], OnOk, codes, slice_index_or};
ghost use Rattle.std.specs.List.{flat_map};
ghost use Rattle.std.specs.Fmt.{decimal};
ghost use Rattle.text_words.specs.Lines.{spaced};
ghost use Rattle.script_text.specs.Answer.{answer_words};

use crate::script::Reply;
use std::alloc::{AllocError, Global};
use text_words::{put_hex, put_spaced, put_spaced_number, put_word};
use value_types::Text;

/// Appends the answer to a `list`: each word with a space before it.
fn put_names(out: &mut Vec<u8>, names: &[Text]) -> Result<(), AllocError>
    ensures { OnOk result (out.new.items ≡ out.old.items ++ spaced (codes "names" ∷ names.now)) }
{
    put_word(out, b"names")?;
    for name in names {
        put_word(out, name.as_str().as_bytes())?;
    }
    Ok(())
}

/// Appends a word and a number, each with a space before it.
fn put_numbered(out: &mut Vec<u8>, word: &[u8], number: u64) -> Result<(), AllocError>
    ensures { OnOk result (out.new.items ≡ out.old.items ++ spaced (word.now ∷ decimal number ∷ [])) }
{
    put_word(out, word)?;
    put_spaced_number(out, number)
}

/// The name of the disk of the number.
fn disk_name(disks: &[Text], disk: u32) -> &[u8]
    ensures { result.now ≡ slice_index_or disks.now disk [] }
{
    match disks.get(disk as usize) {
        Some(name) => name.as_str().as_bytes(),
        None => b"",
    }
}

/// Appends the words of an answer, each with a space before it; no other call writes answers. The
/// disks' names are in the order of their numbers; a disk that they do not have is written as no
/// bytes.
pub fn put_reply(
    alloc: Global,
    out: &mut Vec<u8>,
    disks: &[Text],
    reply: &Reply,
) -> Result<(), AllocError>
    ensures { OnOk result (out.new.items ≡ out.old.items ++ spaced (answer_words disks.now reply.now)) }
{
    match reply {
        Reply::Done => put_spaced(out, &[b"done"]),
        Reply::Names { names } => put_names(out, names.as_slice()),
        Reply::Life { life } => put_numbered(out, b"life", u64::from(*life)),
        Reply::Bytes { bytes } => put_hex(alloc, out, bytes.as_slice()),
        Reply::NoObject => put_spaced(out, &[b"no", b"object"]),
        Reply::BadObject => put_spaced(out, &[b"bad", b"object"]),
        Reply::ObjectExists => put_spaced(out, &[b"object", b"exists"]),
        Reply::NotOnePage => put_spaced(out, &[b"not", b"one", b"page"]),
        Reply::NotBound { part } => {
            put_spaced(out, &[b"not", b"bound", part.as_str().as_bytes()])
        }
        Reply::AlreadyBound { part } => {
            put_spaced(out, &[b"already", b"bound", part.as_str().as_bytes()])
        }
        Reply::NotContext { part } => {
            put_spaced(out, &[b"not", b"context", part.as_str().as_bytes()])
        }
        Reply::NotObject { part } => {
            put_spaced(out, &[b"not", b"object", part.as_str().as_bytes()])
        }
        Reply::Revoked { life } => put_numbered(out, b"revoked", u64::from(*life)),
        Reply::NoManager => put_spaced(out, &[b"no", b"manager"]),
        Reply::RegionExists => put_spaced(out, &[b"region", b"exists"]),
        Reply::Unaligned => put_spaced(out, &[b"unaligned"]),
        Reply::TooLong => put_spaced(out, &[b"too", b"long"]),
        Reply::Overlap => put_spaced(out, &[b"overlap"]),
        Reply::NoRegion => put_spaced(out, &[b"no", b"region"]),
        Reply::Unmapped { address } => put_numbered(out, b"unmapped", *address),
        Reply::CrossesPage => put_spaced(out, &[b"crosses", b"page"]),
        Reply::NotWritable => put_spaced(out, &[b"not", b"writable"]),
        Reply::Store { disk, count } => {
            put_word(out, b"store")?;
            put_numbered(out, disk_name(disks, *disk), *count)
        }
        Reply::Link { count } => put_numbered(out, b"link", *count),
        Reply::TrailFull => put_spaced(out, &[b"trail", b"full"]),
        Reply::Memory => put_spaced(out, &[b"memory"]),
    }
}
