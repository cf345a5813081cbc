//! What calls answer lines of a script.

ghost use Rattle.std.specs.Prelude.{◌≡◌, ◌<◌, IfOk, Some, length, slice_get};
ghost use Rattle.hist_plain.specs.Plain.{Told};
ghost use Rattle.script_meaning.specs.Plan.{life_in, refused_as, reply_of, unmappable, untranslated};
ghost use Rattle.spr_client.specs.Calls.{refusal_of};
ghost use Rattle.spr_client.specs.Names.{IsAt};

use hist_plain::Answer;
use script_text::Reply;
use spr_volume::{CallErr, NameErr};
use std::alloc::{AllocError, Global};
use value_types::{Bytes, Path, Text};
use vmm_space::{SpaceErr, TranslateErr};

/// The answer of the file, as the answer to a line. The bytes that were read are in `out`.
pub fn reply_to(answer: Answer, out: Vec<u8>) -> Reply
    ensures { (t : Told) → t.answer ≡ answer → (answer ≡ Answer.Bytes → t.bytes ≡ out.items) → result ≡ reply_of t }
{
    match answer {
        Answer::Bytes => Reply::Bytes {
            bytes: Bytes::from_vec(out),
        },
        Answer::Done => Reply::Done,
        Answer::Life { life } => Reply::Life { life },
        Answer::Revoked { life } => Reply::Revoked { life },
    }
}

/// A refused call on a file, as the answer to a line.
pub fn refused(err: CallErr) -> Reply
    ensures { result ≡ refusal_of err }
{
    match err {
        CallErr::StoreFault { disk, count } => Reply::Store { disk, count },
        CallErr::TrailFull => Reply::TrailFull,
        CallErr::Memory => Reply::Memory,
    }
}

/// The parts of a path, for the answer to a line whose path is refused at one of them.
pub(crate) fn parts_of(alloc: Global, path: &Path) -> Result<Vec<Text>, AllocError>
    ensures { IfOk result (λ parts. parts.items ≡ path.now) }
{
    let from = path.as_slice();
    let mut parts = Vec::with_capacity(alloc, from.len())?;
    for part in from {
        parts.push_reserved(part.clone()?);
    }
    Ok(parts)
}

/// A part of a path.
fn part_at(parts: Vec<Text>, part: u32) -> Text
    requires { part < length parts.items }
    ensures { Some result ≡ slice_get parts.items part }
{
    let mut parts = parts;
    parts.swap_remove(part as usize)
}

/// A refused call on the names of a path with these parts, as the answer to a line.
pub(crate) fn refused_names(err: NameErr, parts: Vec<Text>) -> Reply
    requires { IsAt (length parts.items) err }
    ensures { result ≡ refused_as (Some parts.items) err }
{
    match err {
        NameErr::NotBound { part } => Reply::NotBound {
            part: part_at(parts, part),
        },
        NameErr::AlreadyBound { part } => Reply::AlreadyBound {
            part: part_at(parts, part),
        },
        NameErr::NotContext { part } => Reply::NotContext {
            part: part_at(parts, part),
        },
        NameErr::NotObject { part } => Reply::NotObject {
            part: part_at(parts, part),
        },
        NameErr::Memory => Reply::Memory,
    }
}

/// The life that an Open was answered.
pub fn life_in(answer: Answer) -> u32
    ensures { result ≡ life_in answer }
{
    match answer {
        Answer::Life { life } => life,
        Answer::Bytes | Answer::Done | Answer::Revoked { .. } => 0,
    }
}

/// Why a region is not mapped, as the answer to a line.
pub(crate) fn unmappable(why: SpaceErr) -> Reply
    ensures { result ≡ unmappable why }
{
    match why {
        SpaceErr::RegionExists => Reply::RegionExists,
        SpaceErr::Unaligned => Reply::Unaligned,
        SpaceErr::TooLong => Reply::TooLong,
        SpaceErr::Overlap => Reply::Overlap,
        SpaceErr::Memory => Reply::Memory,
    }
}

/// Why an address leads to no page, as the answer to a line.
pub(crate) fn untranslated(why: TranslateErr) -> Reply
    ensures { result ≡ untranslated why }
{
    match why {
        TranslateErr::Unmapped { address } => Reply::Unmapped { address },
        TranslateErr::CrossesPage => Reply::CrossesPage,
        TranslateErr::NotWritable => Reply::NotWritable,
    }
}
