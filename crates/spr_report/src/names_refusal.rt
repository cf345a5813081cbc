//! How a call on the names is answered in words.

ghost use Rattle.std.specs.Prelude.{◌≡◌, IfOk};
ghost use Rattle.std.specs.Option.{option_copied};
ghost use Rattle.script_meaning.specs.Plan.{part_of};
ghost use Rattle.spr_report.specs.NamesAnswers.{reply_of};

use name_context::NameErr;
use script_text::Reply;
use std::alloc::{AllocError, Global};
use value_types::{Path, Text};

/// The text of a part of a path, and the empty text for a part that the path has not. An error is want of memory.
fn part_text(alloc: Global, path: Option<&Path>, part: u32) -> Result<Text, AllocError>
    ensures { IfOk result (λ text. text ≡ part_of (option_copied path.entry) part) }
{
    let Some(path) = path else {
        return Text::of(alloc, "");
    };
    match path.as_slice().get(part as usize) {
        Some(text) => text.clone(),
        None => Text::of(alloc, ""),
    }
}

/// The answer to a call on the names of this path: done, or why it was refused, with the text of the part. The root has no path.
/// An error is want of memory.
pub fn reply_of(
    alloc: Global,
    path: Option<&Path>,
    refused: Option<NameErr>,
) -> Result<Reply, AllocError>
    ensures { IfOk result (λ reply. reply ≡ reply_of (option_copied path.entry) refused) }
{
    match refused {
        None => Ok(Reply::Done),
        Some(NameErr::NotBound { part }) => {
            let part = part_text(alloc, path, part)?;
            Ok(Reply::NotBound { part })
        }
        Some(NameErr::AlreadyBound { part }) => {
            let part = part_text(alloc, path, part)?;
            Ok(Reply::AlreadyBound { part })
        }
        Some(NameErr::NotContext { part }) => {
            let part = part_text(alloc, path, part)?;
            Ok(Reply::NotContext { part })
        }
        Some(NameErr::NotObject { part }) => {
            let part = part_text(alloc, path, part)?;
            Ok(Reply::NotObject { part })
        }
        Some(NameErr::Memory) => Ok(Reply::Memory),
    }
}
