//! The text.

ghost use Rattle.std.specs.Prelude.{◌≡◌, ◌<◌, ◌^◌, ◌∷◌, ◌++◌, [], IfOk, OnOk, length, map};
ghost use Rattle.std.specs.Fmt.{decimal};
ghost use Rattle.text_words.specs.Lines.{line_of};
ghost use Rattle.gen_summary.specs.Summary.{summary};

use crate::bytes::sum_of;
use crate::counts::{reads, writes};
use hist_plain::Plain;
use itoa::Buffer;
use script_text::{CallLine, Said};
use std::alloc::{AllocError, Global};
use text_words::put_line;

/// Appends a line of a word and a number.
fn put_count(out: &mut Vec<u8>, word: &[u8], count: u128) -> Result<(), AllocError>
    ensures { OnOk result (out.new.items ≡ out.old.items ++ line_of (word.now ∷ decimal count ∷ [])) }
{
    let mut buffer = Buffer::new();
    put_line(out, &[word, buffer.format(count).as_bytes()])
}

/// The lines of a generated run: how many calls its second phase has; how many reads and how many
/// writes of them were answered, by bytes or by `done`; and the sum of all bytes of all files at the
/// end. The rule is this project's own.
pub fn summary(
    alloc: Global,
    calls: &[CallLine],
    said: &[Vec<Said>],
    files: &[Plain],
) -> Result<Vec<u8>, AllocError>
    requires { length files.now < 2 ^ 32 }
    ensures { IfOk result (λ text. text.items ≡ summary calls.now (map (λ v. v.items) said.now) files.now) }
{
    let mut out = Vec::new(alloc);
    put_count(&mut out, b"calls", calls.len() as u128)?;
    put_count(&mut out, b"reads", reads(calls, said))?;
    put_count(&mut out, b"writes", writes(calls, said))?;
    put_count(&mut out, b"bytes", sum_of(files))?;
    Ok(out)
}
