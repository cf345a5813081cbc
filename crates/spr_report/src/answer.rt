//! The answers to a script's lines.

ghost use Rattle.std.specs.Prelude.{◌≡◌, ◌++◌, ◌∷◌, [], OnOk, codes};
ghost use Rattle.text_words.specs.Lines.{line_of, spaced};
ghost use Rattle.script_text.specs.Answer.{answer_words};
ghost use Rattle.spr_report.specs.Report.{said_line, client_part, closing_line};

use script_text::{Reply, Said, put_reply};
use std::alloc::{AllocError, Global};
use text_words::{put, put_line, put_number, put_word};
use value_types::Text;

/// Appends the line of an answer.
fn put_said(alloc: Global, out: &mut Vec<u8>, disks: &[Text], said: &Said) -> Result<(), AllocError>
    ensures { OnOk result (out.new.items ≡ out.old.items ++ said_line disks.now said.now) }
{
    put_number(out, u64::from(said.line))?;
    put_reply(alloc, out, disks, &said.reply)?;
    put(out, b"\n")
}

/// Appends a client's part: its name, and the answer to each of its lines.
pub(crate) fn put_client(
    alloc: Global,
    out: &mut Vec<u8>,
    disks: &[Text],
    name: &str,
    said: &[Said],
) -> Result<(), AllocError>
    ensures { OnOk result (out.new.items ≡ out.old.items ++ client_part disks.now name.now said.now) }
{
    put_line(out, &[b"client", name.as_bytes()])?;
    for one in said {
        put_said(alloc, out, disks, one)?;
    }
    Ok(())
}

/// Appends the line of a closing sync that failed with this answer.
fn put_failed(
    alloc: Global,
    out: &mut Vec<u8>,
    disks: &[Text],
    file: &str,
    reply: &Reply,
) -> Result<(), AllocError>
    ensures { OnOk result (out.new.items ≡ out.old.items ++ line_of (codes "closing" ∷ file.now ∷ answer_words disks.now reply.now)) }
{
    put(out, b"closing")?;
    put_word(out, file.as_bytes())?;
    put_reply(alloc, out, disks, reply)?;
    put(out, b"\n")
}

/// Appends the line of a closing sync that failed, and nothing for one that is done.
pub(crate) fn put_closing(
    alloc: Global,
    out: &mut Vec<u8>,
    disks: &[Text],
    file: &str,
    reply: &Reply,
) -> Result<(), AllocError>
    ensures { OnOk result (out.new.items ≡ out.old.items ++ closing_line disks.now file.now reply.now) }
{
    match reply {
        Reply::Done => Ok(()),
        _ => put_failed(alloc, out, disks, file, reply),
    }
}
