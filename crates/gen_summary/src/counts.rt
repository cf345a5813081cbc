//! How many calls were answered.

ghost use Rattle.std.specs.Prelude.{◌≡◌, count_by, map};
ghost use Rattle.std.specs.Option.{option_copied};
ghost use Rattle.gen_summary.specs.Summary.{is_read, is_write, is_answered, first_of, line_numbered, answers, answered};

use script_text::{Call, CallLine, Reply, Said};

/// Whether a call reads; a load does.
fn is_read(call: &Call) -> bool
    ensures { result ≡ is_read call.now }
{
    matches!(call, Call::Read { .. } | Call::Load { .. })
}

/// Whether a call writes; a store does.
fn is_write(call: &Call) -> bool
    ensures { result ≡ is_write call.now }
{
    matches!(call, Call::Write { .. } | Call::Store { .. })
}

/// Whether a call was answered: by bytes, or by `done`.
fn is_answered(reply: &Reply) -> bool
    ensures { result ≡ is_answered reply.now }
{
    matches!(reply, Reply::Bytes { .. } | Reply::Done)
}

/// The number of the first line of a phase.
fn first_of(lines: &[CallLine]) -> u32
    ensures { result ≡ first_of lines.now }
{
    match lines {
        [] => 0,
        [line, ..] => line.line,
    }
}

/// The line of a number in a phase.
fn line_numbered(lines: &[CallLine], number: u32) -> Option<&CallLine>
    ensures { option_copied result ≡ line_numbered lines.now number }
{
    let first = first_of(lines);
    if number < first {
        return None;
    }
    lines.get((number - first) as usize)
}

/// Whether an answer is to a read of a phase.
fn answers_read(lines: &[CallLine], said: &Said) -> bool
    ensures { result ≡ answers is_read lines.now said.now }
{
    is_answered(&said.reply)
        && match line_numbered(lines, said.line) {
            Some(line) => is_read(&line.call),
            None => false,
        }
}

/// Whether an answer is to a write of a phase.
fn answers_write(lines: &[CallLine], said: &Said) -> bool
    ensures { result ≡ answers is_write lines.now said.now }
{
    is_answered(&said.reply)
        && match line_numbered(lines, said.line) {
            Some(line) => is_write(&line.call),
            None => false,
        }
}

/// How many reads of a phase a client was answered.
fn reads_of(lines: &[CallLine], said: &[Said]) -> usize
    ensures { result ≡ count_by (λ s. answers is_read lines.now s) said.now }
{
    said.iter().filter(|s| answers_read(lines, s)).count()
}

/// How many writes of a phase a client was answered.
fn writes_of(lines: &[CallLine], said: &[Said]) -> usize
    ensures { result ≡ count_by (λ s. answers is_write lines.now s) said.now }
{
    said.iter().filter(|s| answers_write(lines, s)).count()
}

/// How many reads of a phase were answered.
pub(crate) fn reads(lines: &[CallLine], said: &[Vec<Said>]) -> u128
    ensures { result ≡ answered is_read lines.now (map (λ v. v.items) said.now) }
{
    let mut total = 0;
    for one in said {
        total += reads_of(lines, one) as u128;
    }
    total
}

/// How many writes of a phase were answered.
pub(crate) fn writes(lines: &[CallLine], said: &[Vec<Said>]) -> u128
    ensures { result ≡ answered is_write lines.now (map (λ v. v.items) said.now) }
{
    let mut total = 0;
    for one in said {
        total += writes_of(lines, one) as u128;
    }
    total
}
