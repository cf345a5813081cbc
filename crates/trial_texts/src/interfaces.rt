//! Interfaces: what their texts declare, whether it fits together, and the tables of operations.

ghost use Rattle.std.specs.Prelude.{IfOk};
ghost use Rattle.idl_reader.specs.Grammar.{AreDecls};
ghost use Rattle.idl_reader.specs.Tree.{idl_tree};

use crate::operations::operations;
use crate::say::{count_of, say_number};
use idl_check::{Checked, check};
use idl_reader::{Idl, IdlRefused, IdlWhy, print_idl, read_idl};
use idl_tables::{TableSet, print_tables, tables};
use std::alloc::{AllocError, Global};
use trial_words::{say, say_text};

/// Reads a text that is short enough to have places.
fn read(alloc: Global, text: &[u8]) -> Result<Idl, IdlRefused>
    ensures { IfOk result (λ idl. AreDecls (idl_tree idl)) }
{
    if text.len() > 1_000_000 {
        return Err(IdlRefused {
            place: 0,
            why: IdlWhy::Memory,
        });
    }
    read_idl(alloc, text)
}

/// `interfaces CALL ..` over the text of interfaces.
pub fn step(
    alloc: Global,
    words: &[&str],
    text: &[u8],
    answer: &mut String,
) -> Result<(), AllocError> {
    match words {
        ["prefixes"] => prefixes(alloc, text, answer),
        ["chain", count, ops, names @ ..] => {
            let text = chain(alloc, count_of(count), count_of(ops))?;
            over(alloc, "operation", names, &text, answer)
        }
        [call, rest @ ..] => over(alloc, call, rest, text, answer),
        [] => Ok(()),
    }
}

/// Does a call over interfaces that are read.
fn over(
    alloc: Global,
    call: &str,
    words: &[&str],
    text: &[u8],
    answer: &mut String,
) -> Result<(), AllocError> {
    let idl = match read(alloc, text) {
        Ok(idl) => idl,
        Err(refused) => {
            let (place, why) = (refused.place, refused.why.word());
            return writeln!(answer, "idl {place} {why}");
        }
    };
    if call == "read" {
        return say(answer, "interfaces");
    }
    if call == "print" {
        return say_text(alloc, answer, print_idl(alloc, &idl)?.as_slice());
    }
    match check(alloc, &idl) {
        Ok(checked) => over_checked(alloc, call, words, &checked, answer),
        Err(unfit) => {
            let (place, why) = (unfit.place, unfit.why.word());
            writeln!(answer, "idl {place} {why}")
        }
    }
}

/// Does a call over interfaces that fit together.
fn over_checked(
    alloc: Global,
    call: &str,
    words: &[&str],
    checked: &Checked<'_>,
    answer: &mut String,
) -> Result<(), AllocError> {
    if call == "check" {
        let count = checked.decls().len();
        writeln!(answer, "{count} declarations")?;
        return say_ranks(answer, checked.ranks());
    }
    let set = tables(alloc, checked)?;
    match call {
        "tables" => say_text(alloc, answer, print_tables(alloc, &set)?.as_slice()),
        "lists" => {
            let count = set.idl().decls.as_slice().len();
            writeln!(answer, "{count} declarations")?;
            say_ranks(answer, set.ranks())
        }
        "operation" => operation(&set, words, answer),
        "operations" => operations(&set, answer),
        _ => say(answer, "no such step"),
    }
}

/// Appends the ranks of declarations: one that is made of others has a greater rank than these.
fn say_ranks(answer: &mut String, ranks: &[usize]) -> Result<(), AllocError> {
    answer.push_str("ranks")?;
    for rank in ranks {
        write!(answer, " {rank}")?;
    }
    say(answer, "")
}

/// The numbers of operations, each told as `INTERFACE.OPERATION`.
fn operation(set: &TableSet<'_>, words: &[&str], answer: &mut String) -> Result<(), AllocError> {
    for word in words {
        match word.split_once('.') {
            Some((interface, name)) => {
                say_number(answer, set.op_number(interface, name).map(u64::from))?;
            }
            None => say(answer, "no such operation")?,
        }
    }
    Ok(())
}

/// A letter for each hexadecimal digit of a number.
fn put_digits(text: &mut Vec<u8>, number: u64) -> Result<(), AllocError> {
    text.push(b'a' + (number / 16 % 16) as u8)?;
    text.push(b'a' + (number % 16) as u8)?;
    Ok(())
}

/// Appends an interface of so many operations that inherits from the one before it.
fn put_interface(text: &mut Vec<u8>, number: u64, ops: u64) -> Result<(), AllocError> {
    text.extend_from_slice(b"interface ")?;
    put_digits(text, number)?;
    if number > 0 {
        text.extend_from_slice(b" : ")?;
        put_digits(text, number - 1)?;
    }
    text.extend_from_slice(b" {")?;
    for op in 0..ops {
        text.extend_from_slice(b"void ")?;
        put_digits(text, number)?;
        put_digits(text, op)?;
        text.extend_from_slice(b"();")?;
    }
    text.extend_from_slice(b"};")
}

/// Interfaces `aa`, `ab` .. of so many operations each: those of `ab` are `abaa`, `abab` ..
fn chain(alloc: Global, count: u64, ops: u64) -> Result<Vec<u8>, AllocError> {
    let mut text = Vec::new(alloc);
    for number in 0..count {
        put_interface(&mut text, number, ops)?;
    }
    Ok(text)
}

/// What is found of the prefixes of a text.
#[derive(Drop)]
struct Found {
    /// How many are read.
    read: u32,
    /// How many are refused for a token, at their end or at their last word.
    refused: u32,
}

/// Whether a place is the end of the bytes or the begin of their last word.
fn is_at_end(bytes: &[u8], place: usize) -> bool {
    place <= bytes.len()
        && bytes[place..].iter().all(|c| c.is_ascii_lowercase() || c.is_ascii_digit() || *c == b'_')
}

/// Whether a text is nothing, or ends with a declaration.
fn is_whole(text: &[u8]) -> bool {
    text.is_empty() || text.ends_with(b"};") || text.ends_with(b"};\n")
}

/// Reads a prefix: it is to be read if it is whole, and else refused where it ends.
fn prefix(
    alloc: Global,
    text: &[u8],
    found: &mut Found,
    answer: &mut String,
) -> Result<(), AllocError> {
    let end = text.len();
    match read(alloc, text) {
        Ok(_) if is_whole(text) => found.read = found.read.saturating_add(1),
        Ok(_) => writeln!(answer, "{end} bytes are read")?,
        Err(refused) => {
            let (place, why) = (refused.place, refused.why);
            if why == IdlWhy::Token && !is_whole(text) && is_at_end(text, place as usize) {
                found.refused = found.refused.saturating_add(1);
            } else {
                let why = why.word();
                writeln!(answer, "{end} bytes: idl {place} {why}")?;
            }
        }
    }
    Ok(())
}

/// Reads each prefix of a text but the whole, and tells those for which something else is found than the text lets expect.
fn prefixes(alloc: Global, text: &[u8], answer: &mut String) -> Result<(), AllocError> {
    let mut found = Found {
        read: 0,
        refused: 0,
    };
    for end in 0..text.len() {
        prefix(alloc, &text[..end], &mut found, answer)?;
    }
    let (read, refused) = (found.read, found.refused);
    writeln!(answer, "{read} end with a declaration and are read")?;
    writeln!(answer, "{refused} are refused where they end")
}
