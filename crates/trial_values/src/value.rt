//! Values of the types of interfaces, and their spelling.

ghost use Rattle.std.specs.Prelude.{IfOk};
ghost use Rattle.idl_reader.specs.Grammar.{AreDecls};
ghost use Rattle.idl_reader.specs.Tree.{idl_tree};

use crate::built::{type_of, value_of};
use crate::say::{byte_of, bytes_of, count_of, say_again, say_hex};
use idl_check::check;
use idl_reader::{Idl, IdlRefused, IdlType, IdlWhy, read_idl};
use idl_tables::{TableSet, tables};
use marshal_buf::Buf;
use marshal_value::{BadValue, Value, ValueWhy, declares, fits, get_value, is_value_of, put_value};
use std::alloc::{AllocError, Global};
use trial_words::{say, say_whether};

/// The interfaces of a case, and bytes that may be a value's.
#[derive(Drop)]
pub struct Values {
    text: Vec<u8>,
    bytes: Vec<u8>,
}

/// Reads a text that is short enough to have places.
fn read_text(alloc: Global, text: &[u8]) -> Result<Idl, IdlRefused>
    ensures { IfOk result (λ idl. AreDecls (idl_tree idl)) }
{
    if text.len() > 65_536 {
        return Err(IdlRefused {
            place: 0,
            why: IdlWhy::Memory,
        });
    }
    read_idl(alloc, text)
}

impl Values {
    /// No interfaces and no bytes.
    pub fn new(alloc: Global) -> Self {
        Values {
            text: Vec::new(alloc),
            bytes: Vec::new(alloc),
        }
    }

    /// `value CALL ..`
    pub fn step(
        &mut self,
        alloc: Global,
        words: &[&str],
        body: &[u8],
        answer: &mut String,
    ) -> Result<(), AllocError> {
        match words {
            ["interfaces"] => {
                self.text = Vec::from_slice(alloc, body)?;
                return Ok(());
            }
            ["bytes", word] => {
                self.bytes = bytes_of(alloc, word)?;
                return Ok(());
            }
            _ => {}
        }
        let Ok(idl) = read_text(alloc, &self.text) else {
            return say(answer, "no interfaces");
        };
        let Ok(checked) = check(alloc, &idl) else {
            return say(answer, "no fitting interfaces");
        };
        let set = tables(alloc, &checked)?;
        self.over(alloc, &set, words, answer)
    }

    /// Does a call over the tables of the interfaces.
    fn over(
        &self,
        alloc: Global,
        set: &TableSet<'_>,
        words: &[&str],
        answer: &mut String,
    ) -> Result<(), AllocError> {
        let [call, ty, rest @ ..] = words else {
            return say(answer, "no such step");
        };
        let ty = type_of(alloc, ty)?;
        match (*call, rest) {
            ("declares", []) => say_whether(answer, declares(set, &ty)),
            ("is", words) => match value_of(alloc, words)? {
                Some(value) => say_whether(answer, is_value_of(set, &ty, &value)),
                None => say(answer, "no value"),
            },
            ("put", words) => match value_of(alloc, words)? {
                Some(value) => put(alloc, set, &ty, &value, answer),
                None => say(answer, "no value"),
            },
            ("read", []) => read(alloc, set, &ty, &self.bytes, answer),
            ("change", [place, byte]) => {
                let mut bytes = Vec::from_slice(alloc, &self.bytes)?;
                if let Some(changed) = bytes.get_mut(count_of(place) as usize) {
                    *changed = byte_of(byte);
                }
                read(alloc, set, &ty, &bytes, answer)
            }
            ("cut", []) => cut(alloc, set, &ty, &self.bytes, answer),
            _ => say(answer, "no such step"),
        }
    }
}

/// A buffer of the spelling of a value of a type, if it is one.
fn spelled(
    alloc: Global,
    set: &TableSet<'_>,
    ty: &IdlType,
    value: &Value,
) -> Result<Option<Buf>, AllocError> {
    let mut buf = Buf::new(alloc);
    if !is_value_of(set, ty, value) || !fits(value, &buf) {
        return Ok(None);
    }
    put_value(set, ty, value, &mut buf)?;
    Ok(Some(buf))
}

/// The spelling of a value, which is read and put again.
fn put(
    alloc: Global,
    set: &TableSet<'_>,
    ty: &IdlType,
    value: &Value,
    answer: &mut String,
) -> Result<(), AllocError> {
    let Some(buf) = spelled(alloc, set, ty, value)? else {
        return say(answer, "no value of the type");
    };
    say_hex(answer, buf.as_slice())?;
    let mut from = buf.reader();
    if !declares(set, ty) {
        return say(answer, "no type");
    }
    match get_value(alloc, set, ty, &mut from) {
        Ok(again) => {
            let left = from.rest().len();
            writeln!(answer, "read again, {left} bytes are left")?;
            match spelled(alloc, set, ty, &again)? {
                Some(second) => say_again(answer, buf.as_slice(), second.as_slice()),
                None => say(answer, "no value of the type"),
            }
        }
        Err(bad) => writeln!(answer, "{bad}"),
    }
}

/// What is read of bytes without doors, and where the reader stands then.
fn read_bytes(
    alloc: Global,
    set: &TableSet<'_>,
    ty: &IdlType,
    bytes: &[u8],
) -> Result<(Option<BadValue>, u32), AllocError> {
    let mut buf = Buf::new(alloc);
    if bytes.len() > 1_000 || !declares(set, ty) {
        return Ok((None, 0));
    }
    buf.put_bytes(bytes)?;
    let mut from = buf.reader();
    let bad = get_value(alloc, set, ty, &mut from).err();
    Ok((bad, from.at()))
}

/// Whether bytes without doors are a value of a type, and where the reader stands then.
fn read(
    alloc: Global,
    set: &TableSet<'_>,
    ty: &IdlType,
    bytes: &[u8],
    answer: &mut String,
) -> Result<(), AllocError> {
    let (bad, at) = read_bytes(alloc, set, ty, bytes)?;
    match bad {
        Some(bad) => writeln!(answer, "{bad}, stands at {at}"),
        None => writeln!(answer, "read, stands at {at}"),
    }
}

/// Reads each prefix of the bytes but the whole, and tells those that are not too short where they end.
fn cut(
    alloc: Global,
    set: &TableSet<'_>,
    ty: &IdlType,
    bytes: &[u8],
    answer: &mut String,
) -> Result<(), AllocError> {
    let mut short = 0u32;
    for end in 0..bytes.len() {
        match read_bytes(alloc, set, ty, &bytes[..end])? {
            (Some(bad), 0) if bad.why == ValueWhy::Short && bad.at as usize == end => {
                short = short.saturating_add(1);
            }
            (_, at) => writeln!(answer, "{end} bytes: another answer, stands at {at}")?,
        }
    }
    writeln!(answer, "{short} are short where they end")
}
