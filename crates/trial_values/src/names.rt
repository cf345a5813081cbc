//! Contexts of names, the history of the calls on them, and how it is printed.

ghost use Rattle.std.specs.Prelude.{IfOk, IfSome};
ghost use Rattle.std.specs.Option.{option_copied};
ghost use Rattle.name_context.specs.Names.{HasParts};
ghost use Rattle.name_context.specs.History.{IsPathOf};

use crate::say::{count_of, say_door, say_hex, small_of};
use crate::stack::mounted;
use client_objects::start_names;
use hist_lock::Storied;
use marshal_buf::Door;
use name_context::{MAX_PARTS, NameCall, NameErr, Names, Stored};
use spr_report::put_names;
use std::alloc::{AllocError, Global};
use trial_words::say;
use value_types::{Path, Text};

/// The names of a case.
#[derive(Drop)]
pub struct NameCase {
    names: Option<Names>,
}

/// No names.
fn no_views(alloc: Global) -> Result<Names, AllocError> {
    Names::start(alloc, &[], &[])
}

impl NameCase {
    /// Before any names.
    pub fn new() -> Self {
        NameCase { names: None }
    }

    /// `names CALL ..`; the stack is that of the case.
    pub fn step(
        &mut self,
        alloc: Global,
        words: &[&str],
        stack: &[u8],
        answer: &mut String,
    ) -> Result<(), AllocError> {
        match words {
            ["start"] => match mounted(alloc, stack) {
                Some(mounted) => {
                    self.names = Some(start_names(alloc, &mounted)?);
                    return Ok(());
                }
                None => return say(answer, "no stack"),
            },
            ["start", "empty"] => {
                self.names = Some(no_views(alloc)?);
                return Ok(());
            }
            _ => {}
        }
        match &mut self.names {
            Some(names) => over(alloc, names, words, answer),
            None => say(answer, "no names"),
        }
    }
}

/// Does a call over names.
fn over(
    alloc: Global,
    names: &mut Names,
    words: &[&str],
    answer: &mut String,
) -> Result<(), AllocError> {
    match words {
        ["entry", place] => say_entry(names, count_of(place), answer),
        ["print", callers @ ..] => print(alloc, names, callers, answer),
        [caller, call, path] => {
            match path_of(alloc, path)? {
                Some(path) => make(alloc, names, small_of(caller), call, &path, answer)?,
                None if *call == "list" => list(names, small_of(caller), None, answer)?,
                None => say(answer, "impossible")?,
            }
            match names.len() {
                0 => say(answer, "no entry"),
                count => say_entry(names, count - 1, answer),
            }
        }
        _ => say(answer, "no such step"),
    }
}

/// Tells an entry of the history: its place, its caller, what was called, and how many entries its caller had before.
fn say_entry(names: &Names, place: u64, answer: &mut String) -> Result<(), AllocError> {
    match names.entry(place) {
        Some(entry) => {
            let (caller, call, number) = (entry.caller, entry.call, entry.number);
            writeln!(
                answer,
                "entry {place}: {call:?} {number} of caller {caller}"
            )
        }
        None => say(answer, "no entry"),
    }
}

/// The path of a text; `/` is the root.
fn path_of(alloc: Global, text: &str) -> Result<Option<Path>, AllocError>
    ensures { IfOk result (λ found. IfSome found HasParts) }
{
    if text == "/" {
        return Ok(None);
    }
    let parts: Vec<&str> = text.split('/').collect(alloc)?;
    if parts.is_empty() || parts.len() > MAX_PARTS {
        return Ok(None);
    }
    Ok(Some(Path::of(alloc, &parts)?))
}

/// The object of each bind: the bytes 120 and 121 and a door to file 7 of node 9.
fn object(alloc: Global) -> Result<Stored, AllocError> {
    let mut object = Stored::new(alloc);
    object.put_bytes(&[120, 121])?;
    object.put_door(Door { node: 9, file: 7 })?;
    Ok(object)
}

/// Appends how a call ended.
fn say_end(end: Result<(), NameErr>, answer: &mut String) -> Result<(), AllocError> {
    match end {
        Ok(()) => say(answer, "done"),
        Err(why) => writeln!(answer, "{why}"),
    }
}

/// Lists a path.
fn list(
    names: &mut Names,
    caller: u32,
    path: Option<&Path>,
    answer: &mut String,
) -> Result<(), AllocError>
    requires { IsPathOf NameCall.List (option_copied path) }
{
    match names.list(caller, path) {
        Ok(texts) => say_names(&texts, answer),
        Err(why) => writeln!(answer, "{why}"),
    }
}

/// Appends names, with a space before each.
fn say_names(texts: &[Text], answer: &mut String) -> Result<(), AllocError> {
    answer.push_str("names")?;
    for text in texts {
        answer.push(' ')?;
        answer.push_str(text.as_str())?;
    }
    say(answer, "")
}

/// Resolves a path, and tells the object's bytes, and its door behind the first two.
fn resolve(
    names: &mut Names,
    caller: u32,
    path: &Path,
    answer: &mut String,
) -> Result<(), AllocError>
    requires { HasParts path.now }
{
    match names.resolve(caller, path) {
        Ok(stored) => {
            say_hex(answer, stored.as_slice())?;
            let mut reader = stored.reader();
            let _ = reader.get_part(2);
            match reader.get_door() {
                Ok(door) => say_door(answer, door),
                Err(bad) => writeln!(answer, "{bad}"),
            }
        }
        Err(why) => writeln!(answer, "{why}"),
    }
}

/// Binds the object at a path.
fn bind(alloc: Global, names: &mut Names, caller: u32, path: &Path) -> Result<(), NameErr>
    requires { HasParts path.now }
{
    match names.bind(caller, path, object(alloc)?) {
        Ok(()) => Ok(()),
        Err((err, _object)) => Err(err),
    }
}

/// Makes a call of a path, and tells its answer.
fn make(
    alloc: Global,
    names: &mut Names,
    caller: u32,
    call: &str,
    path: &Path,
    answer: &mut String,
) -> Result<(), AllocError>
    requires { HasParts path.now }
{
    match call {
        "context" => say_end(names.context(caller, path), answer),
        "bind" => say_end(bind(alloc, names, caller, path), answer),
        "resolve" => resolve(names, caller, path, answer),
        "unbind" => say_end(names.unbind(caller, path), answer),
        "list" => list(names, caller, Some(path), answer),
        _ => say(answer, "no such call"),
    }
}

/// The lines of the history, where the callers have these names.
fn print(
    alloc: Global,
    names: &Names,
    callers: &[&str],
    answer: &mut String,
) -> Result<(), AllocError> {
    let mut bytes = Vec::new(alloc);
    for caller in callers {
        bytes.push(caller.as_bytes())?;
    }
    let mut out = Vec::new(alloc);
    put_names(alloc, &mut out, &bytes, names)?;
    let text = String::from_utf8_lossy(alloc, &out)?;
    answer.push_str(text.as_str())
}
