//! Calls on the names of a volume in words: `context PATH`, `bind PATH`, `resolve PATH`, `unbind PATH` and `list PATH`, where `/`
//! is the root.

ghost use Rattle.std.specs.Prelude.{◌≡◌, ◌<◌, ◌≤◌, IfOk, IfSome};
ghost use Rattle.std.specs.Option.{option_copied};
ghost use Rattle.name_context.specs.declared.entry.NameCall.TheVariants as names_calls;
ghost use Rattle.name_context.specs.History.{IsPathOf};
ghost use Rattle.name_context.specs.Names.{HasParts};
ghost use Rattle.spr_volume.specs.Passes.{IsOf};
ghost use Rattle.trial_volumes.specs.Alike.{IsFor};

use hist_lock::Storied;
use marshal_buf::Buf;
use name_context::{MAX_PARTS, NameErr, Names};
use spr_volume::{Pass, Volume};
use std::alloc::{AllocError, Global};
use std::sync::Wait;
use trial_parts::Ram;
use trial_words::Halt;
use value_types::{Path, Text};

/// The path of a word; `/` is the root.
fn path_of(alloc: Global, word: &str) -> Result<Option<Path>, Halt>
    ensures { IfOk result (λ found. IfSome found HasParts) }
{
    if word == "/" {
        return Ok(None);
    }
    let parts: Vec<&str> = word.split('/').collect(alloc)?;
    if parts.is_empty() || parts.len() > MAX_PARTS {
        return Err(Halt::Impossible);
    }
    Ok(Some(Path::of(alloc, &parts)?))
}

/// Appends how a call ended.
fn put_end<T: Drop>(end: &Result<T, NameErr>, answer: &mut String) -> Result<(), AllocError> {
    match end {
        Ok(_) => answer.push_str("done\n"),
        Err(why) => writeln!(answer, "{why}"),
    }
}

/// Appends the names that a list gave.
fn put_names(listed: &Result<Vec<Text>, NameErr>, answer: &mut String) -> Result<(), AllocError> {
    match listed {
        Ok(names) => {
            answer.push_str("names")?;
            for name in names {
                answer.push(' ')?;
                answer.push_str(name.as_str())?;
            }
            answer.push('\n')
        }
        Err(why) => writeln!(answer, "{why}"),
    }
}

/// Appends how many bytes the object has that was found.
fn put_object(found: &Result<Buf, NameErr>, answer: &mut String) -> Result<(), AllocError> {
    match found {
        Ok(object) => writeln!(answer, "an object of {} bytes", object.as_slice().len()),
        Err(why) => writeln!(answer, "{why}"),
    }
}

/// Appends how a bind ended.
fn put_bound(end: Result<(), (NameErr, Buf)>, answer: &mut String) -> Result<(), AllocError> {
    match end {
        Ok(()) => answer.push_str("done\n"),
        Err((why, _object)) => writeln!(answer, "{why}"),
    }
}

/// A caller's call at a path.
fn call_at<R: Wait>(
    rt: &R,
    alloc: Global,
    volume: &Volume<Ram>,
    pass: &mut Pass<Ram>,
    caller: u32,
    call: &str,
    path: &Path,
    answer: &mut String,
) -> Result<(), Halt>
    requires pass { IsOf volume.now pass.old }
    requires caller { (pass.old.first ≤ caller) × (caller < pass.old.end) }
    requires path { HasParts path.now }
    ensures pass { IsFor volume.now pass.old.first pass.old.end pass.new }
{
    match call {
        "context" => put_end(&volume.context(rt, pass, caller, path), answer)?,
        "bind" => put_bound(volume.bind(rt, pass, caller, path, Buf::new(alloc)), answer)?,
        "resolve" => put_object(&volume.resolve(rt, pass, caller, path), answer)?,
        "unbind" => put_end(&volume.unbind(rt, pass, caller, path), answer)?,
        "list" => put_names(&volume.list(rt, pass, caller, Some(path)), answer)?,
        _ => return Err(Halt::Unread),
    }
    Ok(())
}

/// A caller's call of a name and a path.
pub fn names_call<R: Wait>(
    rt: &R,
    alloc: Global,
    volume: &Volume<Ram>,
    pass: &mut Pass<Ram>,
    caller: u32,
    call: &str,
    path: &str,
    answer: &mut String,
) -> Result<(), Halt>
    requires pass { IsOf volume.now pass.old }
    requires caller { (pass.old.first ≤ caller) × (caller < pass.old.end) }
    ensures pass { IsFor volume.now pass.old.first pass.old.end pass.new }
{
    match path_of(alloc, path)? {
        Some(path) => call_at(rt, alloc, volume, pass, caller, call, &path, answer),
        None if call == "list" => Ok(put_names(&volume.list(rt, pass, caller, None), answer)?),
        None => Err(Halt::Impossible),
    }
}

/// Appends the history of the names: each call's caller, and how many its caller had made before.
pub fn put_history(names: &Names, answer: &mut String) -> Result<(), AllocError> {
    for place in 0..names.len() {
        if let Some(entry) = names.entry(place) {
            writeln!(answer, "call {} of caller {}", entry.number, entry.caller)?;
        }
    }
    Ok(())
}
