//! Reading the words of a call.

ghost use Rattle.std.specs.Prelude.{◌≡◌, ◌∷◌, [], map};
ghost use Rattle.script_text.specs.Reading.{Gives, one_at, two_at, bind_at, replicate_at, read_at, write_at, map_at, three_at, four_at, five_at, args_at, call_at};

use crate::args::{
    address_of, hex_of, mode_of, name_of, number_of, path_of, root_or_path_of, sub_of,
};
use crate::script::Call;
use crate::verb::{Verb, verb_of};
use crate::why::ScriptWhy;
use std::alloc::Global;

/// A call of one argument.
#[tactic(auto, unfolding(crate::specs::Reading::one_at))]
fn one(alloc: Global, verb: Verb, word: &[u8]) -> Result<Call, ScriptWhy>
    ensures { Gives result (one_at verb word.now) }
{
    match verb {
        Verb::Context => {
            let path = path_of(alloc, word)?;
            Ok(Call::Context { path })
        }
        Verb::Unbind => {
            let path = path_of(alloc, word)?;
            Ok(Call::Unbind { path })
        }
        Verb::List => {
            let path = root_or_path_of(alloc, word)?;
            Ok(Call::List { path })
        }
        Verb::Drop => {
            let object = name_of(alloc, word)?;
            Ok(Call::Drop { object })
        }
        Verb::Sync => {
            let object = name_of(alloc, word)?;
            Ok(Call::Sync { object })
        }
        Verb::Clean => {
            let object = name_of(alloc, word)?;
            Ok(Call::Clean { object })
        }
        Verb::Unmap => {
            let region = name_of(alloc, word)?;
            Ok(Call::Unmap { region })
        }
        _ => Err(ScriptWhy::Words),
    }
}

/// A call of two arguments.
#[tactic(auto, unfolding(crate::specs::Reading::two_at))]
fn two(alloc: Global, verb: Verb, first: &[u8], second: &[u8]) -> Result<Call, ScriptWhy>
    ensures { Gives result (two_at verb first.now second.now) }
{
    match verb {
        Verb::Open => {
            let object = name_of(alloc, first)?;
            let path = path_of(alloc, second)?;
            Ok(Call::Open { object, path })
        }
        Verb::Copy => {
            let object = name_of(alloc, first)?;
            let other = name_of(alloc, second)?;
            Ok(Call::Copy { object, other })
        }
        Verb::Clear => {
            let object = name_of(alloc, first)?;
            let page = number_of(second)?;
            Ok(Call::Clear { object, page })
        }
        Verb::Load => {
            let address = address_of(first)?;
            let len = number_of(second)?;
            Ok(Call::Load { address, len })
        }
        Verb::Store => {
            let address = address_of(first)?;
            let bytes = hex_of(alloc, second)?;
            Ok(Call::Store { address, bytes })
        }
        Verb::Revoke => {
            let layer = name_of(alloc, first)?;
            let file = name_of(alloc, second)?;
            Ok(Call::Revoke { layer, file })
        }
        Verb::Release => {
            let layer = name_of(alloc, first)?;
            let file = name_of(alloc, second)?;
            Ok(Call::Release { layer, file })
        }
        _ => Err(ScriptWhy::Words),
    }
}

/// A `bind`.
#[tactic(auto, unfolding(crate::specs::Reading::bind_at))]
fn bind(alloc: Global, path: &[u8], sub: &[u8], view: &[u8], file: &[u8]) -> Result<Call, ScriptWhy>
    ensures { Gives result (bind_at path.now sub.now view.now file.now) }
{
    let path = path_of(alloc, path)?;
    let sub = sub_of(sub)?;
    let view = name_of(alloc, view)?;
    let file = name_of(alloc, file)?;
    Ok(Call::Bind {
        path,
        sub,
        view,
        file,
    })
}

/// A `replicate`.
#[tactic(auto, unfolding(crate::specs::Reading::replicate_at))]
fn replicate(alloc: Global, path: &[u8], file: &[u8], views: &[u8]) -> Result<Call, ScriptWhy>
    ensures { Gives result (replicate_at path.now file.now views.now) }
{
    let path = path_of(alloc, path)?;
    let file = name_of(alloc, file)?;
    let views = path_of(alloc, views)?;
    Ok(Call::Replicate { path, file, views })
}

/// A `read`.
#[tactic(auto, unfolding(crate::specs::Reading::read_at))]
fn read(
    alloc: Global,
    object: &[u8],
    page: &[u8],
    off: &[u8],
    len: &[u8],
) -> Result<Call, ScriptWhy>
    ensures { Gives result (read_at object.now page.now off.now len.now) }
{
    let object = name_of(alloc, object)?;
    let page = number_of(page)?;
    let off = number_of(off)?;
    let len = number_of(len)?;
    Ok(Call::Read {
        object,
        page,
        off,
        len,
    })
}

/// A `write`.
#[tactic(auto, unfolding(crate::specs::Reading::write_at))]
fn write(
    alloc: Global,
    object: &[u8],
    page: &[u8],
    off: &[u8],
    hex: &[u8],
) -> Result<Call, ScriptWhy>
    ensures { Gives result (write_at object.now page.now off.now hex.now) }
{
    let object = name_of(alloc, object)?;
    let page = number_of(page)?;
    let off = number_of(off)?;
    let bytes = hex_of(alloc, hex)?;
    Ok(Call::Write {
        object,
        page,
        off,
        bytes,
    })
}

/// A `map`. Names and modes are tested before numbers: the mode stands last, and is read third.
#[tactic(auto, unfolding(crate::specs::Reading::map_at))]
fn map(
    alloc: Global,
    region: &[u8],
    object: &[u8],
    address: &[u8],
    pages: &[u8],
    mode: &[u8],
) -> Result<Call, ScriptWhy>
    ensures { Gives result (map_at region.now object.now address.now pages.now mode.now) }
{
    let region = name_of(alloc, region)?;
    let object = name_of(alloc, object)?;
    let write = mode_of(mode)?;
    let address = address_of(address)?;
    let pages = number_of(pages)?;
    Ok(Call::Map {
        region,
        object,
        address,
        pages,
        write,
    })
}

/// A call of this verb, by the number of its arguments.
fn args(alloc: Global, verb: Verb, words: &[&[u8]]) -> Result<Call, ScriptWhy>
    ensures { Gives result (args_at verb (map (λ word. word.now) words.now)) }
{
    match words {
        [a] => one(alloc, verb, a),
        [a, b] => two(alloc, verb, a, b),
        [a, b, c] => match verb {
            Verb::Replicate => replicate(alloc, a, b, c),
            _ => Err(ScriptWhy::Words),
        },
        [a, b, c, d] => match verb {
            Verb::Bind => bind(alloc, a, b, c, d),
            Verb::Read => read(alloc, a, b, c, d),
            Verb::Write => write(alloc, a, b, c, d),
            _ => Err(ScriptWhy::Words),
        },
        [a, b, c, d, e] => match verb {
            Verb::Map => map(alloc, a, b, c, d, e),
            _ => Err(ScriptWhy::Words),
        },
        [] => Err(ScriptWhy::Words),
        [_, _, _, _, _, _, ..] => Err(ScriptWhy::Words),
    }
}

/// The call of the words after the client's name.
#[tactic(auto, unfolding(crate::specs::Reading::call_at))]
pub(crate) fn call_of(alloc: Global, words: &[&[u8]]) -> Result<Call, ScriptWhy>
    ensures { Gives result (call_at (map (λ word. word.now) words.now)) }
{
    match words {
        [] => Err(ScriptWhy::Verb),
        [verb, words @ ..] => {
            let verb = verb_of(verb)?;
            args(alloc, verb, words)
        }
    }
}
