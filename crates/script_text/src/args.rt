//! Reading the arguments of a call.

ghost use Rattle.std.specs.Prelude.{◌≡◌};
ghost use Rattle.script_text.specs.Reading.{Gives, name_at, path_at, root_or_path_at, sub_at, mode_at, number_at, address_at, hex_at};

use crate::script::Sub;
use crate::why::ScriptWhy;
use std::alloc::Global;
use value_types::{Bytes, Path, Text};

/// The name that a word is.
#[tactic(auto, unfolding(crate::specs::Reading::name_at))]
pub(crate) fn name_of(alloc: Global, word: &[u8]) -> Result<Text, ScriptWhy>
    ensures { Gives result (name_at word.now) }
{
    if !text_words::is_name(word) {
        return Err(ScriptWhy::Name);
    }
    Ok(text_words::text_of_name(alloc, word)?)
}

/// The path that a word is.
#[tactic(auto, unfolding(crate::specs::Reading::path_at))]
pub(crate) fn path_of(alloc: Global, word: &[u8]) -> Result<Path, ScriptWhy>
    ensures { Gives result (path_at word.now) }
{
    match text_words::read_path(alloc, word)? {
        Some(path) => Ok(path),
        None => Err(ScriptWhy::Name),
    }
}

/// The context that a word names: none for the root.
#[tactic(auto, unfolding(crate::specs::Reading::root_or_path_at))]
pub(crate) fn root_or_path_of(alloc: Global, word: &[u8]) -> Result<Option<Path>, ScriptWhy>
    ensures { Gives result (root_or_path_at word.now) }
{
    if word == b"/".as_slice() {
        return Ok(None);
    }
    let path = path_of(alloc, word)?;
    Ok(Some(path))
}

/// The subcontract that a word is.
#[tactic(auto, unfolding(crate::specs::Reading::sub_at))]
pub(crate) fn sub_of(word: &[u8]) -> Result<Sub, ScriptWhy>
    ensures { Gives result (sub_at word.now) }
{
    if word == b"singleton".as_slice() {
        Ok(Sub::Singleton)
    } else if word == b"cluster".as_slice() {
        Ok(Sub::Cluster)
    } else if word == b"caching".as_slice() {
        Ok(Sub::Caching)
    } else if word == b"reconnectable".as_slice() {
        Ok(Sub::Reconnectable)
    } else {
        Err(ScriptWhy::Name)
    }
}

/// Whether a mode lets the region be written.
#[tactic(auto, unfolding(crate::specs::Reading::mode_at))]
pub(crate) fn mode_of(word: &[u8]) -> Result<bool, ScriptWhy>
    ensures { Gives result (mode_at word.now) }
{
    if word == b"r".as_slice() {
        Ok(false)
    } else if word == b"w".as_slice() {
        Ok(true)
    } else {
        Err(ScriptWhy::Name)
    }
}

/// The number that a word is.
#[tactic(auto, unfolding(crate::specs::Reading::number_at))]
pub(crate) fn number_of(word: &[u8]) -> Result<u32, ScriptWhy>
    ensures { Gives result (number_at word.now) }
{
    match text_words::number(word) {
        Some(number) => Ok(number),
        None => Err(ScriptWhy::Number),
    }
}

/// The address that a word is.
#[tactic(auto, unfolding(crate::specs::Reading::address_at))]
pub(crate) fn address_of(word: &[u8]) -> Result<u64, ScriptWhy>
    ensures { Gives result (address_at word.now) }
{
    match text_words::address(word) {
        Some(address) => Ok(address),
        None => Err(ScriptWhy::Number),
    }
}

/// The bytes of a hex word.
#[tactic(auto, unfolding(crate::specs::Reading::hex_at))]
pub(crate) fn hex_of(alloc: Global, word: &[u8]) -> Result<Bytes, ScriptWhy>
    ensures { Gives result (hex_at word.now) }
{
    match text_words::hex_bytes(alloc, word)? {
        Some(bytes) => Ok(bytes),
        None => Err(ScriptWhy::Hex),
    }
}
