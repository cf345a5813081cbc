//! The verbs of the calls.

ghost use Rattle.std.specs.Prelude.{◌≡◌, IfSome};
ghost use Rattle.script_text.specs.Grammar.{verb_word};
ghost use Rattle.script_text.specs.Reading.{Gives, named, verb_at};

use crate::why::ScriptWhy;

/// What a call line asks for, by its second word.
#[derive(Clone, Copy, Debug, PartialEq, Eq)]
pub(crate) enum Verb {
    Context,
    Bind,
    Replicate,
    Unbind,
    List,
    Open,
    Copy,
    Drop,
    Read,
    Write,
    Clear,
    Sync,
    Clean,
    Map,
    Unmap,
    Load,
    Store,
    Revoke,
    Release,
}

/// All verbs.
const VERBS: [Verb; 19] = [
    Verb::Context,
    Verb::Bind,
    Verb::Replicate,
    Verb::Unbind,
    Verb::List,
    Verb::Open,
    Verb::Copy,
    Verb::Drop,
    Verb::Read,
    Verb::Write,
    Verb::Clear,
    Verb::Sync,
    Verb::Clean,
    Verb::Map,
    Verb::Unmap,
    Verb::Load,
    Verb::Store,
    Verb::Revoke,
    Verb::Release,
];

impl Verb {
    /// The word of the verb.
    pub(crate) fn word(self) -> &'static [u8]
        ensures { result.now ≡ verb_word self }
    {
        match self {
            Verb::Context => b"context",
            Verb::Bind => b"bind",
            Verb::Replicate => b"replicate",
            Verb::Unbind => b"unbind",
            Verb::List => b"list",
            Verb::Open => b"open",
            Verb::Copy => b"copy",
            Verb::Drop => b"drop",
            Verb::Read => b"read",
            Verb::Write => b"write",
            Verb::Clear => b"clear",
            Verb::Sync => b"sync",
            Verb::Clean => b"clean",
            Verb::Map => b"map",
            Verb::Unmap => b"unmap",
            Verb::Load => b"load",
            Verb::Store => b"store",
            Verb::Revoke => b"revoke",
            Verb::Release => b"release",
        }
    }
}

/// The verb among these that has the word.
fn named(verbs: &[Verb], word: &[u8]) -> Option<Verb>
    ensures { result ≡ named word.now verbs.now }
{
    for verb in verbs {
        if verb.word() == word {
            return Some(*verb);
        }
    }
    None
}

/// The verb of an access that a word is, if it is one: most lines of a long script make one.
fn access_of(word: &[u8]) -> Option<Verb>
    ensures { IfSome result (λ verb. word.now ≡ verb_word verb) }
{
    if word == b"read".as_slice() {
        Some(Verb::Read)
    } else if word == b"write".as_slice() {
        Some(Verb::Write)
    } else if word == b"load".as_slice() {
        Some(Verb::Load)
    } else if word == b"store".as_slice() {
        Some(Verb::Store)
    } else {
        None
    }
}

/// The verb that a word is.
#[tactic(auto, unfolding(crate::specs::Reading::verb_at))]
pub(crate) fn verb_of(word: &[u8]) -> Result<Verb, ScriptWhy>
    ensures { Gives result (verb_at word.now) }
{
    match access_of(word) {
        Some(verb) => Ok(verb),
        None => named(&VERBS, word).ok_or(ScriptWhy::Verb),
    }
}
