//! Reading the lines of a script, each onto the script so far.

ghost use Rattle.std.specs.Prelude.{◌≡◌, ◌≤◌, ◌∷◌, [], map, length, IfOk, OnOk};
ghost use Rattle.std.specs.List.{list_any};
ghost use Rattle.text_words.specs.Lines.{row_of};
ghost use Rattle.script_text.specs.Grammar.{has_client, is_client_name};
ghost use Rattle.script_text.specs.Reading.{Gives, new_client_at, client_at, phase_at, place_from, or_why, onto_last, call_line_at, words_line_at, line_at};

use crate::calls::call_of;
use crate::script::{CallLine, ClientLine, Script};
use crate::why::ScriptWhy;
use crate::{MAX_CLIENTS, MAX_LINE_BYTES, MAX_LINES};
use std::alloc::{AllocError, Global};
use text_words::{Line, is_name, read_words, text_of_name};
use value_types::Items;

/// Whether a client has the name.
fn has_client(clients: &[ClientLine], name: &[u8]) -> bool
    ensures { result ≡ has_client name.now clients.now }
{
    clients
        .iter()
        .any(|client| client.name.as_str().as_bytes() == name)
}

/// Whether a word is a name that a client can have.
fn is_client_name(word: &[u8]) -> bool
    ensures { result ≡ is_client_name word.now }
{
    is_name(word)
        && !(word == b"client".as_slice()
            || word == b"phase".as_slice()
            || word == b"mount".as_slice())
}

/// The script with one more client.
#[tactic(auto, unfolding(crate::specs::Reading::new_client_at))]
fn new_client(
    alloc: Global,
    mut script: Script,
    name: &[u8],
    machine: &[u8],
) -> Result<Script, ScriptWhy>
    ensures value { Gives result (new_client_at script name.now machine.now) }
    ensures clients { IfOk result (λ longer. length longer.clients ≤ MAX_CLIENTS) }
{
    let clients = script.clients.as_slice();
    if !script.phases.as_slice().is_empty()
        || clients.len() >= MAX_CLIENTS
        || has_client(clients, name)
    {
        return Err(ScriptWhy::Client);
    }
    if !is_client_name(name) || !is_name(machine) {
        return Err(ScriptWhy::Name);
    }
    let name = text_of_name(alloc, name)?;
    let machine = text_of_name(alloc, machine)?;
    script.clients.push(ClientLine { name, machine })?;
    Ok(script)
}

/// A client line, after its first word.
fn client_line(alloc: Global, script: Script, words: &[&[u8]]) -> Result<Script, ScriptWhy>
    ensures value { Gives result (client_at script (map (λ word. word.now) words.now)) }
    ensures clients { IfOk result (λ longer. length longer.clients ≤ MAX_CLIENTS) }
{
    match words {
        [] => Err(ScriptWhy::Words),
        [_] => Err(ScriptWhy::Words),
        [name, machine] => new_client(alloc, script, name, machine),
        [_, _, _, ..] => Err(ScriptWhy::Words),
    }
}

/// A phase line, after its first word.
fn phase_line(alloc: Global, mut script: Script, words: &[&[u8]]) -> Result<Script, ScriptWhy>
    ensures value { Gives result (phase_at script (map (λ word. word.now) words.now)) }
    ensures clients { IfOk result (λ longer. longer.clients ≡ script.clients) }
{
    match words {
        [] => {
            script.phases.push(Items::new(alloc))?;
            Ok(script)
        }
        [_, ..] => Err(ScriptWhy::Phase),
    }
}

/// The number of the client that has the name.
fn place_of(clients: &[ClientLine], name: &[u8]) -> Result<u32, ScriptWhy>
    requires { length clients.now ≤ MAX_CLIENTS }
    ensures { Gives result (or_why ScriptWhy.Who (place_from 0 name.now clients.now)) }
{
    for (number, client) in clients.iter().enumerate() {
        if client.name.as_str().as_bytes() == name {
            return Ok(number as u32);
        }
    }
    Err(ScriptWhy::Who)
}

/// The phases with a line at the end of the last.
fn onto_last(
    phases: Items<Items<CallLine>>,
    line: CallLine,
) -> Result<Items<Items<CallLine>>, AllocError>
    ensures { IfOk result (λ longer. longer ≡ onto_last line phases) }
{
    let mut phases = phases.into_vec();
    let Some(mut last) = phases.pop() else {
        return Ok(Items::from_vec(phases));
    };
    last.push(line)?;
    phases.push(last)?;
    Ok(Items::from_vec(phases))
}

/// A call line, after its first word, which names the client.
#[tactic(auto, unfolding(crate::specs::Reading::call_line_at))]
fn call_line(
    alloc: Global,
    script: Script,
    number: u32,
    who: &[u8],
    words: &[&[u8]],
) -> Result<Script, ScriptWhy>
    requires { length script.clients ≤ MAX_CLIENTS }
    ensures value { Gives result (call_line_at script number who.now (map (λ word. word.now) words.now)) }
    ensures clients { IfOk result (λ longer. longer.clients ≡ script.clients) }
{
    if script.phases.as_slice().is_empty() {
        return Err(ScriptWhy::Phase);
    }
    let client = place_of(script.clients.as_slice(), who)?;
    let call = call_of(alloc, words)?;
    let line = CallLine {
        line: number,
        client,
        call,
    };
    let Script { clients, phases } = script;
    let phases = onto_last(phases, line)?;
    Ok(Script { clients, phases })
}

/// A line of words: what it is goes by its first word.
fn words_line(
    alloc: Global,
    script: Script,
    number: u32,
    words: &[&[u8]],
) -> Result<Script, ScriptWhy>
    requires { length script.clients ≤ MAX_CLIENTS }
    ensures value { Gives result (words_line_at script number (map (λ word. word.now) words.now)) }
    ensures clients { IfOk result (λ longer. length longer.clients ≤ MAX_CLIENTS) }
{
    match words {
        [] => Err(ScriptWhy::Space),
        [first, words @ ..] => {
            if *first == b"client".as_slice() {
                client_line(alloc, script, words)
            } else if *first == b"phase".as_slice() {
                phase_line(alloc, script, words)
            } else {
                call_line(alloc, script, number, first, words)
            }
        }
    }
}

/// The script so far, with the line of this number. The list is for the line's words.
#[tactic(auto, unfolding(crate::specs::Reading::line_at))]
pub(crate) fn line_of<'a>(
    alloc: Global,
    script: Script,
    number: u32,
    line: Line<'a>,
    words: &mut Vec<&'a [u8]>,
) -> Result<Script, ScriptWhy>
    requires { length script.clients ≤ MAX_CLIENTS }
    ensures value { Gives result (line_at script number (row_of line.entry)) }
    ensures clients { IfOk result (λ longer. length longer.clients ≤ MAX_CLIENTS) }
    ensures number { OnOk result (number ≤ MAX_LINES) }
{
    read_words(words, line)?;
    if number > MAX_LINES || line.body.len() > MAX_LINE_BYTES {
        return Err(ScriptWhy::Long);
    }
    words_line(alloc, script, number, words.as_slice())
}
