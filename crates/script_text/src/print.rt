//! Writing a script.

ghost use Rattle.std.specs.Prelude.{◌≡◌, ◌++◌, ◌∷◌, [], map, IfOk, OnOk};
ghost use Rattle.std.specs.List.{flat_map};
ghost use Rattle.std.specs.Fmt.{decimal};
ghost use Rattle.text_words.specs.Lines.{line_of, spaced, text_of};
ghost use Rattle.text_words.specs.Words.{path_word};
ghost use Rattle.script_text.specs.Grammar.{spelling, verb_word, call_words, client_words, client_name, call_line_words, phase_lines, sub_word, mode_word, root_or_path};

use crate::script::{Call, CallLine, ClientLine, Script, Sub};
use crate::verb::Verb;
use std::alloc::{AllocError, Global};
use text_words::{put, put_hex, put_line, put_path, put_spaced_number, put_word};
use value_types::{Bytes, Items, Path, Text};

/// The word of a subcontract.
fn sub_word(sub: Sub) -> &'static [u8]
    ensures { result.now ≡ sub_word sub }
{
    match sub {
        Sub::Singleton => b"singleton",
        Sub::Cluster => b"cluster",
        Sub::Caching => b"caching",
        Sub::Reconnectable => b"reconnectable",
    }
}

/// Appends a space, and the root's or a path's word.
fn put_root_or_path(out: &mut Vec<u8>, path: &Option<Path>) -> Result<(), AllocError>
    ensures { OnOk result (out.new.items ≡ out.old.items ++ 32 ∷ root_or_path path.now) }
{
    match path {
        None => put_word(out, b"/"),
        Some(path) => put_path(out, path),
    }
}

/// Appends a space and the mode of a region.
fn put_mode(out: &mut Vec<u8>, write: bool) -> Result<(), AllocError>
    ensures { OnOk result (out.new.items ≡ out.old.items ++ 32 ∷ mode_word write) }
{
    if write {
        put_word(out, b"w")
    } else {
        put_word(out, b"r")
    }
}

/// Appends a verb and names, each with a space before it.
fn put_names(out: &mut Vec<u8>, verb: Verb, names: &[&Text]) -> Result<(), AllocError>
    ensures { OnOk result (out.new.items ≡ out.old.items ++ spaced (verb_word verb ∷ map (λ name. name.now) names.now)) }
{
    put_word(out, verb.word())?;
    for name in names {
        put_word(out, name.as_str().as_bytes())?;
    }
    Ok(())
}

/// Appends a space before each number.
fn put_numbers(out: &mut Vec<u8>, numbers: &[u32]) -> Result<(), AllocError>
    ensures { OnOk result (out.new.items ≡ out.old.items ++ spaced (map decimal numbers.now)) }
{
    for number in numbers {
        put_spaced_number(out, u64::from(*number))?;
    }
    Ok(())
}

/// Appends the words of a `bind`.
fn put_bind(
    out: &mut Vec<u8>,
    path: &Path,
    sub: Sub,
    view: &Text,
    file: &Text,
) -> Result<(), AllocError>
    ensures { OnOk result (out.new.items ≡ out.old.items ++ spaced (verb_word Verb.Bind ∷ path_word path.now ∷ sub_word sub ∷ view.now ∷ file.now ∷ [])) }
{
    put_word(out, Verb::Bind.word())?;
    put_path(out, path)?;
    put_word(out, sub_word(sub))?;
    put_word(out, view.as_str().as_bytes())?;
    put_word(out, file.as_str().as_bytes())
}

/// Appends the words of a `replicate`.
fn put_replicate(
    out: &mut Vec<u8>,
    path: &Path,
    file: &Text,
    views: &Path,
) -> Result<(), AllocError>
    ensures { OnOk result (out.new.items ≡ out.old.items ++ spaced (verb_word Verb.Replicate ∷ path_word path.now ∷ file.now ∷ path_word views.now ∷ [])) }
{
    put_with_path(out, Verb::Replicate, path)?;
    put_word(out, file.as_str().as_bytes())?;
    put_path(out, views)
}

/// Appends the words of a `map`.
fn put_map(
    out: &mut Vec<u8>,
    region: &Text,
    object: &Text,
    address: u64,
    pages: u32,
    write: bool,
) -> Result<(), AllocError>
    ensures { OnOk result (out.new.items ≡ out.old.items ++ spaced (verb_word Verb.Map ∷ region.now ∷ object.now ∷ decimal address ∷ decimal pages ∷ mode_word write ∷ [])) }
{
    put_names(out, Verb::Map, &[region, object])?;
    put_spaced_number(out, address)?;
    put_spaced_number(out, u64::from(pages))?;
    put_mode(out, write)
}

/// Appends a verb and a path.
fn put_with_path(out: &mut Vec<u8>, verb: Verb, path: &Path) -> Result<(), AllocError>
    ensures { OnOk result (out.new.items ≡ out.old.items ++ spaced (verb_word verb ∷ path_word path.now ∷ [])) }
{
    put_word(out, verb.word())?;
    put_path(out, path)
}

/// Appends a verb and an address.
fn put_with_address(out: &mut Vec<u8>, verb: Verb, address: u64) -> Result<(), AllocError>
    ensures { OnOk result (out.new.items ≡ out.old.items ++ spaced (verb_word verb ∷ decimal address ∷ [])) }
{
    put_word(out, verb.word())?;
    put_spaced_number(out, address)
}

/// Appends the words of a call, each with a space before it.
fn put_call(alloc: Global, out: &mut Vec<u8>, call: &Call) -> Result<(), AllocError>
    ensures { OnOk result (out.new.items ≡ out.old.items ++ spaced (call_words call.now)) }
{
    match call {
        Call::Context { path } => put_with_path(out, Verb::Context, path),
        Call::Bind {
            path,
            sub,
            view,
            file,
        } => put_bind(out, path, *sub, view, file),
        Call::Replicate { path, file, views } => put_replicate(out, path, file, views),
        Call::Unbind { path } => put_with_path(out, Verb::Unbind, path),
        Call::List { path } => {
            put_word(out, Verb::List.word())?;
            put_root_or_path(out, path)
        }
        Call::Open { object, path } => {
            put_names(out, Verb::Open, &[object])?;
            put_path(out, path)
        }
        Call::Copy { object, other } => put_names(out, Verb::Copy, &[object, other]),
        Call::Drop { object } => put_names(out, Verb::Drop, &[object]),
        Call::Read {
            object,
            page,
            off,
            len,
        } => {
            put_names(out, Verb::Read, &[object])?;
            put_numbers(out, &[*page, *off, *len])
        }
        Call::Write {
            object,
            page,
            off,
            bytes,
        } => {
            put_names(out, Verb::Write, &[object])?;
            put_numbers(out, &[*page, *off])?;
            put_hex(alloc, out, bytes.as_slice())
        }
        Call::Clear { object, page } => {
            put_names(out, Verb::Clear, &[object])?;
            put_numbers(out, &[*page])
        }
        Call::Sync { object } => put_names(out, Verb::Sync, &[object]),
        Call::Clean { object } => put_names(out, Verb::Clean, &[object]),
        Call::Map {
            region,
            object,
            address,
            pages,
            write,
        } => { put_map(out, region, object, *address, *pages, *write) }
        Call::Unmap { region } => put_names(out, Verb::Unmap, &[region]),
        Call::Load { address, len } => {
            put_with_address(out, Verb::Load, *address)?;
            put_numbers(out, &[*len])
        }
        Call::Store { address, bytes } => {
            put_with_address(out, Verb::Store, *address)?;
            put_hex(alloc, out, bytes.as_slice())
        }
        Call::Revoke { layer, file } => put_names(out, Verb::Revoke, &[layer, file]),
        Call::Release { layer, file } => put_names(out, Verb::Release, &[layer, file]),
    }
}

/// The name of the client of the number.
fn name_of(clients: &[ClientLine], number: u32) -> &[u8]
    ensures { result.now ≡ client_name clients.now number }
{
    match clients.get(number as usize) {
        Some(client) => client.name.as_str().as_bytes(),
        None => b"",
    }
}

/// Appends a call line.
fn put_call_line(
    alloc: Global,
    out: &mut Vec<u8>,
    clients: &[ClientLine],
    line: &CallLine,
) -> Result<(), AllocError>
    ensures { OnOk result (out.new.items ≡ out.old.items ++ line_of (call_line_words clients.now line.now)) }
{
    put(out, name_of(clients, line.client))?;
    put_call(alloc, out, &line.call)?;
    put(out, b"\n")
}

/// Appends the call lines of a phase.
fn put_calls(
    alloc: Global,
    out: &mut Vec<u8>,
    clients: &[ClientLine],
    lines: &[CallLine],
) -> Result<(), AllocError>
    ensures { OnOk result (out.new.items ≡ out.old.items ++ text_of (map (call_line_words clients.now) lines.now)) }
{
    for line in lines {
        put_call_line(alloc, out, clients, line)?;
    }
    Ok(())
}

/// Appends each phase: its own line and its call lines.
fn put_phases(
    alloc: Global,
    out: &mut Vec<u8>,
    clients: &[ClientLine],
    phases: &[Items<CallLine>],
) -> Result<(), AllocError>
    ensures { OnOk result (out.new.items ≡ out.old.items ++ text_of (flat_map (phase_lines clients.now) phases.now)) }
{
    for phase in phases {
        put_line(out, &[b"phase"])?;
        put_calls(alloc, out, clients, phase.as_slice())?;
    }
    Ok(())
}

/// Appends the client lines.
fn put_clients(out: &mut Vec<u8>, clients: &[ClientLine]) -> Result<(), AllocError>
    ensures { OnOk result (out.new.items ≡ out.old.items ++ text_of (map client_words clients.now)) }
{
    for client in clients {
        let name = client.name.as_str().as_bytes();
        let machine = client.machine.as_str().as_bytes();
        put_line(out, &[b"client", name, machine])?;
    }
    Ok(())
}

/// The one spelling of a script: of a script that a text is, that text.
pub fn print_script(alloc: Global, script: &Script) -> Result<Bytes, AllocError>
    ensures { IfOk result (λ text. text ≡ spelling script.now) }
{
    let mut out = Vec::new(alloc);
    put_clients(&mut out, script.clients.as_slice())?;
    put_phases(
        alloc,
        &mut out,
        script.clients.as_slice(),
        script.phases.as_slice(),
    )?;
    Ok(Bytes::from_vec(out))
}
