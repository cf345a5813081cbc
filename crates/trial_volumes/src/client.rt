//! A client over a volume of one file, on the first machine of the stack: its lines, their answers, and what happened at the
//! file.

ghost use Rattle.std.specs.Prelude.{◌≡◌};
ghost use Rattle.client_objects.specs.Views.{names_at_start};
ghost use Rattle.spr_client.specs.Calls.{AreOfStack};
ghost use Rattle.spr_client.specs.Lines.{AreCalls};
ghost use Rattle.trial_volumes.specs.Alike.{IsFor};

use crate::stack::{lines_of, stack_of, volume};
use hist_plain::{Event, Op, OpenGate};
use marshal_buf::Buf;
use script_text::{CallLine, Said, put_reply};
use spr_client::{Client, run_phase};
use spr_volume::{Pass, Volume};
use stack_accept::Mounted;
use stack_engine::Trail;
use std::alloc::{AllocError, Global};
use std::sync::Wait;
use trial_parts::{Ram, name_of, operations, page_shown, refused_write};
use trial_words::{Halt, number};
use value_types::Path;

/// Binds an object of a subcontract, with no more than its number, under a name.
fn bind_stranger<R: Wait>(
    rt: &R,
    alloc: Global,
    volume: &Volume<Ram>,
    pass: &mut Pass<Ram>,
    sub: u16,
    name: &str,
) -> Result<(), Halt>
    requires pass { IsFor volume.now 0 1 pass.old }
    ensures pass { IsFor volume.now 0 1 pass.new }
{
    let path = Path::of(alloc, &[name])?;
    let mut object = Buf::new(alloc);
    object.put_u16(sub)?;
    match volume.bind(rt, pass, 0, &path, object) {
        Ok(()) => Ok(()),
        Err((_why, _object)) => Err(Halt::Impossible),
    }
}

/// Binds the object that the words name, if they name one: `subcontract NUMBER at NAME`.
fn bind_named<R: Wait>(
    rt: &R,
    alloc: Global,
    volume: &Volume<Ram>,
    pass: &mut Pass<Ram>,
    words: &[&str],
) -> Result<(), Halt>
    requires pass { IsFor volume.now 0 1 pass.old }
    ensures pass { IsFor volume.now 0 1 pass.new }
{
    match words {
        [] => Ok(()),
        ["subcontract", sub, "at", name] => {
            let Ok(sub) = u16::try_from(number(sub)?) else {
                return Err(Halt::Unread);
            };
            bind_stranger(rt, alloc, volume, pass, sub, name)
        }
        _ => Err(Halt::Unread),
    }
}

/// A new client does its lines.
fn client_does<R: Wait>(
    rt: &R,
    alloc: Global,
    mount: &Mounted,
    volume: &Volume<Ram>,
    pass: &mut Pass<Ram>,
    lines: &[CallLine],
) -> Result<Vec<Said>, Halt>
    requires towers { AreOfStack mount.now volume.now.towers }
    requires names { volume.now.names.began ≡ names_at_start mount.now }
    requires pass { IsFor volume.now 0 1 pass.old }
    requires calls { AreCalls mount.now lines.now }
    ensures pass { IsFor volume.now 0 1 pass.new }
{
    if mount.machines().is_empty() {
        return Err(Halt::Impossible);
    }
    let mut client = Client::new(alloc, mount, 0, 0, None)?;
    Ok(run_phase(
        rt,
        alloc,
        volume,
        mount,
        &operations(),
        &mut client,
        pass,
        lines,
        &OpenGate,
    )?)
}

/// Appends the answer of a line behind its number.
fn put_said(
    alloc: Global,
    mount: &Mounted,
    said: &Said,
    answer: &mut String,
) -> Result<(), AllocError> {
    let mut reply = Vec::new(alloc);
    put_reply(alloc, &mut reply, mount.disks(), &said.reply)?;
    let text = String::from_utf8_lossy(alloc, &reply)?;
    writeln!(answer, "{}{}", said.line, text.as_str())
}

/// Does the lines of a script over a fresh volume of the stack, tells their answers, and gives what happened at the file. The
/// words are `write N refused, subcontract NUMBER at NAME`, of which each part may be left out.
pub fn client_step<R: Wait>(
    rt: &R,
    alloc: Global,
    words: &[&str],
    stack: &[u8],
    script: &[u8],
    answer: &mut String,
) -> Result<Trail, Halt> {
    let (fails_at, words) = refused_write(words)?;
    let mount = stack_of(alloc, stack)?;
    let lines = lines_of(alloc, &mount, script)?;
    let (volume, mut pass) = volume(alloc, &mount, fails_at)?;
    let bound = bind_named(rt, alloc, &volume, &mut pass, words);
    let said = client_does(rt, alloc, &mount, &volume, &mut pass, lines.as_slice());
    let (mut towers, _names) = volume.unmount(pass);
    bound?;
    for said in &said? {
        put_said(alloc, &mount, said, answer)?;
    }
    match towers.pop() {
        Some(tower) => Ok(tower.close().1),
        None => Err(Halt::Impossible),
    }
}

/// Appends what an event is: an open or a write at its node, a grant, or another page message.
fn put_event(event: &Event, answer: &mut String) -> Result<(), AllocError> {
    let (node, page) = (event.node(), page_shown(event));
    match event {
        Event::Access { op: Op::Open, .. } => writeln!(answer, "open {node}"),
        Event::Access {
            op: Op::Write { off, .. },
            ..
        } => writeln!(answer, "write {node} {page} {off}"),
        Event::ZeroFill { write: true, .. } => writeln!(answer, "zero_fill {node} {page} write"),
        _ => writeln!(answer, "{} {node} {page}", name_of(event)),
    }
}

/// Appends the events of a trail.
pub fn put_events(trail: &Trail, answer: &mut String) -> Result<(), AllocError> {
    for place in 0..trail.len() {
        if let Some(event) = trail.get(place) {
            put_event(event, answer)?;
        }
    }
    Ok(())
}
