//! A volume of files that are alike, and of names: a step's lines are calls of callers, first with two passes, then with one.

ghost use Rattle.std.specs.Prelude.{◌≡◌, ◌<◌, ◌≤◌, IsTrue, length};
ghost use Rattle.trial_volumes.specs.Alike.{AreLike, IsFor};

use crate::calls::{Act, Call, call_of};
use crate::lines::{text_of, words_of};
use crate::names::{names_call, put_history};
use crate::open::{Alike, mounted};
use hist_plain::{Op, OpenGate, fits};
use name_context::Names;
use spr_volume::{Answered, CallErr, Pass, Volume};
use stack_engine::Tower;
use std::alloc::Global;
use std::sync::Wait;
use trial_parts::{Ram, SIZE, asked, pages_and_tree, put_given, tree_of};
use trial_words::{Halt, number};

/// The callers from `first` up to `end`, which is not among them.
#[derive(Clone, Copy)]
struct Callers {
    first: u32,
    end: u32,
}

impl Callers {
    /// Whether it has this caller.
    fn has(&self, caller: u32) -> bool
        ensures { IsTrue result → (self.now.first ≤ caller) × (caller < self.now.end) }
    {
        self.first <= caller && caller < self.end
    }
}

/// Appends what a call was answered, and the place of its event, or why it was refused.
fn put_answered(
    alloc: Global,
    answered: Result<Answered, CallErr>,
    out: &[u8],
    answer: &mut String,
) -> Result<(), Halt> {
    match answered {
        Ok(answered) => {
            put_given(alloc, answered.answer, out, answer)?;
            writeln!(answer, ", place {}", answered.place)?;
        }
        Err(why) => writeln!(answer, "{why}")?,
    }
    Ok(())
}

/// An access of a caller at a layer of a file.
fn access<R: Wait>(
    rt: &R,
    alloc: Global,
    volume: &Volume<Ram>,
    pass: &mut Pass<Ram>,
    callers: Callers,
    alike: Alike,
    call: &Call,
    op: &Op,
    life: u32,
    answer: &mut String,
) -> Result<(), Halt>
    requires alike { AreLike alike volume.now }
    requires pass { IsFor volume.now callers.first callers.end pass.old }
    requires caller { (callers.first ≤ call.now.caller) × (call.now.caller < callers.end) }
    requires file { call.now.file < alike.files }
    requires node { (0 < call.now.node) × (call.now.node < alike.nodes) }
    ensures pass { IsFor volume.now callers.first callers.end pass.new }
{
    if !fits(op, SIZE, alike.pages) {
        return Err(Halt::Impossible);
    }
    let mut out = vec![in alloc; 0u8; asked(op)]?;
    let answered = volume.access(
        rt,
        pass,
        call.caller,
        call.file,
        call.node,
        life,
        op,
        &mut out,
        &OpenGate,
    );
    put_answered(alloc, answered, &out, answer)
}

/// Makes a call at a file.
fn file_call<R: Wait>(
    rt: &R,
    alloc: Global,
    volume: &Volume<Ram>,
    pass: &mut Pass<Ram>,
    callers: Callers,
    alike: Alike,
    call: &Call,
    answer: &mut String,
) -> Result<(), Halt>
    requires alike { AreLike alike volume.now }
    requires pass { IsFor volume.now callers.first callers.end pass.old }
    ensures pass { IsFor volume.now callers.first callers.end pass.new }
{
    let (caller, file, node) = (call.caller, call.file, call.node);
    if !callers.has(caller) || file >= alike.files || node == 0 || node >= alike.nodes {
        return Err(Halt::Impossible);
    }
    match &call.act {
        Act::Access {
            op: Op::Open,
            life: 0,
        } => {
            let answered = volume.open(rt, pass, caller, file, node, &OpenGate);
            put_answered(alloc, answered, &[], answer)
        }
        Act::Access { op, life } => {
            access(
                rt, alloc, volume, pass, callers, alike, call, op, *life, answer,
            )
        }
        Act::Sync { keep } => {
            let answered = volume.sync(rt, pass, caller, file, node, *keep, &OpenGate);
            put_answered(alloc, answered, &[], answer)
        }
    }
}

/// Does a line: `CALLER names CALL PATH`, or a call at a file.
fn do_line<R: Wait>(
    rt: &R,
    alloc: Global,
    volume: &Volume<Ram>,
    pass: &mut Pass<Ram>,
    callers: Callers,
    alike: Alike,
    line: &str,
    answer: &mut String,
) -> Result<(), Halt>
    requires alike { AreLike alike volume.now }
    requires pass { IsFor volume.now callers.first callers.end pass.old }
    ensures pass { IsFor volume.now callers.first callers.end pass.new }
{
    let words = words_of(alloc, line)?;
    if let [caller, "names", call, path] = words.as_slice() {
        let caller = number(caller)?;
        if !callers.has(caller) {
            return Err(Halt::Impossible);
        }
        return names_call(rt, alloc, volume, pass, caller, call, path, answer);
    }
    let call = call_of(alloc, &words)?;
    file_call(rt, alloc, volume, pass, callers, alike, &call, answer)
}

/// Does lines where caller 0 has a pass of its own, and the callers from 1 up to `end` have another.
fn do_apart<R: Wait>(
    rt: &R,
    alloc: Global,
    volume: &Volume<Ram>,
    low: &mut Pass<Ram>,
    high: &mut Pass<Ram>,
    end: u32,
    alike: Alike,
    lines: &[&str],
    answer: &mut String,
) -> Result<(), Halt>
    requires alike { AreLike alike volume.now }
    requires low { IsFor volume.now 0 1 low.old }
    requires high { IsFor volume.now 1 end high.old }
    ensures low { IsFor volume.now 0 1 low.new }
    ensures high { IsFor volume.now 1 end high.new }
{
    let first = Callers { first: 0, end: 1 };
    let others = Callers { first: 1, end };
    for line in lines {
        if line.starts_with("0 ") {
            do_line(rt, alloc, volume, low, first, alike, line, answer)?;
        } else {
            do_line(rt, alloc, volume, high, others, alike, line, answer)?;
        }
    }
    Ok(())
}

/// Appends how many things the log of each file has, and the history of the names.
fn put_left(towers: &[Tower<Ram>], names: &Names, answer: &mut String) -> Result<(), Halt> {
    writeln!(answer, "{} files", towers.len())?;
    for tower in towers {
        writeln!(answer, "{} things", tower.log_len())?;
    }
    Ok(put_history(names, answer)?)
}

/// Does lines of all callers, where the callers from 1 up to `end` have a pass of their own until the lines are done.
fn do_divided<R: Wait>(
    rt: &R,
    alloc: Global,
    volume: &Volume<Ram>,
    pass: &mut Pass<Ram>,
    end: u32,
    alike: Alike,
    lines: &[&str],
    answer: &mut String,
) -> Result<(), Halt>
    requires alike { AreLike alike volume.now }
    requires pass { IsFor volume.now 0 end pass.old }
    requires end { 1 < end }
    ensures pass { IsFor volume.now 0 end pass.new }
{
    let Ok(mut high) = volume.split(alloc, pass, 1) else {
        return Err(Halt::Memory);
    };
    let done = do_apart(
        rt, alloc, volume, pass, &mut high, end, alike, lines, answer,
    );
    volume.meet(pass, high);
    done
}

/// The lines before `meet`, and those behind it.
fn parts_of<'a, 'b>(lines: &'a [&'b str]) -> (&'a [&'b str], &'a [&'b str]) {
    for (place, line) in lines.iter().enumerate() {
        if *line == "meet" {
            return (&lines[..place], &lines[place + 1..]);
        }
    }
    (lines, &[])
}

/// Does the lines before `meet` with two passes and those behind it with one.
fn do_lines<R: Wait>(
    rt: &R,
    alloc: Global,
    volume: &Volume<Ram>,
    pass: &mut Pass<Ram>,
    end: u32,
    alike: Alike,
    lines: &[&str],
    answer: &mut String,
) -> Result<(), Halt>
    requires alike { AreLike alike volume.now }
    requires pass { IsFor volume.now 0 end pass.old }
    requires end { 1 < end }
    ensures pass { IsFor volume.now 0 end pass.new }
{
    let callers = Callers { first: 0, end };
    let (apart, together) = parts_of(lines);
    do_divided(rt, alloc, volume, pass, end, alike, apart, answer)?;
    for line in together {
        do_line(rt, alloc, volume, pass, callers, alike, line, answer)?;
    }
    Ok(())
}

/// Does the lines at a fresh volume, and tells at last what is left.
fn do_at_fresh<R: Wait>(
    rt: &R,
    alloc: Global,
    alike: Alike,
    tree: &[&str],
    end: u32,
    lines: &[&str],
    answer: &mut String,
) -> Result<(), Halt>
    requires { 1 < end }
{
    let (volume, mut pass) = mounted(alloc, alike, tree, end)?;
    let done = do_lines(rt, alloc, &volume, &mut pass, end, alike, lines, answer);
    let (towers, names) = volume.unmount(pass);
    done?;
    put_left(&towers, &names, answer)
}

/// Does a step, of a fresh volume: `FILES files, CALLERS callers, PAGES pages, parents PARENT .. frames FRAMES ..`. Tells at
/// last what is left.
pub fn volume_step<R: Wait>(
    rt: &R,
    alloc: Global,
    words: &[&str],
    body: &[u8],
    answer: &mut String,
) -> Result<(), Halt> {
    let [files, "files,", callers, "callers,", rest @ ..] = words else {
        return Err(Halt::Unread);
    };
    let (pages, tree) = pages_and_tree(rest)?;
    let end = number(callers)?;
    if end < 2 {
        return Err(Halt::Impossible);
    }
    let alike = Alike {
        files: number(files)?,
        nodes: tree_of(alloc, tree)?.nodes(),
        pages,
    };
    let text = text_of(alloc, body)?;
    let lines: Vec<&str> = text.as_str().lines().collect(alloc)?;
    do_at_fresh(rt, alloc, alike, tree, end, &lines, answer)
}
