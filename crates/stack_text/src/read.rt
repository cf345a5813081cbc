//! Reading a stack text.

ghost use Rattle.std.specs.Prelude.{◌≡◌, ◌∷◌, ◌<◌, ◌≤◌, ◌+◌, ◌^◌, [], map, length, Ok, IfOk, OnOk, IfErr, MatchResult};
ghost use Rattle.text_words.specs.Lines.{row_of, rows_of, words_at};
ghost use Rattle.stack_text.specs.Grammar.{IsStack, spelling};
ghost use Rattle.stack_text.specs.Why.{Fails, Gives, IsRefused, refused_line, Reads};
ghost use Rattle.stack_text.specs.Reading.{name_at, number_at, page_at, file_at, disk_at, mirror_at, upper_at, vmm_at, with_three, with_four, words_line, line_at, AddsLine, stack_at};
ghost use Rattle.stack_text.specs.declared.stack.StackText.{StackText};

use crate::stack::{LayerKind, MAX_LINES, StackLine, StackText, UpperKind};
use crate::why::{Refused, StackWhy};
use std::alloc::Global;
use text_words::{Line, is_name, number, split_line, text_of_name, words_of};
use value_types::{Items, Text};

#[tactic(auto, unfolding(crate::specs::Reading::name_at))]
fn name_of(alloc: Global, word: &[u8]) -> Result<Text, StackWhy>
    ensures { Gives result (name_at word.now) }
{
    if !is_name(word) {
        return Err(StackWhy::Name);
    }
    Ok(text_of_name(alloc, word)?)
}

#[tactic(auto, unfolding(crate::specs::Reading::number_at))]
fn number_of(word: &[u8]) -> Result<u32, StackWhy>
    ensures { Gives result (number_at word.now) }
{
    match number(word) {
        Some(n) => Ok(n),
        None => Err(StackWhy::Number),
    }
}

#[tactic(auto, unfolding(crate::specs::Reading::page_at))]
fn page(size: &[u8]) -> Result<StackLine, StackWhy>
    ensures { Gives result (page_at size.now) }
{
    let size = number_of(size)?;
    Ok(StackLine::Page { size })
}

#[tactic(auto, unfolding(crate::specs::Reading::file_at))]
fn file(alloc: Global, name: &[u8], pages: &[u8]) -> Result<StackLine, StackWhy>
    ensures { Gives result (file_at name.now pages.now) }
{
    let name = name_of(alloc, name)?;
    let pages = number_of(pages)?;
    Ok(StackLine::File { name, pages })
}

#[tactic(auto, unfolding(crate::specs::Reading::disk_at))]
fn disk(alloc: Global, name: &[u8], machine: &[u8]) -> Result<StackLine, StackWhy>
    ensures { Gives result (disk_at name.now machine.now) }
{
    let name = name_of(alloc, name)?;
    let machine = name_of(alloc, machine)?;
    let kind = LayerKind::Disk;
    Ok(StackLine::Layer {
        name,
        machine,
        kind,
    })
}

#[tactic(auto, unfolding(crate::specs::Reading::mirror_at))]
fn mirror(
    alloc: Global,
    name: &[u8],
    machine: &[u8],
    left: &[u8],
    right: &[u8],
) -> Result<StackLine, StackWhy>
    ensures { Gives result (mirror_at name.now machine.now left.now right.now) }
{
    let name = name_of(alloc, name)?;
    let machine = name_of(alloc, machine)?;
    let left = name_of(alloc, left)?;
    let right = name_of(alloc, right)?;
    let kind = LayerKind::Mirror { left, right };
    Ok(StackLine::Layer {
        name,
        machine,
        kind,
    })
}

/// An upper layer whose line has no more than its names.
#[tactic(auto, unfolding(crate::specs::Reading::upper_at))]
fn upper(
    alloc: Global,
    kind: UpperKind,
    name: &[u8],
    machine: &[u8],
    below: &[u8],
) -> Result<StackLine, StackWhy>
    ensures { Gives result (upper_at kind name.now machine.now below.now) }
{
    let name = name_of(alloc, name)?;
    let machine = name_of(alloc, machine)?;
    let below = name_of(alloc, below)?;
    let kind = LayerKind::Upper { kind, below };
    Ok(StackLine::Layer {
        name,
        machine,
        kind,
    })
}

#[tactic(auto, unfolding(crate::specs::Reading::vmm_at))]
fn vmm(
    alloc: Global,
    name: &[u8],
    machine: &[u8],
    below: &[u8],
    frames: &[u8],
) -> Result<StackLine, StackWhy>
    ensures { Gives result (vmm_at name.now machine.now below.now frames.now) }
{
    let name = name_of(alloc, name)?;
    let machine = name_of(alloc, machine)?;
    let below = name_of(alloc, below)?;
    let frames = number_of(frames)?;
    let kind = LayerKind::Upper {
        kind: UpperKind::Vmm { frames },
        below,
    };
    Ok(StackLine::Layer {
        name,
        machine,
        kind,
    })
}

fn mirror_line(alloc: Global, words: &[&[u8]]) -> Result<StackLine, StackWhy>
    ensures { Gives result (with_four mirror_at (map (λ word. word.now) words.now)) }
{
    match words {
        [name, machine, left, right] => mirror(alloc, name, machine, left, right),
        _ => Err(StackWhy::Words),
    }
}

fn upper_line(alloc: Global, kind: UpperKind, words: &[&[u8]]) -> Result<StackLine, StackWhy>
    ensures { Gives result (with_three (upper_at kind) (map (λ word. word.now) words.now)) }
{
    match words {
        [name, machine, below] => upper(alloc, kind, name, machine, below),
        _ => Err(StackWhy::Words),
    }
}

fn vmm_line(alloc: Global, words: &[&[u8]]) -> Result<StackLine, StackWhy>
    ensures { Gives result (with_four vmm_at (map (λ word. word.now) words.now)) }
{
    match words {
        [name, machine, below, frames] => vmm(alloc, name, machine, below, frames),
        _ => Err(StackWhy::Words),
    }
}

/// The line of a verb and the words after it.
#[tactic(auto, unfolding(crate::specs::Reading::words_line))]
fn by_verb(alloc: Global, verb: &[u8], words: &[&[u8]]) -> Result<StackLine, StackWhy>
    ensures { Gives result (words_line (verb.now ∷ map (λ word. word.now) words.now)) }
{
    if verb == b"page".as_slice() {
        match words {
            [size] => page(size),
            _ => Err(StackWhy::Words),
        }
    } else if verb == b"file".as_slice() {
        match words {
            [name, pages] => file(alloc, name, pages),
            _ => Err(StackWhy::Words),
        }
    } else if verb == b"disk".as_slice() {
        match words {
            [name, machine] => disk(alloc, name, machine),
            _ => Err(StackWhy::Words),
        }
    } else if verb == b"mirror".as_slice() {
        mirror_line(alloc, words)
    } else if verb == b"coherency".as_slice() {
        upper_line(alloc, UpperKind::Coherency, words)
    } else if verb == b"dfs".as_slice() {
        upper_line(alloc, UpperKind::Dfs, words)
    } else if verb == b"vmm".as_slice() {
        vmm_line(alloc, words)
    } else {
        Err(StackWhy::Verb)
    }
}

/// The line of some words.
#[tactic(auto, unfolding(crate::specs::Reading::words_line))]
fn line_of_words(alloc: Global, words: &[&[u8]]) -> Result<StackLine, StackWhy>
    ensures { Gives result (words_line (map (λ word. word.now) words.now)) }
{
    match words {
        [] => Err(StackWhy::Verb),
        [verb, rest @ ..] => by_verb(alloc, verb, rest),
    }
}

/// The line of this number.
#[tactic(auto, unfolding(crate::specs::Reading::line_at))]
fn read_line(alloc: Global, number: usize, line: Line<'_>) -> Result<StackLine, StackWhy>
    ensures { Gives result (line_at number (row_of line.entry)) }
{
    let words = words_of(alloc, line)?;
    if number > MAX_LINES {
        return Err(StackWhy::Long);
    }
    line_of_words(alloc, &words)
}

fn refusal(number: usize, why: StackWhy) -> Refused
    requires { number ≤ MAX_LINES + 1 }
    ensures { result ≡ record { line = refused_line why number; why = why } }
{
    let line = match why {
        StackWhy::Memory => 0,
        _ => number as u32,
    };
    Refused { line, why }
}

/// Adds the next line.
fn add_line(alloc: Global, lines: &mut Vec<StackLine>, line: Line<'_>) -> Result<(), StackWhy>
    ensures ok { OnOk result (AddsLine lines.old.items lines.new.items (row_of line.entry)) }
    ensures err { IfErr result (λ why. Fails why (line_at (length lines.old.items + 1) (row_of line.entry))) }
{
    let line = read_line(alloc, lines.len() + 1, line)?;
    lines.push(line)?;
    Ok(())
}

/// The lines of a text, up to the first bad one.
fn read_lines(alloc: Global, text: &[u8]) -> Result<Vec<StackLine>, Refused>
    ensures { MatchResult result (λ lines. stack_at text.now ≡ Ok lines.items) (IsRefused (stack_at text.now)) }
{
    let mut lines = Vec::new(alloc);
    let mut rest = text;
    while !rest.is_empty() {
        let (line, after) = split_line(rest);
        let number = lines.len() + 1;
        if let Err(why) = add_line(alloc, &mut lines, line) {
            return Err(refusal(number, why));
        }
        rest = after;
    }
    Ok(lines)
}

/// The stack that a text spells. It fails exactly if the text spells none, with its first bad line
/// and the first reason, or if memory runs out.
pub fn parse_stack(alloc: Global, text: &[u8]) -> Result<StackText, Refused>
    // What is read is spelled so.
    ensures found { IfOk result (λ stack. IsStack stack × (text.now ≡ spelling stack)) }
    // What is spelled so is read, unless memory runs out.
    ensures only { (stack : StackText) → IsStack stack → text.now ≡ spelling stack → Reads result stack }
    // The first bad line, and the first reason.
    ensures refused { IfErr result (IsRefused (stack_at text.now)) }
{
    match read_lines(alloc, text) {
        Ok(lines) => Ok(StackText {
            lines: Items::from_vec(lines),
        }),
        Err(refused) => Err(refused),
    }
}
