//! Whose operations an interface has.

ghost use Rattle.std.specs.Prelude.{◌≡◌, IfOk, OnOk, map, [], ◌++◌, ◌∷◌, get_or};
ghost use Rattle.idl_reader.specs.Tree.{decl_tree};
ghost use Rattle.idl_tables.specs.Lines.{spot, base_spots, all_spots, has_spot, once_after, merged, joined_line, next_from, lines_to, lines_of};

use idl_check::decl_name;
use idl_reader::{Decl, Word};
use std::alloc::{AllocError, Global};

/// Where the declaration of a name stands.
fn spot(decls: &[Decl], name: &str) -> usize
    ensures { result ≡ spot (map (λ d. decl_tree d) decls.now) name.now }
{
    for (i, decl) in decls.iter().enumerate() {
        if decl_name(decl).text.as_str() == name {
            return i;
        }
    }
    decls.len()
}

fn spots_of(alloc: Global, decls: &[Decl], words: &[Word]) -> Result<Vec<usize>, AllocError>
    ensures { IfOk result (λ spots. spots.items ≡ map (λ base. spot (map (λ d. decl_tree d) decls.now) base.text) words.now) }
{
    let mut spots = Vec::new(alloc);
    for word in words {
        spots.push(spot(decls, word.text.as_str()))?;
    }
    Ok(spots)
}

/// Where the bases of a declaration stand.
#[tactic(auto, unfolding(crate::specs::Lines::base_spots))]
fn base_spots(alloc: Global, decls: &[Decl], decl: &Decl) -> Result<Vec<usize>, AllocError>
    ensures { IfOk result (λ spots. spots.items ≡ base_spots (map (λ d. decl_tree d) decls.now) (decl_tree decl.now)) }
{
    match decl {
        Decl::Interface { bases, .. } => spots_of(alloc, decls, bases.as_slice()),
        Decl::Struct { .. } | Decl::Enum { .. } => Ok(Vec::new(alloc)),
    }
}

fn all_spots(alloc: Global, decls: &[Decl]) -> Result<Vec<Vec<usize>>, AllocError>
    ensures { IfOk result (λ spots. map (λ s. s.items) spots.items ≡ all_spots (map (λ d. decl_tree d) decls.now)) }
{
    let mut spots = Vec::new(alloc);
    for decl in decls {
        spots.push(base_spots(alloc, decls, decl)?)?;
    }
    Ok(spots)
}

fn has_spot(spots: &[usize], k: usize) -> bool
    ensures { result ≡ has_spot k spots.now }
{
    spots.iter().any(|spot| *spot == k)
}

/// Adds to a line what it has not yet.
fn add_once(line: &mut Vec<usize>, more: &[usize]) -> Result<(), AllocError>
    ensures { OnOk result (line.new.items ≡ once_after line.old.items more.now) }
{
    for k in more {
        if !has_spot(line, *k) {
            line.push(*k)?;
        }
    }
    Ok(())
}

fn line_at(lines: &[Vec<usize>], k: usize) -> &[usize]
    ensures { result.now ≡ get_or (map (λ line. line.items) lines.now) k [] }
{
    if k < lines.len() { &lines[k] } else { &[] }
}

fn joined_bases(
    alloc: Global,
    lines: &[Vec<usize>],
    bases: &[usize],
) -> Result<Vec<usize>, AllocError>
    ensures { IfOk result (λ line. line.items ≡ merged (map (λ line. line.items) lines.now) [] bases.now) }
{
    let mut line = Vec::new(alloc);
    for base in bases {
        add_once(&mut line, line_at(lines, *base))?;
    }
    Ok(line)
}

/// The lines of the bases in order, each declaration once, and then this one.
#[tactic(auto, unfolding(crate::specs::Lines::joined_line))]
fn joined_line(
    alloc: Global,
    lines: &[Vec<usize>],
    bases: &[usize],
    i: usize,
) -> Result<Vec<usize>, AllocError>
    ensures { IfOk result (λ line. line.items ≡ joined_line (map (λ line. line.items) lines.now) bases.now i) }
{
    let mut line = joined_bases(alloc, lines, bases)?;
    line.push(i)?;
    Ok(line)
}

fn next_lines(
    alloc: Global,
    lines: &[Vec<usize>],
    spots: &[Vec<usize>],
) -> Result<Vec<Vec<usize>>, AllocError>
    ensures { IfOk result (λ next. map (λ line. line.items) next.items ≡ next_from (map (λ line. line.items) lines.now) 0 (map (λ s. s.items) spots.now)) }
{
    let mut next = Vec::new(alloc);
    for (i, bases) in spots.iter().enumerate() {
        next.push(joined_line(alloc, lines, bases, i)?)?;
    }
    Ok(next)
}

fn no_lines(alloc: Global, spots: &[Vec<usize>]) -> Result<Vec<Vec<usize>>, AllocError>
    ensures { IfOk result (λ lines. map (λ line. line.items) lines.items ≡ map (λ bases. []) (map (λ s. s.items) spots.now)) }
{
    let mut lines = Vec::new(alloc);
    for _ in spots {
        lines.push(Vec::new(alloc))?;
    }
    Ok(lines)
}

/// For each declaration, those whose operations it has, in order.
pub fn lines_of(alloc: Global, decls: &[Decl]) -> Result<Vec<Vec<usize>>, AllocError>
    ensures { IfOk result (λ lines. map (λ line. line.items) lines.items ≡ lines_of (map (λ d. decl_tree d) decls.now)) }
{
    let spots = all_spots(alloc, decls)?;
    let mut lines = no_lines(alloc, &spots)?;
    for _ in 0..decls.len() {
        lines = next_lines(alloc, &lines, &spots)?;
    }
    Ok(lines)
}
