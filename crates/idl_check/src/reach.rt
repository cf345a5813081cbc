//! Which declaration reaches which.

ghost use Rattle.std.specs.Prelude.{◌≡◌, ◌<◌, IfOk, map, get_or, length, [], if◌then◌else◌, false, true, count_by};
ghost use Rattle.idl_reader.specs.Tree.{decl_tree};
ghost use Rattle.idl_check.specs.Names.{decl_name, has_name};
ghost use Rattle.idl_check.specs.Reach.{at, direct, direct_row, either_row, through_row, through, ways, reached};

use crate::names::{decl_name, has_name, parts_of};
use idl_reader::{Decl, Word};
use std::alloc::{AllocError, Global};

/// For each declaration, whether its name is among the words.
fn named_among(alloc: Global, words: &[&Word], decls: &[Decl]) -> Result<Vec<bool>, AllocError>
    ensures { IfOk result (λ row. row.items ≡ map (λ d. has_name (decl_name d).text (map (λ word. word.now) words.now)) (map (λ d. decl_tree d) decls.now)) }
{
    let mut row = Vec::new(alloc);
    for decl in decls {
        row.push(has_name(words, decl_name(decl).text.as_str()))?;
    }
    Ok(row)
}

#[tactic(auto, unfolding(crate::specs::Reach::direct_row))]
fn direct_row(alloc: Global, decl: &Decl, decls: &[Decl]) -> Result<Vec<bool>, AllocError>
    ensures { IfOk result (λ row. row.items ≡ direct_row (map (λ d. decl_tree d) decls.now) (decl_tree decl.now)) }
{
    let parts = parts_of(alloc, decl)?;
    named_among(alloc, &parts, decls)
}

/// Which declaration is made of which.
fn direct(alloc: Global, decls: &[Decl]) -> Result<Vec<Vec<bool>>, AllocError>
    ensures { IfOk result (λ rows. map (λ row. row.items) rows.items ≡ direct (map (λ d. decl_tree d) decls.now)) }
{
    let mut rows = Vec::new(alloc);
    for decl in decls {
        rows.push(direct_row(alloc, decl, decls)?)?;
    }
    Ok(rows)
}

fn either_row(alloc: Global, row: &[bool], via: &[bool]) -> Result<Vec<bool>, AllocError>
    ensures { IfOk result (λ out. out.items ≡ either_row row.now via.now) }
{
    let mut out = Vec::new(alloc);
    let mut rest = via;
    for answer in row {
        match rest {
            [] => out.push(*answer)?,
            [other, others @ ..] => {
                out.push(*answer || *other)?;
                rest = others;
            }
        }
    }
    Ok(out)
}

fn through_row(alloc: Global, k: usize, via: &[bool], row: &[bool]) -> Result<Vec<bool>, AllocError>
    ensures { IfOk result (λ out. out.items ≡ through_row k via.now row.now) }
{
    if row.get(k).is_some_and(|leads| *leads) {
        either_row(alloc, row, via)
    } else {
        Vec::from_slice(alloc, row)
    }
}

/// The ways that go through the k-th declaration too.
#[tactic(auto, unfolding(crate::specs::Reach::through))]
fn through(alloc: Global, k: usize, rows: &[Vec<bool>]) -> Result<Vec<Vec<bool>>, AllocError>
    requires { k < length rows.now }
    ensures { IfOk result (λ out. map (λ row. row.items) out.items ≡ through k (map (λ row. row.items) rows.now)) }
{
    let mut out = Vec::new(alloc);
    for row in rows {
        out.push(through_row(alloc, k, &rows[k], row)?)?;
    }
    Ok(out)
}

/// Which declaration reaches which.
pub fn reached(alloc: Global, decls: &[Decl]) -> Result<Vec<Vec<bool>>, AllocError>
    ensures { IfOk result (λ rows. map (λ row. row.items) rows.items ≡ reached (map (λ d. decl_tree d) decls.now)) }
{
    let mut rows = direct(alloc, decls)?;
    for k in 0..decls.len() {
        rows = through(alloc, k, &rows)?;
    }
    Ok(rows)
}

/// An answer of a table.
pub fn answer(rows: &[Vec<bool>], i: usize, j: usize) -> bool
    ensures { result ≡ at (map (λ row. row.items) rows.now) i j }
{
    if i >= rows.len() {
        return false;
    }
    let row = &rows[i];
    j < row.len() && row[j]
}

/// How many declarations each reaches.
pub fn ranks(alloc: Global, rows: &[Vec<bool>]) -> Result<Vec<usize>, AllocError>
    ensures { IfOk result (λ ranks. ranks.items ≡ map (λ row. count_by (λ b. b) row) (map (λ row. row.items) rows.now)) }
{
    let mut ranks = Vec::new(alloc);
    for row in rows {
        ranks.push(rank(row))?;
    }
    Ok(ranks)
}

fn rank(row: &[bool]) -> usize
    ensures { result ≡ count_by (λ b. b) row.now }
{
    row.iter().filter(|leads| **leads).count()
}
