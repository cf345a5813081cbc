//! Whether declarations fit together.

ghost use Rattle.std.specs.Prelude.{◌≡◌, ◌<◌, ◌&&◌, ◌^◌, All, IfOk, map, length, [], not, nat_eq, None, Some, MatchResult};
ghost use Rattle.std.specs.List.{flat_map, list_any};
ghost use Rattle.idl_reader.specs.Tree.{op_tree, decl_tree, idl_tree};
ghost use Rattle.idl_check.specs.Names.{decl_name, is_interface, has_name, op_names};
ghost use Rattle.idl_check.specs.Reach.{at, reached};
ghost use Rattle.idl_check.specs.Verdict.{first_failing, declares, declares_interface, first_unknown, first_wrong_base, cycle_from, first_cycle, shares_name, sharing, sharing_row, clashes_at, clashes_with, has_ops, any_below, has_clash, clash_from, first_clash, passes, IsUnfit, unfit};

use crate::names::{all_bases, all_uses, decl_name, has_name, is_interface};
use crate::reach::{answer, ranks, reached};
use crate::repeats::repeat_in;
use crate::why::{IdlUnfit, UnfitWhy};
use idl_reader::{Decl, Idl, IdlOp, Word};
use std::alloc::{AllocError, Global};

/// The names of the declarations.
fn decl_names<'a>(alloc: Global, decls: &'a [Decl]) -> Result<Vec<&'a Word>, AllocError>
    ensures { IfOk result (λ names. map (λ word. word.now) names.items ≡ map (λ d. decl_name d) (map (λ d. decl_tree d) decls.now)) }
{
    let mut names = Vec::new(alloc);
    for decl in decls {
        names.push(decl_name(decl))?;
    }
    Ok(names)
}

/// The first word that is none of the names.
fn not_among(names: &[&Word], words: &[&Word]) -> Option<u32>
    ensures { result ≡ first_failing (λ word. has_name word.text (map (λ name. name.now) names.now)) (map (λ word. word.now) words.now) }
{
    for word in words {
        if !has_name(names, word.text.as_str()) {
            return Some(word.place);
        }
    }
    None
}

/// The first type or base that is not declared.
fn first_unknown(alloc: Global, decls: &[Decl]) -> Result<Option<u32>, AllocError>
    ensures { IfOk result (λ place. place ≡ first_unknown (map (λ d. decl_tree d) decls.now)) }
{
    let names = decl_names(alloc, decls)?;
    let words = all_uses(alloc, decls)?;
    Ok(not_among(&names, &words))
}

/// Whether a name is that of an interface.
fn declares_interface(decls: &[Decl], word: &Word) -> bool
    ensures { result ≡ declares_interface (map (λ d. decl_tree d) decls.now) word.now }
{
    decls.iter().any(|decl| is_interface(decl)
        && decl_name(decl).text.as_str() == word.text.as_str())
}

/// The first word that names no interface.
fn first_other(decls: &[Decl], words: &[&Word]) -> Option<u32>
    ensures { result ≡ first_failing (λ word. declares_interface (map (λ d. decl_tree d) decls.now) word) (map (λ word. word.now) words.now) }
{
    for word in words {
        if !declares_interface(decls, word) {
            return Some(word.place);
        }
    }
    None
}

/// The first base that is no interface.
fn first_wrong_base(alloc: Global, decls: &[Decl]) -> Result<Option<u32>, AllocError>
    ensures { IfOk result (λ place. place ≡ first_wrong_base (map (λ d. decl_tree d) decls.now)) }
{
    let words = all_bases(alloc, decls)?;
    Ok(first_other(decls, &words))
}

/// The first declaration that reaches itself.
fn first_cycle(decls: &[Decl], rows: &[Vec<bool>]) -> Option<u32>
    ensures { result ≡ cycle_from (map (λ row. row.items) rows.now) 0 (map (λ d. decl_tree d) decls.now) }
{
    for (i, decl) in decls.iter().enumerate() {
        if answer(rows, i, i) {
            return Some(decl_name(decl).place);
        }
    }
    None
}

/// The names of the operations that a declaration declares itself.
fn op_names<'a>(alloc: Global, decl: &'a Decl) -> Result<Vec<&'a Word>, AllocError>
    ensures { IfOk result (λ names. map (λ word. word.now) names.items ≡ op_names (decl_tree decl.now)) }
{
    match decl {
        Decl::Interface { ops, .. } => names_of_ops(alloc, ops.as_slice()),
        Decl::Struct { .. } | Decl::Enum { .. } => Ok(Vec::new(alloc)),
    }
}

fn names_of_ops<'a>(alloc: Global, ops: &'a [IdlOp]) -> Result<Vec<&'a Word>, AllocError>
    ensures { IfOk result (λ names. map (λ word. word.now) names.items ≡ map (λ op. op.name) (map (λ op. op_tree op) ops.now)) }
{
    let mut names = Vec::new(alloc);
    for op in ops {
        names.push(&op.name)?;
    }
    Ok(names)
}

/// Whether one of the words is among the names.
fn one_among(names: &[&Word], words: &[&Word]) -> bool
    ensures { result ≡ list_any (λ word. has_name word.text (map (λ name. name.now) names.now)) (map (λ word. word.now) words.now) }
{
    words.iter().any(|word| has_name(names, word.text.as_str()))
}

/// Whether two declarations have an operation of one name.
fn shares_name(alloc: Global, one: &Decl, other: &Decl) -> Result<bool, AllocError>
    ensures { IfOk result (λ shares. shares ≡ shares_name (decl_tree one.now) (decl_tree other.now)) }
{
    let words = op_names(alloc, one)?;
    let names = op_names(alloc, other)?;
    Ok(one_among(&names, &words))
}

#[tactic(auto, unfolding(crate::specs::Verdict::sharing_row))]
fn sharing_row(alloc: Global, decl: &Decl, decls: &[Decl]) -> Result<Vec<bool>, AllocError>
    ensures { IfOk result (λ row. row.items ≡ sharing_row (map (λ d. decl_tree d) decls.now) (decl_tree decl.now)) }
{
    let mut row = Vec::new(alloc);
    for other in decls {
        row.push(shares_name(alloc, decl, other)?)?;
    }
    Ok(row)
}

/// Which two declarations have an operation of one name.
fn sharing(alloc: Global, decls: &[Decl]) -> Result<Vec<Vec<bool>>, AllocError>
    ensures { IfOk result (λ rows. map (λ row. row.items) rows.items ≡ sharing (map (λ d. decl_tree d) decls.now)) }
{
    let mut rows = Vec::new(alloc);
    for decl in decls {
        rows.push(sharing_row(alloc, decl, decls)?)?;
    }
    Ok(rows)
}

/// Whether the i-th declaration has the operations of the k-th.
fn has_ops(rows: &[Vec<bool>], i: usize, k: usize) -> bool
    ensures { result ≡ has_ops (map (λ row. row.items) rows.now) i k }
{
    i == k || answer(rows, i, k)
}

/// Whether the i-th declaration has the operations of the l-th, which shares a name with the k-th.
fn clashes_at(rows: &[Vec<bool>], shared: &[Vec<bool>], i: usize, k: usize, l: usize) -> bool
    ensures { result ≡ clashes_at (map (λ row. row.items) rows.now) (map (λ row. row.items) shared.now) i k l }
{
    has_ops(rows, i, l) && k != l && answer(shared, k, l)
}

fn one_clashes(rows: &[Vec<bool>], shared: &[Vec<bool>], i: usize, k: usize) -> bool
    ensures { result ≡ any_below (length rows.now) (clashes_at (map (λ row. row.items) rows.now) (map (λ row. row.items) shared.now) i k) }
{
    (0..rows.len()).any(|l| clashes_at(rows, shared, i, k, l))
}

/// The same, where the i-th has the operations of the k-th too.
fn clashes_with(rows: &[Vec<bool>], shared: &[Vec<bool>], i: usize, k: usize) -> bool
    ensures { result ≡ clashes_with (map (λ row. row.items) rows.now) (map (λ row. row.items) shared.now) i k }
{
    has_ops(rows, i, k) && one_clashes(rows, shared, i, k)
}

/// Whether two interfaces whose operations the i-th declaration has have one of one name.
fn has_clash(rows: &[Vec<bool>], shared: &[Vec<bool>], i: usize) -> bool
    ensures { result ≡ has_clash (map (λ row. row.items) rows.now) (map (λ row. row.items) shared.now) i }
{
    (0..rows.len()).any(|k| clashes_with(rows, shared, i, k))
}

/// The first interface with a clash.
fn first_clash(decls: &[Decl], rows: &[Vec<bool>], shared: &[Vec<bool>]) -> Option<u32>
    ensures { result ≡ clash_from (map (λ row. row.items) rows.now) (map (λ row. row.items) shared.now) 0 (map (λ d. decl_tree d) decls.now) }
{
    for (i, decl) in decls.iter().enumerate() {
        if is_interface(decl) && has_clash(rows, shared, i) {
            return Some(decl_name(decl).place);
        }
    }
    None
}

fn unfit_at(why: UnfitWhy, place: Option<u32>) -> Result<(), IdlUnfit>
    ensures { result ≡ passes why place }
{
    match place {
        Some(place) => Err(IdlUnfit { place, why }),
        None => Ok(()),
    }
}

/// Tests one reason after the other; gives which declaration reaches which.
#[tactic(auto, unfolding(crate::specs::Verdict::unfit))]
pub fn checked_rows(alloc: Global, decls: &[Decl]) -> Result<Vec<Vec<bool>>, IdlUnfit>
    ensures { MatchResult result (λ rows. (unfit (map (λ d. decl_tree d) decls.now) ≡ None) × (map (λ row. row.items) rows.items ≡ reached (map (λ d. decl_tree d) decls.now))) (λ e. IsUnfit e (unfit (map (λ d. decl_tree d) decls.now))) }
{
    unfit_at(UnfitWhy::Repeated, repeat_in(alloc, decls)?)?;
    unfit_at(UnfitWhy::UnknownType, first_unknown(alloc, decls)?)?;
    unfit_at(UnfitWhy::NotInterface, first_wrong_base(alloc, decls)?)?;
    let rows = reached(alloc, decls)?;
    unfit_at(UnfitWhy::Cycle, first_cycle(decls, &rows))?;
    let shared = sharing(alloc, decls)?;
    unfit_at(UnfitWhy::Clash, first_clash(decls, &rows, &shared))?;
    Ok(rows)
}
