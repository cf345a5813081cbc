//! Declarations that were found to fit together.

ghost use Rattle.std.specs.Prelude.{◌≡◌, ◌≢◌, ◌<◌, ◌≤◌, ◌↔◌, IfOk, OnOk, IfErr, List, ℕ, get_or, length, None, Some};
ghost use Rattle.idl_reader.specs.Grammar.{AreDecls, IsTextOf};
ghost use Rattle.idl_reader.specs.Tree.{DeclTree, idl_tree};
ghost use Rattle.idl_check.specs.Fit.{Fit, IsFit};
ghost use Rattle.idl_check.specs.FitsTogether.{IsMadeOf, FitsTogether, Holds, IsReason};
ghost use Rattle.idl_check.specs.Reach.{ranks_of};
ghost use Rattle.idl_check.specs.Verdict.{unfit, IsUnfit};

use crate::reach::ranks;
use crate::verdict::checked_rows;
use crate::why::{IdlUnfit, UnfitWhy};
use idl_reader::{Decl, Idl};
use std::alloc::Global;
use std::marker::Model;

/// The declarations of a text that fit together. Only `check` makes it.
#[derive(Drop)]
pub struct Checked<'a> {
    idl: &'a Idl,
    ranks: Vec<usize>,
}

impl<'a> Model for Checked<'a> {
    ghost use Rattle.idl_check.specs.Fit.{Fit, IsFit};

    ghost Value = { Fit };

    ghost use Rattle.idl_reader.specs.contracts.idl.IdlType as e;
    ghost use Rattle.std.specs.Coded.{codes};

    ghost coded = { Prim.hlevel (codes, e.the_row.coded) };

    ghost view = { λ c. record { idl = c.idl.now; ranks = c.ranks.items } };

    ghost invariant = { λ c. IsFit (record { idl = c.idl.now; ranks = c.ranks.items }) };
}

impl<'a> Checked<'a> {
    /// What the text declares.
    pub fn idl(&self) -> &'a Idl
        ensures same { result.now ≡ self.now.idl }
        ensures fit { IsFit self.now }
    {
        self.idl
    }

    /// The declarations.
    pub fn decls(&self) -> &[Decl]
        ensures { result.now ≡ self.now.idl.decls }
    {
        self.idl.decls.as_slice()
    }

    /// A number for each declaration, which is greater than those of what it is made of.
    pub fn ranks(&self) -> &[usize]
        ensures { result.now ≡ self.now.ranks }
    {
        &self.ranks
    }
}

/// Finds out whether the declarations of a text fit together. Fails exactly if they do not, for the
/// first reason that holds, at its first place in the text, or if memory runs out.
pub fn check(alloc: Global, idl: &Idl) -> Result<Checked<'_>, IdlUnfit>
    requires { AreDecls (idl_tree idl.now) }
    ensures ok { IfOk result (λ checked. checked ≡ record { idl = idl.now; ranks = ranks_of (idl_tree idl.now) }) }
    ensures fit { OnOk result (FitsTogether (idl_tree idl.now)) }
    ensures unfit { IfErr result (λ e. e.why ≢ UnfitWhy.Memory → ¬ FitsTogether (idl_tree idl.now)) }
    ensures reason { IfErr result (λ e. e.why ≢ UnfitWhy.Memory → IsReason (idl_tree idl.now) e) }
    // The same by the verdict, which says the place too: `first_reason`.
    ensures sound { OnOk result (unfit (idl_tree idl.now) ≡ None) }
    ensures refused { IfErr result (λ e. IsUnfit e (unfit (idl_tree idl.now))) }
{
    let rows = checked_rows(alloc, idl.decls.as_slice())?;
    let ranks = ranks(alloc, &rows)?;
    Ok(Checked { idl, ranks })
}

/// The verdict is `None` exactly if the declarations fit together, and else it is the first reason
/// against it.
pub fn fit_exactly()
    ensures fit { (decls : List DeclTree) → (unfit decls ≡ None) ↔ FitsTogether decls }
    ensures reason { (decls : List DeclTree) (e : IdlUnfit) → unfit decls ≡ Some e → IsReason decls e }
{}

/// If a text declares them, the verdict's place is the first at which its reason holds.
pub fn first_reason()
    ensures { (text : List ℕ) (decls : List DeclTree) → IsTextOf text decls → (e : IdlUnfit) → unfit decls ≡ Some e → (place : ℕ) → Holds decls e.why place → e.place ≤ place }
{}

/// If declarations fit together, what one is made of has a smaller number than it, and each number
/// is below how many declarations there are: so a recursion on a declaration's fields or bases ends,
/// within that depth.
pub fn ranks_fall()
    ensures below { (decls : List DeclTree) → FitsTogether decls → (i : ℕ) → i < length decls → get_or (ranks_of decls) i 0 < length decls }
    ensures fall { (decls : List DeclTree) → FitsTogether decls → (i j : ℕ) → IsMadeOf decls i j → get_or (ranks_of decls) j 0 < get_or (ranks_of decls) i 0 }
{}
