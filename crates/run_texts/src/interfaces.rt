//! The interfaces that a text declares.

ghost use Rattle.std.specs.Prelude.{◌≡◌, ◌≤◌, ◌<◌, ◌^◌, List, IfOk, IfErr, OnOk, length};
ghost use Rattle.idl_check.specs.FitsTogether.{FitsTogether};
ghost use Rattle.idl_reader.specs.Tree.{DeclTree, idl_tree};
ghost use Rattle.idl_reader.specs.Grammar.{AreDecls, IsTextOf};
ghost use Rattle.run_texts.specs.Stacks.{SameTexts};
ghost use Rattle.run_texts.specs.Interfaces.{AreLines, AreOps, AreTablesOf, Declares, HasInterfaces, IsUnfitBy, IsLackedBy, RefusesInterfaces, RefusesOps, IsInterfacesCause, IsOpsCause};

use crate::ops::ops_of;
use crate::refusal::Refusal;
use crate::texts::read_text;
use idl_check::{Checked, UnfitWhy, check};
use idl_reader::{Idl, IdlWhy, read_idl};
use idl_tables::{print_tables, tables};
use pager_channel::Ops;
use spr_io::Shelf;
use std::alloc::{AllocError, Global};
use value_types::{Bytes, Text};

/// The most bytes that a text of interfaces may have.
pub const IDL_LIMIT: u32 = 65_536;

/// The declarations of a text.
fn parse(alloc: Global, text: &[u8]) -> Result<Idl, Refusal>
    requires few { length text.now < 2 ^ 32 }
    ensures ok { IfOk result (λ idl. IsTextOf text.now (idl_tree idl)) }
    ensures err { IfErr result (RefusesInterfaces text.now) }
{
    match read_idl(alloc, text) {
        Ok(idl) => Ok(idl),
        Err(refused) => match refused.why {
            IdlWhy::Memory => Err(Refusal::Memory),
            why => Err(Refusal::Idl {
                place: refused.place,
                why,
            }),
        },
    }
}

/// Checks that declarations fit together.
fn check_fit(alloc: Global, idl: &Idl) -> Result<Checked<'_>, Refusal>
    requires { AreDecls (idl_tree idl.now) }
    ensures ok { IfOk result (λ _. FitsTogether (idl_tree idl.now)) }
    ensures same { IfOk result (λ checked. checked.idl ≡ idl.now) }
    ensures err { IfErr result (IsUnfitBy (idl_tree idl.now)) }
{
    match check(alloc, idl) {
        Ok(checked) => Ok(checked),
        Err(unfit) => match unfit.why {
            UnfitWhy::Memory => Err(Refusal::Memory),
            why => Err(Refusal::IdlUnfit {
                place: unfit.place,
                why,
            }),
        },
    }
}

/// The numbers of the operations in the tables of a text.
fn ops_in(alloc: Global, text: &[u8]) -> Result<Ops, Refusal>
    requires few { length text.now < 2 ^ 32 }
    ensures ok { IfOk result (λ ops. (decls : List DeclTree) × IsTextOf text.now decls × AreOps decls ops) }
    ensures err { IfErr result (RefusesOps text.now) }
{
    let idl = parse(alloc, text)?;
    let checked = check_fit(alloc, &idl)?;
    find_ops(alloc, &checked)
}

/// The numbers of the operations in the tables of interfaces that fit together.
fn find_ops(alloc: Global, checked: &Checked<'_>) -> Result<Ops, Refusal>
    ensures ok { IfOk result (AreOps (idl_tree checked.now.idl)) }
    ensures err { IfErr result (IsLackedBy (idl_tree checked.now.idl)) }
{
    let Ok(set) = tables(alloc, checked) else {
        return Err(Refusal::Memory);
    };
    // Only for the proof: the tables are those of the declarations.
    let _idl = set.idl();
    match ops_of(&set) {
        Ok(ops) => Ok(ops),
        Err(which) => Err(Refusal::IdlMissing { which }),
    }
}

/// The lines of the tables of a text.
fn tables_text(alloc: Global, text: &[u8]) -> Result<Bytes, Refusal>
    requires few { length text.now < 2 ^ 32 }
    ensures ok { IfOk result (λ lines. (decls : List DeclTree) × Declares text.now decls × AreLines decls lines) }
    ensures err { IfErr result (RefusesInterfaces text.now) }
{
    let idl = parse(alloc, text)?;
    let checked = check_fit(alloc, &idl)?;
    print(alloc, &checked)
}

/// The lines of the tables of interfaces that fit together.
fn print(alloc: Global, checked: &Checked<'_>) -> Result<Bytes, Refusal>
    ensures ok { IfOk result (AreLines (idl_tree checked.now.idl)) }
    ensures err { IfErr result (λ why. why ≡ Refusal.Memory) }
{
    let Ok(set) = tables(alloc, checked) else {
        return Err(Refusal::Memory);
    };
    match print_tables(alloc, &set) {
        Ok(lines) => Ok(lines),
        Err(AllocError) => Err(Refusal::Memory),
    }
}

/// Reads the interfaces of a name, and gives the lines of their tables.
pub fn read_tables<H: Shelf>(alloc: Global, shelf: &mut H, name: &Text) -> Result<Bytes, Refusal>
    ensures ok { IfOk result (AreTablesOf (H.told shelf.old) name.now) }
    ensures err { IfErr result (IsInterfacesCause (H.told shelf.old) (H.told shelf.new) name.now) }
    ensures calm { OnOk result ((H.told shelf.new).faults ≡ (H.told shelf.old).faults) }
{
    let text = read_text(alloc, shelf, name, IDL_LIMIT, Refusal::IdlShelf)?;
    tables_text(alloc, &text)
}

/// Reads the interfaces of a name, which fit together, and gives the numbers of their operations.
pub(crate) fn read_interfaces<H: Shelf>(
    alloc: Global,
    shelf: &mut H,
    name: &Text,
) -> Result<Ops, Refusal>
    ensures ok { IfOk result (HasInterfaces (H.told shelf.old) name.now) }
    ensures err { IfErr result (IsOpsCause (H.told shelf.old) (H.told shelf.new) name.now) }
    ensures same { SameTexts (H.told shelf.old) (H.told shelf.new) }
    ensures calm { OnOk result ((H.told shelf.new).faults ≡ (H.told shelf.old).faults) }
    ensures later { (H.told shelf.old).faults ≤ (H.told shelf.new).faults }
{
    let text = read_text(alloc, shelf, name, IDL_LIMIT, Refusal::IdlShelf)?;
    ops_in(alloc, &text)
}
