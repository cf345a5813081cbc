//! The tables of a text.

ghost use Rattle.std.specs.Prelude.{◌≡◌, ◌≤◌, ◌*◌, ◌↔◌, ℕ, IfOk, Some, All, length};
ghost use Rattle.idl_reader.specs.Tree.{idl_tree};
ghost use Rattle.idl_tables.specs.Differ.{HaveOwnNames};
ghost use Rattle.idl_tables.specs.TableSet.{IsTabled, IsNumberOf};
ghost use Rattle.idl_tables.specs.Rule.{FollowBases};
ghost use Rattle.idl_tables.specs.Tables.{tables_of, tables_text};

use crate::entries::{number_in, tables_of};
use crate::entry::Entry;
use crate::laws::{tables_are_few, tables_follow_bases};
use crate::print::tables_text;
use idl_check::Checked;
use idl_reader::{Idl, MAX_DECLS, MAX_MEMBERS};
use std::alloc::{AllocError, Global};
use std::marker::Model;
use value_types::Bytes;

/// The declarations of a text that fit together, with the operations of each interface. Only
/// `tables` makes it.
#[derive(Drop)]
pub struct TableSet<'a> {
    idl: &'a Idl,
    ranks: Vec<usize>,
    tables: Vec<Vec<Entry<'a>>>,
}

impl<'a> Model for TableSet<'a> {
    ghost use Rattle.std.specs.Prelude.{map};
    ghost use Rattle.idl_tables.specs.TableSet.{Tabled, IsTabled};
    ghost use Rattle.idl_tables.specs.Entries.{operation};

    ghost Value = { Tabled };

    ghost use Rattle.idl_reader.specs.contracts.idl.IdlType as e;
    ghost use Rattle.std.specs.Coded.{codes};

    ghost coded = { Prim.hlevel (codes, e.the_row.coded) };

    ghost view = { λ s. record { idl = s.idl.now; ranks = s.ranks.items; tables = map (λ t. map (λ e. operation e) t.items) s.tables.items } };

    ghost invariant = { λ s. IsTabled (record { idl = s.idl.now; ranks = s.ranks.items; tables = map (λ t. map (λ e. operation e) t.items) s.tables.items }) };
}

impl<'a> TableSet<'a> {
    /// What the text declares.
    pub fn idl(&self) -> &'a Idl
        ensures same { result.now ≡ self.now.idl }
        ensures tabled { IsTabled self.now }
    {
        self.idl
    }

    /// A number for each declaration, which is greater than those of what it is made of.
    pub fn ranks(&self) -> &[usize]
        ensures { result.now ≡ self.now.ranks }
    {
        &self.ranks
    }

    /// The number of an operation in the table of its interface, counted from 0, by the names of
    /// the interface and of the operation. `None` if the set has no such interface or operation.
    pub fn op_number(&self, interface: &str, name: &str) -> Option<u16>
        ensures { (number : ℕ) → (result ≡ Some number) ↔ IsNumberOf self.now interface.now name.now number }
    {
        let decls = self.idl.decls.as_slice();
        let number = number_in(decls, &self.tables, interface, name)?;
        Some(number as u16)
    }
}

/// The operations of the interfaces: those of the bases in order, each once, then an interface's
/// own. Fails only if memory runs out.
pub fn tables<'a>(alloc: Global, checked: &Checked<'a>) -> Result<TableSet<'a>, AllocError>
    ensures idl { IfOk result (λ set. set.idl ≡ checked.now.idl) }
    ensures ranks { IfOk result (λ set. set.ranks ≡ checked.now.ranks) }
    ensures tables { IfOk result (λ set. set.tables ≡ tables_of (idl_tree checked.now.idl)) }
    ensures rule { IfOk result (λ set. FollowBases (idl_tree checked.now.idl) set.tables) }
    ensures differ { IfOk result (λ set. All HaveOwnNames set.tables) }
    ensures few { IfOk result (λ set. All (λ table. length table ≤ MAX_DECLS * MAX_MEMBERS) set.tables) }
{
    tables_follow_bases();
    tables_are_few();
    let idl = checked.idl();
    let ranks = Vec::from_slice(alloc, checked.ranks())?;
    let tables = tables_of(alloc, idl.decls.as_slice())?;
    Ok(TableSet { idl, ranks, tables })
}

/// For each interface in the order of the text a line `interface NAME`, and then for each of its
/// operations a line with its number, its name and the interface that declares it. Fails only if
/// memory runs out.
pub fn print_tables(alloc: Global, set: &TableSet<'_>) -> Result<Bytes, AllocError>
    ensures { IfOk result (λ text. text ≡ tables_text set.now.tables 0 (idl_tree set.now.idl)) }
{
    tables_text(alloc, set.idl.decls.as_slice(), &set.tables)
}
