//! The operations of interfaces, and their numbers.

ghost use Rattle.std.specs.Prelude.{◌≡◌, ◌++◌, [], IfOk, OnOk, map, get_or, slice_get};
ghost use Rattle.std.specs.Option.{option_map};
ghost use Rattle.idl_reader.specs.Tree.{op_tree, decl_tree};
ghost use Rattle.idl_check.specs.Names.{decl_name, is_interface};
ghost use Rattle.idl_tables.specs.Entries.{operation};
ghost use Rattle.idl_tables.specs.Tables.{own_of, own_at, line_table, tables_of, number_from, number_in, table_named};

use crate::entry::Entry;
use crate::lines::lines_of;
use idl_check::{decl_name, is_interface};
use idl_reader::{Decl, IdlOp, Word};
use std::alloc::{AllocError, Global};

fn put_ops<'a>(
    out: &mut Vec<Entry<'a>>,
    declarer: &'a Word,
    ops: &'a [IdlOp],
) -> Result<(), AllocError>
    ensures { OnOk result (map (λ e. operation e) out.new.items ≡ map (λ e. operation e) out.old.items ++ map (λ word. record { name = word.text; declarer = declarer.now.text }) (map (λ op. op.name) (map (λ op. op_tree op) ops.now))) }
{
    for op in ops {
        out.push(Entry {
            name: &op.name,
            declarer,
        })?;
    }
    Ok(())
}

/// Adds the operations that a declaration declares itself.
#[tactic(auto, unfolding(crate::specs::Tables::own_of))]
fn put_own<'a>(out: &mut Vec<Entry<'a>>, decl: &'a Decl) -> Result<(), AllocError>
    ensures { OnOk result (map (λ e. operation e) out.new.items ≡ map (λ e. operation e) out.old.items ++ own_of (decl_tree decl.now)) }
{
    match decl {
        Decl::Interface { name, ops, .. } => put_ops(out, name, ops.as_slice()),
        Decl::Struct { .. } | Decl::Enum { .. } => Ok(()),
    }
}

fn put_at<'a>(out: &mut Vec<Entry<'a>>, decls: &'a [Decl], k: usize) -> Result<(), AllocError>
    ensures { OnOk result (map (λ e. operation e) out.new.items ≡ map (λ e. operation e) out.old.items ++ own_at (slice_get (map (λ d. decl_tree d) decls.now) k)) }
{
    if k < decls.len() {
        put_own(out, &decls[k])
    } else {
        Ok(())
    }
}

/// The operations of a line of declarations.
#[tactic(auto, unfolding(crate::specs::Tables::line_table))]
fn line_table<'a>(
    alloc: Global,
    decls: &'a [Decl],
    line: &[usize],
) -> Result<Vec<Entry<'a>>, AllocError>
    ensures { IfOk result (λ table. map (λ e. operation e) table.items ≡ line_table (map (λ d. decl_tree d) decls.now) line.now) }
{
    let mut out = Vec::new(alloc);
    for k in line {
        put_at(&mut out, decls, *k)?;
    }
    Ok(out)
}

/// The operations of each declaration.
pub fn tables_of<'a>(alloc: Global, decls: &'a [Decl]) -> Result<Vec<Vec<Entry<'a>>>, AllocError>
    ensures { IfOk result (λ tables. map (λ t. map (λ e. operation e) t.items) tables.items ≡ tables_of (map (λ d. decl_tree d) decls.now)) }
{
    let lines = lines_of(alloc, decls)?;
    line_tables(alloc, decls, &lines)
}

fn line_tables<'a>(
    alloc: Global,
    decls: &'a [Decl],
    lines: &[Vec<usize>],
) -> Result<Vec<Vec<Entry<'a>>>, AllocError>
    ensures { IfOk result (λ tables. map (λ t. map (λ e. operation e) t.items) tables.items ≡ map (λ line. line_table (map (λ d. decl_tree d) decls.now) line) (map (λ line. line.items) lines.now)) }
{
    let mut tables = Vec::new(alloc);
    for line in lines {
        tables.push(line_table(alloc, decls, line)?)?;
    }
    Ok(tables)
}

pub fn table_at<'b, 'a>(tables: &'b [Vec<Entry<'a>>], i: usize) -> &'b [Entry<'a>]
    ensures { map (λ e. operation e) result.now ≡ get_or (map (λ t. map (λ e. operation e) t.items) tables.now) i [] }
{
    if i < tables.len() { &tables[i] } else { &[] }
}

/// The table of the interface of this name.
fn table_named<'b, 'a>(
    decls: &[Decl],
    tables: &'b [Vec<Entry<'a>>],
    name: &str,
) -> Option<&'b [Entry<'a>]>
    ensures { option_map (λ table. map (λ e. operation e) table.now) result ≡ table_named (map (λ t. map (λ e. operation e) t.items) tables.now) 0 (map (λ d. decl_tree d) decls.now) name.now }
{
    for (i, decl) in decls.iter().enumerate() {
        if is_interface(decl) && decl_name(decl).text.as_str() == name {
            return Some(table_at(tables, i));
        }
    }
    None
}

/// The number of the operation of this name in the table of the interface of that name.
pub fn number_in(
    decls: &[Decl],
    tables: &[Vec<Entry<'_>>],
    interface: &str,
    name: &str,
) -> Option<usize>
    ensures { result ≡ number_in name.now (table_named (map (λ t. map (λ e. operation e) t.items) tables.now) 0 (map (λ d. decl_tree d) decls.now) interface.now) }
{
    let table = table_named(decls, tables, interface)?;
    number_of(table, name)
}

/// The number of the first operation of this name.
fn number_of(table: &[Entry<'_>], name: &str) -> Option<usize>
    ensures { result ≡ number_from 0 name.now (map (λ e. operation e) table.now) }
{
    for (i, entry) in table.iter().enumerate() {
        if entry.name.text.as_str() == name {
            return Some(i);
        }
    }
    None
}
