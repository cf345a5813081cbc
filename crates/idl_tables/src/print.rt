//! Writing tables.

ghost use Rattle.std.specs.Prelude.{◌≡◌, ◌++◌, ◌∷◌, [], IfOk, OnOk, map};
ghost use Rattle.idl_reader.specs.Tree.{decl_tree, idl_tree};
ghost use Rattle.idl_check.specs.Names.{decl_name};
ghost use Rattle.idl_tables.specs.Entries.{operation};
ghost use Rattle.idl_tables.specs.Tables.{numbered, interface_text, tables_text};

use crate::entries::table_at;
use crate::entry::Entry;
use idl_check::{decl_name, is_interface};
use idl_reader::Decl;
use itoa::Buffer;
use std::alloc::{AllocError, Global};
use text_words::put_line;
use value_types::Bytes;

/// A line for each operation: its number, its name and its declarer.
fn put_table(out: &mut Vec<u8>, table: &[Entry<'_>]) -> Result<(), AllocError>
    ensures { OnOk result (out.new.items ≡ out.old.items ++ numbered 0 (map (λ e. operation e) table.now)) }
{
    for (number, entry) in table.iter().enumerate() {
        let mut buffer = Buffer::new();
        put_line(
            out,
            &[
                buffer.format(number).as_bytes(),
                entry.name.text.as_str().as_bytes(),
                entry.declarer.text.as_str().as_bytes(),
            ],
        )?;
    }
    Ok(())
}

#[tactic(auto, unfolding(crate::specs::Tables::interface_text))]
fn put_interface(out: &mut Vec<u8>, decl: &Decl, table: &[Entry<'_>]) -> Result<(), AllocError>
    ensures { OnOk result (out.new.items ≡ out.old.items ++ interface_text (decl_tree decl.now) (map (λ e. operation e) table.now)) }
{
    if !is_interface(decl) {
        return Ok(());
    }
    put_line(
        out,
        &[b"interface", decl_name(decl).text.as_str().as_bytes()],
    )?;
    put_table(out, table)
}

/// The text of tables.
pub fn tables_text(
    alloc: Global,
    decls: &[Decl],
    tables: &[Vec<Entry<'_>>],
) -> Result<Bytes, AllocError>
    ensures { IfOk result (λ text. text ≡ tables_text (map (λ t. map (λ e. operation e) t.items) tables.now) 0 (map (λ d. decl_tree d) decls.now)) }
{
    let mut out = Vec::new(alloc);
    for (i, decl) in decls.iter().enumerate() {
        put_interface(&mut out, decl, table_at(tables, i))?;
    }
    Ok(Bytes::from_vec(out))
}
