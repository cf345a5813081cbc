//! The numbers of operations of a long chain of interfaces.

ghost use Rattle.std.specs.Prelude.{IfOk};
ghost use Rattle.idl_reader.specs.Grammar.{AreDecls};
ghost use Rattle.idl_reader.specs.Tree.{idl_tree};

use idl_check::check;
use idl_reader::{Idl, IdlRefused, IdlWhy, read_idl};
use idl_tables::tables;
use std::alloc::Global;
use std::test::Fail;

/// Reads a text that is short enough to have places.
fn read(alloc: Global, text: &[u8]) -> Result<Idl, IdlRefused>
    ensures { IfOk result (λ idl. AreDecls (idl_tree idl)) }
{
    if text.len() > 1_000_000 {
        return Err(IdlRefused {
            place: 0,
            why: IdlWhy::Memory,
        });
    }
    read_idl(alloc, text)
}

/// A letter for each hexadecimal digit of a number.
fn put_digits(text: &mut Vec<u8>, number: u32) -> Result<(), Fail> {
    text.push(b'a' + (number / 16 % 16) as u8)?;
    text.push(b'a' + (number % 16) as u8)?;
    Ok(())
}

/// An interface of 64 operations that inherits from the one before it.
fn put_interface(text: &mut Vec<u8>, number: u32) -> Result<(), Fail> {
    text.extend_from_slice(b"interface ")?;
    put_digits(text, number)?;
    if number > 0 {
        text.extend_from_slice(b" : ")?;
        put_digits(text, number - 1)?;
    }
    text.extend_from_slice(b" {")?;
    for op in 0..64 {
        text.extend_from_slice(b"void ")?;
        put_digits(text, number)?;
        put_digits(text, op)?;
        text.extend_from_slice(b"();")?;
    }
    text.extend_from_slice(b"};")?;
    Ok(())
}

#[test]
fn tables_a_long_chain(rt: HostRuntime) -> Result<(), Fail> {
    let mut text = Vec::new(rt.alloc());
    for number in 0..256 {
        put_interface(&mut text, number)?;
    }
    let idl = read(rt.alloc(), &text)?;
    let checked = check(rt.alloc(), &idl)?;
    let set = tables(rt.alloc(), &checked)?;
    for (interface, name, number) in [
        ("aa", "aaaa", Some(0)),
        ("pp", "aaaa", Some(0)),
        ("pp", "ppdp", Some(16383)),
        ("po", "ppdp", None),
    ] {
        assert_eq!(rt; set.op_number(interface, name), number);
    }
    Ok(())
}
