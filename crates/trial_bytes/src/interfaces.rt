//! The text of interfaces, and whether they fit together.

ghost use Rattle.std.specs.Prelude.{IfOk};
ghost use Rattle.idl_reader.specs.Grammar.{AreDecls};
ghost use Rattle.idl_reader.specs.Tree.{idl_tree};

use crate::laws::{Found, Law, read_if, refused_if};
use crate::tokens::tokens_of;
use idl_check::{UnfitWhy, check};
use idl_reader::{Idl, IdlRefused, IdlWhy, print_idl, read_idl};
use idl_tables::{print_tables, tables};
use std::alloc::{AllocError, Global};

/// A text that is read has the tokens of its print, which is read and printed so again; what is refused is refused at a byte of it
/// or at its end.
#[derive(Drop)]
pub struct IdlLaw;

/// Reads a text that is short enough to have places.
pub fn read_short(alloc: Global, text: &[u8]) -> Result<Idl, IdlRefused>
    ensures { IfOk result (λ idl. AreDecls (idl_tree idl)) }
{
    if text.len() > 1_000_000 {
        return Err(IdlRefused {
            place: 0,
            why: IdlWhy::Memory,
        });
    }
    read_idl(alloc, text)
}

impl Law for IdlLaw {
    fn judge(&self, alloc: Global, bytes: &[u8]) -> Result<Found, AllocError> {
        match read_short(alloc, bytes) {
            Ok(idl) => {
                let printed = print_idl(alloc, &idl)?;
                if !is_print_of(alloc, printed.as_slice(), bytes)? {
                    return Ok(Found::Unlike);
                }
                checked(alloc, bytes)
            }
            Err(refused) => Ok(refused_if(is_place(&refused, bytes.len()))),
        }
    }
}

/// Whether a refusal has a place in a text of so many bytes: at its end only what cannot stand there.
fn is_place(refused: &IdlRefused, len: usize) -> bool {
    match refused.why {
        IdlWhy::Token => refused.place as usize <= len,
        IdlWhy::Byte | IdlWhy::LongName | IdlWhy::Limit => (refused.place as usize) < len,
        IdlWhy::Memory => false,
    }
}

/// Whether a print has the tokens of its text, and is read and printed so again.
fn is_print_of(alloc: Global, printed: &[u8], text: &[u8]) -> Result<bool, AllocError> {
    if tokens_of(alloc, printed)? != tokens_of(alloc, text)? {
        return Ok(false);
    }
    match read_short(alloc, printed) {
        Ok(again) => Ok(print_idl(alloc, &again)?.as_slice() == printed),
        Err(_) => Ok(false),
    }
}

/// What comes of a check of a text that is read: it has tables, or a name of it does not fit.
fn checked(alloc: Global, text: &[u8]) -> Result<Found, AllocError> {
    let Ok(idl) = read_short(alloc, text) else {
        return Ok(Found::Unlike);
    };
    match check(alloc, &idl) {
        Ok(checked) => {
            let _tables = print_tables(alloc, &tables(alloc, &checked)?)?;
            Ok(Found::Read)
        }
        Err(unfit) => {
            let begins = text
                .get(unfit.place as usize)
                .is_some_and(|byte| byte.is_ascii_lowercase());
            Ok(read_if(unfit.why != UnfitWhy::Memory && begins))
        }
    }
}
