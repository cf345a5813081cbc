//! The text of a script.

use crate::laws::{Found, Law, lines_of, read_if, refused_if};
use script_text::{ScriptWhy, parse_script, print_script};
use std::alloc::{AllocError, Global};

/// A text that is read is printed as it was; what is refused is refused at one of its lines.
#[derive(Drop)]
pub struct ScriptLaw;

impl Law for ScriptLaw {
    fn judge(&self, alloc: Global, bytes: &[u8]) -> Result<Found, AllocError> {
        match parse_script(alloc, bytes) {
            Ok(script) => {
                let printed = print_script(alloc, &script)?;
                Ok(read_if(printed.as_slice() == bytes))
            }
            Err(refused) => {
                let is_line = refused.line >= 1 && refused.line as usize <= lines_of(bytes);
                Ok(refused_if(refused.why != ScriptWhy::Memory && is_line))
            }
        }
    }
}
