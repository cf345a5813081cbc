//! Values of the types of interfaces.

use crate::interfaces::read_short;
use crate::laws::{Found, Law, read_if, refused_if};
use crate::seeds::try_seed;
use idl_check::check;
use idl_reader::{IdlType, Word};
use idl_tables::{TableSet, tables};
use marshal_buf::Buf;
use marshal_value::{Value, ValueWhy, declares, fits, get_value, is_value_of, put_value};
use std::alloc::{AllocError, Global};
use trial_words::Halt;
use value_types::Text;

/// A value that is read is of its type, and is put as the bytes that were read; what is refused is refused at a byte or at the end,
/// and the reader stands where it stood.
#[derive(Drop)]
struct ValueLaw<'a, 'b> {
    set: &'a TableSet<'b>,
    ty: &'a IdlType,
}

/// Tries all inputs of a seed as values of a type of this name.
pub fn try_values(
    alloc: Global,
    types: &[u8],
    ty: &str,
    seed: &[u8],
    draws: u32,
    answer: &mut String,
) -> Result<(), Halt> {
    let Ok(idl) = read_short(alloc, types) else {
        return Err(Halt::Impossible);
    };
    let Ok(checked) = check(alloc, &idl) else {
        return Err(Halt::Impossible);
    };
    let set = tables(alloc, &checked)?;
    let ty = IdlType::Named {
        name: Word {
            text: Text::of(alloc, ty)?,
            place: 0,
        },
    };
    let law = ValueLaw { set: &set, ty: &ty };
    try_seed(alloc, &law, seed, draws, answer)
}

impl<'a, 'b> ValueLaw<'a, 'b> {
    /// Whether a value is of the type, and is put as the first bytes, so many of them.
    fn is_put_as(
        &self,
        alloc: Global,
        value: &Value,
        bytes: &[u8],
        count: u32,
    ) -> Result<bool, AllocError> {
        let mut buf = Buf::new(alloc);
        if !is_value_of(self.set, self.ty, value) || !fits(value, &buf) {
            return Ok(false);
        }
        put_value(self.set, self.ty, value, &mut buf)?;
        let put = buf.as_slice();
        Ok(put.len() == count as usize && bytes.starts_with(put))
    }
}

impl<'a, 'b> Law for ValueLaw<'a, 'b> {
    fn judge(&self, alloc: Global, bytes: &[u8]) -> Result<Found, AllocError> {
        let mut buf = Buf::new(alloc);
        if bytes.len() > 10_000 || !declares(self.set, self.ty) {
            return Ok(Found::Unlike);
        }
        buf.put_bytes(bytes)?;
        let mut from = buf.reader();
        match get_value(alloc, self.set, self.ty, &mut from) {
            Ok(value) => Ok(read_if(self.is_put_as(alloc, &value, bytes, from.at())?)),
            Err(bad) => {
                let is_place = bad.at as usize <= bytes.len() && from.at() == 0;
                Ok(refused_if(bad.why != ValueWhy::Memory && is_place))
            }
        }
    }
}
