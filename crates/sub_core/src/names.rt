//! The tag and the name that stand behind the door of an object.

ghost use Rattle.std.specs.Prelude.{◌≡◌, ◌≤◌, ◌+◌, ◌<◌, ◌^◌, [], IfOk, IsOk, MatchResult, Ok, Err, length};
ghost use Rattle.std.specs.Str.{bytes_eq};
ghost use Rattle.marshal_buf.specs.Counted.{counted};
ghost use Rattle.marshal_buf.specs.Reading.{Takes};
ghost use Rattle.text_words.specs.Words.{is_path_word};
ghost use Rattle.sub_core.specs.declared.shape.Form.TheVariants.{Managed, Pathed};
ghost use Rattle.sub_core.specs.Names.{manager_name};
ghost use Rattle.sub_core.specs.Forms.{tail_bytes, IsTagOf, IsNameOf};
ghost use Rattle.sub_core.specs.Fields.{named, tail_at};

use crate::shape::Form;
use marshal_buf::Reader;
use text_words::is_path_word;

/// The name of every manager.
pub const MANAGER: &str = "vmm";

/// Whether a name is the manager's.
fn is_manager(name: &[u8]) -> bool
    ensures { result ≡ bytes_eq name.now manager_name }
{
    name == MANAGER.as_bytes()
}

/// Takes the manager's name. An error is the byte at which it cannot stand; a refused call may leave the reader behind it.
fn read_manager<'a>(from: &mut Reader<'a>) -> Result<&'a [u8], u32>
    ensures value { MatchResult result (λ name. tail_at Managed from.old ≡ Ok (0, name.now)) (λ at. tail_at Managed from.old ≡ Err at) }
    ensures of { IfOk result (λ name. IsNameOf Managed name.now) }
    ensures taken { IfOk result (λ name. Takes (counted name.now) 0 from.old from.new) }
{
    let at = from.at();
    match from.get_counted() {
        Err(short) => Err(short.at),
        Ok(name) => { if is_manager(name) { Ok(name) } else { Err(at) } }
    }
}

/// Takes a path, in the same way.
fn read_path<'a>(from: &mut Reader<'a>) -> Result<&'a [u8], u32>
    ensures value { MatchResult result (λ name. tail_at Pathed from.old ≡ Ok (0, name.now)) (λ at. tail_at Pathed from.old ≡ Err at) }
    ensures of { IfOk result (λ name. IsNameOf Pathed name.now) }
    ensures taken { IfOk result (λ name. Takes (counted name.now) 0 from.old from.new) }
{
    let at = from.at();
    match from.get_counted() {
        Err(short) => Err(short.at),
        Ok(name) => {
            if is_path_word(name) {
                Ok(name)
            } else {
                Err(at)
            }
        }
    }
}

/// Takes what the form has behind a door: the tag and the name. An error is the byte at which it cannot stand; a refused call
/// may leave the reader behind it.
pub(crate) fn read_tail<'a>(form: Form, from: &mut Reader<'a>) -> Result<(u32, &'a [u8]), u32>
    ensures value { MatchResult result (λ tail. tail_at form from.old ≡ Ok (tail.0, tail.1.now)) (λ at. tail_at form from.old ≡ Err at) }
    ensures tag { IfOk result (λ tail. IsTagOf form tail.0) }
    ensures name { IfOk result (λ tail. IsNameOf form tail.1.now) }
    ensures taken { IfOk result (λ tail. Takes (tail_bytes form tail.0 tail.1.now) 0 from.old from.new) }
{
    match form {
        Form::Bare => Ok((0, &[])),
        Form::Tagged => match from.get_u32() {
            Ok(tag) => Ok((tag, &[])),
            Err(short) => Err(short.at),
        },
        Form::Managed => Ok((0, read_manager(from)?)),
        Form::Pathed => Ok((0, read_path(from)?)),
    }
}
