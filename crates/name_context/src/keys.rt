//! The key of a path, by which it is looked up.

ghost use Rattle.std.specs.Prelude.{◌≡◌, ◌++◌, IfOk, OnOk};
ghost use Rattle.name_context.specs.Keys.{byte_key, part_key, path_key};

use std::alloc::{AllocError, Global};
use value_types::Text;

/// The key of a path. An error is want of memory.
pub(crate) fn key_of(alloc: Global, path: &[Text]) -> Result<Vec<u8>, AllocError>
    ensures { IfOk result (λ key. key.items ≡ path_key path.now) }
{
    let mut key = Vec::new(alloc);
    for part in path {
        push_part(&mut key, part)?;
    }
    Ok(key)
}

/// Puts one more part behind a key. An error is want of memory.
pub(crate) fn push_part(key: &mut Vec<u8>, part: &Text) -> Result<(), AllocError>
    ensures { OnOk result (key.new.items ≡ key.old.items ++ part_key part.now) }
{
    for byte in part.as_str().as_bytes() {
        push_byte(key, *byte)?;
    }
    key.extend_from_slice(&[0, 0])
}

/// Puts one more byte of a part. An error is want of memory.
fn push_byte(key: &mut Vec<u8>, byte: u8) -> Result<(), AllocError>
    ensures { OnOk result (key.new.items ≡ key.old.items ++ byte_key byte) }
{
    if byte == 0 {
        return key.extend_from_slice(&[0, 1]);
    }
    key.push(byte)?;
    Ok(())
}
