//! What a client calls.

ghost use Rattle.std.specs.Prelude.{◌≡◌, ◌<◌, ◌≤◌, ◌++◌, codes, IfOk};
ghost use Rattle.hist_plain.specs.declared.TheConstants.{MAX_PAGES};
ghost use Rattle.script_gen.specs.Access.{client_name, object_name, region_name, start_of, address_of, bytes_of, read_by, write_by, open_by, map_by};

use crate::aim::Aim;
use crate::shape::{ShapeFile, ShapeSeat};
use script_text::Call;
use std::alloc::{AllocError, Global};
use value_types::{Bytes, Path, Text};

/// The name of a client.
pub(crate) fn client_name(alloc: Global, client: u32) -> Result<Text, AllocError>
    ensures { IfOk result (λ name. name ≡ client_name client) }
{
    let name = format!(in alloc; "g{client}")?;
    Text::of(alloc, name.as_str())
}

/// The name of the object of a file.
fn object_name(alloc: Global, file: u32) -> Result<Text, AllocError>
    ensures { IfOk result (λ name. name ≡ object_name file) }
{
    let name = format!(in alloc; "o{file}")?;
    Text::of(alloc, name.as_str())
}

/// The name of the region of a file.
fn region_name(alloc: Global, file: u32) -> Result<Text, AllocError>
    ensures { IfOk result (λ name. name ≡ region_name file) }
{
    let name = format!(in alloc; "r{file}")?;
    Text::of(alloc, name.as_str())
}

/// The address of the first byte of a file that is mapped. Each file has the room of the largest
/// one, 4,194,304 bytes.
fn start_of(file: u32) -> u64
    ensures { result ≡ start_of file }
{
    u64::from(file) * 4_194_304
}

/// The address of a place in a file that is mapped.
fn address_of(page_size: u32, aim: Aim) -> u64
    requires page { aim.page ≤ MAX_PAGES }
    requires size { page_size ≤ 4096 }
    ensures { result ≡ address_of page_size aim }
{
    start_of(aim.file) + u64::from(aim.page) * u64::from(page_size) + u64::from(aim.off)
}

/// Four bytes are read; a client that maps the file loads them.
pub(crate) fn read_by(
    alloc: Global,
    maps: bool,
    page_size: u32,
    aim: Aim,
) -> Result<Call, AllocError>
    requires page { aim.page ≤ MAX_PAGES }
    requires size { page_size ≤ 4096 }
    ensures { IfOk result (λ call. call ≡ read_by maps page_size aim) }
{
    if maps {
        return Ok(Call::Load {
            address: address_of(page_size, aim),
            len: 4,
        });
    }
    Ok(Call::Read {
        object: object_name(alloc, aim.file)?,
        page: aim.page,
        off: aim.off,
        len: 4,
    })
}

/// Four bytes are written; a client that maps the file stores them.
pub(crate) fn write_by(
    alloc: Global,
    maps: bool,
    page_size: u32,
    aim: Aim,
    number: u32,
) -> Result<Call, AllocError>
    requires page { aim.page ≤ MAX_PAGES }
    requires size { page_size ≤ 4096 }
    ensures { IfOk result (λ call. call ≡ write_by maps page_size aim number) }
{
    let bytes = Bytes::of(alloc, &number.to_be_bytes())?;
    if maps {
        return Ok(Call::Store {
            address: address_of(page_size, aim),
            bytes,
        });
    }
    Ok(Call::Write {
        object: object_name(alloc, aim.file)?,
        page: aim.page,
        off: aim.off,
        bytes,
    })
}

/// A file is opened at the seat's view.
pub(crate) fn open_by(
    alloc: Global,
    seat: &ShapeSeat,
    number: u32,
    file: &ShapeFile,
) -> Result<Call, AllocError>
    ensures { IfOk result (λ call. call ≡ open_by seat.now number file.now) }
{
    Ok(Call::Open {
        object: object_name(alloc, number)?,
        path: Path::of(alloc, &[seat.view.as_str(), file.name.as_str()])?,
    })
}

/// All pages of a file are mapped, to be written.
pub(crate) fn map_by(alloc: Global, number: u32, file: &ShapeFile) -> Result<Call, AllocError>
    ensures { IfOk result (λ call. call ≡ map_by number file.now) }
{
    Ok(Call::Map {
        region: region_name(alloc, number)?,
        object: object_name(alloc, number)?,
        address: start_of(number),
        pages: file.pages,
        write: true,
    })
}
