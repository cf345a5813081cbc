//! The lines that tell of the disks of a stack's files.

ghost use Rattle.std.specs.Prelude.{◌≡◌, ◌++◌, ◌∷◌, [], codes, IfOk, OnOk};
ghost use Rattle.std.specs.Fmt.{decimal};
ghost use Rattle.text_words.specs.Lines.{line_of};
ghost use Rattle.disk_format.specs.Why.{word_of};
ghost use Rattle.image_looks.specs.Disks.{disk_line, disk_lines, image_words};

use crate::found::{Found, Look};
use crate::winner::wins;
use disk_format::ImageWhy;
use itoa::Buffer;
use script_meaning::{disk_name, file_name};
use stack_accept::Mounted;
use std::alloc::{AllocError, Global};
use text_words::put_line;

/// Appends the line of a disk with an image.
fn put_image(
    out: &mut Vec<u8>,
    disk: &[u8],
    file: &[u8],
    generation: u64,
    wins: bool,
) -> Result<(), AllocError>
    ensures { OnOk result (out.new.items ≡ out.old.items ++ line_of (codes "disk" ∷ disk.now ∷ file.now ∷ image_words generation wins)) }
{
    let mut buffer = Buffer::new();
    let number = buffer.format(generation).as_bytes();
    if wins {
        put_line(out, &[b"disk", disk, file, b"generation", number, b"wins"])
    } else {
        put_line(out, &[b"disk", disk, file, b"generation", number])
    }
}

/// Appends the line of a disk whose store failed.
fn put_fault(out: &mut Vec<u8>, disk: &[u8], file: &[u8], count: u64) -> Result<(), AllocError>
    ensures { OnOk result (out.new.items ≡ out.old.items ++ line_of (codes "disk" ∷ disk.now ∷ file.now ∷ codes "store" ∷ decimal count ∷ [])) }
{
    let mut buffer = Buffer::new();
    let number = buffer.format(count).as_bytes();
    put_line(out, &[b"disk", disk, file, b"store", number])
}

/// Appends the line of a disk with no image, of these words.
fn put_reason<'a>(
    out: &mut Vec<u8>,
    disk: &'a [u8],
    file: &'a [u8],
    place: &'a [u8],
    word: &'a [u8],
) -> Result<(), AllocError>
    ensures { OnOk result (out.new.items ≡ out.old.items ++ line_of (codes "disk" ∷ disk.now ∷ file.now ∷ codes "image" ∷ place.now ∷ word.now ∷ [])) }
{
    put_line(out, &[b"disk", disk, file, b"image", place, word])
}

/// Appends the line of a disk with no image, of a reason at a place.
fn put_no_image(
    out: &mut Vec<u8>,
    disk: &[u8],
    file: &[u8],
    place: u32,
    why: ImageWhy,
) -> Result<(), AllocError>
    ensures { OnOk result (out.new.items ≡ out.old.items ++ line_of (codes "disk" ∷ disk.now ∷ file.now ∷ codes "image" ∷ decimal place ∷ word_of why ∷ [])) }
{
    let mut buffer = Buffer::new();
    let place = buffer.format(place).as_bytes();
    put_reason(out, disk, file, place, why.word().as_bytes())
}

/// Appends the line of a disk of a file; none where memory ran out.
fn put_look(
    out: &mut Vec<u8>,
    mount: &Mounted,
    looks: &[Look],
    look: Look,
) -> Result<(), AllocError>
    ensures { OnOk result (out.new.items ≡ out.old.items ++ disk_line mount.now looks.now look) }
{
    let disk = disk_name(mount, look.store.disk).as_bytes();
    let file = file_name(mount, look.store.file).as_bytes();
    match look.found {
        Found::Image { generation } => {
            let is_first = wins(mount.ground(), looks, look.store, generation);
            put_image(out, disk, file, generation, is_first)
        }
        Found::Missing => put_line(out, &[b"disk", disk, file, b"missing"]),
        Found::Blank => put_line(out, &[b"disk", disk, file, b"blank"]),
        Found::NoImage { place, why } => put_no_image(out, disk, file, place, why),
        Found::NotTaken | Found::Lost => put_line(out, &[b"disk", disk, file, b"bay"]),
        Found::Failed { count } => put_fault(out, disk, file, count),
        Found::Memory => Err(AllocError),
    }
}

/// The lines of all disks that were looked at.
pub(crate) fn text_of(alloc: Global, mount: &Mounted, looks: &[Look]) -> Result<Vec<u8>, AllocError>
    ensures { IfOk result (λ text. text.items ≡ disk_lines mount.now looks.now) }
{
    let mut out = Vec::new(alloc);
    for look in looks {
        put_look(&mut out, mount, looks, *look)?;
    }
    Ok(out)
}
