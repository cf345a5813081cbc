//! The pages of a file, and their text.

ghost use Rattle.std.specs.Prelude.{◌≡◌, ◌*◌, ◌++◌, ◌∷◌, IfOk, IfErr, OnOk, length};
ghost use Rattle.disk_format.specs.Shape.{IsShape};
ghost use Rattle.page_ground.specs.Pages.{cut};
ghost use Rattle.script_meaning.specs.Stack.{pages_of};
ghost use Rattle.file_stores.specs.Keys.{stores_of_file};
ghost use Rattle.file_stores.specs.Held.{keys_of};
ghost use Rattle.file_stores.specs.Files.{ArePairs, IsFile, Lasts};
ghost use Rattle.file_stores.specs.Under.{Under};
ghost use Rattle.file_stores.specs.Notices.{AreAtClose};
ghost use Rattle.file_stores.specs.Opening.{IsLeft};
ghost use Rattle.file_stores.specs.Reading.{Fails, ReadsAll, shape_under};
ghost use Rattle.image_commands.specs.Pages.{page_word, page_line, page_lines};
ghost use Rattle.image_commands.specs.Read.{IsRead, IsUnprinted};

use disk_format::ImageShape;
use file_stores::{
    FileGround, FileStores, Stop, close_file, end_notices, open_file, read_file, shape_of,
};
use mirror_layer::Notice;
use page_ground::{StoreFault, is_zero_page};
use script_meaning::StoreKey;
use spr_io::Store;
use stack_accept::Mounted;
use std::alloc::{AllocError, Global};
use text_words::{put, put_hex, put_spaced_number, put_word};

/// Reads the pages of an open file, and closes it; `notices` has what its opening made of its disks, and gets what is told of
/// them.
fn read_ground<S: Store>(
    ground: FileGround<S>,
    file: u32,
    shape: &ImageShape,
    notices: &mut [Option<Notice>],
    bytes: &mut [u8],
) -> (FileStores<S>, Result<(), StoreFault>)
    requires shape { shape_under ground ≡ shape.now }
    requires size { length bytes.old ≡ shape.now.pages * shape.now.page_size }
    ensures file { result.0.file ≡ file }
    ensures keys { keys_of result.0.stores ≡ stores_of_file (length result.0.stores) file }
    ensures read { OnOk result.1 ((left : Under) × ReadsAll ground left bytes.new × IsLeft left result.0 × AreAtClose left notices.old notices.new) }
    ensures fault { IfErr result.1 (λ fault. (left : Under) × Fails ground left fault × IsLeft left result.0 × AreAtClose left notices.old notices.new) }
{
    let mut ground = ground;
    let read = read_file(&mut ground, shape, bytes);
    end_notices(&ground, notices);
    (close_file(ground, file), read)
}

/// What became of the stores of a file that was to be read.
#[derive(Drop)]
pub(crate) struct ReadFile<S: Store> {
    /// The stores, given back as they are.
    pub stores: FileStores<S>,
    /// What is told of the disks.
    pub notices: Vec<Option<Notice>>,
    /// Why the pages were not read, if they were not.
    pub outcome: Result<(), Stop>,
}

/// Reads the pages of a file from its stores, which are handed back.
pub(crate) fn read_stores<S: Store>(
    alloc: Global,
    mount: &Mounted,
    stores: FileStores<S>,
    bytes: &mut [u8],
) -> ReadFile<S>
    requires file { IsFile mount.now stores }
    requires size { length bytes.old ≡ pages_of mount.now stores.file * mount.now.page_size }
    ensures file { result.stores.file ≡ stores.file }
    ensures lasts { ArePairs Lasts stores.stores result.stores.stores }
    ensures read { OnOk result.outcome (IsRead mount.now result.notices.items stores result.stores (cut mount.now.page_size (pages_of mount.now stores.file) bytes.new)) }
    ensures cause { IfErr result.outcome (IsUnprinted mount.now result.notices.items stores result.stores) }
{
    let file = stores.file;
    let shape = shape_of(mount, StoreKey { file, disk: 0 });
    match open_file(alloc, mount, stores) {
        Ok((ground, made)) => {
            let mut notices = made;
            let (stores, read) = read_ground(ground, file, &shape, &mut notices, bytes);
            match read {
                Ok(()) => ReadFile {
                    stores,
                    notices,
                    outcome: Ok(()),
                },
                Err(StoreFault { disk, count }) => {
                    let store = StoreKey { file, disk };
                    ReadFile {
                        stores,
                        notices,
                        outcome: Err(Stop::Store { store, count }),
                    }
                }
            }
        }
        Err(unopened) => ReadFile {
            stores: unopened.stores,
            notices: Vec::new(alloc),
            outcome: Err(unopened.stop),
        },
    }
}

/// Appends a space and the word of a page.
fn put_page_word(alloc: Global, out: &mut Vec<u8>, page: &[u8]) -> Result<(), AllocError>
    ensures { OnOk result (out.new.items ≡ out.old.items ++ 32 ∷ page_word page.now) }
{
    if is_zero_page(page) {
        put_word(out, b"zeros")
    } else {
        put_hex(alloc, out, page)
    }
}

/// Appends the line of a page and its number.
fn put_page(alloc: Global, out: &mut Vec<u8>, number: u32, page: &[u8]) -> Result<(), AllocError>
    ensures { OnOk result (out.new.items ≡ out.old.items ++ page_line number page.now) }
{
    put(out, b"page")?;
    put_spaced_number(out, u64::from(number))?;
    put_page_word(alloc, out, page)?;
    put(out, b"\n")
}

/// The lines of the pages that stand one after another.
pub(crate) fn lines_of(
    alloc: Global,
    shape: &ImageShape,
    bytes: &[u8],
) -> Result<Vec<u8>, AllocError>
    requires shape { IsShape shape.now }
    requires size { length bytes.now ≡ shape.now.pages * shape.now.page_size }
    ensures { IfOk result (λ text. text.items ≡ page_lines 0 (cut shape.now.page_size shape.now.pages bytes.now)) }
{
    let size = shape.page_size as usize;
    let mut out = Vec::new(alloc);
    for number in 0..shape.pages {
        let from = number as usize * size;
        put_page(alloc, &mut out, number, &bytes[from..from + size])?;
    }
    Ok(out)
}
