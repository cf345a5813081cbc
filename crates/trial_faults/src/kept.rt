//! What the stores keep, as images are laid out.

use crate::outcome::{Outcome, has_line};
use crate::plain::{Plain, part};
use crate::setting::{FileShape, Setting};
use crate::wrong::{Wrong, claim};
use spr_io::MemStore;
use std::alloc::Global;

/// A store of a file, as it lies in the bay.
#[derive(Drop)]
struct Kept<'a> {
    store: &'a MemStore,
    size: u32,
    blocks: u32,
}

impl<'a> Kept<'a> {
    /// Lends a block as it is kept.
    fn block(&self, block: u32) -> Result<&'a [u8], Wrong> {
        if !self.store.has_shape(self.size, self.blocks) || block >= self.blocks {
            return Err(Wrong::Said("a store without the blocks of its image"));
        }
        Ok(self.store.kept(block))
    }

    /// So many blocks from one on.
    fn run_of(&self, alloc: Global, from: u32, count: u32) -> Result<Vec<u8>, Wrong> {
        let mut bytes = Vec::new(alloc);
        for block in from..from.saturating_add(count) {
            bytes.extend_from_slice(self.block(block)?)?;
        }
        Ok(bytes)
    }

    /// Appends a page, which is a hole or has a block.
    fn put_page(&self, entry: u32, bytes: &mut Vec<u8>) -> Result<(), Wrong> {
        if entry == 0 {
            let len = bytes.len().saturating_add(self.size as usize);
            return Ok(bytes.resize(len, 0)?);
        }
        Ok(bytes.extend_from_slice(self.block(entry)?)?)
    }

    /// The pages of the image.
    fn pages(&self, alloc: Global, map_blocks: u32, pages: u32) -> Result<Vec<u8>, Wrong> {
        claim(
            self.block(0)?.starts_with(b"SPRG"),
            "a live store that keeps no image",
        )?;
        let map = self.run_of(alloc, 1, map_blocks)?;
        let mut bytes = Vec::new(alloc);
        for page in 0..pages {
            let Some([first, second, third, fourth]) = part(&map, 4 * page as usize, 4) else {
                return Err(Wrong::Said("a map without an entry"));
            };
            let entry = u32::from_be_bytes([*first, *second, *third, *fourth]);
            self.put_page(entry, &mut bytes)?;
        }
        Ok(bytes)
    }
}

/// Whether a notice says a word of a disk.
fn is_told(
    alloc: Global,
    outcome: &Outcome,
    file: &str,
    disk: &str,
    word: &str,
) -> Result<bool, Wrong> {
    let line = format!(in alloc; "mirror {file} {disk} {word}")?;
    Ok(has_line(&outcome.run.notices, line.as_bytes()))
}

/// That what the store of a live disk keeps is the file at some place from its last sync on.
fn judge_disk(
    alloc: Global,
    outcome: &Outcome,
    setting: &Setting<'_>,
    file: &FileShape<'_>,
    disk: &str,
    plain: &Plain,
) -> Result<(), Wrong> {
    let Some(store) = outcome.bay.look(disk, file.name) else {
        let line = format!(in alloc; "bay {disk} {}", file.name)?;
        let is_told = has_line(&outcome.run.text, line.as_bytes());
        return claim(is_told, "a store that is lost, and no line says so");
    };
    if is_told(alloc, outcome, file.name, disk, "out")?
        || is_told(alloc, outcome, file.name, disk, "bad")?
    {
        return Ok(());
    }
    let kept = Kept {
        store,
        size: setting.page_size,
        blocks: setting.blocks(file),
    };
    let bytes = kept.pages(alloc, setting.map_blocks(file), file.pages)?;
    claim(
        plain.had_since_sync(&bytes),
        "a live store that does not keep the file since its last sync",
    )
}

/// That each live store of a file keeps the file at some place from its last sync on.
pub fn judge_stores(
    alloc: Global,
    outcome: &Outcome,
    setting: &Setting<'_>,
    file: &FileShape<'_>,
    plain: &Plain,
) -> Result<(), Wrong> {
    for disk in &setting.disks {
        judge_disk(alloc, outcome, setting, file, *disk, plain)?;
    }
    Ok(())
}
