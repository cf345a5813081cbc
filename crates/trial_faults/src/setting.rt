//! What the text of a stack says of its disks and files.

use crate::wrong::Wrong;
use std::alloc::{AllocError, Global};
use trial_words::number;

/// A file of a stack.
#[derive(Clone, Copy, Debug, Drop)]
pub struct FileShape<'a> {
    /// Its name.
    pub name: &'a str,
    /// How many pages it has.
    pub pages: u32,
}

/// The disks and the files of a stack.
#[derive(Drop)]
pub struct Setting<'a> {
    /// How many bytes a page and a block have.
    pub page_size: u32,
    /// The files.
    pub files: Vec<FileShape<'a>>,
    /// The names of the disks.
    pub disks: Vec<&'a str>,
}

impl<'a> Setting<'a> {
    /// That of a stack's text.
    pub fn of(alloc: Global, stack: &'a str) -> Result<Setting<'a>, Wrong> {
        let mut setting = Setting {
            page_size: 0,
            files: Vec::new(alloc),
            disks: Vec::new(alloc),
        };
        for line in stack.lines() {
            let words: Vec<&'a str> = line.split(' ').collect(alloc)?;
            setting.take(&words)?;
        }
        Ok(setting)
    }

    /// Takes the words of the next line.
    fn take(&mut self, words: &[&'a str]) -> Result<(), Wrong> {
        match words {
            ["page", size] => self.page_size = number(size)?,
            ["file", name, pages] => {
                let pages = number(pages)?;
                self.files.push(FileShape { name: *name, pages })?;
            }
            ["disk", name, _] => self.disks.push(*name)?,
            _ => {}
        }
        Ok(())
    }

    /// How many blocks the map of a file has.
    pub fn map_blocks(&self, file: &FileShape<'_>) -> u32 {
        match self.page_size {
            0 => 0,
            size => file.pages.saturating_mul(4).div_ceil(size),
        }
    }

    /// How many blocks an image of a file has.
    pub fn blocks(&self, file: &FileShape<'_>) -> u32 {
        self.map_blocks(file)
            .saturating_add(file.pages)
            .saturating_add(1)
    }
}

/// The names of a script's clients, in their order.
pub fn clients_of<'a>(alloc: Global, script: &'a str) -> Result<Vec<&'a str>, AllocError> {
    let mut clients = Vec::new(alloc);
    for line in script.lines() {
        if let Some((name, _)) = line
            .strip_prefix("client ")
            .and_then(|rest| rest.split_once(' '))
        {
            clients.push(name)?;
        }
    }
    Ok(clients)
}
