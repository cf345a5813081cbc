//! The address space of a client, what memory objects bind to, and the names and numbers of a stack.

ghost use Rattle.std.specs.Prelude.{◌≡◌, ◌<◌, ◌≤◌, length};

use crate::say::{count_of, small_of};
use crate::stack::{is_view, mounted};
use memory_object::{CacheRights, MemoryObject};
use script_meaning::{disk_name, file_name, file_named, pages_of, view_of};
use stack_accept::Mounted;
use std::alloc::{AllocError, Global};
use tower_core::Right;
use trial_words::say;
use value_types::Text;
use vmm_space::{MAX_ADDRESS, Place, Space, SpaceErr};

/// A space over one file or more.
#[derive(Drop)]
struct Filed {
    space: Space,
    ghost filed: { 0 < length space.files },
}

/// The space of a case.
#[derive(Drop)]
pub struct SpaceCase {
    filed: Option<Filed>,
}

/// The rights to the first file, in the cache of node 2.
const RIGHTS: CacheRights = CacheRights { leaf: 2, file: 0 };

impl SpaceCase {
    /// Before any space.
    pub fn new() -> Self {
        SpaceCase { filed: None }
    }

    /// `space CALL ..`; the stack is that of the case.
    pub fn step(
        &mut self,
        alloc: Global,
        words: &[&str],
        stack: &[u8],
        answer: &mut String,
    ) -> Result<(), AllocError> {
        if let ["start"] = words {
            return match mounted(alloc, stack) {
                Some(mounted) => {
                    self.filed = start(alloc, &mounted)?;
                    Ok(())
                }
                None => say(answer, "no stack"),
            };
        }
        match &mut self.filed {
            Some(filed) => over(alloc, filed, words, answer),
            None => say(answer, "no space"),
        }
    }
}

/// A space over the files of a stack.
fn start(alloc: Global, mounted: &Mounted) -> Result<Option<Filed>, AllocError> {
    if mounted.files().is_empty() {
        return Ok(None);
    }
    let space = Space::new(alloc, mounted)?;
    Ok(Some(Filed { space }))
}

/// Does a call over a space.
fn over(
    alloc: Global,
    filed: &mut Filed,
    words: &[&str],
    answer: &mut String,
) -> Result<(), AllocError> {
    match words {
        [call, name, address, pages, right] => {
            let asked = Asked {
                name,
                address: count_of(address),
                pages: small_of(pages),
                write: *right == "w",
            };
            map(alloc, filed, &asked, *call == "map", answer)
        }
        ["unmap", name] => match filed.space.unmap(name) {
            Ok(()) => say(answer, "unmapped"),
            Err(why) => writeln!(answer, "{why}"),
        },
        ["load", address, len] => {
            translate(
                &filed.space,
                count_of(address),
                small_of(len),
                false,
                answer,
            )
        }
        ["store", address, len] => {
            translate(&filed.space, count_of(address), small_of(len), true, answer)
        }
        _ => say(answer, "no such step"),
    }
}

/// A region that is asked for.
#[derive(Drop)]
struct Asked<'a> {
    name: &'a str,
    address: u64,
    pages: u32,
    write: bool,
}

/// Maps the first file, and gives the region the life 5, or gives the region up.
fn map_region(space: &mut Space, name: Text, asked: &Asked<'_>, keep: bool) -> Result<(), SpaceErr>
    requires file { 0 < length space.old.files }
    requires address { asked.now.address ≤ MAX_ADDRESS }
    ensures { space.new.files ≡ space.old.files }
{
    space.map(name, RIGHTS, asked.address, asked.pages, asked.write)?;
    if keep {
        space.set_life(5);
    } else {
        space.give_up_last();
    }
    Ok(())
}

/// Maps a region, and tells whether both the question before and the call had the same answer.
fn map(
    alloc: Global,
    filed: &mut Filed,
    asked: &Asked<'_>,
    keep: bool,
    answer: &mut String,
) -> Result<(), AllocError> {
    if asked.address > MAX_ADDRESS {
        return say(answer, "impossible");
    }
    let may = filed
        .space
        .may_map(asked.name, 0, asked.address, asked.pages)
        .err();
    let name = Text::of(alloc, asked.name)?;
    let mapped = map_region(&mut filed.space, name, asked, keep).err();
    if may != mapped {
        return say(answer, "two answers");
    }
    match mapped {
        Some(why) => writeln!(answer, "{why}"),
        None => say(answer, "mapped"),
    }
}

/// Where an address leads.
fn translate(
    space: &Space,
    address: u64,
    len: u32,
    write: bool,
    answer: &mut String,
) -> Result<(), AllocError> {
    if address > MAX_ADDRESS {
        return say(answer, "impossible");
    }
    match space.translate(address, len, write) {
        Ok(place) => say_place(&place, answer),
        Err(why) => writeln!(answer, "{why}"),
    }
}

/// Appends a place of a file.
fn say_place(place: &Place, answer: &mut String) -> Result<(), AllocError> {
    let (file, leaf, life) = (place.file, place.leaf, place.life);
    let (page, off) = (place.page, place.off);
    let right = match place.right {
        Right::Write => "writing",
        Right::Read => "reading",
        Right::Nothing => "nothing",
    };
    writeln!(
        answer,
        "file {file} node {leaf} life {life} page {page} byte {off} for {right}"
    )
}

/// `bind VIEW MACHINE`: what the second file of a view binds to on a machine.
pub fn bind(
    alloc: Global,
    words: &[&str],
    stack: &[u8],
    answer: &mut String,
) -> Result<(), AllocError> {
    let (Some(mounted), [view, machine]) = (mounted(alloc, stack), words) else {
        return say(answer, "no stack");
    };
    let (view, machine) = (small_of(view), small_of(machine));
    if !is_view(&mounted, view) || machine as usize >= mounted.machines().len() {
        return say(answer, "impossible");
    }
    match (MemoryObject { view, file: 1 }).bind(&mounted, machine) {
        Ok(CacheRights { leaf, file }) => writeln!(answer, "node {leaf} file {file}"),
        Err(why) => writeln!(answer, "{why}"),
    }
}

/// `stack-name KIND WORD`: the name of a number, or the number of a name. No name is `''`.
pub fn name(
    alloc: Global,
    words: &[&str],
    stack: &[u8],
    answer: &mut String,
) -> Result<(), AllocError> {
    let (Some(mounted), [kind, word]) = (mounted(alloc, stack), words) else {
        return say(answer, "no stack");
    };
    match *kind {
        "disk" => say_name(answer, disk_name(&mounted, small_of(word))),
        "file" => say_name(answer, file_name(&mounted, small_of(word))),
        "pages" => {
            let pages = pages_of(&mounted, small_of(word));
            writeln!(answer, "{pages}")
        }
        "view-named" => say_number(answer, view_of(&mounted, &Text::of(alloc, word)?)),
        "file-named" => say_number(answer, file_named(&mounted, &Text::of(alloc, word)?)),
        _ => say(answer, "no such step"),
    }
}

/// Appends a name.
fn say_name(answer: &mut String, name: &str) -> Result<(), AllocError> {
    say(answer, if name == "" { "''" } else { name })
}

/// Appends a number, or `none`.
fn say_number(answer: &mut String, number: Option<u32>) -> Result<(), AllocError> {
    match number {
        Some(number) => writeln!(answer, "{number}"),
        None => say(answer, "none"),
    }
}
