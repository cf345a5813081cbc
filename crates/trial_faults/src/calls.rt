//! What a script's lines say of objects and regions.

use std::alloc::{AllocError, Global};

/// An object of a client.
#[derive(Clone, Copy, Debug, Drop)]
pub struct Object<'a> {
    /// Its name.
    pub name: &'a str,
    /// Where it leads.
    pub target: Target<'a>,
}

/// Where an object leads.
#[derive(Clone, Copy, Debug, Drop)]
pub struct Target<'a> {
    /// The node of its file, or a star if that is a manager.
    pub node: &'a str,
    /// Its file.
    pub file: &'a str,
}

/// A region of a client.
#[derive(Clone, Copy, Debug, Drop)]
pub struct Region<'a> {
    /// Where it begins.
    pub address: u64,
    /// Its file.
    pub file: &'a str,
}

/// Where an object of a name leads, which is the last one that was opened so.
pub fn target_of<'a>(objects: &[Object<'a>], name: &str) -> Option<Target<'a>> {
    let mut target = None;
    for object in objects {
        if object.name == name {
            target = Some(object.target);
        }
    }
    target
}

/// The region of an address: the last one that begins at it or nearest before it.
pub fn region_at<'a>(regions: &[Region<'a>], address: u64) -> Option<Region<'a>> {
    let mut best: Option<Region<'a>> = None;
    for region in regions {
        let least = match best {
            Some(best) => best.address,
            None => 0,
        };
        if region.address <= address && region.address >= least {
            best = Some(*region);
        }
    }
    best
}

/// Where an object leads that a line binds under a path, if it does.
fn bound_at<'a>(words: &[&'a str], path: &str) -> Option<Target<'a>> {
    match words {
        [_, "bind", bound, sub, view, file] if *bound == path => Some(Target {
            node: if *sub == "caching" { "*" } else { *view },
            file: *file,
        }),
        _ => None,
    }
}

/// Where the object of a path leads: that which some line of the script binds there, else that of a view and a file.
pub fn target_at<'a>(
    alloc: Global,
    script: &'a str,
    path: &'a str,
) -> Result<Option<Target<'a>>, AllocError> {
    for line in script.lines() {
        let words: Vec<&'a str> = line.split(' ').collect(alloc)?;
        if let Some(target) = bound_at(&words, path) {
            return Ok(Some(target));
        }
    }
    Ok(match path.split_once('/') {
        Some((node, file)) => Some(Target { node, file }),
        None => None,
    })
}

/// Whether an answer is that of a call that was not made, or not answered by a file or the names.
pub fn is_refused(answer: &[&str]) -> bool {
    match answer {
        [first, ..] => REFUSALS.iter().any(|word| word == first),
        [] => true,
    }
}

/// The first words of refusals.
const REFUSALS: [&str; 13] = [
    "no",
    "bad",
    "object",
    "not",
    "already",
    "region",
    "unaligned",
    "too",
    "overlap",
    "unmapped",
    "crosses",
    "store",
    "trail",
];
