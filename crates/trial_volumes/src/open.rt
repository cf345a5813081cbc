//! Volumes of files that are alike, with no name.

ghost use Rattle.std.specs.Prelude.{◌≡◌, ◌<◌, IfOk, length};
ghost use Rattle.std.specs.List.{AllByRecursion};
ghost use Rattle.trial_volumes.specs.Alike.{AreLike, IsFor, IsLike};

use name_context::Names;
use spr_volume::{Pass, Volume};
use stack_engine::Tower;
use std::alloc::{AllocError, Global};
use trial_parts::{Ram, tower_of};
use trial_words::Halt;

/// Files that are alike: how many, how many nodes each has, and how many pages.
#[derive(Clone, Copy)]
pub struct Alike {
    /// How many files.
    pub files: u32,
    /// How many nodes over each, the ground among them.
    pub nodes: u32,
    /// How many pages each has.
    pub pages: u32,
}

/// A tower like these, if the words are of such a tree.
fn tower(alloc: Global, alike: Alike, tree: &[&str]) -> Result<Tower<Ram>, Halt>
    ensures { IfOk result (IsLike alike) }
{
    let tower = tower_of(alloc, tree, alike.pages, 0)?;
    if tower.tree().nodes() != alike.nodes {
        return Err(Halt::Impossible);
    }
    Ok(tower)
}

/// The towers, each over a disk of its own.
fn towers(alloc: Global, alike: Alike, tree: &[&str]) -> Result<Vec<Tower<Ram>>, Halt>
    ensures count { IfOk result (λ towers. length towers.items ≡ alike.files) }
    ensures each { IfOk result (λ towers. AllByRecursion (IsLike alike) towers.items) }
{
    let mut towers = Vec::new(alloc);
    for _file in 0..alike.files {
        towers
            .push(tower(alloc, alike, tree)?)
            .map_err(|_| Halt::Memory)?;
    }
    Ok(towers)
}

/// No names.
fn no_names(alloc: Global) -> Result<Names, AllocError> {
    Names::start(alloc, &[], &[])
}

/// A volume of the towers and no name, and the pass of all its callers.
pub fn mounted(
    alloc: Global,
    alike: Alike,
    tree: &[&str],
    callers: u32,
) -> Result<(Volume<Ram>, Pass<Ram>), Halt>
    requires { 0 < callers }
    ensures files { IfOk result (λ r. AreLike alike r.0) }
    ensures pass { IfOk result (λ r. IsFor r.0 0 callers r.1) }
    ensures callers { IfOk result (λ r. r.0.end ≡ callers) }
{
    let towers = towers(alloc, alike, tree)?;
    let names = no_names(alloc)?;
    match Volume::mount(alloc, towers, names, callers) {
        Ok(mounted) => Ok(mounted),
        Err(_back) => Err(Halt::Memory),
    }
}
