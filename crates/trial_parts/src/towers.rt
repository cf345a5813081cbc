//! Towers over a file of pages of 64 bytes on a disk in memory.

ghost use Rattle.std.specs.Prelude.{◌≡◌, ◌≤◌, IfOk, IsTrue, length, ℕ};
ghost use Rattle.disk_layer.specs.Disk.{seen_of};
ghost use Rattle.page_ground.specs.Seen.{faults_in, opened_in};
ghost use Rattle.page_exchange.specs.Tables.{IsUnderFile};
ghost use Rattle.page_messages.specs.Paged.{IsPagedFile};
ghost use Rattle.tower_core.specs.TreeShape.{IsUpper, frames_of, nodes};
ghost use Rattle.stack_engine.specs.Engine.{file_in, tree_in};

use crate::accesses::operations;
use crate::disks::{Ram, disk, file_of, is_under};
use crate::trees::{has_small_frames, tree_of};
use hist_plain::MAX_PAGES;
use page_messages::PagedFile;
use stack_engine::Tower;
use std::alloc::Global;
use tower_core::Tree;
use trial_words::{Halt, number, numbers};

/// A tower of this tree, on these machines, and of this file over a disk.
fn opened(
    alloc: Global,
    tree: Tree,
    file: PagedFile,
    machines: Vec<u32>,
    ground: Ram,
) -> Result<Tower<Ram>, Halt>
    requires paged { IsPagedFile file }
    requires frames { (node : ℕ) → frames_of tree node ≤ 1024 }
    requires machines { length machines.items ≡ nodes tree }
    requires under { IsUnderFile (seen_of ground) file }
    requires counts { (disk : ℕ) → opened_in (seen_of ground).disks disk ≤ faults_in (seen_of ground).disks disk }
    ensures tree { IfOk result (λ t. tree_in t.engine ≡ tree) }
    ensures file { IfOk result (λ t. file_in t.engine ≡ file) }
{
    match Tower::open(alloc, tree, file, machines, ground, operations()) {
        Ok(tower) => Ok(tower),
        Err(_) => Err(Halt::Memory),
    }
}

/// A tower of this tree, on these machines, and of file 0, over a fresh disk 0 whose store fails at one write; 0 is no write.
fn tower_on(
    alloc: Global,
    tree: Tree,
    machines: Vec<u32>,
    pages: u32,
    fails_at: u64,
) -> Result<Tower<Ram>, Halt>
    ensures tree { IfOk result (λ t. tree_in t.engine ≡ tree) }
    ensures file { IfOk result (λ t. file_in t.engine ≡ record { number = 0; page_size = 64; pages = pages }) }
{
    let file = file_of(0, pages);
    let ground = disk(alloc, 0, pages, fails_at)?;
    if pages == 0 || pages > MAX_PAGES || !has_small_frames(&tree) || !is_under(&ground, file) {
        return Err(Halt::Impossible);
    }
    if machines.len() != tree.nodes() as usize {
        return Err(Halt::Impossible);
    }
    opened(alloc, tree, file, machines, ground)
}

/// The same on one machine.
pub fn tower_over(alloc: Global, tree: Tree, pages: u32, fails_at: u64) -> Result<Tower<Ram>, Halt>
    ensures tree { IfOk result (λ t. tree_in t.engine ≡ tree) }
    ensures file { IfOk result (λ t. file_in t.engine ≡ record { number = 0; page_size = 64; pages = pages }) }
{
    let machines = vec![in alloc; 0u32; tree.nodes() as usize]?;
    tower_on(alloc, tree, machines, pages, fails_at)
}

/// The same for the tree of some words, and for the machines of its nodes where they stand behind it, after `machines`.
pub fn tower_of(alloc: Global, tree: &[&str], pages: u32, fails_at: u64) -> Result<Tower<Ram>, Halt>
    ensures { IfOk result (λ t. file_in t.engine ≡ record { number = 0; page_size = 64; pages = pages }) }
{
    match tree.iter().position(|word| *word == "machines") {
        None => tower_over(alloc, tree_of(alloc, tree)?, pages, fails_at),
        Some(at) => {
            let machines = numbers(alloc, &tree[at + 1..])?;
            tower_on(
                alloc,
                tree_of(alloc, &tree[..at])?,
                machines,
                pages,
                fails_at,
            )
        }
    }
}

/// The count of pages in `PAGES pages, parents PARENT .. frames FRAMES ..`, and the words of the tree behind it.
pub fn pages_and_tree<'a, 'b>(words: &'a [&'b str]) -> Result<(u32, &'a [&'b str]), Halt> {
    match words {
        [pages, "pages,", "parents", tree @ ..] => Ok((number(pages)?, tree)),
        _ => Err(Halt::Unread),
    }
}

/// Whether the node is a layer of the tower.
pub fn is_layer(tower: &Tower<Ram>, node: u32) -> bool
    ensures { IsTrue result → IsUpper (tree_in tower.now.engine) node }
{
    0 < node && node < tower.tree().nodes()
}
