//! The tables of a node on the ground, and of two on that node, which share page 1 of a file of two pages of 64 bytes, over the
//! disk of number 7. Node 3 is on machine 1, and all others are on machine 0.

ghost use Rattle.std.specs.Prelude.{◌≡◌, ◌≢◌, ◌<◌, IfSome, IsTrue, true};
ghost use Rattle.disk_layer.specs.Disk.{seen_of};
ghost use Rattle.tower_core.specs.TreeShape.{IsUpper, frames_of, parent};
ghost use Rattle.tower_core.specs.declared.right.Right.{Right as ARight};
ghost use Rattle.page_messages.specs.Rules.{MayServe};
ghost use Rattle.page_messages.specs.declared.kinds.Asked.{Asked as AQuestion};
ghost use Rattle.page_messages.specs.declared.kinds.Called.{Called as AnOrder};
ghost use Rattle.page_exchange.specs.Allowed.{AllowAsking, AllowCalling, AllowsReading, AllowsWriting, grant_asked};
ghost use Rattle.page_exchange.specs.Exchange.{may_be_full};
ghost use Rattle.page_exchange.specs.Tables.{IsUnderFile, MayAskFrames, paged_of, sides, tree_of};

use crate::exchange::{put_ground, put_packets};
use crate::layers::right_word;
use coherency_layer::{Asked, Called};
use page_exchange::{GroundErr, Tables};
use page_ground::Ground;
use std::alloc::{AllocError, Global};
use tower_core::{Right, Tree};
use trial_parts::{Ram, Subject, disk, file_of, first_bytes, operations, refused_write};
use trial_words::{Halt, bytes, number, put_hex};

/// The page that the nodes share.
const PAGE: u32 = 1;

/// The tables, and the disk.
#[derive(Drop)]
pub struct Shared {
    tables: Tables,
    ground: Ram,
}

/// The tables of the three nodes.
fn tables(alloc: Global) -> Result<Tables, AllocError> {
    let tree = Tree::new(alloc, &[0, 0, 1, 1], &[0, 0, 0, 0])?;
    let machines = [0, 0, 0, 1].to_vec(alloc)?;
    Tables::new(alloc, tree, file_of(3, 2), machines, operations())
}

/// Whether the disk has the pages of the tables' file, two of 64 bytes.
fn is_under(disk: &Ram, tables: &Tables) -> bool
    ensures under { IsTrue result → IsUnderFile (seen_of disk.now) (paged_of tables.now) }
    ensures size { IsTrue result → (paged_of tables.now).page_size ≡ 64 }
    ensures pages { IsTrue result → (paged_of tables.now).pages ≡ 2 }
{
    let shape = disk.shape();
    let file = tables.file();
    shape.page_size == 64 && shape.pages == 2 && file.page_size == 64 && file.pages == 2
}

/// Whether the node is one of the tree, and not the ground.
fn is_upper(tables: &Tables, node: u32) -> bool
    ensures { IsTrue result → IsUpper (tree_of tables.now) node }
{
    0 < node && node < tables.tree().nodes()
}

/// Whether the node is a layer.
fn is_layer(tables: &Tables, node: u32) -> bool
    requires { IsUpper (tree_of tables.now) node }
    ensures { IsTrue result → frames_of (tree_of tables.now) node ≡ 0 }
{
    tables.tree().frames(node) == 0
}

/// Whether a layer may read the page.
fn may_read(tables: &Tables, node: u32) -> bool
    requires upper { IsUpper (tree_of tables.now) node }
    requires page { PAGE < (paged_of tables.now).pages }
    ensures { IsTrue result → AllowsReading (sides tables.now PAGE node) }
{
    is_layer(tables, node) && tables.node(node).may_read(PAGE)
}

/// Whether a layer may write the page.
fn may_write(tables: &Tables, node: u32) -> bool
    requires upper { IsUpper (tree_of tables.now) node }
    requires page { PAGE < (paged_of tables.now).pages }
    ensures { IsTrue result → AllowsWriting (sides tables.now PAGE node) }
{
    is_layer(tables, node) && tables.node(node).may_write(PAGE)
}

/// What a layer knows of a child's right on the page.
fn child_right(tables: &Tables, above: u32, node: u32) -> Option<Right>
    requires upper { IsUpper (tree_of tables.now) above }
    requires page { PAGE < (paged_of tables.now).pages }
    ensures { IfSome result (λ right. right ≡ (sides tables.now PAGE above).kids node) }
{
    if !is_layer(tables, above) {
        return None;
    }
    let upper = tables.node(above);
    if !upper.has_child(node) {
        return None;
    }
    Some(upper.child_right(PAGE, node))
}

/// Whether a node, whose child has nothing of the page, may give it the page.
fn lends(tables: &Tables, above: u32, node: u32, write: bool) -> bool
    requires above { IsUpper (tree_of tables.now) above }
    requires page { PAGE < (paged_of tables.now).pages }
    ensures known { IsTrue result → (sides tables.now PAGE above).kids node ≡ ARight.Nothing }
    ensures serves { IsTrue result → MayServe (sides tables.now PAGE above) node true (grant_asked write) }
{
    if child_right(tables, above, node) != Some(Right::Nothing) {
        return false;
    }
    if write {
        may_write(tables, above)
    } else {
        may_read(tables, above)
    }
}

/// Whether a node, which has nothing of the page, may ask for it.
fn may_get(tables: &Tables, node: u32, write: bool) -> bool
    requires upper { IsUpper (tree_of tables.now) node }
    requires page { PAGE < (paged_of tables.now).pages }
    ensures may { IsTrue result → AllowAsking (tree_of tables.now) (sides tables.now PAGE) node true (grant_asked write) }
    ensures frames { IsTrue result → MayAskFrames tables.now node (grant_asked write) PAGE }
    ensures known { IsTrue result → IsUpper (tree_of tables.now) (parent (tree_of tables.now) node) →
        (sides tables.now PAGE (parent (tree_of tables.now) node)).kids node ≡ (sides tables.now PAGE node).right }
{
    if !is_layer(tables, node) || tables.right(node, PAGE) != Right::Nothing {
        return false;
    }
    let above = tables.tree().parent(node);
    above == 0 || lends(tables, above, node, write)
}

/// Whether a node on the ground may bring the page to the ground.
fn may_sync(tables: &Tables, node: u32) -> bool
    requires upper { IsUpper (tree_of tables.now) node }
    requires page { PAGE < (paged_of tables.now).pages }
    ensures may { IsTrue result → AllowAsking (tree_of tables.now) (sides tables.now PAGE) node
        (may_be_full (sides tables.now PAGE node) AQuestion.Sync) AQuestion.Sync }
    ensures on_ground { IsTrue result → parent (tree_of tables.now) node ≡ 0 }
{
    tables.tree().parent(node) == 0 && tables.right(node, PAGE) == Right::Write
}

/// Whether a node may order a child not to write the page.
fn holds_writer(tables: &Tables, above: u32, node: u32) -> bool
    requires above { IsUpper (tree_of tables.now) above }
    requires page { PAGE < (paged_of tables.now).pages }
    ensures { IsTrue result → (sides tables.now PAGE above).kids node ≡ ARight.Write }
{
    child_right(tables, above, node) == Some(Right::Write)
}

/// Whether a node may be ordered not to write the page.
fn may_deny(tables: &Tables, node: u32) -> bool
    requires upper { IsUpper (tree_of tables.now) node }
    requires page { PAGE < (paged_of tables.now).pages }
    ensures { IsTrue result → AllowCalling (tree_of tables.now) (sides tables.now PAGE) node AnOrder.DenyWrites }
{
    if tables.right(node, PAGE) != Right::Write || !may_read(tables, node) {
        return false;
    }
    let above = tables.tree().parent(node);
    above == 0 || holds_writer(tables, above, node)
}

/// Appends what a node has of the page: its right, and the first bytes where it may read them.
fn put_held(alloc: Global, tables: &Tables, node: u32, answer: &mut String) -> Result<(), Halt>
    requires upper { IsUpper (tree_of tables.now) node }
    requires page { PAGE < (paged_of tables.now).pages }
    requires size { (paged_of tables.now).page_size ≡ 64 }
{
    answer.push_str(right_word(tables.right(node, PAGE)))?;
    if may_read(tables, node) {
        answer.push(' ')?;
        put_hex(alloc, &tables.copy(node, PAGE)[..2], answer)?;
    }
    Ok(())
}

impl Shared {
    /// A node asks for the page.
    fn get(&mut self, node: u32, write: bool, answer: &mut String) -> Result<(), Halt> {
        let (tables, ground) = (&mut self.tables, &mut self.ground);
        if !is_under(ground, tables) || !is_upper(tables, node) || !may_get(tables, node, write) {
            return Err(Halt::Impossible);
        }
        let asked = if write {
            tables.ask(ground, node, Asked::PageInWrite, PAGE)
        } else {
            tables.ask(ground, node, Asked::PageInRead, PAGE)
        };
        Ok(put_ground(asked, answer)?)
    }

    /// A node on the ground brings the page to the ground.
    fn sync(&mut self, node: u32, answer: &mut String) -> Result<(), Halt> {
        let (tables, ground) = (&mut self.tables, &mut self.ground);
        if !is_under(ground, tables) || !is_upper(tables, node) || !may_sync(tables, node) {
            return Err(Halt::Impossible);
        }
        let asked = tables.ask(ground, node, Asked::Sync, PAGE);
        Ok(put_ground(asked, answer)?)
    }

    /// A node is ordered not to write the page.
    fn deny(&mut self, node: u32, answer: &mut String) -> Result<(), Halt> {
        let (tables, ground) = (&mut self.tables, &mut self.ground);
        if !is_under(ground, tables) || !is_upper(tables, node) || !may_deny(tables, node) {
            return Err(Halt::Impossible);
        }
        let denied = tables
            .order(ground, node, Called::DenyWrites, PAGE)
            .map_err(GroundErr::Store);
        Ok(put_ground(denied, answer)?)
    }

    /// Whether a node may write the page.
    fn may_write(&self, node: u32) -> bool
        ensures upper { IsTrue result → IsUpper (tree_of self.now.tables) node }
        ensures writes { IsTrue result → AllowsWriting (sides self.now.tables PAGE node) }
        ensures size { IsTrue result → (paged_of self.now.tables).page_size ≡ 64 }
        ensures pages { IsTrue result → (paged_of self.now.tables).pages ≡ 2 }
    {
        is_under(&self.ground, &self.tables)
            && is_upper(&self.tables, node)
            && may_write(&self.tables, node)
    }

    /// A node writes the first bytes of the page.
    fn write(&mut self, node: u32, new: &[u8]) -> Result<(), Halt> {
        if new.len() > 64 || !self.may_write(node) {
            return Err(Halt::Impossible);
        }
        self.tables.change(node, PAGE, 0, new);
        Ok(())
    }

    /// A node makes the page zeros.
    fn blank(&mut self, node: u32) -> Result<(), Halt> {
        if !self.may_write(node) {
            return Err(Halt::Impossible);
        }
        self.tables.blank(node, PAGE);
        Ok(())
    }

    /// Appends what the three nodes have of the page.
    fn put_all(&self, alloc: Global, answer: &mut String) -> Result<(), Halt> {
        if !is_under(&self.ground, &self.tables) {
            return Err(Halt::Impossible);
        }
        for node in 1..self.tables.tree().nodes() {
            answer.push_str(if node == 1 { "" } else { ", " })?;
            put_held(alloc, &self.tables, node, answer)?;
        }
        Ok(answer.push('\n')?)
    }

    /// Appends the first bytes of the page on the disk.
    fn put_disk(&mut self, alloc: Global, answer: &mut String) -> Result<(), Halt> {
        put_hex(alloc, &first_bytes(&mut self.ground, PAGE)?, answer)?;
        Ok(answer.push('\n')?)
    }

    /// A node does what the words say.
    fn act(
        &mut self,
        alloc: Global,
        node: u32,
        words: &[&str],
        answer: &mut String,
    ) -> Result<(), Halt> {
        match words {
            ["gets", "write"] => self.get(node, true, answer),
            ["gets", "read"] => self.get(node, false, answer),
            ["syncs"] => self.sync(node, answer),
            ["denied"] => self.deny(node, answer),
            ["writes", word] => self.write(node, &bytes(alloc, word)?),
            ["blanks"] => self.blank(node),
            _ => Err(Halt::Unread),
        }
    }
}

/// The tables, of which nobody has anything, over a fresh disk that refuses one write; 0 is none.
fn fresh(alloc: Global, fails_at: u64) -> Result<Shared, Halt> {
    Ok(Shared {
        tables: tables(alloc)?,
        ground: disk(alloc, 7, 2, fails_at)?,
    })
}

impl Subject for Shared {
    fn make(alloc: Global, words: &[&str]) -> Result<Shared, Halt> {
        let ["tables", rest @ ..] = words else {
            return Err(Halt::Unread);
        };
        fresh(alloc, refused_write(rest)?.0)
    }

    fn step(&mut self, alloc: Global, words: &[&str], answer: &mut String) -> Result<(), Halt> {
        match words {
            ["disk"] => self.put_disk(alloc, answer),
            ["packets"] => put_packets(alloc, self.tables.packets(), answer),
            [node, rest @ ..] => {
                self.act(alloc, number(node)?, rest, answer)?;
                self.put_all(alloc, answer)
            }
            [] => Err(Halt::Unread),
        }
    }
}
