//! Exchanges about page 0 of a file of two pages of 64 bytes: of a layer and the disk of number 7, which are on machine 5, and of
//! that layer and its child on machine 6, which is node 2 and a leaf of one frame.

ghost use Rattle.std.specs.Prelude.{◌≡◌, ◌<◌, IsTrue};
ghost use Rattle.disk_layer.specs.Disk.{seen_of};
ghost use Rattle.page_messages.specs.declared.kinds.Asked.{Asked as AQuestion};
ghost use Rattle.page_messages.specs.declared.kinds.Called.{Called as AnOrder};
ghost use Rattle.page_exchange.specs.Table.{MayAskAbout, MayObeyAbout, file_of};
ghost use Rattle.page_exchange.specs.Exchange.{IsPair};
ghost use Rattle.page_exchange.specs.Ground.{IsUnder};

use crate::layers::right_word;
use coherency_layer::{Asked, Called, Node, NodeErr};
use page_exchange::{Ends, GroundErr, Table, Wire};
use page_ground::Ground;
use std::alloc::{AllocError, Global};
use tower_core::Right;
use trial_parts::{Ram, Subject, disk, first_bytes, operations, refused_write};
use trial_words::{Halt, bytes, put_hex};
use vmm_cache::Leaf;

/// The machines of the layer and of the disk.
const ON_DISK: Ends = Ends { node: 5, parent: 5 };

/// The machines of the leaf and of the layer.
const ON_LAYER: Ends = Ends { node: 6, parent: 5 };

/// The layer and the leaf below it, the disk, and the wire.
#[derive(Drop)]
pub struct Exchanged {
    layer: Table,
    leaf: Table,
    ground: Ram,
    wire: Wire,
}

/// Whether the disk has the pages of the node's file, two of 64 bytes.
fn is_under(disk: &Ram, table: &Table) -> bool
    ensures under { IsTrue result → IsUnder (seen_of disk.now) table.now }
    ensures size { IsTrue result → (file_of table.now).page_size ≡ 64 }
    ensures pages { IsTrue result → (file_of table.now).pages ≡ 2 }
{
    let shape = disk.shape();
    let file = table.file();
    shape.page_size == 64 && shape.pages == 2 && file.page_size == 64 && file.pages == 2
}

/// Whether the node may ask for page 0, to write it.
fn may_get(table: &Table) -> bool
    requires { 0 < (file_of table.now).pages }
    ensures { IsTrue result → MayAskAbout table.now AQuestion.PageInWrite 0 }
{
    match table {
        Table::Layer { node } => node.right(0) == Right::Nothing,
        Table::Leaf { leaf } => leaf.right(0) == Right::Nothing && leaf.held() < leaf.frames(),
    }
}

/// Whether the node may ask for a sync of page 0.
fn may_sync(table: &Table) -> bool
    requires { 0 < (file_of table.now).pages }
    ensures { IsTrue result → MayAskAbout table.now AQuestion.Sync 0 }
{
    match table {
        Table::Layer { node } => node.right(0) == Right::Write,
        Table::Leaf { leaf } => leaf.right(0) == Right::Write,
    }
}

/// Whether the node may be ordered not to write page 0.
fn may_deny(table: &Table) -> bool
    requires { 0 < (file_of table.now).pages }
    ensures { IsTrue result → MayObeyAbout table.now AnOrder.DenyWrites 0 }
{
    match table {
        Table::Layer { node } => node.right(0) == Right::Write && node.may_read(0),
        Table::Leaf { leaf } => leaf.right(0) == Right::Write,
    }
}

/// Whether the node is child 2 of a layer, of one file.
fn is_pair(own: &Table, above: &Node) -> bool
    ensures { IsTrue result → IsPair own.now above.now 2 }
{
    own.file() == above.file() && above.has_child(2)
}

/// The leaf asks the layer for page 0, to write it.
fn leaf_gets(wire: &mut Wire, own: &mut Table, above: &mut Node) -> Result<(), Halt> {
    let file = own.file();
    if file.pages != 2 || !is_pair(own, above) || !may_get(own) {
        return Err(Halt::Impossible);
    }
    if own.right(0) != Right::Nothing || above.child_right(0, 2) != Right::Nothing {
        return Err(Halt::Impossible);
    }
    if !above.may_write(0) {
        return Err(Halt::Impossible);
    }
    match wire.ask_above(own, above, ON_LAYER, 2, Asked::PageInWrite, 0) {
        Ok(()) => Ok(()),
        Err(NodeErr::Memory) => Err(Halt::Memory),
        Err(NodeErr::NotAllowed { .. }) => Err(Halt::Impossible),
    }
}

/// The layer orders the leaf not to write page 0.
fn leaf_denied(wire: &mut Wire, own: &mut Table, above: &mut Node) -> Result<(), Halt> {
    let file = own.file();
    if file.pages != 2 || !is_pair(own, above) || !may_deny(own) {
        return Err(Halt::Impossible);
    }
    if above.child_right(0, 2) != Right::Write {
        return Err(Halt::Impossible);
    }
    wire.call_below(own, above, ON_LAYER, 2, Called::DenyWrites, 0);
    Ok(())
}

/// Appends whether the ground answered.
pub fn put_ground(answered: Result<(), GroundErr>, answer: &mut String) -> Result<(), AllocError> {
    match answered {
        Ok(()) => answer.push_str("done\n"),
        Err(err) => writeln!(answer, "{err}"),
    }
}

/// Appends how many bytes a packet has, and the first 34 of them: both machines, the head and two bytes of the page.
fn put_packet(alloc: Global, packet: &[u8], answer: &mut String) -> Result<(), Halt> {
    write!(answer, "{} bytes ", packet.len())?;
    put_hex(alloc, &packet[..packet.len().min(34)], answer)?;
    Ok(answer.push('\n')?)
}

/// Appends how the packets of an exchange begin, or that there are none.
pub fn put_packets(
    alloc: Global,
    packets: (&[u8], &[u8]),
    answer: &mut String,
) -> Result<(), Halt> {
    if packets.0.is_empty() && packets.1.is_empty() {
        return Ok(answer.push_str("no packets\n")?);
    }
    put_packet(alloc, packets.0, answer)?;
    put_packet(alloc, packets.1, answer)
}

/// Appends the right on page 0 and its first bytes at a node, where it may read them.
fn put_page(alloc: Global, table: &Table, answer: &mut String) -> Result<(), Halt> {
    let file = table.file();
    if file.pages != 2 || file.page_size != 64 {
        return Err(Halt::Impossible);
    }
    answer.push_str(right_word(table.right(0)))?;
    if table.may_read(0) {
        answer.push(' ')?;
        put_hex(alloc, table.lend(0, 0, 2), answer)?;
    }
    Ok(answer.push('\n')?)
}

/// A node writes the first bytes of page 0.
fn write_first(table: &mut Table, new: &[u8]) -> Result<(), Halt> {
    let file = table.file();
    if file.pages != 2 || file.page_size != 64 || new.len() > 64 || !table.may_write(0) {
        return Err(Halt::Impossible);
    }
    table.change(0, 0, new);
    Ok(())
}

/// Whether the node may ask this about page 0; of the questions those alone that the cases need.
fn may_ask(table: &Table, what: Asked) -> bool
    requires { 0 < (file_of table.now).pages }
    ensures { IsTrue result → MayAskAbout table.now what 0 }
{
    match what {
        Asked::PageInWrite => may_get(table),
        Asked::Sync => may_sync(table),
        _ => false,
    }
}

impl Exchanged {
    /// The layer asks the disk.
    fn ask(&mut self, what: Asked, answer: &mut String) -> Result<(), Halt> {
        let (layer, ground) = (&mut self.layer, &mut self.ground);
        if !is_under(ground, layer) || !may_ask(layer, what) {
            return Err(Halt::Impossible);
        }
        let mut scratch = [0u8; 64];
        let asked = self
            .wire
            .ask_ground(layer, ground, ON_DISK, what, 0, &mut scratch);
        Ok(put_ground(asked, answer)?)
    }

    /// The disk orders the layer not to write page 0.
    fn deny(&mut self, answer: &mut String) -> Result<(), Halt> {
        let (layer, ground) = (&mut self.layer, &mut self.ground);
        if !is_under(ground, layer) || !may_deny(layer) {
            return Err(Halt::Impossible);
        }
        let denied = self
            .wire
            .order_by_ground(layer, ground, ON_DISK, Called::DenyWrites, 0)
            .map_err(GroundErr::Store);
        Ok(put_ground(denied, answer)?)
    }

    /// The leaf asks the layer, or is ordered by it.
    fn pair(&mut self, word: &str) -> Result<(), Halt> {
        let Table::Layer { node } = &mut self.layer else {
            return Err(Halt::Impossible);
        };
        match word {
            "gets" => leaf_gets(&mut self.wire, &mut self.leaf, node),
            "denied" => leaf_denied(&mut self.wire, &mut self.leaf, node),
            _ => Err(Halt::Unread),
        }
    }

    /// Appends the first bytes of page 0 on the disk.
    fn put_disk(&mut self, alloc: Global, answer: &mut String) -> Result<(), Halt> {
        put_hex(alloc, &first_bytes(&mut self.ground, 0)?, answer)?;
        Ok(answer.push('\n')?)
    }
}

/// A layer that has nothing.
fn fresh_layer(alloc: Global) -> Result<Table, AllocError> {
    let node = Node::new(alloc, 64, 2, &[2], 0)?;
    Ok(Table::Layer { node })
}

/// A leaf that has nothing.
fn fresh_leaf(alloc: Global) -> Result<Table, AllocError> {
    let leaf = Leaf::new(alloc, 64, 2, 1, 0)?;
    Ok(Table::Leaf { leaf })
}

/// The nodes, of which nobody has anything, over a fresh disk that refuses one write; 0 is none.
fn fresh(alloc: Global, fails_at: u64) -> Result<Exchanged, Halt> {
    let wire = Wire::new(alloc, operations())?;
    let ground = disk(alloc, 7, 2, fails_at)?;
    let layer = fresh_layer(alloc)?;
    let leaf = fresh_leaf(alloc)?;
    Ok(Exchanged {
        layer,
        leaf,
        ground,
        wire,
    })
}

impl Subject for Exchanged {
    fn make(alloc: Global, words: &[&str]) -> Result<Exchanged, Halt> {
        let ["exchange", rest @ ..] = words else {
            return Err(Halt::Unread);
        };
        fresh(alloc, refused_write(rest)?.0)
    }

    fn step(&mut self, alloc: Global, words: &[&str], answer: &mut String) -> Result<(), Halt> {
        match words {
            ["layer", "gets"] => self.ask(Asked::PageInWrite, answer),
            ["layer", "syncs"] => self.ask(Asked::Sync, answer),
            ["layer", "denied"] => self.deny(answer),
            ["layer", "has"] => put_page(alloc, &self.layer, answer),
            ["leaf", "has"] => put_page(alloc, &self.leaf, answer),
            ["layer", "writes", word] => write_first(&mut self.layer, &bytes(alloc, word)?),
            ["leaf", "writes", word] => write_first(&mut self.leaf, &bytes(alloc, word)?),
            ["leaf", word] => self.pair(word),
            ["disk"] => self.put_disk(alloc, answer),
            ["packets"] => put_packets(alloc, self.wire.packets(), answer),
            _ => Err(Halt::Unread),
        }
    }
}
