//! A layer and its parent, each with its own table of two pages of 64 bytes, and the two frames between them.

ghost use Rattle.std.specs.Prelude.{IsTrue, ◌≡◌, ◌<◌, ◌≤◌, length};
ghost use Rattle.page_messages.specs.declared.kinds.Asked.{Asked as AQuestion};
ghost use Rattle.coherency_layer.specs.Node.{MayAskAbout, MayCallAbout, file_of};

use crate::frames::{asked_of, called_of};
use coherency_layer::{Asked, Called, Node, NodeErr};
use marshal_buf::Buf;
use page_messages::Letter;
use pager_channel::{Frame, Ops, read_frame};
use std::alloc::{AllocError, Global};
use tower_core::Right;
use trial_parts::{Subject, operations};
use trial_words::{Halt, bytes, number, put_hex, say, three, two};

/// The two nodes: the layer, and its parent, whose child is node 2. The first frame is a question or an order, and the second
/// its answer.
#[derive(Drop)]
pub struct Layers {
    layer: Node,
    parent: Node,
    first: Buf,
    second: Buf,
}

/// The word of a right.
pub fn right_word(right: Right) -> &'static str {
    match right {
        Right::Nothing => "nothing",
        Right::Read => "read",
        Right::Write => "write",
    }
}

/// Appends the head of a frame, and how many bytes follow it.
pub fn put_frame(alloc: Global, frame: &[u8], answer: &mut String) -> Result<(), Halt> {
    let (head, body) = frame.split_at(frame.len().min(24));
    put_hex(alloc, head, answer)?;
    if !body.is_empty() {
        write!(answer, " and {} bytes", body.len())?;
    }
    Ok(answer.push('\n')?)
}

/// Appends whether a frame was taken.
pub fn put_taken(taken: Result<(), NodeErr>, answer: &mut String) -> Result<(), AllocError> {
    match taken {
        Ok(()) => answer.push_str("done\n"),
        Err(err) => writeln!(answer, "{err}"),
    }
}

/// The frame that the bytes are.
pub fn frame_of<'a>(ops: &Ops, buf: &'a [u8]) -> Result<Frame<'a>, Halt> {
    if buf.len() > 4120 {
        return Err(Halt::Impossible);
    }
    read_frame(ops, buf).map_err(|_| Halt::Impossible)
}

/// The bytes of a page that begins with these, and goes on with zeros.
pub fn page_of(bytes: &[u8]) -> [u8; 64] {
    let mut page = [0u8; 64];
    let len = bytes.len().min(64);
    page[..len].copy_from_slice(&bytes[..len]);
    page
}

/// Whether the node may ask this about a page; of the questions those alone that the cases need.
fn may_ask(node: &Node, what: Asked, page: u32) -> bool
    ensures { IsTrue result → MayAskAbout node.now what page }
{
    if page >= node.file().pages {
        return false;
    }
    match what {
        Asked::PageInRead => node.right(page) == Right::Nothing,
        Asked::PageInWrite => node.right(page) != Right::Write,
        Asked::Sync => node.right(page) == Right::Write,
        Asked::PageOut | Asked::WriteOut | Asked::Done => false,
    }
}

/// Whether the node may order a child to do this with a page; the end of a channel no case needs.
fn may_call(node: &Node, child: u32, what: Called, page: u32) -> bool
    ensures { IsTrue result → MayCallAbout node.now child what page }
{
    if page >= node.file().pages || !node.has_child(child) {
        return false;
    }
    match what {
        Called::FlushBack | Called::DenyWrites | Called::WriteBack => {
            node.child_right(page, child) == Right::Write
        }
        Called::DeleteRange => node.child_right(page, child) == Right::Read,
        Called::Destroy => false,
    }
}

/// A node answers the question of a child, or the order of its pager, and changes nothing.
fn serve(
    node: &Node,
    child: Option<u32>,
    frame: &Frame<'_>,
    buf: &mut Buf,
) -> Result<Result<(), NodeErr>, Halt> {
    buf.clear();
    let ops = operations();
    match child {
        Some(child) => {
            if !node.has_child(child) {
                return Err(Halt::Impossible);
            }
            Ok(node.serve_pager(&ops, child, frame, buf))
        }
        None => Ok(node.serve_cache(&ops, frame, buf)),
    }
}

/// A node takes the answer of a child, or of its pager.
fn accept(node: &mut Node, child: Option<u32>, buf: &Buf, answer: &mut String) -> Result<(), Halt> {
    let ops = operations();
    let frame = frame_of(&ops, buf.as_slice())?;
    if let Some(child) = child {
        if !node.has_child(child) {
            return Err(Halt::Impossible);
        }
    }
    Ok(put_taken(node.accept_reply(child, &frame), answer)?)
}

/// A node makes the change that it was asked by a child, or ordered by its pager.
fn finish(
    alloc: Global,
    node: &mut Node,
    child: Option<u32>,
    buf: &Buf,
    answer: &mut String,
) -> Result<(), Halt> {
    let ops = operations();
    let frame = frame_of(&ops, buf.as_slice())?;
    let mut scratch = Buf::new(alloc);
    let served = match child {
        Some(child) => {
            if !node.has_child(child) {
                return Err(Halt::Impossible);
            }
            node.serve_pager(&ops, child, &frame, &mut scratch)
        }
        None => node.serve_cache(&ops, &frame, &mut scratch),
    };
    if served.is_err() {
        return Err(Halt::Impossible);
    }
    node.finish(child, &frame);
    Ok(put_taken(Ok(()), answer)?)
}

/// A node asks its pager.
fn asks(node: &Node, what: Asked, page: u32, first: &mut Buf) -> Result<(), Halt> {
    if !may_ask(node, what, page) {
        return Err(Halt::Impossible);
    }
    first.clear();
    Ok(node.ask(&operations(), what, page, first)?)
}

/// A node orders a child.
fn orders(node: &Node, child: u32, what: Called, page: u32, first: &mut Buf) -> Result<(), Halt> {
    if !may_call(node, child, what, page) {
        return Err(Halt::Impossible);
    }
    first.clear();
    Ok(node.make_callback(&operations(), child, what, page, first)?)
}

/// A step that writes a first frame.
fn first_step(
    alloc: Global,
    node: &Node,
    first: &mut Buf,
    words: &[&str],
    answer: &mut String,
) -> Result<(), Halt> {
    match words {
        ["asks", what, page] => asks(node, asked_of(what)?, number(page)?, first)?,
        ["orders", child, what, page] => {
            let (child, page) = two(child, page)?;
            orders(node, child, called_of(what)?, page, first)?;
        }
        _ => return Err(Halt::Unread),
    }
    put_frame(alloc, first.as_slice(), answer)
}

/// The ground answers a node, where the page begins with these bytes.
fn ground_answers(
    alloc: Global,
    node: &Node,
    what: Asked,
    page: u32,
    bytes: &[u8],
    second: &mut Buf,
    answer: &mut String,
) -> Result<(), Halt> {
    let file = node.file();
    if page >= file.pages || file.page_size != 64 {
        return Err(Halt::Impossible);
    }
    let whole = page_of(bytes);
    let letter = Letter::answer(node.right(page), &whole, what);
    second.clear();
    file.put(&operations(), page, &letter, second)?;
    put_frame(alloc, second.as_slice(), answer)
}

/// A node serves the first frame, of a child or of its pager.
fn serves(
    alloc: Global,
    node: &Node,
    child: Option<u32>,
    first: &Buf,
    second: &mut Buf,
    answer: &mut String,
) -> Result<(), Halt> {
    let ops = operations();
    let frame = frame_of(&ops, first.as_slice())?;
    match serve(node, child, &frame, second)? {
        Ok(()) => put_frame(alloc, second.as_slice(), answer),
        Err(err) => Ok(writeln!(answer, "{err}")?),
    }
}

/// A node judges a frame that a child sends it.
fn judges(
    alloc: Global,
    node: &Node,
    child: u32,
    frame: &[u8],
    answer: &mut String,
) -> Result<(), Halt> {
    let ops = operations();
    let frame = frame_of(&ops, frame)?;
    let mut scratch = Buf::new(alloc);
    let served = serve(node, Some(child), &frame, &mut scratch)?;
    Ok(put_taken(served, answer)?)
}

/// A node writes bytes into a page.
fn change(node: &mut Node, page: u32, off: u32, new: &[u8]) -> Result<(), Halt> {
    let file = node.file();
    let end = (off as usize).saturating_add(new.len());
    if page >= file.pages || end > file.page_size as usize || !node.may_write(page) {
        return Err(Halt::Impossible);
    }
    node.change(page, off, new);
    Ok(())
}

/// A node makes a page zeros.
fn blank(node: &mut Node, page: u32) -> Result<(), Halt> {
    if page >= node.file().pages || !node.may_write(page) {
        return Err(Halt::Impossible);
    }
    node.blank(page);
    Ok(())
}

/// Appends bytes of a page that a node reads.
fn put_read(
    alloc: Global,
    node: &Node,
    page: u32,
    off: u32,
    len: u32,
    answer: &mut String,
) -> Result<(), Halt> {
    let file = node.file();
    if page >= file.pages || off.saturating_add(len) > file.page_size || !node.may_read(page) {
        return Err(Halt::Impossible);
    }
    put_hex(alloc, node.lend(page, off, len), answer)?;
    Ok(answer.push('\n')?)
}

/// A node's own access.
fn access_step(
    alloc: Global,
    node: &mut Node,
    words: &[&str],
    answer: &mut String,
) -> Result<(), Halt> {
    match words {
        ["changes", page, off, word] => {
            let (page, off) = two(page, off)?;
            change(node, page, off, &bytes(alloc, word)?)
        }
        ["blanks", page] => blank(node, number(page)?),
        ["reads", page, off, len] => {
            let (page, off, len) = three(page, off, len)?;
            put_read(alloc, node, page, off, len, answer)
        }
        _ => look_step(node, words, answer),
    }
}

/// The right of a node on a page.
fn right_of(node: &Node, page: u32) -> Result<Right, Halt> {
    if page >= node.file().pages {
        return Err(Halt::Impossible);
    }
    Ok(node.right(page))
}

/// What a node knows of a child's right on a page.
fn child_right(node: &Node, child: u32, page: u32) -> Result<Right, Halt> {
    if page >= node.file().pages || !node.has_child(child) {
        return Err(Halt::Impossible);
    }
    Ok(node.child_right(page, child))
}

/// A step that tells what a node has.
fn look_step(node: &Node, words: &[&str], answer: &mut String) -> Result<(), Halt> {
    let line = match words {
        ["pages"] => return Ok(writeln!(answer, "{}", node.file().pages)?),
        ["held"] => return Ok(writeln!(answer, "{}", node.held())?),
        ["right", page] => right_word(right_of(node, number(page)?)?),
        ["child", child] => {
            let is_child = node.has_child(number(child)?);
            if is_child { "yes" } else { "no" }
        }
        ["child", child, "right", page] => {
            let (child, page) = two(child, page)?;
            right_word(child_right(node, child, page)?)
        }
        _ => return Err(Halt::Unread),
    };
    Ok(say(answer, line)?)
}

/// A step of one of the nodes.
fn node_step(
    alloc: Global,
    node: &mut Node,
    first: &mut Buf,
    second: &mut Buf,
    words: &[&str],
    answer: &mut String,
) -> Result<(), Halt> {
    match words {
        ["asks", ..] | ["orders", ..] => first_step(alloc, node, first, words, answer),
        ["answered", what, page, word] => {
            let (what, page, new) = (asked_of(what)?, number(page)?, bytes(alloc, word)?);
            ground_answers(alloc, node, what, page, &new, second, answer)
        }
        ["serves", child] => serves(alloc, node, Some(number(child)?), first, second, answer),
        ["obeys"] => serves(alloc, node, None, first, second, answer),
        ["judges", child, word] => {
            judges(alloc, node, number(child)?, &bytes(alloc, word)?, answer)
        }
        ["accepts", child] => accept(node, Some(number(child)?), second, answer),
        ["accepts"] => accept(node, None, second, answer),
        ["finishes", child] => finish(alloc, node, Some(number(child)?), first, answer),
        ["finishes"] => finish(alloc, node, None, first, answer),
        _ => access_step(alloc, node, words, answer),
    }
}

/// The two nodes, of which nobody has anything.
fn fresh(alloc: Global) -> Result<Layers, AllocError> {
    Ok(Layers {
        layer: Node::new(alloc, 64, 2, &[], 0)?,
        parent: Node::new(alloc, 64, 2, &[2], 0)?,
        first: Buf::new(alloc),
        second: Buf::new(alloc),
    })
}

impl Subject for Layers {
    fn make(alloc: Global, words: &[&str]) -> Result<Layers, Halt> {
        match words {
            ["layers"] => Ok(fresh(alloc)?),
            _ => Err(Halt::Unread),
        }
    }

    fn step(&mut self, alloc: Global, words: &[&str], answer: &mut String) -> Result<(), Halt> {
        let (first, second) = (&mut self.first, &mut self.second);
        match words {
            ["layer", rest @ ..] => node_step(alloc, &mut self.layer, first, second, rest, answer),
            ["parent", rest @ ..] => node_step(
                alloc,
                &mut self.parent,
                first,
                second,
                rest,
                answer,
            ),
            _ => Err(Halt::Unread),
        }
    }
}
