//! The steps of an exchange. None of them takes memory for a frame.

ghost use Rattle.std.specs.Prelude.{◌≡◌, ◌<◌, ℕ, Some, None, OnOk, OnErr, length};
ghost use Rattle.page_messages.specs.declared.kinds.Asked.{Asked as AQuestion};
ghost use Rattle.page_messages.specs.declared.kinds.Called.{Called as AnOrder};
ghost use Rattle.page_messages.specs.declared.paged.About.{About as AnAbout};
ghost use Rattle.page_messages.specs.Kinds.{asked_in, called_in};
ghost use Rattle.page_messages.specs.Letters.{question, answer, order};
ghost use Rattle.page_messages.specs.Paged.{IsPagedFile, about_of};
ghost use Rattle.page_messages.specs.Sealed.{sealed};
ghost use Rattle.coherency_layer.specs.Node as layers;
ghost use Rattle.vmm_cache.specs.Leaf as leaves;
ghost use Rattle.page_exchange.specs.Table.{file_of, side, MayAskAbout, AllowsOrder, reply_to};
ghost use Rattle.page_exchange.specs.Wire.{HasRoom, AreSent};

use crate::table::Table;
use coherency_layer::{Asked, Called, Node, NodeErr, PagedFile};
use marshal_buf::Buf;
use page_messages::Letter;
use pager_channel::{Frame, Ops};
use std::alloc::AllocError;
use tower_core::Right;
use vmm_cache::Leaf;

/// A node asks its pager.
pub(crate) fn ask(table: &Table, ops: &Ops, what: Asked, page: u32, buf: &mut Buf)
    requires may { MayAskAbout table.now what page }
    requires room { HasRoom buf.old }
    ensures sent { AreSent ops.now buf.new.bytes (sealed ops.now (file_of table.now) page (question (side table.now page) what)) }
    ensures room { HasRoom buf.new }
{
    // Only the proof needs this: that a page of the file has 4096 bytes at most.
    let _file = table.file();
    buf.clear();
    match table.put_question(ops, what, page, buf) {
        Ok(()) => {}
        Err(_) => unreachable!(),
    }
}

/// A layer orders a child.
pub(crate) fn call(node: &Node, ops: &Ops, child: u32, what: Called, page: u32, buf: &mut Buf)
    requires may { layers.MayCallAbout node.now child what page }
    requires room { HasRoom buf.old }
    ensures sent { AreSent ops.now buf.new.bytes (sealed ops.now (layers.file_of node.now) page (order what)) }
    ensures room { HasRoom buf.new }
{
    buf.clear();
    match node.make_callback(ops, child, what, page, buf) {
        Ok(()) => {}
        Err(_) => unreachable!(),
    }
}

/// The ground answers a node of this right that asks, where the page has these bytes. It has no table.
pub(crate) fn answer_of_ground(
    file: PagedFile,
    right: Right,
    ops: &Ops,
    what: Asked,
    page: u32,
    bytes: &[u8],
    buf: &mut Buf,
)
    requires file { IsPagedFile file }
    requires bytes { length bytes.now ≡ file.page_size }
    requires room { HasRoom buf.old }
    ensures sent { AreSent ops.now buf.new.bytes (sealed ops.now file page (answer right bytes.now what)) }
    ensures room { HasRoom buf.new }
{
    buf.clear();
    let letter = Letter::answer(right, bytes, what);
    match file.put(ops, page, &letter, buf) {
        Ok(()) => {}
        Err(_) => unreachable!(),
    }
}

/// The ground orders a node. It has no table.
pub(crate) fn order_of_ground(file: PagedFile, ops: &Ops, what: Called, page: u32, buf: &mut Buf)
    requires file { IsPagedFile file }
    requires room { HasRoom buf.old }
    ensures sent { AreSent ops.now buf.new.bytes (sealed ops.now file page (order what)) }
    ensures room { HasRoom buf.new }
{
    buf.clear();
    let letter = Letter::order(what);
    match file.put(ops, page, &letter, buf) {
        Ok(()) => {}
        Err(_) => unreachable!(),
    }
}

/// A layer answers a child's question that it allows.
pub(crate) fn serve(node: &Node, ops: &Ops, child: u32, frame: &Frame<'_>, buf: &mut Buf)
    requires child { layers.HasChild node.now child }
    requires allowed { layers.AllowsFirst node.now (Some child) frame.now }
    requires room { HasRoom buf.old }
    ensures sent { (what : AQuestion) (about : AnAbout) → asked_in frame.now ≡ Some what → about_of (layers.file_of node.now) frame.now ≡ Some about →
        AreSent ops.now buf.new.bytes (layers.answer_to ops.now node.now child what about) }
    ensures room { HasRoom buf.new }
{
    buf.clear();
    match node.serve_pager(ops, child, frame, buf) {
        Ok(()) => {}
        Err(_) => unreachable!(),
    }
}

/// A layer answers an order of its pager that it allows.
fn obey_layer(node: &Node, ops: &Ops, frame: &Frame<'_>, buf: &mut Buf)
    requires allowed { layers.AllowsFirst node.now None frame.now }
    requires room { HasRoom buf.old }
    ensures sent { (what : AnOrder) (about : AnAbout) → called_in frame.now ≡ Some what → about_of (layers.file_of node.now) frame.now ≡ Some about →
        AreSent ops.now buf.new.bytes (layers.reply_to ops.now node.now what about) }
    ensures room { HasRoom buf.new }
{
    buf.clear();
    match node.serve_cache(ops, frame, buf) {
        Ok(()) => {}
        Err(_) => unreachable!(),
    }
}

/// A leaf answers an order of its pager that it allows.
fn obey_leaf(leaf: &Leaf, ops: &Ops, frame: &Frame<'_>, buf: &mut Buf)
    requires allowed { leaves.AllowsFirst leaf.now frame.now }
    requires room { HasRoom buf.old }
    ensures sent { (what : AnOrder) (about : AnAbout) → called_in frame.now ≡ Some what → about_of (leaves.file_of leaf.now) frame.now ≡ Some about →
        AreSent ops.now buf.new.bytes (leaves.reply_to ops.now leaf.now what about) }
    ensures room { HasRoom buf.new }
{
    // Only the proof needs this: that a page of the file has 4096 bytes at most.
    let _file = leaf.file();
    buf.clear();
    match leaf.serve_cache(ops, frame, buf) {
        Ok(()) => {}
        Err(_) => unreachable!(),
    }
}

/// A node answers an order of its pager that it allows.
pub(crate) fn obey(table: &Table, ops: &Ops, frame: &Frame<'_>, buf: &mut Buf)
    requires allowed { AllowsOrder table.now frame.now }
    requires room { HasRoom buf.old }
    ensures sent { (what : AnOrder) (about : AnAbout) → called_in frame.now ≡ Some what → about_of (file_of table.now) frame.now ≡ Some about →
        AreSent ops.now buf.new.bytes (reply_to ops.now table.now what about) }
    ensures room { HasRoom buf.new }
{
    match table {
        Table::Layer { node } => obey_layer(node, ops, frame, buf),
        Table::Leaf { leaf } => obey_leaf(leaf, ops, frame, buf),
    }
}

/// A layer takes the answer of a child that it allows.
pub(crate) fn hear(node: &mut Node, child: u32, frame: &Frame<'_>) -> Result<(), AllocError>
    requires child { layers.HasChild node.old child }
    requires allowed { layers.AllowsSecond node.old (Some child) frame.now }
    ensures ok { OnOk result (layers.IsChange node.old node.new (Some child) frame.now) }
    ensures memory { OnErr result (layers.IsForFirstCopy node.old frame.now) }
    ensures err { OnErr result (layers.IsLeft node.old node.new) }
{
    match node.accept_reply(Some(child), frame) {
        Ok(()) => Ok(()),
        Err(NodeErr::Memory) => Err(AllocError),
        Err(NodeErr::NotAllowed { .. }) => unreachable!(),
    }
}
