//! A node's own table: that of a layer, or that of a leaf.

ghost use Rattle.std.specs.Prelude.{◌≡◌, ◌<◌, ◌≤◌, ◌+◌, ◌^◌, ℕ, OnOk, OnErr, IfErr, IsOk, length};
ghost use Rattle.marshal_buf.specs.Held.{IsAsBefore};
ghost use Rattle.pager_channel.specs.Frame.{IsFrame};
ghost use Rattle.page_messages.specs.Letters.{question};
ghost use Rattle.page_messages.specs.Paged.{IsPagedFile};
ghost use Rattle.page_messages.specs.Sealed.{sealed, PutsFrame};
ghost use Rattle.coherency_layer.specs.Node as layers;
ghost use Rattle.vmm_cache.specs.Leaf as leaves;
ghost use Rattle.std.specs.Prelude.{None};
ghost use Rattle.page_exchange.specs.Table.{file_of, side, uses_of, frames_of, MayAskAbout, AllowsOrder, AllowsAnswer, Obeys, Takes, IsForFirstCopy, IsLeft, IsNotTaken};

use coherency_layer::{Asked, Node, NodeErr, PagedFile};
use marshal_buf::Buf;
use pager_channel::{Frame, Ops};
use std::alloc::AllocError;
use tower_core::Right;
use vmm_cache::Leaf;

/// A node's own table for one file.
#[derive(Debug, Drop)]
pub enum Table {
    /// That of a layer, which has the rights of its children, and a copy of each page that it has.
    Layer {
        /// The table.
        node: Node,
    },
    /// That of a virtual memory manager, which has no children, and so many frames.
    Leaf {
        /// The table.
        leaf: Leaf,
    },
}

impl Table {
    /// The file that the table is of.
    pub fn file(&self) -> PagedFile
        ensures file { result ≡ file_of self.now }
        ensures paged { IsPagedFile result }
    {
        match self {
            Table::Layer { node } => node.file(),
            Table::Leaf { leaf } => leaf.file(),
        }
    }

    /// What the node may do with a page.
    pub fn right(&self, page: u32) -> Right
        requires { page < (file_of self.now).pages }
        ensures { result ≡ (side self.now page).right }
    {
        match self {
            Table::Layer { node } => node.right(page),
            Table::Leaf { leaf } => leaf.right(page),
        }
    }

    /// Puts what the node asks its pager about a page.
    pub(crate) fn put_question(
        &self,
        ops: &Ops,
        what: Asked,
        page: u32,
        buf: &mut Buf,
    ) -> Result<(), AllocError>
        requires may { MayAskAbout self.now what page }
        requires few { length buf.old.bytes < 2 ^ 31 }
        ensures ok { OnOk result (PutsFrame (sealed ops.now (file_of self.now) page (question (side self.now page) what)) buf.old buf.new) }
        ensures frame { IsFrame ops.now (sealed ops.now (file_of self.now) page (question (side self.now page) what)) }
        ensures room { 24 + (file_of self.now).page_size ≤ buf.old.spare → IsOk result }
    {
        match self {
            Table::Layer { node } => node.ask(ops, what, page, buf),
            Table::Leaf { leaf } => leaf.ask(ops, what, page, buf),
        }
    }

    /// Makes the change of an order that was obeyed.
    pub(crate) fn finish(&mut self, frame: &Frame<'_>)
        requires { AllowsOrder self.old frame.now }
        ensures { Obeys self.old self.new frame.now }
    {
        match self {
            Table::Layer { node } => node.finish(None, frame),
            Table::Leaf { leaf } => leaf.finish(frame),
        }
    }

    /// Takes the answer of the pager, if the table allows it. A refusal leaves the table.
    pub(crate) fn accept(&mut self, frame: &Frame<'_>) -> Result<(), NodeErr>
        ensures ok { OnOk result (Takes self.old self.new frame.now) }
        ensures why { IfErr result (IsNotTaken self.old frame.now) }
        ensures err { OnErr result (IsLeft self.old self.new) }
    {
        match self {
            Table::Layer { node } => node.accept_reply(None, frame),
            Table::Leaf { leaf } => leaf.accept_reply(frame),
        }
    }

    /// Takes the answer of the pager, which the table allows. An error is want of memory.
    pub(crate) fn take(&mut self, frame: &Frame<'_>) -> Result<(), AllocError>
        requires { AllowsAnswer self.old frame.now }
        ensures ok { OnOk result (Takes self.old self.new frame.now) }
        ensures memory { OnErr result (IsForFirstCopy self.old frame.now) }
        ensures err { OnErr result (IsLeft self.old self.new) }
    {
        match self.accept(frame) {
            Ok(()) => Ok(()),
            Err(NodeErr::Memory) => Err(AllocError),
            Err(NodeErr::NotAllowed { .. }) => unreachable!(),
        }
    }
}
