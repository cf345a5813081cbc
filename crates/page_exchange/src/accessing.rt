//! A node's own accesses. Each access of a leaf is a use of its page.

ghost use Rattle.std.specs.Prelude.{◌≡◌, ◌+◌, ◌<◌, ◌≤◌, ◌↔◌, IsTrue, length, take, drop, replicate};
ghost use Rattle.hist_plain.specs.Plain.{overwritten};
ghost use Rattle.layer_laws.specs.Side.{written};
ghost use Rattle.vmm_cache.specs.Leaf as leaves;
ghost use Rattle.vmm_cache.specs.Uses.{oldest, used_last};
ghost use Rattle.page_exchange.specs.Table.{file_of, side, uses_of, MayRead, MayWrite, IsUsed, IsWritten};

use crate::table::Table;
use vmm_cache::Leaf;

/// A leaf writes bytes of its own into a page.
fn change_leaf(leaf: &mut Leaf, page: u32, off: u32, bytes: &[u8])
    requires may { leaves.MayWrite leaf.old page }
    requires range { off + length bytes.now ≤ (leaves.file_of leaf.old).page_size }
    ensures { leaves.ChangesPage leaf.old leaf.new page (written (overwritten (leaves.side leaf.old page).copy off bytes.now) (leaves.side leaf.old page)) (used_last page (leaves.uses_of leaf.old)) }
{
    leaf.touch(page);
    leaf.change(page, off, bytes);
}

/// A leaf makes a page zeros.
fn blank_leaf(leaf: &mut Leaf, page: u32)
    requires { leaves.MayWrite leaf.old page }
    ensures { leaves.ChangesPage leaf.old leaf.new page (written (replicate (leaves.file_of leaf.old).page_size 0) (leaves.side leaf.old page)) (used_last page (leaves.uses_of leaf.old)) }
{
    leaf.touch(page);
    leaf.blank(page);
}

impl Table {
    /// The page that goes out of a leaf first: the one whose last use is the oldest. None if it holds none, or if the node is
    /// a layer.
    pub fn victim(&self) -> Option<u32>
        ensures { result ≡ oldest (uses_of self.now) }
    {
        match self {
            Table::Layer { .. } => None,
            Table::Leaf { leaf } => leaf.victim(),
        }
    }

    /// Whether the node may read a page of its own.
    pub fn may_read(&self, page: u32) -> bool
        requires { page < (file_of self.now).pages }
        ensures { IsTrue result ↔ MayRead self.now page }
    {
        match self {
            Table::Layer { node } => node.may_read(page),
            Table::Leaf { leaf } => leaf.may_read(page),
        }
    }

    /// Whether the node may write a page of its own.
    pub fn may_write(&self, page: u32) -> bool
        requires { page < (file_of self.now).pages }
        ensures { IsTrue result ↔ MayWrite self.now page }
    {
        match self {
            Table::Layer { node } => node.may_write(page),
            Table::Leaf { leaf } => leaf.may_write(page),
        }
    }

    /// Lends bytes of the node's copy of a page.
    pub fn lend(&self, page: u32, off: u32, len: u32) -> &[u8]
        requires may { MayRead self.now page }
        requires range { off + len ≤ (file_of self.now).page_size }
        ensures { result.now ≡ take len (drop off (side self.now page).copy) }
    {
        match self {
            Table::Layer { node } => node.lend(page, off, len),
            Table::Leaf { leaf } => leaf.lend(page, off, len),
        }
    }

    /// A read of a page is a use of it by a leaf. It takes no memory.
    pub fn touch(&mut self, page: u32)
        requires { MayRead self.old page }
        ensures { IsUsed self.old self.new page }
    {
        match self {
            Table::Layer { .. } => {}
            Table::Leaf { leaf } => leaf.touch(page),
        }
    }

    /// A write of the node's own, which is a use of the page by a leaf.
    pub fn change(&mut self, page: u32, off: u32, bytes: &[u8])
        requires may { MayWrite self.old page }
        requires range { off + length bytes.now ≤ (file_of self.old).page_size }
        ensures { IsWritten self.old self.new page (overwritten (side self.old page).copy off bytes.now) }
    {
        match self {
            Table::Layer { node } => node.change(page, off, bytes),
            Table::Leaf { leaf } => change_leaf(leaf, page, off, bytes),
        }
    }

    /// A clear of the node's own, which is a use of the page by a leaf.
    pub fn blank(&mut self, page: u32)
        requires { MayWrite self.old page }
        ensures { IsWritten self.old self.new page (replicate (file_of self.old).page_size 0) }
    {
        match self {
            Table::Layer { node } => node.blank(page),
            Table::Leaf { leaf } => blank_leaf(leaf, page),
        }
    }
}
