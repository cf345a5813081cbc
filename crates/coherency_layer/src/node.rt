//! One node's own table.

ghost use Rattle.std.specs.Prelude.{◌≡◌, vec_len, All};
ghost use Rattle.std.proofs.Props.{props};
ghost use Rattle.page_messages.specs.Paged.{IsPagedFile};
ghost use Rattle.page_messages.specs.Slot.{IsSlot};

use crate::starting::bare_slots;
use page_messages::{PagedFile, Slot, has, set_of};
use std::alloc::{AllocError, Global};
use tower_core::Right;

/// One node's own table for one file: by page its right, its copy, whether that is changed, and each child's right.
#[derive(Debug, Drop)]
pub struct Node {
    pub(crate) file: PagedFile,
    pub(crate) children: u32,
    pub(crate) slots: Vec<Slot>,
    ghost paged: { IsPagedFile file },
    ghost whole: { vec_len slots ≡ file.pages },
    ghost kept: { All (IsSlot file.page_size children) slots.items } by { Prim.hlevel props },
}

impl Node {
    ghost use Rattle.std.specs.Prelude.{◌≡◌, ◌+◌, ◌<◌, ◌≤◌, ◌↔◌, ℕ, All, Contains, IsTrue, IfOk, length, take, drop, replicate};
    ghost use Rattle.hist_plain.specs.Plain.{overwritten};
    ghost use Rattle.tower_core.specs.declared.right.Right.{Right as ARight};
    ghost use Rattle.page_messages.specs.Rules.{NoKidHolds};
    ghost use Rattle.page_messages.specs.Slot.{side_of};
    ghost use Rattle.coherency_layer.specs.Node.{file_of, HasChild, side, held_of, MayRead, MayWrite, IsWrite};

    /// The table of a node with these children for the file of this number, of which nobody has anything. An error is
    /// want of memory.
    pub fn new(
        alloc: Global,
        page_size: u32,
        pages: u32,
        children: &[u32],
        tag: u32,
    ) -> Result<Node, AllocError>
        requires some { 0 < page_size }
        requires small { page_size ≤ 4096 }
        requires pages { 0 < pages }
        requires few { pages ≤ 1024 }
        requires children { All (λ child. child < 32) children.now }
        ensures file { IfOk result (λ node. file_of node ≡ record { number = tag; page_size = page_size; pages = pages }) }
        ensures children { IfOk result (λ node. (child : ℕ) → HasChild node child ↔ Contains children.now child) }
        ensures right { IfOk result (λ node. (page : ℕ) → (side node page).right ≡ ARight.Nothing) }
        ensures kids { IfOk result (λ node. (page : ℕ) → NoKidHolds (side node page)) }
    {
        let slots = bare_slots(alloc, pages)?;
        Ok(Node {
            file: PagedFile {
                number: tag,
                page_size,
                pages,
            },
            children: set_of(children),
            slots,
        })
    }

    /// The file that the table is of.
    pub fn file(&self) -> PagedFile
        ensures file { result ≡ file_of self.now }
        ensures paged { IsPagedFile result }
    {
        self.file
    }

    /// Whether a node is a child of this one.
    pub fn has_child(&self, node: u32) -> bool
        ensures { IsTrue result ↔ HasChild self.now node }
    {
        node < 32 && has(self.children, node)
    }

    /// A page of the table.
    pub(crate) fn slot(&self, page: u32) -> &Slot
        requires { page < (file_of self.now).pages }
        ensures side { side_of result.now ≡ side self.now page }
        ensures kept { IsSlot (file_of self.now).page_size self.now.children result.now }
    {
        &self.slots[page as usize]
    }

    /// What the node may do with a page.
    pub fn right(&self, page: u32) -> Right
        requires { page < (file_of self.now).pages }
        ensures { result ≡ (side self.now page).right }
    {
        self.slot(page).right()
    }

    /// What a child may do with a page.
    pub fn child_right(&self, page: u32, child: u32) -> Right
        requires page { page < (file_of self.now).pages }
        requires child { HasChild self.now child }
        ensures { result ≡ (side self.now page).kids child }
    {
        self.slot(page).child_right(child)
    }

    /// Of how many pages the node has a right.
    pub fn held(&self) -> u32
        ensures { result ≡ held_of self.now }
    {
        let mut held = 0;
        for page in 0..self.file.pages {
            if self.right(page) != Right::Nothing {
                held += 1;
            }
        }
        held
    }

    /// Whether the node may read a page of its own.
    pub fn may_read(&self, page: u32) -> bool
        requires { page < (file_of self.now).pages }
        ensures { IsTrue result ↔ MayRead self.now page }
    {
        self.slot(page).may_read()
    }

    /// Whether the node may write a page of its own.
    pub fn may_write(&self, page: u32) -> bool
        requires { page < (file_of self.now).pages }
        ensures { IsTrue result ↔ MayWrite self.now page }
    {
        self.slot(page).may_write()
    }

    /// Lends bytes of the node's copy.
    pub fn lend(&self, page: u32, off: u32, len: u32) -> &[u8]
        requires may { MayRead self.now page }
        requires range { off + len ≤ (file_of self.now).page_size }
        ensures { result.now ≡ take len (drop off (side self.now page).copy) }
    {
        let start = off as usize;
        &self.slot(page).copy()[start..start + len as usize]
    }

    /// A write of the node's own.
    pub fn change(&mut self, page: u32, off: u32, bytes: &[u8])
        requires may { MayWrite self.old page }
        requires range { off + length bytes.now ≤ (file_of self.old).page_size }
        ensures { IsWrite self.old self.new page (overwritten (side self.old page).copy off bytes.now) }
    {
        let slot = &mut self.slots[page as usize];
        slot.write(off, bytes);
    }

    /// A clear of the node's own.
    pub fn blank(&mut self, page: u32)
        requires { MayWrite self.old page }
        ensures { IsWrite self.old self.new page (replicate (file_of self.old).page_size 0) }
    {
        let slot = &mut self.slots[page as usize];
        slot.clear();
    }
}
