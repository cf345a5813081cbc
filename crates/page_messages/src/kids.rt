//! What each child of a node may do with a page.

ghost use Rattle.std.specs.Prelude.{◌≡◌, ◌≢◌, ◌<◌, ◌↔◌, IsTrue, ℕ};
ghost use Rattle.tower_core.specs.Column.{updated};
ghost use Rattle.tower_core.specs.declared.right.Right.{Right as ARight};
ghost use Rattle.page_messages.specs.Kids.{right_in};

use crate::masks::{has, with, without};
use tower_core::Right;

/// What each child of a node may do with a page: two sets of nodes, in which bit i stands for node i.
#[derive(Clone, Copy, Debug)]
pub struct Kids {
    readers: u32,
    writers: u32,
}

impl Kids {
    /// No child has a right.
    pub fn none() -> Kids
        ensures { (child : ℕ) → right_in result child ≡ ARight.Nothing }
    {
        Kids {
            readers: 0,
            writers: 0,
        }
    }

    /// What the child may do.
    pub fn right(&self, child: u32) -> Right
        requires { child < 32 }
        ensures { result ≡ right_in self.now child }
    {
        if has(self.writers, child) {
            Right::Write
        } else if has(self.readers, child) {
            Right::Read
        } else {
            Right::Nothing
        }
    }

    /// Whether no child has Write.
    pub fn none_writes(&self) -> bool
        ensures { IsTrue result ↔ ((child : ℕ) → right_in self.now child ≢ ARight.Write) }
    {
        self.writers == 0
    }

    /// Whether no child has a right.
    pub fn none_holds(&self) -> bool
        ensures { IsTrue result ↔ ((child : ℕ) → right_in self.now child ≡ ARight.Nothing) }
    {
        self.writers == 0 && self.readers == 0
    }

    /// Whether no other child has a right.
    pub fn no_other_holds(&self, child: u32) -> bool
        requires { child < 32 }
        ensures { IsTrue result ↔ ((other : ℕ) → other ≢ child → right_in self.now other ≡ ARight.Nothing) }
    {
        without(self.writers, child) == 0 && without(self.readers, child) == 0
    }

    /// Gives the child another right.
    pub fn set(&mut self, child: u32, right: Right)
        requires { child < 32 }
        ensures { right_in self.new ≡ updated (right_in self.old) child right }
    {
        match right {
            Right::Nothing => {
                self.readers = without(self.readers, child);
                self.writers = without(self.writers, child);
            }
            Right::Read => {
                self.readers = with(self.readers, child);
                self.writers = without(self.writers, child);
            }
            Right::Write => {
                self.readers = without(self.readers, child);
                self.writers = with(self.writers, child);
            }
        }
    }
}
