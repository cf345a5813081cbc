//! What the plan reads of an engine.

use page_exchange::Tables;
use std::marker::Model;
use tower_core::{Right, Sheet};
use tower_plan::Rights;

/// The rights and places of the book's sheet; and which page goes out of a leaf, the leaf's own table says.
#[derive(Drop)]
pub(crate) struct Sight<'a> {
    pub(crate) sheet: &'a Sheet,
    pub(crate) tables: &'a Tables,
}

impl<'a> Model for Sight<'a> {
    ghost use Rattle.std.specs.Prelude.{◌≡◌};
    ghost use Rattle.tower_core.specs.declared.sheet.Sheet.{Sheet};
    ghost use Rattle.tower_core.specs.Sheet.{nodes_of};
    ghost use Rattle.tower_core.specs.TreeShape.{nodes};
    ghost use Rattle.page_exchange.specs.Tables.{tree_of};
    ghost use Rattle.stack_engine.specs.Sight.{AreListed};

    ghost Value = { Sheet };

    ghost view = { λ s. s.sheet.now };

    ghost invariant = { λ s. AreListed s.tables.now s.sheet.now × (nodes_of s.sheet.now ≡ nodes (tree_of s.tables.now)) };
}

impl<'a> Rights for Sight<'a> {
    ghost use Rattle.tower_core.specs.Sheet.{nodes_of, pages_of, seen};

    ghost state = { seen };

    ghost node_count = { nodes_of };

    ghost page_count = { pages_of };

    fn right(&self, node: u32, page: u32) -> Right {
        self.sheet.right(node, page)
    }

    fn at(&self, node: u32, page: u32) -> u64 {
        self.sheet.at(node, page)
    }

    fn newest(&self, page: u32) -> u64 {
        self.sheet.newest(page)
    }

    fn held(&self, node: u32) -> u32 {
        self.sheet.held(node)
    }

    fn oldest(&self, node: u32) -> Option<u32> {
        if node == 0 || self.tables.tree().frames(node) == 0 {
            self.sheet.oldest(node)
        } else {
            self.tables.victim(node)
        }
    }

    fn pages(&self) -> u32 {
        self.sheet.pages()
    }
}
