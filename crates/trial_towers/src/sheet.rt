//! A tree's sheet of rights and places, whose events are entered one by one.

ghost use Rattle.std.specs.Prelude.{◌≡◌, ◌<◌, IsTrue};
ghost use Rattle.tower_core.specs.TreeShape.{nodes};
ghost use Rattle.tower_core.specs.Sheet.{nodes_of, pages_of};

use crate::events::{event_of, is_in_pages};
use hist_plain::{Event, MAX_EVENTS, MAX_PAGES};
use std::alloc::{AllocError, Global};
use tower_core::{Right, Sheet, Tree};
use trial_parts::{Subject, page_shown, pages_and_tree, tree_of};
use trial_words::{Halt, number};

/// A tree, and the sheet of its events.
#[derive(Drop)]
pub struct Entered {
    tree: Tree,
    sheet: Sheet,
    ghost same_tree: { nodes_of sheet ≡ nodes tree },
}

/// Appends a node's right and the place of its copy.
fn put_cell(right: Right, at: u64, answer: &mut String) -> Result<(), AllocError> {
    match right {
        Right::Nothing => answer.push('-'),
        Right::Read => write!(answer, "read@{at}"),
        Right::Write => write!(answer, "write@{at}"),
    }
}

impl Entered {
    /// Enters the event if it is allowed, and tells whether it is.
    fn enter(&mut self, event: &Event) -> bool {
        if !is_in_pages(event, self.sheet.pages()) || self.sheet.len() >= MAX_EVENTS {
            return false;
        }
        if !self.sheet.allowed(&self.tree, event) {
            return false;
        }
        self.sheet.take(&self.tree, event);
        true
    }

    /// Appends a page's rights and places by node.
    fn put_page(&self, page: u32, answer: &mut String) -> Result<(), Halt> {
        if page >= self.sheet.pages() {
            return Err(Halt::Impossible);
        }
        for node in 0..self.tree.nodes() {
            if node > 0 {
                answer.push(' ')?;
            }
            let (right, at) = (self.sheet.right(node, page), self.sheet.at(node, page));
            put_cell(right, at, answer)?;
        }
        Ok(answer.push('\n')?)
    }

    /// Appends the life of a node, how many pages it has a right on, and which of them it used longest ago.
    fn put_node(&self, node: u32, answer: &mut String) -> Result<(), Halt> {
        if node >= self.tree.nodes() {
            return Err(Halt::Impossible);
        }
        let (life, held) = (self.sheet.life(node), self.sheet.held(node));
        write!(answer, "life {life}, holds {held}")?;
        match self.sheet.oldest(node) {
            Some(page) => writeln!(answer, ", page {page} for the longest time")?,
            None => answer.push('\n')?,
        }
        Ok(())
    }

    /// Appends the place of the newest copy of a page.
    fn put_newest(&self, page: u32, answer: &mut String) -> Result<(), Halt> {
        if page >= self.sheet.pages() {
            return Err(Halt::Impossible);
        }
        Ok(writeln!(answer, "place {}", self.sheet.newest(page))?)
    }

    /// Enters the event, and appends the rights on its page, or that it is refused.
    fn take(&mut self, event: &Event, answer: &mut String) -> Result<(), Halt> {
        if self.enter(event) {
            return self.put_page(page_shown(event), answer);
        }
        Ok(answer.push_str("refused\n")?)
    }
}

/// The sheet with no event, of a file of so many pages.
fn fresh(alloc: Global, pages: u32, tree: Tree) -> Result<Entered, Halt> {
    if pages > MAX_PAGES {
        return Err(Halt::Impossible);
    }
    let sheet = Sheet::new(alloc, &tree, pages)?;
    Ok(Entered { tree, sheet })
}

impl Subject for Entered {
    fn make(alloc: Global, words: &[&str]) -> Result<Entered, Halt> {
        let ["sheet", rest @ ..] = words else {
            return Err(Halt::Unread);
        };
        let (pages, tree) = pages_and_tree(rest)?;
        fresh(alloc, pages, tree_of(alloc, tree)?)
    }

    fn step(&mut self, alloc: Global, words: &[&str], answer: &mut String) -> Result<(), Halt> {
        match words {
            ["length"] => Ok(writeln!(answer, "{} events", self.sheet.len())?),
            ["newest", page] => self.put_newest(number(page)?, answer),
            ["node", node] => self.put_node(number(node)?, answer),
            _ => self.take(&event_of(alloc, words)?, answer),
        }
    }
}
