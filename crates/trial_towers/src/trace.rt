//! The heads of the messages of a trail, over a layer of two frames on a disk, for a file of two pages of 64 bytes.

ghost use Rattle.std.specs.Prelude.{◌≡◌, ◌<◌, IsTrue};
ghost use Rattle.std.specs.Option.{ForSome};
ghost use Rattle.hist_plain.specs.Event.{node_of, page_of};
ghost use Rattle.tower_core.specs.TreeShape.{IsUpper, nodes};
ghost use Rattle.tower_core.specs.Sheet.{nodes_of, pages_of};

use crate::events::{event_of, is_in_pages};
use hist_plain::{Event, MAX_EVENTS};
use spr_report::{Heads, head_bytes, heads_of, operation_name};
use std::alloc::Global;
use tower_core::{Sheet, Tree};
use trial_parts::{Subject, file_of, operations};
use trial_words::{Halt, put_hex};

/// The tree, and the sheet of the events.
#[derive(Drop)]
pub struct Traced {
    tree: Tree,
    sheet: Sheet,
    ghost same_tree: { nodes_of sheet ≡ nodes tree },
}

/// Appends the name of a message, its page, and its two heads.
fn put_heads(alloc: Global, two: &Heads, answer: &mut String) -> Result<(), Halt> {
    let (name, page) = (operation_name(two.which), two.page);
    writeln!(answer, "{name} of page {page}")?;
    put_hex(alloc, &head_bytes(&two.first), answer)?;
    answer.push('\n')?;
    put_hex(alloc, &head_bytes(&two.second), answer)?;
    Ok(answer.push('\n')?)
}

/// The sheet with no event.
fn fresh(alloc: Global) -> Result<Traced, Halt> {
    let tree = Tree::new(alloc, &[0, 0], &[0, 2])?;
    let sheet = Sheet::new(alloc, &tree, 2)?;
    Ok(Traced { tree, sheet })
}

/// Appends what the event that comes next is told as.
fn put_event(
    alloc: Global,
    tree: &Tree,
    sheet: &Sheet,
    event: &Event,
    answer: &mut String,
) -> Result<(), Halt>
    requires same_tree { nodes tree.now ≡ nodes_of sheet.now }
    requires page_in { ForSome (page_of event.now) (λ page. page < pages_of sheet.now) }
    requires upper { IsUpper tree.now (node_of event.now) }
{
    match heads_of(tree, file_of(0x0102_0304, 2), &operations(), sheet, event) {
        Some(two) => put_heads(alloc, &two, answer),
        None => Ok(answer.push_str("no message\n")?),
    }
}

impl Traced {
    /// Tells the heads of an event, and enters it.
    fn take(&mut self, alloc: Global, event: &Event, answer: &mut String) -> Result<(), Halt> {
        let node = event.node();
        if !is_in_pages(event, self.sheet.pages()) || node == 0 || node >= self.tree.nodes() {
            return Err(Halt::Impossible);
        }
        if self.sheet.len() >= MAX_EVENTS || !self.sheet.allowed(&self.tree, event) {
            return Ok(answer.push_str("refused\n")?);
        }
        put_event(alloc, &self.tree, &self.sheet, event, answer)?;
        self.sheet.take(&self.tree, event);
        Ok(())
    }
}

impl Subject for Traced {
    fn make(alloc: Global, words: &[&str]) -> Result<Traced, Halt> {
        match words {
            ["trace"] => fresh(alloc),
            _ => Err(Halt::Unread),
        }
    }

    fn step(&mut self, alloc: Global, words: &[&str], answer: &mut String) -> Result<(), Halt> {
        self.take(alloc, &event_of(alloc, words)?, answer)
    }
}
