//! What tells the messages of a file.

ghost use Rattle.std.specs.Prelude.{◌≡◌};
ghost use Rattle.tower_core.specs.TreeShape.{nodes};
ghost use Rattle.tower_core.specs.Sheet.{nodes_of, pages_of};

use crate::heads::{Heads, heads_of};
use hist_plain::Event;
use page_messages::PagedFile;
use pager_channel::Ops;
use stack_accept::{FileEntry, Mounted};
use std::alloc::{AllocError, Global};
use tower_core::{Sheet, Tree};

/// The tree and the file, the numbers of the operations, and the sheet of the events so far.
#[derive(Drop)]
pub(crate) struct Tracer<'a> {
    tree: &'a Tree,
    file: PagedFile,
    ops: Ops,
    sheet: Sheet,
    ghost same_tree: { nodes_of sheet ≡ nodes tree.now },
    ghost same_pages: { pages_of sheet ≡ file.pages },
}

impl<'a> Tracer<'a> {
    ghost use Rattle.std.specs.Prelude.{◌≡◌, IfOk};
    ghost use Rattle.stack_accept.specs.Sound.{IsInLimits};
    ghost use Rattle.spr_report.specs.Tracing.{IsNextOf, heads_by, tracing_from, with_event};
    ghost use Rattle.spr_report.specs.Traced.{traced_by, tracing_of};

    /// A tracer at the start of the log of a file, which has this number. None if messages are not traced.
    pub(crate) fn start(
        alloc: Global,
        mount: &'a Mounted,
        traced: Option<Ops>,
        number: u32,
        file: &FileEntry,
    ) -> Result<Option<Tracer<'a>>, AllocError>
        requires { IsInLimits file.now.pages }
        ensures { IfOk result (λ t. traced_by t ≡ tracing_from mount.now traced number file.now) }
    {
        let Some(ops) = traced else {
            return Ok(None);
        };
        let tree = mount.tree();
        let sheet = Sheet::new(alloc, tree, file.pages)?;
        let file = PagedFile {
            number,
            page_size: mount.page_size(),
            pages: file.pages,
        };
        Ok(Some(Tracer {
            tree,
            file,
            ops,
            sheet,
        }))
    }

    /// The heads of an event, if it is a message.
    #[tactic(auto, using(crate::proofs::Traces::page_fits))]
    pub(crate) fn heads_of(&self, event: &Event) -> Option<Heads>
        requires { IsNextOf (tracing_of self.now) event.now }
        ensures { result ≡ heads_by (tracing_of self.now) event.now }
    {
        heads_of(self.tree, self.file, &self.ops, &self.sheet, event)
    }

    /// Enters an event.
    #[tactic(auto, using(crate::proofs::Traces::page_fits))]
    pub(crate) fn take(&mut self, event: &Event)
        requires { IsNextOf (tracing_of self.old) event.now }
        ensures { tracing_of self.new ≡ with_event (tracing_of self.old) event.now }
    {
        self.sheet.take(self.tree, event);
    }
}
