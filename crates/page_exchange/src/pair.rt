//! Two nodes of a list: an exchange of a node and its parent, which stands before it.

ghost use Rattle.std.specs.Prelude.{◌≡◌, ◌≢◌, ◌<◌, None, OnOk, OnErr};
ghost use Rattle.page_messages.specs.declared.paged.PagedFile.{PagedFile};
ghost use Rattle.tower_core.specs.TreeShape.{IsUpper, frames_of, parent};
ghost use Rattle.page_messages.specs.declared.kinds.Asked.{Asked as AQuestion};
ghost use Rattle.page_messages.specs.declared.kinds.Called.{Called as AnOrder};
ghost use Rattle.page_messages.specs.Carried.{asked_down, asked_up, called_up};
ghost use Rattle.page_messages.specs.Rights.{asked_right, called_right};
ghost use Rattle.page_messages.specs.Written.{asked_by, called_of};
ghost use Rattle.page_exchange.specs.Allowed.{AllowAsking, AllowCalling};
ghost use Rattle.page_exchange.specs.Exchange.{may_be_full};
ghost use Rattle.page_exchange.specs.Moved.{AreExchangedAt};
ghost use Rattle.page_exchange.specs.Steps.{step_asked, step_called};
ghost use Rattle.page_exchange.specs.Listed.{AreSameTables, AreTablesOf, AreTablesWith, FramesAllow, LacksRoom, StayTables, UsesFollow, held_in, sides_in, uses_in};
ghost use Rattle.page_exchange.specs.Wire.{CarriedOver, WentOver};

use crate::table::Table;
use crate::wire::{Ends, Wire};
use coherency_layer::{Asked, Called};
use std::alloc::AllocError;
use tower_core::Tree;

/// A node asks its parent, which is a layer of a file of so many pages, and takes the answer. Memory may lack only for a page of which the node has
/// nothing; then both tables are left.
pub(crate) fn ask_in(
    wire: &mut Wire,
    nodes: &mut [Table],
    tree: &Tree,
    ends: Ends,
    node: u32,
    what: Asked,
    page: u32,
    pages: u32,
) -> Result<(), AllocError>
    requires tables { AreTablesWith tree.now pages page nodes.old }
    requires upper { IsUpper tree.now node }
    requires above { IsUpper tree.now (parent tree.now node) }
    requires about_page { what ≢ AQuestion.Done }
    requires may { AllowAsking tree.now (sides_in nodes.old page) node (may_be_full (sides_in nodes.old page node) what) what }
    requires frames { FramesAllow (frames_of tree.now node) (held_in (sides_in nodes.old) pages node) (sides_in nodes.old page node).right (uses_in nodes.old node) what page }
    requires known { (sides_in nodes.old page (parent tree.now node)).kids node ≡ (sides_in nodes.old page node).right }
    ensures ok { OnOk result (AreExchangedAt tree.now node page (asked_right what)
        (asked_down (sides_in nodes.old page node).right (sides_in nodes.old page (parent tree.now node)).copy what)
        (asked_up (sides_in nodes.old page node) what) (sides_in nodes.old) (sides_in nodes.new)) }
    ensures went { (file : PagedFile) → AreTablesOf tree.now file nodes.old → WentOver wire.new file
        (asked_by (sides_in nodes.old page node) (sides_in nodes.old page (parent tree.now node)).copy page what) }
    ensures carried { CarriedOver wire.new ends.node ends.parent }
    ensures ops { wire.new.ops ≡ wire.old.ops }
    ensures memory { OnErr result (LacksRoom (sides_in nodes.old page node)) }
    ensures follows { OnOk result (UsesFollow tree.now page (step_asked what node) (uses_in nodes.old) (uses_in nodes.new)) }
    ensures left { OnErr result (AreSameTables nodes.old nodes.new) }
    ensures tables { StayTables tree.now nodes.old nodes.new }
    ensures apart { parent tree.now node < node }
{
    let above = tree.parent(node);
    let (low, high) = nodes.split_at_mut(node as usize);
    let own = &mut high[0];
    match &mut low[above as usize] {
        Table::Layer { node: upper } => wire.ask_knowing(own, upper, ends, node, what, page),
        Table::Leaf { .. } => unreachable!(),
    }
}

/// A node, which is the parent of another, gives it an order, and takes its answer.
pub(crate) fn call_in(
    wire: &mut Wire,
    nodes: &mut [Table],
    tree: &Tree,
    ends: Ends,
    node: u32,
    what: Called,
    page: u32,
    pages: u32,
)
    requires tables { AreTablesWith tree.now pages page nodes.old }
    requires upper { IsUpper tree.now node }
    requires above { IsUpper tree.now (parent tree.now node) }
    requires about_page { what ≢ AnOrder.Destroy }
    requires may { AllowCalling tree.now (sides_in nodes.old page) node what }
    ensures moved { AreExchangedAt tree.now node page (called_right what) None
        (called_up (sides_in nodes.old page node) what) (sides_in nodes.old) (sides_in nodes.new) }
    ensures went { (file : PagedFile) → AreTablesOf tree.now file nodes.old → WentOver wire.new file (called_of (sides_in nodes.old page node) page what) }
    ensures carried { CarriedOver wire.new ends.parent ends.node }
    ensures ops { wire.new.ops ≡ wire.old.ops }
    ensures follows { UsesFollow tree.now page (step_called what node) (uses_in nodes.old) (uses_in nodes.new) }
    ensures tables { StayTables tree.now nodes.old nodes.new }
    ensures apart { parent tree.now node < node }
{
    let above = tree.parent(node);
    let (low, high) = nodes.split_at_mut(node as usize);
    let own = &mut high[0];
    match &mut low[above as usize] {
        Table::Layer { node: upper } => wire.call_below(own, upper, ends, node, what, page),
        Table::Leaf { .. } => unreachable!(),
    }
}
