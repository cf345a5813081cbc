//! Whose turn it is at a file.

ghost use Rattle.std.specs.Prelude.{◌≡◌, OnOk, OnErr};
ghost use Rattle.stack_engine.specs.Turns.{blocker, holder_of, is_of_file, is_of_leaf, is_of_page, is_same, leaf_emptied, leaf_holder, other_holder, other_than, pushed_as, turns_stepping, with_turn, without_turns};

use hist_plain::{Event, Keep};
use std::alloc::AllocError;

/// What a turn is of.
#[derive(Clone, Copy, Debug, PartialEq, Eq)]
pub enum TurnOf {
    /// Of a page, by its number.
    Page {
        /// The page, counted from 0.
        page: u32,
    },
    /// Of a leaf, by its number.
    Leaf {
        /// The leaf, by its number in the tree.
        leaf: u32,
    },
    /// Of the whole file.
    File,
}

/// That a caller comes before others at a page, at a leaf or at the file. A turn restricts no event; it keeps two callers from
/// undoing each other's steps without end. This rule is this project's own.
#[derive(Clone, Copy, Debug, PartialEq, Eq)]
pub struct Turn {
    /// The number of the caller.
    pub caller: u32,
    /// What the turn is of.
    pub of: TurnOf,
}

impl TurnOf {
    /// Whether it is the turn of this page.
    fn is_of_page(self, page: u32) -> bool
        ensures { result ≡ is_of_page page self }
    {
        match self {
            TurnOf::Page { page: own } => own == page,
            TurnOf::Leaf { .. } | TurnOf::File => false,
        }
    }

    /// Whether it is the turn of this leaf.
    fn is_of_leaf(self, leaf: u32) -> bool
        ensures { result ≡ is_of_leaf leaf self }
    {
        match self {
            TurnOf::Leaf { leaf: own } => own == leaf,
            TurnOf::Page { .. } | TurnOf::File => false,
        }
    }

    /// Whether it is the file's turn.
    fn is_of_file(self) -> bool
        ensures { result ≡ is_of_file self }
    {
        matches!(self, TurnOf::File)
    }

    /// Whether another turn is this one.
    fn is_same(self, other: TurnOf) -> bool
        ensures { result ≡ is_same self other }
    {
        match self {
            TurnOf::Page { page } => other.is_of_page(page),
            TurnOf::Leaf { leaf } => other.is_of_leaf(leaf),
            TurnOf::File => other.is_of_file(),
        }
    }
}

/// Who has a turn.
fn holder_of(of: TurnOf, turns: &[Turn]) -> Option<u32>
    ensures { result ≡ holder_of of turns.now }
{
    turns
        .iter()
        .find(|turn| of.is_same(turn.of))
        .map(|turn| turn.caller)
}

/// The holder, if it is another than the caller.
fn other_than(caller: u32, holder: Option<u32>) -> Option<u32>
    ensures { result ≡ other_than caller holder }
{
    holder.filter(|other| *other != caller)
}

/// Which other caller has a turn.
pub(crate) fn other_holder(caller: u32, of: TurnOf, turns: &[Turn]) -> Option<u32>
    ensures { result ≡ other_holder caller of turns.now }
{
    other_than(caller, holder_of(of, turns))
}

/// Which other caller has the turn of the leaf at which an access is, if it is at one.
fn leaf_holder(caller: u32, leaf: Option<u32>, turns: &[Turn]) -> Option<u32>
    ensures { result ≡ leaf_holder caller leaf turns.now }
{
    match leaf {
        Some(leaf) => other_holder(caller, TurnOf::Leaf { leaf }, turns),
        None => None,
    }
}

/// Who is before a caller that misses a page, maybe at a leaf.
pub(crate) fn blocker(caller: u32, page: u32, leaf: Option<u32>, turns: &[Turn]) -> Option<u32>
    ensures { result ≡ blocker caller page leaf turns.now }
{
    match other_holder(caller, TurnOf::Page { page }, turns) {
        Some(holder) => Some(holder),
        None => match leaf_holder(caller, leaf, turns) {
            Some(holder) => Some(holder),
            None => other_holder(caller, TurnOf::File, turns),
        },
    }
}

/// Which rights a caller's sync keeps of a page, of which it wants to keep these: where another caller has the page's turn,
/// all.
pub(crate) fn pushed_as(caller: u32, page: u32, keep: Keep, turns: &[Turn]) -> Keep
    ensures { result ≡ pushed_as caller page keep turns.now }
{
    match other_holder(caller, TurnOf::Page { page }, turns) {
        Some(_) => Keep::Write,
        None => keep,
    }
}

/// The leaf of which a page goes out by an event, if one does.
fn leaf_emptied(event: &Event) -> Option<u32>
    ensures { result ≡ leaf_emptied event.now }
{
    match event {
        Event::PageOut { node, .. } => Some(*node),
        _ => None,
    }
}

/// Takes a turn for a caller, unless somebody has it. An error is want of memory.
pub(crate) fn take_turn(caller: u32, of: TurnOf, turns: &mut Vec<Turn>) -> Result<(), AllocError>
    ensures ok { OnOk result (turns.new.items ≡ with_turn caller of turns.old.items) }
    ensures err { OnErr result (turns.new.items ≡ turns.old.items) }
{
    if holder_of(of, turns).is_some() {
        return Ok(());
    }
    turns.push(Turn { caller, of })?;
    Ok(())
}

/// Takes the turns of a step towards an access of a page: the page's, and the leaf's if a page goes out of it. An error is
/// want of memory, and leaves the turns of other callers.
pub(crate) fn take_turns(
    caller: u32,
    page: u32,
    event: &Event,
    turns: &mut Vec<Turn>,
) -> Result<(), AllocError>
    ensures ok { OnOk result (turns.new.items ≡ turns_stepping caller page event.now turns.old.items) }
    ensures err { OnErr result (without_turns caller turns.new.items ≡ without_turns caller turns.old.items) }
{
    take_turn(caller, TurnOf::Page { page }, turns)?;
    match leaf_emptied(event) {
        Some(leaf) => take_turn(caller, TurnOf::Leaf { leaf }, turns),
        None => Ok(()),
    }
}

/// Gives up all turns of a caller.
pub(crate) fn give_up_turns(caller: u32, turns: &mut Vec<Turn>)
    ensures { turns.new.items ≡ without_turns caller turns.old.items }
{
    turns.retain(|turn| turn.caller != caller);
}
