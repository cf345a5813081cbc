//! An exchange of a node and the ground.

ghost use Rattle.std.specs.Prelude.{◌≡◌, ◌<◌, ◌≢◌, Some, None, OnOk, OnErr, IfErr, true, length};
ghost use Rattle.page_ground.specs.Seen.{IsFault, ReadsPage};
ghost use Rattle.pager_channel.specs.Flags.{has_data};
ghost use Rattle.page_messages.specs.Carried.{asked_down, asked_up, called_up};
ghost use Rattle.page_messages.specs.Kinds.{bytes_up};
ghost use Rattle.page_messages.specs.Rights.{IsForPage, asked_right, called_right};
ghost use Rattle.page_messages.specs.Written.{called_of};
ghost use Rattle.coherency_layer.specs.Node.{about_called};
ghost use Rattle.vmm_cache.specs.Uses.{uses_called};
ghost use Rattle.page_exchange.specs.Table.{file_of, side, uses_of, MayAskAbout, MayObeyAbout, IsLeft};
ghost use Rattle.page_exchange.specs.Exchange.{IsOwnChange};
ghost use Rattle.page_exchange.specs.Ground.{IsUnder, pages_given, IsOneCall, IsCalmCall, IsOfGround, IsAnswered, IsWhy, UnlessFault};
ghost use Rattle.page_exchange.specs.Wire.{CarriedOver, WentOver};

use crate::packing::{pack, sent};
use crate::steps::{answer_of_ground, ask, obey, order_of_ground};
use crate::table::Table;
use crate::wire::{Ends, Wire};
use coherency_layer::{Asked, Called};
use page_ground::{Ground, StoreFault};
use pager_channel::Frame;
use std::alloc::AllocError;
use thiserror::Error;
use tower_core::Right;

/// Why a node was not answered by the ground. Its table and the ground's pages are as before.
#[derive(Clone, Copy, Debug, PartialEq, Eq, Error)]
pub enum GroundErr {
    /// Every live disk failed.
    #[error(transparent)]
    Store(StoreFault),
    /// Memory ran out.
    #[error("out of memory")]
    Memory,
}

impl From<StoreFault> for GroundErr {
    ghost use Rattle.page_exchange.specs.declared.ground.GroundErr.TheVariants.{Store};

    ghost from_gives = { λ fault e. e ≡ Store fault };

    fn from(fault: StoreFault) -> GroundErr {
        GroundErr::Store(fault)
    }
}

impl From<AllocError> for GroundErr {
    ghost use Rattle.page_exchange.specs.declared.ground.GroundErr.TheVariants.{Memory};

    ghost from_gives = { λ _ e. e ≡ Memory };

    fn from(_: AllocError) -> GroundErr {
        GroundErr::Memory
    }
}

/// Reads the page, where the node has nothing of it and asks for it.
fn read_for<G: Ground>(
    ground: &mut G,
    table: &Table,
    what: Asked,
    page: u32,
    scratch: &mut [u8],
) -> Result<(), StoreFault>
    requires under { IsUnder (G.seen ground.old) table.now }
    requires page { page < (file_of table.now).pages }
    requires scratch { length scratch.old ≡ (file_of table.now).page_size }
    ensures ok { OnOk result (IsOfGround (G.seen ground.old).pages table.now what page scratch.new) }
    ensures size { length scratch.new ≡ (file_of table.now).page_size }
    ensures pages { (G.seen ground.new).pages ≡ (G.seen ground.old).pages }
    ensures call { IsOneCall (G.seen ground.old) (G.seen ground.new) }
    ensures calm { OnOk result (IsCalmCall (G.seen ground.old) (G.seen ground.new)) }
    ensures fault { IfErr result (IsFault (G.seen ground.old) (G.seen ground.new)) }
    ensures idle { (IsForPage what → (side table.now page).right ≢ Right.Nothing) → G.seen ground.new ≡ G.seen ground.old }
{
    let for_page = matches!(what, Asked::PageInRead | Asked::PageInWrite);
    if for_page && table.right(page) == Right::Nothing {
        ground.read(page, scratch)
    } else {
        Ok(())
    }
}

/// Writes the page, where a frame brings it.
fn write_for<G: Ground>(ground: &mut G, frame: &Frame<'_>, page: u32) -> Result<(), StoreFault>
    requires page { page < (G.seen ground.old).number }
    requires size { has_data frame.now.head.flags ≡ true → frame.now.head.size ≡ (G.seen ground.old).page_size }
    ensures ok { OnOk result ((G.seen ground.new).pages ≡ pages_given page (bytes_up frame.now) (G.seen ground.old).pages) }
    ensures err { OnErr result ((G.seen ground.new).pages ≡ (G.seen ground.old).pages) }
    ensures call { IsOneCall (G.seen ground.old) (G.seen ground.new) }
    ensures calm { OnOk result (IsCalmCall (G.seen ground.old) (G.seen ground.new)) }
    ensures fault { IfErr result (IsFault (G.seen ground.old) (G.seen ground.new)) }
    ensures idle { bytes_up frame.now ≡ None → G.seen ground.new ≡ G.seen ground.old }
{
    match frame.data() {
        None => Ok(()),
        Some(bytes) => ground.write(page, bytes),
    }
}

impl Wire {
    /// A node whose parent is the ground asks, and takes the answer. The ground is read before it answers a node that has
    /// nothing of the page, it is written once both frames were read, and for nothing else it is called. `scratch` has room
    /// for a page. An error leaves the node's table and the ground's pages; memory may lack only for a page of which the node
    /// has nothing and kept no copy.
    pub fn ask_ground<G: Ground>(
        &mut self,
        own: &mut Table,
        ground: &mut G,
        ends: Ends,
        what: Asked,
        page: u32,
        scratch: &mut [u8],
    ) -> Result<(), GroundErr>
        requires under { IsUnder (G.seen ground.old) own.old }
        requires may { MayAskAbout own.old what page }
        requires scratch { length scratch.old ≡ (file_of own.old).page_size }
        ensures own { OnOk result (IsAnswered (G.seen ground.old).pages self.new own.old own.new what page) }
        ensures carried { OnOk result (CarriedOver self.new ends.node ends.parent) }
        ensures ground { OnOk result ((G.seen ground.new).pages ≡ pages_given page (asked_up (side own.old page) what) (G.seen ground.old).pages) }
        ensures why { IfErr result (IsWhy (G.seen ground.old) (G.seen ground.new) own.old page) }
        ensures own_left { OnErr result (IsLeft own.old own.new) }
        ensures ground_left { OnErr result ((G.seen ground.new).pages ≡ (G.seen ground.old).pages) }
        ensures call { IsOneCall (G.seen ground.old) (G.seen ground.new) }
        ensures calm { UnlessFault result (IsCalmCall (G.seen ground.old) (G.seen ground.new)) }
        ensures ops { self.new.ops ≡ self.old.ops }
        ensures scratch { length scratch.new ≡ length scratch.old }
        ensures idle { (IsForPage what → (side own.old page).right ≢ Right.Nothing) → asked_up (side own.old page) what ≡ None →
            G.seen ground.new ≡ G.seen ground.old }
    {
        let Ends { node, parent } = ends;
        ask(own, &self.ops, what, page, &mut self.first);
        pack(node, parent, &self.first, &mut self.first_packet);
        let question = sent(&self.ops, node, parent, &self.first, &self.first_packet);
        read_for(ground, own, what, page, scratch)?;
        answer_of_ground(
            own.file(),
            own.right(page),
            &self.ops,
            what,
            page,
            scratch,
            &mut self.second,
        );
        pack(parent, node, &self.second, &mut self.second_packet);
        let answer = sent(&self.ops, parent, node, &self.second, &self.second_packet);
        write_for(ground, &question, page)?;
        own.take(&answer)?;
        Ok(())
    }

    /// The ground orders a node whose parent it is, and takes its answer; it is written once both frames were read, if bytes
    /// came up, and else it is not called. An error leaves the node's table and the ground's pages.
    pub fn order_by_ground<G: Ground>(
        &mut self,
        own: &mut Table,
        ground: &mut G,
        ends: Ends,
        what: Called,
        page: u32,
    ) -> Result<(), StoreFault>
        requires under { IsUnder (G.seen ground.old) own.old }
        requires page { page < (file_of own.old).pages }
        requires obeys { MayObeyAbout own.old what page }
        ensures own { OnOk result (IsOwnChange own.old own.new (about_called what page) (called_right what) None (uses_called what page (uses_of own.old))) }
        ensures ground { OnOk result ((G.seen ground.new).pages ≡ pages_given page (called_up (side own.old page) what) (G.seen ground.old).pages) }
        ensures went { OnOk result (WentOver self.new (file_of own.old) (called_of (side own.old page) page what)) }
        ensures carried { OnOk result (CarriedOver self.new ends.parent ends.node) }
        ensures ops { self.new.ops ≡ self.old.ops }
        ensures fault { IfErr result (IsFault (G.seen ground.old) (G.seen ground.new)) }
        ensures own_left { OnErr result (IsLeft own.old own.new) }
        ensures ground_left { OnErr result ((G.seen ground.new).pages ≡ (G.seen ground.old).pages) }
        ensures call { IsOneCall (G.seen ground.old) (G.seen ground.new) }
        ensures calm { OnOk result (IsCalmCall (G.seen ground.old) (G.seen ground.new)) }
        ensures idle { called_up (side own.old page) what ≡ None → G.seen ground.new ≡ G.seen ground.old }
    {
        let Ends { node, parent } = ends;
        order_of_ground(own.file(), &self.ops, what, page, &mut self.first);
        pack(parent, node, &self.first, &mut self.first_packet);
        let order = sent(&self.ops, parent, node, &self.first, &self.first_packet);
        obey(own, &self.ops, &order, &mut self.second);
        pack(node, parent, &self.second, &mut self.second_packet);
        let reply = sent(&self.ops, node, parent, &self.second, &self.second_packet);
        write_for(ground, &reply, page)?;
        own.finish(&order);
        Ok(())
    }
}
