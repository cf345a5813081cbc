//! An exchange of a node and its parent.

ghost use Rattle.std.specs.Prelude.{◌≡◌, Some, None, IfErr, OnOk, OnErr};
ghost use Rattle.page_messages.specs.Carried.{asked_down, asked_up, called_up};
ghost use Rattle.page_messages.specs.Rights.{asked_right, called_right};
ghost use Rattle.page_messages.specs.Rules.{MayServe};
ghost use Rattle.page_messages.specs.Written.{asked_by, called_of};
ghost use Rattle.coherency_layer.specs.Node as layers;
ghost use Rattle.coherency_layer.specs.Node.{OnPages, about_asked, about_called};
ghost use Rattle.vmm_cache.specs.Uses.{uses_called};
ghost use Rattle.page_exchange.specs.Table.{file_of, side, uses_asked, uses_of, MayAskAbout, MayObeyAbout, IsLeft};
ghost use Rattle.page_exchange.specs.Exchange.{IsPair, IsOwnChange, IsAboveChange, IsLack, Knows, LacksCopy, letters_asked, may_be_full};
ghost use Rattle.page_exchange.specs.Wire.{CarriedOver, WentOver};

use crate::packing::{pack, sent};
use crate::steps::{ask, call, hear, obey, serve};
use crate::table::Table;
use crate::wire::{Ends, Wire};
use coherency_layer::{Asked, Called, Node, NodeErr};
use std::alloc::AllocError;

impl Wire {
    /// A node asks its parent, which answers by its own table, and takes the answer if its table allows that; it does where
    /// the parent's has the node's right. Memory may lack only for a page of which the node has nothing and kept no copy. An
    /// error leaves both tables.
    pub fn ask_above(
        &mut self,
        own: &mut Table,
        above: &mut Node,
        ends: Ends,
        node: u32,
        what: Asked,
        page: u32,
    ) -> Result<(), NodeErr>
        requires pair { IsPair own.old above.old node }
        requires may { MayAskAbout own.old what page }
        requires serves { OnPages above.old (about_asked what page) (λ s. MayServe s node (may_be_full (side own.old page) what) what) }
        ensures own { Knows above.old own.old node page → OnOk result (IsOwnChange own.old own.new (about_asked what page) (asked_right what)
            (asked_down (side own.old page).right (layers.side above.old page).copy what) (uses_asked what page (uses_of own.old))) }
        ensures above { OnOk result (IsAboveChange above.old above.new node (about_asked what page) (asked_right what)
            (asked_up (side own.old page) what)) }
        ensures went { WentOver self.new (file_of own.old) (letters_asked own.old above.old node page what) }
        ensures carried { CarriedOver self.new ends.node ends.parent }
        ensures ops { self.new.ops ≡ self.old.ops }
        ensures lack { Knows above.old own.old node page → IfErr result (IsLack own.old page) }
        ensures own_left { OnErr result (IsLeft own.old own.new) }
        ensures above_left { OnErr result (layers.IsLeft above.old above.new) }
    {
        let (below, parent) = (ends.node, ends.parent);
        ask(own, &self.ops, what, page, &mut self.first);
        pack(below, parent, &self.first, &mut self.first_packet);
        let question = sent(&self.ops, below, parent, &self.first, &self.first_packet);
        serve(above, &self.ops, node, &question, &mut self.second);
        pack(parent, below, &self.second, &mut self.second_packet);
        let answer = sent(&self.ops, parent, below, &self.second, &self.second_packet);
        own.accept(&answer)?;
        above.finish(Some(node), &question);
        Ok(())
    }

    /// A node asks its parent, whose table has the node's right, and takes the answer. Memory may lack only for a page of
    /// which the node has nothing and kept no copy; then both tables are left.
    pub(crate) fn ask_knowing(
        &mut self,
        own: &mut Table,
        above: &mut Node,
        ends: Ends,
        node: u32,
        what: Asked,
        page: u32,
    ) -> Result<(), AllocError>
        requires pair { IsPair own.old above.old node }
        requires may { MayAskAbout own.old what page }
        requires serves { OnPages above.old (about_asked what page) (λ s. MayServe s node (may_be_full (side own.old page) what) what) }
        requires known { Knows above.old own.old node page }
        ensures own { OnOk result (IsOwnChange own.old own.new (about_asked what page) (asked_right what)
            (asked_down (side own.old page).right (layers.side above.old page).copy what) (uses_asked what page (uses_of own.old))) }
        ensures above { OnOk result (IsAboveChange above.old above.new node (about_asked what page) (asked_right what)
            (asked_up (side own.old page) what)) }
        ensures went { WentOver self.new (file_of own.old) (asked_by (side own.old page) (layers.side above.old page).copy page what) }
        ensures carried { CarriedOver self.new ends.node ends.parent }
        ensures ops { self.new.ops ≡ self.old.ops }
        ensures memory { OnErr result (LacksCopy own.old page) }
        ensures own_left { OnErr result (IsLeft own.old own.new) }
        ensures above_left { OnErr result (layers.IsLeft above.old above.new) }
    {
        match self.ask_above(own, above, ends, node, what, page) {
            Ok(()) => Ok(()),
            Err(NodeErr::Memory) => Err(AllocError),
            Err(NodeErr::NotAllowed { .. }) => unreachable!(),
        }
    }

    /// A node gives a child an order, and takes its answer. Both tables allow it. It takes no memory.
    pub fn call_below(
        &mut self,
        own: &mut Table,
        above: &mut Node,
        ends: Ends,
        node: u32,
        what: Called,
        page: u32,
    )
        requires pair { IsPair own.old above.old node }
        requires may { layers.MayCallAbout above.old node what page }
        requires obeys { MayObeyAbout own.old what page }
        ensures own { IsOwnChange own.old own.new (about_called what page) (called_right what) None (uses_called what page (uses_of own.old)) }
        ensures above { IsAboveChange above.old above.new node (about_called what page) (called_right what)
            (called_up (side own.old page) what) }
        ensures went { WentOver self.new (file_of own.old) (called_of (side own.old page) page what) }
        ensures carried { CarriedOver self.new ends.parent ends.node }
        ensures ops { self.new.ops ≡ self.old.ops }
    {
        let (below, parent) = (ends.node, ends.parent);
        call(above, &self.ops, node, what, page, &mut self.first);
        pack(parent, below, &self.first, &mut self.first_packet);
        let order = sent(&self.ops, parent, below, &self.first, &self.first_packet);
        obey(own, &self.ops, &order, &mut self.second);
        pack(below, parent, &self.second, &mut self.second_packet);
        let reply = sent(&self.ops, below, parent, &self.second, &self.second_packet);
        match hear(above, node, &reply) {
            Ok(()) => {}
            Err(_) => unreachable!(),
        }
        own.finish(&order);
    }
}
