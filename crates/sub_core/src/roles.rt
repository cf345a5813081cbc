//! What each subcontract does, and what is known of a set of them.

ghost use Rattle.std.specs.Prelude.{◌≡◌, ◌+◌, ◌<◌, ◌^◌, ℕ, Bool, true, Some, Ok, IfOk, IfErr, OnOk, OnErr, length};
ghost use Rattle.marshal_buf.specs.declared.door.Door.{Door};
ghost use Rattle.marshal_buf.specs.Held.{IsAsBefore};
ghost use Rattle.marshal_buf.specs.Reading.{number_at};
ghost use Rattle.domain_doors.specs.Doors.{Lacks};
ghost use Rattle.stack_accept.specs.Mount.{Mount};
ghost use Rattle.sub_core.specs.declared.shape.Form.{Form};
ghost use Rattle.sub_core.specs.declared.values.Route.{Route};
ghost use Rattle.sub_core.specs.Forms.{object_len, IsOf};
ghost use Rattle.sub_core.specs.Fields.{fields_behind};
ghost use Rattle.sub_core.specs.Calls.{Marshals, CopiesObject, GivesUp, RefusesHeld, LeadsToView, route_of};
ghost use Rattle.sub_core.specs.Received.{Unmarshals, Refuses};

use crate::values::{Object, Route};
use crate::why::ObjectErr;
use domain_doors::{Domain, NoDoor};
use marshal_buf::{Buf, Reader};
use stack_accept::Mounted;
use std::alloc::Global;

/// How the objects of one kind are sent, received, copied and given up, and where their calls go. A call takes an object
/// of the kind alone. A call that fails leaves the domain, the buffer and the reader as they were.
pub trait Subcontract {
    /// Its identifier.
    ghost id: { ℕ };

    /// The form of its objects.
    ghost form: { Form };

    /// Where a call goes, in a stack, from a machine, by a door and a tag.
    ghost route: { Mount → ℕ → Door → ℕ → Route };

    /// Sends an object: its bytes and its door are put, and its door leaves the domain. It fails if the domain lacks
    /// the door, or if memory runs out, and hands the object back.
    fn marshal(
        &self,
        object: Object,
        domain: &mut Domain,
        buf: &mut Buf,
    ) -> Result<(), (ObjectErr, Object)>
        requires sub { object.sub ≡ id }
        requires of { IsOf form object }
        requires bytes { length buf.old.bytes + object_len form object.name < 2 ^ 32 }
        requires doors { length buf.old.doors + 1 < 2 ^ 32 }
        ensures ok { OnOk result (Marshals form object domain.old domain.new buf.old buf.new) }
        ensures why { IfErr result (λ e. RefusesHeld domain.old object e.0) }
        ensures handed_back { IfErr result (λ e. e.1 ≡ object) }
        ensures domain_kept { OnErr result (domain.new ≡ domain.old) }
        ensures buf_kept { OnErr result (IsAsBefore buf.old buf.new) };

    /// Receives an object, whose identifier comes next, and takes its door into the domain. It fails if the bytes are no
    /// object of the form, or if memory runs out.
    fn unmarshal(
        &self,
        alloc: Global,
        domain: &mut Domain,
        from: &mut Reader<'_>,
    ) -> Result<Object, ObjectErr>
        requires { number_at 2 from.old ≡ Ok id }
        ensures ok { IfOk result (Unmarshals id form domain.old domain.new from.old from.new) }
        ensures why { IfErr result (Refuses (fields_behind form from.old)) }
        ensures domain_kept { OnErr result (domain.new ≡ domain.old) }
        ensures from_kept { OnErr result (from.new ≡ from.old) };

    /// Another object like this one, with an identifier of its own for the same door. It fails if the domain lacks the
    /// door, or if memory runs out.
    fn copy(&self, object: &Object, domain: &mut Domain) -> Result<Object, ObjectErr>
        requires sub { object.now.sub ≡ id }
        requires of { IsOf form object.now }
        ensures ok { IfOk result (λ copy. CopiesObject object.now copy domain.old domain.new) }
        ensures why { IfErr result (RefusesHeld domain.old object.now) }
        ensures err { OnErr result (domain.new ≡ domain.old) };

    /// Gives an object up: its door leaves the domain. It fails if the domain lacks the door.
    fn consume(&self, object: Object, domain: &mut Domain) -> Result<(), NoDoor>
        requires sub { object.sub ≡ id }
        requires of { IsOf form object }
        ensures ok { OnOk result (GivesUp object domain.old domain.new) }
        ensures why { IfErr result (Lacks domain.old object.door) }
        ensures err { OnErr result (domain.new ≡ domain.old) };

    /// Where a call on the object goes, from a machine of the stack. It fails if the domain lacks the door.
    fn route(
        &self,
        object: &Object,
        domain: &Domain,
        mounted: &Mounted,
        machine: u32,
    ) -> Result<Route, NoDoor>
        requires sub { object.now.sub ≡ id }
        requires of { IsOf form object.now }
        requires machine { machine < length mounted.now.machines }
        requires view { LeadsToView mounted.now domain.now object.now }
        ensures ok { IfOk result (λ to. route_of route mounted.now machine domain.now object.now ≡ Some to) }
        ensures why { IfErr result (Lacks domain.now object.now.door) };
}

/// The subcontracts that a domain knows, and what each of them does with its objects. A call takes an object of a subcontract
/// that is known, and does what that subcontract does.
pub trait Registry {
    /// Whether a subcontract of the identifier is known.
    ghost has: { ℕ → Bool };

    /// The form of its objects.
    ghost form: { ℕ → Form };

    /// Whether a subcontract of the identifier is known.
    fn has(&self, id: u16) -> bool
        ensures { result ≡ has id };

    /// Receives an object, whose identifier comes next, as its subcontract does.
    fn unmarshal(
        &self,
        id: u16,
        alloc: Global,
        domain: &mut Domain,
        from: &mut Reader<'_>,
    ) -> Result<Object, ObjectErr>
        requires known { has id ≡ true }
        requires next { number_at 2 from.old ≡ Ok id }
        ensures ok { IfOk result (Unmarshals id (form id) domain.old domain.new from.old from.new) }
        ensures why { IfErr result (Refuses (fields_behind (form id) from.old)) }
        ensures domain_kept { OnErr result (domain.new ≡ domain.old) }
        ensures from_kept { OnErr result (from.new ≡ from.old) };
}
