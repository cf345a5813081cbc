//! The caching subcontract.

ghost use Rattle.std.specs.Prelude.{◌≡◌, ◌<◌, ℕ, true, length};
ghost use Rattle.stack_accept.specs.Mount.{is_view_in};
ghost use Rattle.sub_caching.specs.Routes.{local_or, caching_route};

use domain_doors::{Domain, NoDoor};
use marshal_buf::{Buf, Door, Reader};
use memory_object::MemoryObject;
use stack_accept::Mounted;
use std::alloc::Global;
use sub_core::{
    Form, Object, ObjectErr, Route, Subcontract, consume_held, copy_held, marshal_as, unmarshal_as,
};

/// Objects whose calls go to the cache of the machine that they are made on. Each has the server's door, and the name of its
/// manager.
#[derive(Clone, Copy, Debug)]
pub struct Caching;

impl Subcontract for Caching {
    ghost use Rattle.sub_caching.specs.declared.TheConstants.{CACHING};
    ghost use Rattle.sub_caching.specs.Routes.{caching_route};
    ghost use Rattle.sub_core.specs.declared.shape.Form.TheVariants.{Managed};

    ghost id = { CACHING };

    ghost form = { Managed };

    ghost route = { caching_route };

    fn marshal(
        &self,
        object: Object,
        domain: &mut Domain,
        buf: &mut Buf,
    ) -> Result<(), (ObjectErr, Object)> {
        marshal_as(Form::Managed, object, domain, buf)
    }

    fn unmarshal(
        &self,
        alloc: Global,
        domain: &mut Domain,
        from: &mut Reader<'_>,
    ) -> Result<Object, ObjectErr> {
        unmarshal_as(crate::CACHING, Form::Managed, alloc, domain, from)
    }

    fn copy(&self, object: &Object, domain: &mut Domain) -> Result<Object, ObjectErr> {
        copy_held(object, domain)
    }

    fn consume(&self, object: Object, domain: &mut Domain) -> Result<(), NoDoor> {
        consume_held(object, domain)
    }

    fn route(
        &self,
        object: &Object,
        domain: &Domain,
        mounted: &Mounted,
        machine: u32,
    ) -> Result<Route, NoDoor> {
        let door = domain.look(object.door)?;
        Ok(local_route(door, mounted, machine))
    }
}

/// Where a call by a door goes, from a machine of the stack.
fn local_route(door: Door, mounted: &Mounted, machine: u32) -> Route
    requires view { is_view_in mounted.now.nodes door.node ≡ true }
    requires machine { machine < length mounted.now.machines }
    ensures { (tag : ℕ) → result ≡ caching_route mounted.now machine door tag }
{
    let object = MemoryObject {
        view: door.node,
        file: door.file,
    };
    let node = match object.bind(mounted, machine) {
        Ok(rights) => rights.leaf,
        Err(_) => door.node,
    };
    Route {
        node,
        file: door.file,
    }
}
