//! The reconnectable subcontract.

use domain_doors::{Domain, NoDoor};
use marshal_buf::{Buf, Reader};
use stack_accept::Mounted;
use std::alloc::Global;
use sub_core::{
    Form, Object, ObjectErr, Route, Subcontract, consume_held, copy_held, marshal_as, unmarshal_as,
};

/// Objects that have a door each, and beside it the path that they were bound under. A call goes where the door leads.
#[derive(Clone, Copy, Debug)]
pub struct Reconnectable;

impl Subcontract for Reconnectable {
    ghost use Rattle.sub_reconnect.specs.declared.TheConstants.{RECONNECTABLE};
    ghost use Rattle.sub_reconnect.specs.Routes.{reconnectable_route};
    ghost use Rattle.sub_core.specs.declared.shape.Form.TheVariants.{Pathed};

    ghost id = { RECONNECTABLE };

    ghost form = { Pathed };

    ghost route = { reconnectable_route };

    fn marshal(
        &self,
        object: Object,
        domain: &mut Domain,
        buf: &mut Buf,
    ) -> Result<(), (ObjectErr, Object)> {
        marshal_as(Form::Pathed, object, domain, buf)
    }

    fn unmarshal(
        &self,
        alloc: Global,
        domain: &mut Domain,
        from: &mut Reader<'_>,
    ) -> Result<Object, ObjectErr> {
        unmarshal_as(crate::RECONNECTABLE, Form::Pathed, alloc, domain, from)
    }

    fn copy(&self, object: &Object, domain: &mut Domain) -> Result<Object, ObjectErr> {
        copy_held(object, domain)
    }

    fn consume(&self, object: Object, domain: &mut Domain) -> Result<(), NoDoor> {
        consume_held(object, domain)
    }

    fn route(
        &self,
        object: &Object,
        domain: &Domain,
        _mounted: &Mounted,
        _machine: u32,
    ) -> Result<Route, NoDoor> {
        let door = domain.look(object.door)?;
        Ok(Route {
            node: door.node,
            file: door.file,
        })
    }
}
