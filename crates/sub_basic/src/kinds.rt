//! The two plain subcontracts.

use domain_doors::{Domain, NoDoor};
use marshal_buf::{Buf, Reader};
use stack_accept::Mounted;
use std::alloc::Global;
use sub_core::{
    Form, Object, ObjectErr, Route, Subcontract, consume_held, copy_held, marshal_as, unmarshal_as,
};

/// Objects that have a door each. A call goes where the door leads.
#[derive(Clone, Copy, Debug)]
pub struct Singleton;

/// Objects that share one door for each view, whose file is 0. The tag is the number of the object's file: a call goes to
/// the node where the door leads, and there to that file.
#[derive(Clone, Copy, Debug)]
pub struct Cluster;

impl Subcontract for Singleton {
    ghost use Rattle.sub_basic.specs.declared.TheConstants.{SINGLETON};
    ghost use Rattle.sub_basic.specs.Routes.{singleton_route};
    ghost use Rattle.sub_core.specs.declared.shape.Form.TheVariants.{Bare};

    ghost id = { SINGLETON };

    ghost form = { Bare };

    ghost route = { singleton_route };

    fn marshal(
        &self,
        object: Object,
        domain: &mut Domain,
        buf: &mut Buf,
    ) -> Result<(), (ObjectErr, Object)> {
        marshal_as(Form::Bare, object, domain, buf)
    }

    fn unmarshal(
        &self,
        alloc: Global,
        domain: &mut Domain,
        from: &mut Reader<'_>,
    ) -> Result<Object, ObjectErr> {
        unmarshal_as(crate::SINGLETON, Form::Bare, alloc, domain, from)
    }

    fn copy(&self, object: &Object, domain: &mut Domain) -> Result<Object, ObjectErr> {
        copy_held(object, domain)
    }

    fn consume(&self, object: Object, domain: &mut Domain) -> Result<(), NoDoor> {
        consume_held(object, domain)
    }

    fn route(
        &self,
        object: &Object,
        domain: &Domain,
        _mounted: &Mounted,
        _machine: u32,
    ) -> Result<Route, NoDoor> {
        let door = domain.look(object.door)?;
        Ok(Route {
            node: door.node,
            file: door.file,
        })
    }
}

impl Subcontract for Cluster {
    ghost use Rattle.sub_basic.specs.declared.TheConstants.{CLUSTER};
    ghost use Rattle.sub_basic.specs.Routes.{cluster_route};
    ghost use Rattle.sub_core.specs.declared.shape.Form.TheVariants.{Tagged};

    ghost id = { CLUSTER };

    ghost form = { Tagged };

    ghost route = { cluster_route };

    fn marshal(
        &self,
        object: Object,
        domain: &mut Domain,
        buf: &mut Buf,
    ) -> Result<(), (ObjectErr, Object)> {
        marshal_as(Form::Tagged, object, domain, buf)
    }

    fn unmarshal(
        &self,
        alloc: Global,
        domain: &mut Domain,
        from: &mut Reader<'_>,
    ) -> Result<Object, ObjectErr> {
        unmarshal_as(crate::CLUSTER, Form::Tagged, alloc, domain, from)
    }

    fn copy(&self, object: &Object, domain: &mut Domain) -> Result<Object, ObjectErr> {
        copy_held(object, domain)
    }

    fn consume(&self, object: Object, domain: &mut Domain) -> Result<(), NoDoor> {
        consume_held(object, domain)
    }

    fn route(
        &self,
        object: &Object,
        domain: &Domain,
        _mounted: &Mounted,
        _machine: u32,
    ) -> Result<Route, NoDoor> {
        let door = domain.look(object.door)?;
        Ok(Route {
            node: door.node,
            file: object.tag,
        })
    }
}
