//! The registry of the subcontracts that the program has.

use crate::kind::ObjectKind;
use domain_doors::Domain;
use marshal_buf::Reader;
use std::alloc::Global;
use sub_basic::{Cluster, Singleton};
use sub_caching::Caching;
use sub_core::{Object, ObjectErr, Registry, Subcontract};
use sub_reconnect::Reconnectable;

/// The subcontracts that the program has.
#[derive(Clone, Copy, Debug)]
pub(crate) struct Built;

impl Registry for Built {
    ghost use Rattle.client_objects.specs.Kinds.{is_built, form_at};

    ghost has = { is_built };

    ghost form = { form_at };

    fn has(&self, id: u16) -> bool {
        ObjectKind::of(id).is_some()
    }

    fn unmarshal(
        &self,
        id: u16,
        alloc: Global,
        domain: &mut Domain,
        from: &mut Reader<'_>,
    ) -> Result<Object, ObjectErr> {
        match ObjectKind::of(id) {
            Some(ObjectKind::Singleton) => Singleton.unmarshal(alloc, domain, from),
            Some(ObjectKind::Cluster) => Cluster.unmarshal(alloc, domain, from),
            Some(ObjectKind::Caching) => Caching.unmarshal(alloc, domain, from),
            Some(ObjectKind::Reconnectable) => Reconnectable.unmarshal(alloc, domain, from),
            None => unreachable!(),
        }
    }
}
