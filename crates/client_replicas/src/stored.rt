//! What the names keep for a replicon object.

ghost use Rattle.std.specs.Prelude.{◌≡◌, IfOk};
ghost use Rattle.sub_replicon.specs.Replicas.{AreReplicas};
ghost use Rattle.name_context.specs.Names.{kept_object};
ghost use Rattle.client_replicas.specs.Received.{stored_replicon};

use domain_doors::Domain;
use marshal_buf::{Buf, Door};
use std::alloc::{AllocError, Global};
use sub_core::ObjectErr;
use sub_replicon::Replicon;

/// What is bound for a replicon object of these doors, sent by a domain of its own, which stands for that of the server. An error is that memory
/// ran out.
pub fn stored_replicon(alloc: Global, doors: &[Door]) -> Result<Buf, AllocError>
    requires { AreReplicas doors.now }
    ensures { IfOk result (λ stored. kept_object stored ≡ stored_replicon doors.now) }
{
    let mut domain = Domain::new(alloc);
    let object = Replicon::new(doors, &mut domain)?;
    let mut stored = Buf::new(alloc);
    match object.marshal(&mut domain, &mut stored) {
        Ok(()) => Ok(stored),
        Err((ObjectErr::Memory, _object)) => Err(AllocError),
        Err((ObjectErr::NoDoor { .. }, _object)) => unreachable!(),
        Err((ObjectErr::BadObject { .. }, _object)) => unreachable!(),
    }
}
