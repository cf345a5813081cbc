//! Receiving an object of any known subcontract.

ghost use Rattle.std.specs.Prelude.{◌≡◌, IfOk, IfErr, OnErr};
ghost use Rattle.marshal_buf.specs.Reading.{number_at};
ghost use Rattle.sub_core.specs.Fields.{any_fields_at};
ghost use Rattle.sub_core.specs.Received.{UnmarshalsAny, RefusesAny};

use crate::roles::Registry;
use crate::values::Object;
use crate::why::{AnyErr, ObjectErr};
use domain_doors::Domain;
use marshal_buf::{Reader, Short};
use std::alloc::Global;

/// Receives an object of any subcontract that the registry knows: it peeks at the identifier, and leaves the rest to that
/// subcontract. It fails if the bytes are no object, if their subcontract is unknown, or if memory runs out, and
/// then leaves the domain and the reader as they were.
pub fn unmarshal_any<K: Registry>(
    registry: &K,
    alloc: Global,
    domain: &mut Domain,
    from: &mut Reader<'_>,
) -> Result<Object, AnyErr>
    ensures ok { IfOk result (UnmarshalsAny K.has K.form domain.old domain.new from.old from.new) }
    ensures why { IfErr result (RefusesAny (any_fields_at K.has K.form from.old)) }
    ensures domain_kept { OnErr result (domain.new ≡ domain.old) }
    ensures from_kept { OnErr result (from.new ≡ from.old) }
{
    let id = next_id(from)?;
    if !registry.has(id) {
        return Err(AnyErr::UnknownSubcontract { id });
    }
    match registry.unmarshal(id, alloc, domain, from) {
        Ok(object) => Ok(object),
        Err(ObjectErr::BadObject { at }) => Err(AnyErr::BadObject { at }),
        Err(ObjectErr::Memory) => Err(AnyErr::Memory),
        Err(ObjectErr::NoDoor { .. }) => unreachable!(),
    }
}

/// The identifier that comes next.
fn next_id(from: &Reader<'_>) -> Result<u16, Short>
    ensures { result ≡ number_at 2 from.now }
{
    from.copy().get_u16()
}
