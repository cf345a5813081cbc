//! Several doors of a domain, by their identifiers.

ghost use Rattle.std.specs.Prelude.{◌≡◌, ◌≤◌, None, IsSome, IfOk, IfErr, OnOk, OnErr, length};
ghost use Rattle.domain_doors.specs.Doors.{door_at, Updates};
ghost use Rattle.sub_replicon.specs.Replicas.{AreApart};
ghost use Rattle.sub_replicon.specs.Domains.{AreHeld, Holds, Enter, Leave, HoldsTheSame, FirstLacking, StopsAt};

use crate::MAX_DOORS;
use crate::doors::DoorList;
use arrayvec::ArrayVec;
use domain_doors::{Domain, NoDoor};
use marshal_buf::Door;
use std::alloc::AllocError;

/// The identifiers of at most eight doors, in order.
pub(crate) type Ids = ArrayVec<usize, MAX_DOORS>;

/// Looks at the doors of the identifiers, in order. An error names the first that the domain lacks.
pub(crate) fn look_all(ids: &[usize], domain: &Domain) -> Result<DoorList, NoDoor>
    requires { length ids.now ≤ MAX_DOORS }
    ensures ok { IfOk result (Holds domain.now ids.now) }
    ensures held { OnOk result (AreHeld domain.now ids.now) }
    ensures why { IfErr result (FirstLacking domain.now ids.now) }
{
    let mut doors = DoorList::new();
    for id in ids {
        doors.push(domain.look(*id)?);
    }
    Ok(doors)
}

/// Takes the doors of the identifiers out of the domain, in order. An error names the first that the domain lacks: those before it
/// are out, and those after it stay.
pub(crate) fn take_out_all(ids: &[usize], domain: &mut Domain) -> Result<(), NoDoor>
    requires { AreApart ids.now }
    ensures held { OnOk result (AreHeld domain.old ids.now) }
    ensures leave { OnOk result (Leave ids.now domain.old domain.new) }
    ensures why { IfErr result (StopsAt ids.now domain.old domain.new) }
{
    for id in ids {
        domain.take_out(*id)?;
    }
    Ok(())
}

/// Takes doors into the domain, in order: all of them or, if memory runs out, none.
pub(crate) fn hold_all(doors: &[Door], domain: &mut Domain) -> Result<Ids, AllocError>
    requires { length doors.now ≤ MAX_DOORS }
    ensures ok { IfOk result (λ ids. Enter ids.items doors.now domain.old domain.new) }
    ensures apart { IfOk result (λ ids. AreApart ids.items) }
    ensures len { IfOk result (λ ids. length ids.items ≡ length doors.now) }
    ensures err { OnErr result (HoldsTheSame domain.old domain.new) }
{
    let Some((first, more)) = doors.split_first() else {
        return Ok(ArrayVec::new());
    };
    let id = domain.add(*first)?;
    match hold_all(more, domain) {
        Ok(mut ids) => {
            ids.insert(0, id);
            Ok(ids)
        }
        Err(e) => {
            give_back(id, domain);
            Err(e)
        }
    }
}

/// Takes a door out again that was taken in. Its identifier is the next one that is given.
fn give_back(id: usize, domain: &mut Domain)
    requires { IsSome (door_at domain.old id) }
    ensures leaves { Updates domain.old domain.new id None }
    ensures next { domain.new.next ≡ id }
{
    match domain.take_out(id) {
        Ok(_door) => (),
        Err(NoDoor { .. }) => unreachable!(),
    }
}
