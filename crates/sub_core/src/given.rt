//! Copying an object, and giving one up, whatever its form.

ghost use Rattle.std.specs.Prelude.{◌≡◌, IfOk, IfErr, OnOk, OnErr};
ghost use Rattle.domain_doors.specs.Doors.{Lacks};
ghost use Rattle.sub_core.specs.Calls.{CopiesObject, GivesUp, RefusesHeld};

use crate::values::Object;
use crate::why::ObjectErr;
use domain_doors::{Domain, NoDoor};

/// Another object like this one, with an identifier of its own for the same door. It fails if the domain lacks the
/// door, or if memory runs out, and then leaves the domain as it was.
pub fn copy_held(object: &Object, domain: &mut Domain) -> Result<Object, ObjectErr>
    ensures ok { IfOk result (λ copy. CopiesObject object.now copy domain.old domain.new) }
    ensures why { IfErr result (RefusesHeld domain.old object.now) }
    ensures err { OnErr result (domain.new ≡ domain.old) }
{
    domain.look(object.door)?;
    let name = object.name.clone()?;
    let door = domain.copy(object.door)?;
    Ok(Object {
        sub: object.sub,
        door,
        tag: object.tag,
        name,
        life: object.life,
    })
}

/// Gives an object up: its door leaves the domain. It fails if the domain lacks the door, and then leaves the domain as
/// it was.
pub fn consume_held(object: Object, domain: &mut Domain) -> Result<(), NoDoor>
    ensures ok { OnOk result (GivesUp object domain.old domain.new) }
    ensures why { IfErr result (Lacks domain.old object.door) }
    ensures err { OnErr result (domain.new ≡ domain.old) }
{
    domain.take_out(object.door)?;
    Ok(())
}
