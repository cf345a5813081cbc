//! What holds of memory objects that are equivalent.

ghost use Rattle.memory_object.specs.Managers.{EquivalentBindAlike};

/// Two memory objects whose views one node serves on a machine, and which have one file, bind to the same `CacheRights`
/// there. It does no work.
pub fn equivalent_objects_bind_alike()
    ensures { EquivalentBindAlike }
{}
