//! What it means that the bytes of a region are met.

ghost use Rattle.vmm_space.specs.Laws.{MeetAtAnAddress};

/// So many pages meet a region exactly if an address is of both. It does no work.
pub fn regions_meet_at_an_address()
    ensures { MeetAtAnAddress }
{}
