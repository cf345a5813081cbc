//! Commands in which nothing failed.

ghost use Rattle.run_laws.specs.Sound.{SoundDumpEndsWell, SoundFormatEndsWell, SoundRunEndsWell, SoundSumEndsWell};

/// The law that no failure is made up. If neither the bay nor a store failed, each store that was taken had an image, and no
/// history got full, a run ends well, unless memory ran out.
///
/// So does the run of a generated script; there pages that were read count among what did not fail. So do a look at the pages of a
/// file, and fresh images, which need no older ones.
///
/// It does nothing.
pub fn sound_run_ends_well()
    ensures run { SoundRunEndsWell }
    ensures sum { SoundSumEndsWell }
    ensures format { SoundFormatEndsWell }
    ensures dump { SoundDumpEndsWell }
{}
