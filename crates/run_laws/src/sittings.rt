//! The sittings of a file over mirrors: what lies between its runs, and what a sync made lasting over all of them.

ghost use Rattle.run_laws.specs.Lasting.{SittingsAreChains, RunsShowTheSync, DumpsShowTheSync};
ghost use Rattle.run_laws.specs.Sittings.{SittingsGoOn, ClosedAreSeen, RunsAreSeen, EachSyncIsDumped};

/// The laws of the sittings that are no runs, over stores that tell what they hold. A dump of a file on disks in mirrors goes on
/// with a chain of sittings, whether it read all pages or was refused one; and so do an opening that was refused, of a run or a
/// dump, and a file that was opened and closed again, since a later one could not be opened or memory ran out. What the closed
/// ground of a run, or of a file that was closed again, reads on its stores is what the next opening sees of them. And in a chain
/// a dump that has a disk up that counts for a sync has pages of that sync, or later ones.
///
/// It does nothing.
pub fn sittings_go_on()
    ensures sittings { SittingsGoOn }
    ensures closed { ClosedAreSeen }
    ensures seen { RunsAreSeen }
    ensures dumps { EachSyncIsDumped }
{}

/// The promise of mirrors, of all that the program does but where it is killed. Over any list of sittings since a sync that was
/// done, runs over the mirrors, runs over one disk of them, dumps, refusals, and files that were closed again, in any order, a
/// run and a dump have pages of that sync, or later ones, if a disk is up that counts for it; as long as each run of the list
/// began with a disk up that was live when the run before it ended.
///
/// It does nothing.
pub fn synced_pages_outlast_sittings()
    ensures chains { SittingsAreChains }
    ensures runs { RunsShowTheSync }
    ensures dumps { DumpsShowTheSync }
{}
