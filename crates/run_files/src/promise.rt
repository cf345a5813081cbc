//! What a sync made lasting, from run to run.

ghost use Rattle.run_files.specs.Headline.{Headline};
ghost use Rattle.run_files.specs.Promise.{EachSyncCounts, NextBegins, DiskLastsOn, RunsGoOn, EachSyncLasts};

/// The headline, read off what a run says: each access of a file answers what one plain file answers at its place in the file's
/// one history, and after a sync that was done every live store holds that history's bytes, as they were when it was called or
/// later.
///
/// It does nothing.
pub fn headline()
    ensures { Headline }
{}

/// The law that no completed sync is forgotten. What a disk keeps and shows is said from the latest place that a completed sync is
/// from; that is not before the place of any completed sync, in whatever order those of several callers ended.
///
/// It does nothing.
pub fn each_sync_counts()
    ensures { EachSyncCounts }
{}

/// The laws of a file on one disk. A run over the store that another run left begins with the pages of the last sync that the
/// other one completed, or with later ones; and if its closing sync was done, with the whole file. And so it goes on over any
/// number of runs.
///
/// It does nothing.
pub fn synced_pages_begin_the_next_run()
    ensures next { NextBegins }
    ensures on { DiskLastsOn }
{}

/// The laws of a file in a chain of sittings, on disks in mirrors or on one of them alone. A run goes on with the chain, by what
/// its disks and stores became. And in a chain a sync that was done lasts, as long as each run begins with a disk up that was live
/// when the run before it ended: whatever else happens between and in the runs, to the disks and to their stores.
///
/// It does nothing. The promise is this project's own, as the rules of mirrors are.
pub fn synced_pages_last()
    ensures runs { RunsGoOn }
    ensures each { EachSyncLasts }
{}
