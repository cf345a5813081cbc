//! What lies under a file: its pages, on one or more disks.

ghost use Rattle.std.specs.Prelude.{◌≡◌, ◌<◌, OnOk, OnErr, IfErr, length};
ghost use Rattle.page_ground.specs.Seen.{Seen, Keeps, IsCalm, IsFault, ReadsPage, AllKept, with_page};

use crate::fault::StoreFault;

/// The pages of a file on one or more disks.
///
/// It tells contracts its page size and its number of pages, the pages, what each disk kept at its last flush, which
/// disks are live, and each disk's counts of faults; and its generation, and the one that it has at least once all that it
/// owes is paid. No call lowers these two. A call fails only if every live disk failed in it, and does what it is asked only
/// if some live disk did not. No call takes memory.
pub trait Ground: Send {
    /// The pages, and the disks that hold them.
    ghost seen: { Self → Seen };

    /// Reads a page; after an error `out` may have any bytes.
    fn read(&mut self, page: u32, out: &mut [u8]) -> Result<(), StoreFault>
        requires page { page < (seen self.old).number }
        requires size { length out.old ≡ (seen self.old).page_size }
        ensures bytes { OnOk result (ReadsPage (seen self.old).pages page out.new) }
        ensures same { (seen self.new).pages ≡ (seen self.old).pages }
        ensures keeps { Keeps (seen self.old) (seen self.new) }
        ensures calm { OnOk result (IsCalm (seen self.old) (seen self.new)) }
        ensures fault { IfErr result (IsFault (seen self.old) (seen self.new)) };

    /// Writes a page. An error leaves every page as it was.
    fn write(&mut self, page: u32, bytes: &[u8]) -> Result<(), StoreFault>
        requires page { page < (seen self.old).number }
        requires size { length bytes.now ≡ (seen self.old).page_size }
        ensures ok { OnOk result ((seen self.new).pages ≡ with_page page bytes.now (seen self.old).pages) }
        ensures err { OnErr result ((seen self.new).pages ≡ (seen self.old).pages) }
        ensures keeps { Keeps (seen self.old) (seen self.new) }
        ensures calm { OnOk result (IsCalm (seen self.old) (seen self.new)) }
        ensures fault { IfErr result (IsFault (seen self.old) (seen self.new)) };

    /// Keeps every page on each live disk, and pays what is due.
    fn flush(&mut self) -> Result<(), StoreFault>
        ensures same { (seen self.new).pages ≡ (seen self.old).pages }
        ensures ok { OnOk result (AllKept (seen self.new) (seen self.new).pages) }
        ensures keeps { Keeps (seen self.old) (seen self.new) }
        ensures calm { OnOk result (IsCalm (seen self.old) (seen self.new)) }
        ensures fault { IfErr result (IsFault (seen self.old) (seen self.new)) };
}
