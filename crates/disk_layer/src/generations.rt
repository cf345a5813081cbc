//! The generation of a disk.

ghost use Rattle.std.specs.Prelude.{◌≡◌, ◌⊎◌, ◌≤◌, ◌<◌, ◌^◌, OnOk, OnErr, IfErr, nat_lt};
ghost use Rattle.disk_layer.specs.Disk.{Disk, HasImage, pages_on, counting, headed, settled};
ghost use Rattle.disk_layer.specs.Disk as disk_layer;
ghost use Rattle.page_ground.specs.Seen.{Keeps, IsCalm, IsFault};

use page_ground::StoreFault;

/// A disk's generation, and whether it has failed, also where the disk need not go to another thread.
pub trait Generations {
    /// The disk.
    ghost disk: { Self → Disk };

    /// The image's generation: from 1 to 9,223,372,036,854,775,807.
    fn generation(&self) -> u64
        ensures generation { result ≡ (disk self.now).generation }
        ensures low { 1 ≤ result }
        ensures high { result < 2 ^ 63 };

    /// Whether a call to its store has failed since it was opened.
    fn has_failed(&self) -> bool
        ensures { result ≡ nat_lt (disk self.now).opened (disk self.now).faults };

    /// Gives the image another generation: writes the header, and flushes.
    ///
    /// If the header's write fails the generation is as before. If the flush fails the header stays written.
    fn raise(&mut self, generation: u64) -> Result<(), StoreFault>
        requires low { 1 ≤ generation }
        requires high { generation < 2 ^ 63 }
        ensures ok { OnOk result (disk self.new ≡ counting (disk self.new).faults (settled (headed generation (disk self.old)))) }
        ensures err { OnErr result ((disk self.new ≡ counting (disk self.new).faults (disk self.old)) ⊎ (disk self.new ≡ counting (disk self.new).faults (headed generation (disk self.old)))) }
        ensures pages { pages_on (disk self.new) ≡ pages_on (disk self.old) }
        ensures image { HasImage (disk self.new) }
        ensures keeps { (disk self.old).generation ≤ generation → Keeps (disk_layer.seen_of (disk self.old)) (disk_layer.seen_of (disk self.new)) }
        ensures calm { OnOk result (IsCalm (disk_layer.seen_of (disk self.old)) (disk_layer.seen_of (disk self.new))) }
        ensures count { OnOk result ((disk self.new).faults ≡ (disk self.old).faults) }
        ensures fault { IfErr result (IsFault (disk_layer.seen_of (disk self.old)) (disk_layer.seen_of (disk self.new))) }
        ensures counted { IfErr result (λ f. f.count ≡ (disk self.new).faults) };
}
