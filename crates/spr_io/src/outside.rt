//! What the program asks of the world outside of it: four traits.
//!
//! A value of each tells contracts what it holds, if that is known, and counts its faults.

ghost use Rattle.std.specs.Prelude.{◌≡◌, ◌<◌, ◌≤◌, ℕ, List, Option, IfOk, OnOk, OnErr, IsErr, length, take, true, false};
ghost use Rattle.spr_io.specs.Causes.{Rose, HasCause, Counts};
ghost use Rattle.spr_io.specs.Content.{Content, ReadsBlock, IsShaped, KeepsShape, HasNothingPending, written, flushed};
ghost use Rattle.spr_io.specs.Berth.{Berth, Berths, BaySeen, Lies, Opens, taken, given, lost, SameElsewhere, SameBerths};
ghost use Rattle.spr_io.specs.Texts.{ShelfSeen, SinkSeen, Appends, after_write};

use thiserror::Error;

/// The outside failed; the count of what was called says so.
#[derive(Clone, Copy, Debug, PartialEq, Eq, Error)]
#[error("the outside failed")]
pub struct Failed;

/// Why a shelf gives no text.
#[derive(Clone, Copy, Debug, PartialEq, Eq, Error)]
pub enum ShelfErr {
    /// The text is missing or longer than the limit, or the shelf failed.
    #[error("the text is missing, too long, or cannot be read")]
    Failed,
    /// Out of memory for the text.
    #[error("out of memory for the text")]
    Memory,
}

/// Why a bay gives no store.
#[derive(Clone, Copy, Debug, PartialEq, Eq, Error)]
pub enum BayErr {
    /// The store is out or has another shape, or the bay failed.
    #[error("the store is out, has another shape, or cannot be taken")]
    Failed,
    /// Out of memory for the store, or for its return.
    #[error("out of memory for the store")]
    Memory,
}

/// Texts by name.
///
/// Its count of faults ends at `u64::MAX`; there it counts as risen.
pub trait Shelf {
    /// The texts by name, if they are told, and how many faults there were.
    ghost told: { Self → ShelfSeen };

    /// Appends the text `name` to `out`, at most `limit` bytes.
    ///
    /// A missing or longer text is a fault. After an error `out` may have gained bytes.
    fn read(&mut self, name: &str, limit: u32, out: &mut Vec<u8>) -> Result<(), ShelfErr>
        ensures ok { OnOk result (Appends ((told self.old).texts name.now) limit out.old.items out.new.items) }
        ensures before { take (length out.old.items) out.new.items ≡ out.old.items }
        ensures same { (other : List ℕ) → (told self.new).texts other ≡ (told self.old).texts other }
        ensures cause { HasCause (told self.old).faults (told self.new).faults (result ≡ Err ShelfErr.Failed) }
        ensures calm { OnOk result ((told self.new).faults ≡ (told self.old).faults) }
        ensures memory { result ≡ Err ShelfErr.Memory → (told self.new).faults ≡ (told self.old).faults };
}

/// Blocks of one size, which are kept at a flush.
///
/// A refused call changes no block. No call changes the block size or the number of blocks. A store counts
/// at most `u64::MAX` faults, and then fails no more.
pub trait Store: Send + Drop {
    /// The blocks as read, and as kept, if they are told.
    ghost content: { Self → Option Content };

    /// The bytes of a block.
    ghost size: { Self → ℕ };

    /// How many blocks there are.
    ghost number: { Self → ℕ };

    /// How many faults there were.
    ghost faults: { Self → ℕ };

    /// Reads a block; after an error `out` may have any bytes.
    fn read(&mut self, block: u32, out: &mut [u8]) -> Result<(), Failed>
        requires block { block < number self.old }
        requires size { length out.old ≡ size self.old }
        ensures bytes { OnOk result (ReadsBlock (content self.old) block out.new) }
        ensures same { content self.new ≡ content self.old }
        ensures shape { KeepsShape (size self.old) (number self.old) (size self.new) (number self.new) (content self.new) }
        ensures cause { Counts (faults self.old) (faults self.new) (IsErr result) }
        ensures calm { OnOk result (faults self.new ≡ faults self.old) };

    /// Writes a block, which is not kept before the next flush.
    fn write(&mut self, block: u32, bytes: &[u8]) -> Result<(), Failed>
        requires block { block < number self.old }
        requires size { length bytes.now ≡ size self.old }
        ensures ok { OnOk result (content self.new ≡ written block bytes.now (content self.old)) }
        ensures err { OnErr result (content self.new ≡ content self.old) }
        ensures shape { KeepsShape (size self.old) (number self.old) (size self.new) (number self.new) (content self.new) }
        ensures cause { Counts (faults self.old) (faults self.new) (IsErr result) }
        ensures calm { OnOk result (faults self.new ≡ faults self.old) };

    /// Keeps every block as it is read.
    fn flush(&mut self) -> Result<(), Failed>
        ensures ok { OnOk result (content self.new ≡ flushed (content self.old)) }
        ensures err { OnErr result (content self.new ≡ content self.old) }
        ensures shape { KeepsShape (size self.old) (number self.old) (size self.new) (number self.new) (content self.new) }
        ensures cause { Counts (faults self.old) (faults self.new) (IsErr result) }
        ensures calm { OnOk result (faults self.new ≡ faults self.old) };

    /// The count of faults.
    fn count(&self) -> u64
        ensures { result ≡ faults self.now };

    /// The number of blocks.
    fn blocks(&self) -> u32
        ensures number { result ≡ number self.now }
        ensures shape { IsShaped (size self.now) (number self.now) (content self.now) };
}

/// Stores by disk and file.
///
/// Its count of faults ends at `u64::MAX`; there it counts as risen. It also tells the count of faults of the
/// store of a name, which for a store that is out is the count with which it was taken.
pub trait Bay {
    /// A store of the bay.
    type Store: Store;

    /// What lies under each disk and file, and how many faults of the bay itself there were.
    ghost told: { Self → BaySeen };

    /// Whether something lies under a disk and a file. It makes nothing there.
    ///
    /// Of a store that is out nothing lies there, if the bay tells what lies where.
    fn has(&mut self, disk: &str, file: &str) -> Result<bool, BayErr>
        ensures told { IfOk result (Lies ((told self.old).berths disk.now file.now).holds) }
        ensures same { SameBerths (told self.old).berths (told self.new).berths }
        ensures cause { HasCause (told self.old).faults (told self.new).faults (result ≡ Err BayErr.Failed) }
        ensures calm { OnOk result ((told self.new).faults ≡ (told self.old).faults) }
        ensures memory { result ≡ Err BayErr.Memory → (told self.new).faults ≡ (told self.old).faults };

    /// Takes the store of a disk and a file, of `size` bytes a block; one that is not there starts as zeros.
    ///
    /// What the store reads is kept: nothing that was written before it was taken waits for a flush.
    /// A store of another shape is a fault, and so is one that is out. After an error the bay is as before but
    /// for its count.
    fn take(
        &mut self,
        disk: &str,
        file: &str,
        size: u32,
        blocks: u32,
    ) -> Result<Self::Store, BayErr>
        ensures shape { IfOk result (λ store. KeepsShape size blocks (Self.Store.size store) (Self.Store.number store) (Self.Store.content store)) }
        ensures content { IfOk result (λ store. Opens size blocks ((told self.old).berths disk.now file.now).holds (Self.Store.content store)) }
        ensures settled { IfOk result (λ store. HasNothingPending (Self.Store.content store)) }
        ensures count { IfOk result (λ store. Self.Store.faults store ≡ ((told self.old).berths disk.now file.now).faults) }
        ensures was_in { OnOk result (((told self.old).berths disk.now file.now).out ≡ false) }
        ensures taken { OnOk result ((told self.new).berths disk.now file.now ≡ taken ((told self.old).berths disk.now file.now)) }
        ensures others { OnOk result (SameElsewhere disk.now file.now (told self.old).berths (told self.new).berths) }
        ensures refused { OnErr result (SameBerths (told self.old).berths (told self.new).berths) }
        ensures cause { HasCause (told self.old).faults (told self.new).faults (result ≡ Err BayErr.Failed) }
        ensures calm { OnOk result ((told self.new).faults ≡ (told self.old).faults) }
        ensures memory { result ≡ Err BayErr.Memory → (told self.new).faults ≡ (told self.old).faults };

    /// Gives a store back, without memory.
    ///
    /// A store that was not taken is a fault. A store that is refused is lost.
    fn give(&mut self, disk: &str, file: &str, store: Self::Store) -> Result<(), Failed>
        ensures was_out { OnOk result (((told self.old).berths disk.now file.now).out ≡ true) }
        ensures given { OnOk result ((told self.new).berths disk.now file.now ≡ given (Self.Store.content store) (Self.Store.faults store) ((told self.old).berths disk.now file.now)) }
        ensures refused { OnErr result ((told self.new).berths disk.now file.now ≡ lost (Self.Store.faults store) ((told self.old).berths disk.now file.now)) }
        ensures others { SameElsewhere disk.now file.now (told self.old).berths (told self.new).berths }
        ensures cause { HasCause (told self.old).faults (told self.new).faults (IsErr result) }
        ensures calm { OnOk result ((told self.new).faults ≡ (told self.old).faults) };
}

/// Where bytes go.
///
/// Its count of faults ends at `u64::MAX`; there it counts as risen.
pub trait Sink {
    /// The bytes written, if they are told, and how many faults there were.
    ghost told: { Self → SinkSeen };

    /// Takes some of the first bytes of a piece, and answers how many.
    ///
    /// A write that takes nothing of a piece that is not empty is a fault.
    fn write(&mut self, bytes: &[u8]) -> Result<usize, Failed>
        ensures within { IfOk result (λ n. n ≤ length bytes.now) }
        ensures ok { IfOk result (λ n. (told self.new).written ≡ after_write n bytes.now (told self.old).written) }
        ensures err { OnErr result ((told self.new).written ≡ (told self.old).written) }
        ensures cause { HasCause (told self.old).faults (told self.new).faults (IsErr result) }
        ensures nothing { result ≡ Ok 0 → 0 < length bytes.now → Rose (told self.old).faults (told self.new).faults }
        ensures calm { IfOk result (λ n. 0 < n → (told self.new).faults ≡ (told self.old).faults) };
}
