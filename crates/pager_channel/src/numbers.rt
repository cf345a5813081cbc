//! The numbers of the operations.

ghost use Rattle.pager_channel.specs.Own.{AreOwn};

use crate::Operation;
use crate::flags::{TO_CACHE, TO_FILE, has_flag};
use crate::operation::named;

/// The operations of a pager, in the order of their numbers in [`Ops`].
const PAGER: [Operation; 5] = [
    Operation::PageIn,
    Operation::PageOut,
    Operation::WriteOut,
    Operation::Sync,
    Operation::Done,
];

/// The operations of a cache, in the order of their numbers in [`Ops`].
const CACHE: [Operation; 6] = [
    Operation::FlushBack,
    Operation::DenyWrites,
    Operation::WriteBack,
    Operation::DeleteRange,
    Operation::ZeroFill,
    Operation::Destroy,
];

/// The operations of a file, in the order of their numbers in [`Ops`].
const FILE: [Operation; 7] = [
    Operation::Bind,
    Operation::Read,
    Operation::Write,
    Operation::Clear,
    Operation::FileSync,
    Operation::GetLength,
    Operation::SetLength,
];

/// The number of each operation in its interface, as an interface text gives them. Those of one interface differ.
#[derive(Clone, Copy, Debug)]
pub struct Ops {
    pager: [u16; 5],
    cache: [u16; 6],
    file: [u16; 7],
    ghost pager_own: { AreOwn 5 pager },
    ghost cache_own: { AreOwn 6 cache },
    ghost file_own: { AreOwn 7 file },
}

impl Ops {
    ghost use Rattle.std.specs.Prelude.{◌≡◌, IsTrue};
    ghost use Rattle.pager_channel.specs.Own.{all_differ};
    ghost use Rattle.pager_channel.specs.Numbers.{pager_numbers, cache_numbers, file_numbers, which_of, number_of, IsFoundAgain};

    /// The numbers of `page_in`, `page_out`, `write_out`, `sync` and `done_with_pager_object` of a pager; of `flush_back`,
    /// `deny_writes`, `write_back`, `delete_range`, `zero_fill` and `destroy_cache` of a cache; of `bind`, `read`,
    /// `write`, `clear`, `sync`, `get_length` and `set_length` of a file.
    pub fn new(pager: [u16; 5], cache: [u16; 6], file: [u16; 7]) -> Ops
        requires pager { IsTrue (all_differ pager) }
        requires cache { IsTrue (all_differ cache) }
        requires file { IsTrue (all_differ file) }
        ensures pager { pager_numbers result ≡ pager }
        ensures cache { cache_numbers result ≡ cache }
        ensures file { file_numbers result ≡ file }
    {
        Ops { pager, cache, file }
    }

    /// The operation of this number, of the object that the flags name.
    pub fn which(&self, flags: u8, number: u16) -> Option<Operation>
        ensures { result ≡ which_of self.now flags number }
    {
        if has_flag(flags, TO_FILE) {
            named(&FILE, &self.file, number)
        } else if has_flag(flags, TO_CACHE) {
            named(&CACHE, &self.cache, number)
        } else {
            named(&PAGER, &self.pager, number)
        }
    }

    /// The number of an operation. No other operation of its object has it.
    #[tactic(auto, using(crate::proofs::OwnNumbers::found_again))]
    pub fn number(&self, which: Operation) -> u16
        ensures number { result ≡ number_of self.now which }
        ensures own { IsFoundAgain self.now which }
    {
        match which {
            Operation::PageIn => self.pager[0],
            Operation::PageOut => self.pager[1],
            Operation::WriteOut => self.pager[2],
            Operation::Sync => self.pager[3],
            Operation::Done => self.pager[4],
            Operation::FlushBack => self.cache[0],
            Operation::DenyWrites => self.cache[1],
            Operation::WriteBack => self.cache[2],
            Operation::DeleteRange => self.cache[3],
            Operation::ZeroFill => self.cache[4],
            Operation::Destroy => self.cache[5],
            Operation::Bind => self.file[0],
            Operation::Read => self.file[1],
            Operation::Write => self.file[2],
            Operation::Clear => self.file[3],
            Operation::FileSync => self.file[4],
            Operation::GetLength => self.file[5],
            Operation::SetLength => self.file[6],
        }
    }
}
