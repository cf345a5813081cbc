//! The operations that frames are about.

ghost use Rattle.std.specs.Prelude.{◌≡◌, ◌==◌, position};
ghost use Rattle.pager_channel.specs.Named.{named};

/// An operation of a pager object, a cache object or a file object. Their names, but for those of the length, are the
/// Spring papers'.
#[derive(Clone, Copy, Debug, PartialEq, Eq)]
pub enum Operation {
    /// `page_in` of a pager: the cache wants a page, for reading or for writing.
    PageIn,
    /// `page_out` of a pager: the cache gives a page up.
    PageOut,
    /// `write_out` of a pager: the cache writes a page back and keeps it for reading.
    WriteOut,
    /// `sync` of a pager: the cache writes a page back and keeps its right.
    Sync,
    /// `done_with_pager_object` of a pager: the cache ends the channel.
    Done,
    /// `flush_back` of a cache: it writes a page back and gives it up.
    FlushBack,
    /// `deny_writes` of a cache: it writes a page back and keeps it for reading.
    DenyWrites,
    /// `write_back` of a cache: it writes a page back and keeps its right.
    WriteBack,
    /// `delete_range` of a cache: it gives a page up.
    DeleteRange,
    /// `zero_fill` of a cache: it gets a page of zeros.
    ZeroFill,
    /// `destroy_cache` of a cache: the pager ends the channel.
    Destroy,
    /// `bind` of a file.
    Bind,
    /// `read` of a file.
    Read,
    /// `write` of a file.
    Write,
    /// `clear` of a file.
    Clear,
    /// `sync` of a file.
    FileSync,
    /// `get_length` of a file.
    GetLength,
    /// `set_length` of a file.
    SetLength,
}

/// Where the number stands first.
fn place_of(numbers: &[u16], number: u16) -> Option<usize>
    ensures { result ≡ position (λ n. n == number) numbers.now }
{
    numbers.iter().position(|n| *n == number)
}

/// The operation that stands where the number stands.
pub(crate) fn named(operations: &[Operation], numbers: &[u16], number: u16) -> Option<Operation>
    ensures { result ≡ named operations.now numbers.now number }
{
    let place = place_of(numbers, number)?;
    operations.get(place).copied()
}
