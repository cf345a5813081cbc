//! A call on a file object.

ghost use Rattle.std.specs.Prelude.{◌≡◌, IsTrue, ◌↔◌, length};
ghost use Rattle.hist_plain.specs.Plain.{IsPageSize, place_of};
ghost use Rattle.file_frames.specs.Calls.{IsOnePage, operation_of, offset_of, size_of, flags_of, data_of};

use hist_plain::{MAX_PAGES, Op, fits};
use pager_channel::{DATA, Operation, TO_FILE};

/// A call on a file object. A page is a number, the place in it and a length are bytes.
#[derive(Clone, Debug, Drop)]
pub enum FileCall {
    /// An access: it reads, writes or clears bytes of one page, or opens the file.
    Access {
        /// What is done.
        op: Op,
    },
    /// A sync of the whole file.
    Sync,
}

/// A call that was read from a frame, and the object that it is a call on. Only `read_call` makes one.
#[derive(Clone, Debug, Drop)]
pub struct Received {
    subcontract: u16,
    tag: u32,
    call: FileCall,
}

impl Received {
    pub(crate) fn new(subcontract: u16, tag: u32, call: FileCall) -> Received
        ensures { result ≡ record { subcontract = subcontract; tag = tag; call = call } }
    {
        Received {
            subcontract,
            tag,
            call,
        }
    }

    /// The subcontract of the object, from 1 to 5.
    pub fn subcontract(&self) -> u16
        ensures { result ≡ self.now.subcontract }
    {
        self.subcontract
    }

    /// The tag of the object, where the subcontract needs it.
    pub fn tag(&self) -> u32
        ensures { result ≡ self.now.tag }
    {
        self.tag
    }

    /// Gives the call.
    pub fn into_call(self) -> FileCall
        ensures { result ≡ self.call }
    {
        self.call
    }
}

impl FileCall {
    /// Whether it stays within one page of a file that can be.
    pub(crate) fn is_one_page(&self, page_size: u32) -> bool
        ensures { IsTrue result ↔ IsOnePage page_size self.now }
    {
        match self {
            FileCall::Access { op } => fits(op, page_size, MAX_PAGES),
            FileCall::Sync => true,
        }
    }

    /// The operation that is called. A file is opened by `bind`.
    pub(crate) fn operation(&self) -> Operation
        ensures { result ≡ operation_of self.now }
    {
        match self {
            FileCall::Access { op } => match op {
                Op::Read { .. } => Operation::Read,
                Op::Write { .. } => Operation::Write,
                Op::Clear { .. } => Operation::Clear,
                Op::Open => Operation::Bind,
            },
            FileCall::Sync => Operation::FileSync,
        }
    }

    /// Where in the file it begins, in bytes from the start.
    pub(crate) fn offset(&self, page_size: u32) -> u64
        ensures { result ≡ offset_of page_size self.now }
    {
        match self {
            FileCall::Access { op } => match op {
                Op::Read { page, off, .. } | Op::Write { page, off, .. } => {
                    place(page_size, *page, *off)
                }
                Op::Clear { page } => place(page_size, *page, 0),
                Op::Open => 0,
            },
            FileCall::Sync => 0,
        }
    }

    /// How many bytes of the file it is about.
    pub(crate) fn size(&self, page_size: u32) -> u32
        requires size { IsPageSize page_size }
        requires call { IsOnePage page_size self.now }
        ensures { result ≡ size_of page_size self.now }
    {
        match self {
            FileCall::Access { op } => match op {
                Op::Read { len, .. } => *len,
                Op::Write { bytes, .. } => bytes.as_slice().len() as u32,
                Op::Clear { .. } => page_size,
                Op::Open => 0,
            },
            FileCall::Sync => 0,
        }
    }

    /// The flags of its frame: data follow a write.
    pub(crate) fn flags(&self) -> u8
        ensures { result ≡ flags_of self.now }
    {
        match self.operation() {
            Operation::Write => TO_FILE + DATA,
            _ => TO_FILE,
        }
    }

    /// Lends the data that go with it.
    pub(crate) fn data(&self) -> &[u8]
        ensures { result.now ≡ data_of self.now }
    {
        match self {
            FileCall::Access {
                op: Op::Write { bytes, .. },
            } => bytes.as_slice(),
            _ => &[],
        }
    }
}

/// Where a byte of a page stands in the file.
fn place(page_size: u32, page: u32, off: u32) -> u64
    ensures { result ≡ place_of page_size page off }
{
    u64::from(page) * u64::from(page_size) + u64::from(off)
}
