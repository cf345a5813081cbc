//! A script as values, and the answers to its lines.

use value_types::{Bytes, Items, Path, Text};

/// A script: who takes part, and what each does in each phase.
#[derive(Debug, Drop)]
pub struct Script {
    /// The clients, in the order of their lines; a client's number is its place here.
    pub clients: Items<ClientLine>,
    /// The call lines of each phase, in the order of the text.
    pub phases: Items<Items<CallLine>>,
}

/// A client and the machine that it runs on.
#[derive(Debug, Drop)]
pub struct ClientLine {
    /// The client's name.
    pub name: Text,
    /// The name of its machine.
    pub machine: Text,
}

/// One line of a phase.
#[derive(Debug, Drop)]
pub struct CallLine {
    /// The number of the line in the text, from 1.
    pub line: u32,
    /// The number of the client that makes the call.
    pub client: u32,
    /// What the client asks for.
    pub call: Call,
}

/// How an object is marshalled and invoked.
#[derive(Clone, Copy, Debug, PartialEq, Eq)]
pub enum Sub {
    /// A door.
    Singleton,
    /// One door per view and the file's number as a tag.
    Cluster,
    /// The server's door, and the local memory manager's cache.
    Caching,
    /// A door, and the path under which it is found again.
    Reconnectable,
}

/// What a line asks for. Pages, offsets and lengths are within one file: a page's number, and
/// bytes within the page.
#[derive(Debug, Drop)]
pub enum Call {
    /// Makes a name context.
    Context {
        /// Where it is bound.
        path: Path,
    },
    /// Binds an object for a view's file.
    Bind {
        /// Where it is bound.
        path: Path,
        /// The object's subcontract.
        sub: Sub,
        /// The name of the view that serves it.
        view: Text,
        /// The name of the file.
        file: Text,
    },
    /// Binds a replicon object: a file, with a door to it at each of some views.
    Replicate {
        /// Where it is bound.
        path: Path,
        /// The name of the file.
        file: Text,
        /// The names of the views to which its doors lead, from 1 to 8, in the order of the doors. A view may stand twice.
        views: Path,
    },
    /// Takes a name away, with all below it.
    Unbind {
        /// What is taken away.
        path: Path,
    },
    /// Lists the names of a context.
    List {
        /// The context, or none for the root.
        path: Option<Path>,
    },
    /// Resolves a path, and opens the object found there.
    Open {
        /// The name that the client gives the object.
        object: Text,
        /// Where the object is bound.
        path: Path,
    },
    /// Copies an open object.
    Copy {
        /// The object that is copied.
        object: Text,
        /// The name of the copy.
        other: Text,
    },
    /// Drops an open object.
    Drop {
        /// The object, by the client's own name for it.
        object: Text,
    },
    /// Reads bytes of one page.
    Read {
        /// The object, by the client's own name for it.
        object: Text,
        /// The page, counted from 0.
        page: u32,
        /// The first byte in the page.
        off: u32,
        /// How many bytes.
        len: u32,
    },
    /// Writes bytes into one page.
    Write {
        /// The object, by the client's own name for it.
        object: Text,
        /// The page, counted from 0.
        page: u32,
        /// The first byte in the page.
        off: u32,
        /// The bytes, in their order in the page.
        bytes: Bytes,
    },
    /// Makes a page zeros.
    Clear {
        /// The object, by the client's own name for it.
        object: Text,
        /// The page, counted from 0.
        page: u32,
    },
    /// Writes the file to its stores; the caches keep their right to write.
    Sync {
        /// The object, by the client's own name for it.
        object: Text,
    },
    /// Writes the file to its stores; the caches keep a right to read alone.
    Clean {
        /// The object, by the client's own name for it.
        object: Text,
    },
    /// Maps the file's first pages.
    Map {
        /// The name that the client gives the region.
        region: Text,
        /// The object, by the client's own name for it.
        object: Text,
        /// The address of the first byte.
        address: u64,
        /// How many pages.
        pages: u32,
        /// Whether the region may be written.
        write: bool,
    },
    /// Takes a region away.
    Unmap {
        /// The region's name.
        region: Text,
    },
    /// Reads bytes through a region.
    Load {
        /// The address of the first byte.
        address: u64,
        /// How many bytes.
        len: u32,
    },
    /// Writes bytes through a region.
    Store {
        /// The address of the first byte.
        address: u64,
        /// The bytes, in their order in the page.
        bytes: Bytes,
    },
    /// Ends a layer's caches of a file, and the lives of what was opened there.
    Revoke {
        /// The layer's name.
        layer: Text,
        /// The file's name.
        file: Text,
    },
    /// Ends a layer's use of its pager for a file.
    Release {
        /// The layer's name.
        layer: Text,
        /// The file's name.
        file: Text,
    },
}

/// The answer to a line.
#[derive(Debug, Drop)]
pub enum Reply {
    /// Done.
    Done,
    /// The names of a context.
    Names {
        /// The names, in the order of their insertion.
        names: Items<Text>,
    },
    /// Opened or mapped; the life of the node then.
    Life {
        /// The life of the node now.
        life: u32,
    },
    /// The bytes read.
    Bytes {
        /// The bytes, in their order in the page.
        bytes: Bytes,
    },
    /// No object of that name is open.
    NoObject,
    /// The path leads to something that is no object of a file.
    BadObject,
    /// An object of that name is open.
    ObjectExists,
    /// The range is not within one page of the file.
    NotOnePage,
    /// A part of the path is not bound.
    NotBound {
        /// The part of the path at which the call ended.
        part: Text,
    },
    /// The last part of the path is bound.
    AlreadyBound {
        /// The part of the path at which the call ended.
        part: Text,
    },
    /// A part of the path that has to be a context is no context.
    NotContext {
        /// The part of the path at which the call ended.
        part: Text,
    },
    /// The last part is a context and no object.
    NotObject {
        /// The part of the path at which the call ended.
        part: Text,
    },
    /// The object's life is over.
    Revoked {
        /// The life that its node has now.
        life: u32,
    },
    /// The client's machine has no memory manager for the view.
    NoManager,
    /// A region has that name.
    RegionExists,
    /// The address is no multiple of the page size.
    Unaligned,
    /// No pages, or more than the file has.
    TooLong,
    /// A region covers some of these addresses.
    Overlap,
    /// No region has that name.
    NoRegion,
    /// No region covers the address.
    Unmapped {
        /// The address.
        address: u64,
    },
    /// The range is not within one page.
    CrossesPage,
    /// The region may not be written.
    NotWritable,
    /// A disk's store failed.
    Store {
        /// The disk's number.
        disk: u32,
        /// The store's count of faults then.
        count: u64,
    },
    /// The link to another machine lost each try of the line's call. Whether the call was made is not known.
    Link {
        /// How many packets of the client were lost by then.
        count: u64,
    },
    /// The file's trail has all the events that it may have.
    TrailFull,
    /// Memory ran out.
    Memory,
}

/// A line of the script, and its answer.
#[derive(Debug, Drop)]
pub struct Said {
    /// The number of the line in the text, from 1.
    pub line: u32,
    /// The answer.
    pub reply: Reply,
}
