//! An operation in a table.

use idl_reader::Word;

/// An operation that an interface has, and the interface that declares it.
#[derive(Clone, Copy, Debug)]
pub struct Entry<'a> {
    /// The operation's name.
    pub name: &'a Word,
    /// The name of the interface that declares it.
    pub declarer: &'a Word,
}
