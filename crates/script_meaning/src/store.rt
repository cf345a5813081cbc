//! The stores of a stack: one for each file on each disk.

/// Which store of a stack.
#[derive(Clone, Copy, Debug, PartialEq, Eq)]
pub struct StoreKey {
    /// The number of the file.
    pub file: u32,
    /// The number of the disk.
    pub disk: u32,
}
