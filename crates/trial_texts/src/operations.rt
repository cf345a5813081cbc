//! The operations that the layers' messages have.

use idl_tables::TableSet;
use pager_channel::Operation;
use run_texts::{operation_name, ops_of};
use std::alloc::AllocError;
use trial_words::say;

/// Each operation.
const OPERATIONS: [Operation; 18] = [
    Operation::PageIn,
    Operation::PageOut,
    Operation::WriteOut,
    Operation::Sync,
    Operation::Done,
    Operation::FlushBack,
    Operation::DenyWrites,
    Operation::WriteBack,
    Operation::DeleteRange,
    Operation::ZeroFill,
    Operation::Destroy,
    Operation::Bind,
    Operation::Read,
    Operation::Write,
    Operation::Clear,
    Operation::FileSync,
    Operation::GetLength,
    Operation::SetLength,
];

/// Tells each operation's name and number, or the first operation that is missing.
pub fn operations(set: &TableSet<'_>, answer: &mut String) -> Result<(), AllocError> {
    let ops = match ops_of(set) {
        Ok(ops) => ops,
        Err(which) => {
            let name = operation_name(which);
            return writeln!(answer, "missing {name}");
        }
    };
    for which in OPERATIONS {
        let (name, number) = (operation_name(which), ops.number(which));
        writeln!(answer, "{which:?} {name} {number}")?;
    }
    say(answer, "each has a number")
}
