//! The operations, looked for in the tables of a text.

ghost use Rattle.std.specs.Prelude.{◌≡◌, IfOk, IfErr};
ghost use Rattle.run_texts.specs.Order.{order};
ghost use Rattle.run_texts.specs.Found.{IsNumber, AreNumbers, HasNumbers, IsMissing, IsFirstMissing};

use crate::operation_names::called;
use idl_tables::TableSet;
use pager_channel::{Operation, Ops};

/// The operations of a pager, in the order of their numbers in [`Ops`].
const PAGER: [Operation; 5] = [
    Operation::PageIn,
    Operation::PageOut,
    Operation::WriteOut,
    Operation::Sync,
    Operation::Done,
];

/// The operations of a cache, in the order of their numbers in [`Ops`].
const CACHE: [Operation; 6] = [
    Operation::FlushBack,
    Operation::DenyWrites,
    Operation::WriteBack,
    Operation::DeleteRange,
    Operation::ZeroFill,
    Operation::Destroy,
];

/// The operations of a file, in the order of their numbers in [`Ops`].
const FILE: [Operation; 7] = [
    Operation::Bind,
    Operation::Read,
    Operation::Write,
    Operation::Clear,
    Operation::FileSync,
    Operation::GetLength,
    Operation::SetLength,
];

/// The number of an operation in the table of its interface. Fails if it is missing.
fn number_of(tables: &TableSet<'_>, which: Operation) -> Result<u16, Operation>
    ensures ok { IfOk result (IsNumber tables.now which) }
    ensures err { IfErr result (λ missing. (missing ≡ which) × IsMissing tables.now which) }
{
    let (interface, name) = called(which);
    tables.op_number(interface, name).ok_or(which)
}

/// The number of each operation, in order. Fails with the first that is missing.
fn numbers_of<const N: usize>(
    tables: &TableSet<'_>,
    operations: &[Operation; N],
) -> Result<[u16; N], Operation>
    ensures ok { IfOk result (AreNumbers tables.now operations.now) }
    ensures err { IfErr result (IsFirstMissing tables.now operations.now) }
{
    let mut numbers = [0; N];
    for (place, which) in operations.iter().enumerate() {
        numbers[place] = number_of(tables, *which)?;
    }
    Ok(numbers)
}

/// The number of each operation that the layers' messages have, in the table of its interface, where
/// also an inherited one is. Fails with the first that is missing, in this order: of `pager` page_in,
/// page_out, write_out, sync, done_with_pager_object; of `cache` flush_back, deny_writes, write_back,
/// delete_range, zero_fill, destroy_cache; of `file` bind, read, write, clear, sync, get_length,
/// set_length.
pub fn ops_of(tables: &TableSet<'_>) -> Result<Ops, Operation>
    ensures ok { IfOk result (HasNumbers tables.now) }
    ensures err { IfErr result (IsFirstMissing tables.now order) }
{
    let pager = numbers_of(tables, &PAGER)?;
    let cache = numbers_of(tables, &CACHE)?;
    let file = numbers_of(tables, &FILE)?;
    // Only for the proof: the declarations fit together, so the numbers differ.
    let _idl = tables.idl();
    Ok(Ops::new(pager, cache, file))
}
