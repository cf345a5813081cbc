//! The names of the operations.

ghost use Rattle.std.specs.Prelude.{◌≡◌};
ghost use Rattle.spr_report.specs.OperationNames.{operation_name};

use pager_channel::Operation;

/// The name of an operation, as an interface text declares it.
pub fn operation_name(which: Operation) -> &'static str
    ensures { result.now ≡ operation_name which }
{
    match which {
        Operation::PageIn => "page_in",
        Operation::PageOut => "page_out",
        Operation::WriteOut => "write_out",
        Operation::Sync | Operation::FileSync => "sync",
        Operation::Done => "done_with_pager_object",
        Operation::FlushBack => "flush_back",
        Operation::DenyWrites => "deny_writes",
        Operation::WriteBack => "write_back",
        Operation::DeleteRange => "delete_range",
        Operation::ZeroFill => "zero_fill",
        Operation::Destroy => "destroy_cache",
        Operation::Bind => "bind",
        Operation::Read => "read",
        Operation::Write => "write",
        Operation::Clear => "clear",
        Operation::GetLength => "get_length",
        Operation::SetLength => "set_length",
    }
}
