//! What the interfaces call the operations.

ghost use Rattle.std.specs.Prelude.{◌≡◌};
ghost use Rattle.run_texts.specs.OperationNames.{Called, called, full_name};

use pager_channel::Operation;

/// The interface that has an operation, and the operation's name there.
pub(crate) fn called(which: Operation) -> (&'static str, &'static str)
    ensures interface { result.0.now ≡ (called which).interface }
    ensures name { result.1.now ≡ (called which).name }
{
    match which {
        Operation::PageIn => ("pager", "page_in"),
        Operation::PageOut => ("pager", "page_out"),
        Operation::WriteOut => ("pager", "write_out"),
        Operation::Sync => ("pager", "sync"),
        Operation::Done => ("pager", "done_with_pager_object"),
        Operation::FlushBack => ("cache", "flush_back"),
        Operation::DenyWrites => ("cache", "deny_writes"),
        Operation::WriteBack => ("cache", "write_back"),
        Operation::DeleteRange => ("cache", "delete_range"),
        Operation::ZeroFill => ("cache", "zero_fill"),
        Operation::Destroy => ("cache", "destroy_cache"),
        Operation::Bind => ("file", "bind"),
        Operation::Read => ("file", "read"),
        Operation::Write => ("file", "write"),
        Operation::Clear => ("file", "clear"),
        Operation::FileSync => ("file", "sync"),
        Operation::GetLength => ("file", "get_length"),
        Operation::SetLength => ("file", "set_length"),
    }
}

/// The interface that has an operation, and the operation's name there, with a dot between them.
pub fn operation_name(which: Operation) -> &'static str
    ensures { result.now ≡ full_name which }
{
    match which {
        Operation::PageIn => "pager.page_in",
        Operation::PageOut => "pager.page_out",
        Operation::WriteOut => "pager.write_out",
        Operation::Sync => "pager.sync",
        Operation::Done => "pager.done_with_pager_object",
        Operation::FlushBack => "cache.flush_back",
        Operation::DenyWrites => "cache.deny_writes",
        Operation::WriteBack => "cache.write_back",
        Operation::DeleteRange => "cache.delete_range",
        Operation::ZeroFill => "cache.zero_fill",
        Operation::Destroy => "cache.destroy_cache",
        Operation::Bind => "file.bind",
        Operation::Read => "file.read",
        Operation::Write => "file.write",
        Operation::Clear => "file.clear",
        Operation::FileSync => "file.sync",
        Operation::GetLength => "file.get_length",
        Operation::SetLength => "file.set_length",
    }
}
