//! What holds of the lines of every history.

ghost use Rattle.std.specs.Prelude.{◌≡◌, ℕ, Some, slice_get};
ghost use Rattle.name_context.specs.declared.entry.NameEntry.{NameEntry};
ghost use Rattle.spr_report.specs.NamesLaws.{NamesPart};

use name_context::Names;

/// Each refusal of a history names a part that its path has, and none is for want of memory: so the part's text is never empty for
/// want of a part. It does no work.
pub fn refusals_name_parts(names: &Names)
    ensures { (place : ℕ) (entry : NameEntry) → slice_get names.now.history place ≡ Some entry → NamesPart entry.path entry.refused }
{
    names.sound();
}
