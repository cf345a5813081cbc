//! Laws of every value.

ghost use Rattle.marshal_value.specs.Laws.{DeclaredWithin, OneSpelling, WrittenIsRead};

/// One spelling belongs to each value of a type, and none begins another.
pub fn one_spelling()
    ensures { OneSpelling }
{}

/// What was put is read again, whatever follows it.
pub fn written_is_read()
    ensures { WrittenIsRead }
{}

/// The names of a type that a set declares lie no deeper than the set has declarations, as
/// `written_is_read` asks.
pub fn declared_within()
    ensures { DeclaredWithin }
{}
