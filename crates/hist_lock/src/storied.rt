//! What a value under the lock means.

ghost use Rattle.std.specs.Prelude.{◌≡◌, ℕ, List, length, Option};

/// A value that keeps a list of entries, of which a caller may have made each.
pub trait Storied {
    /// An entry of the list.
    type Entry;

    /// What no call changes of a value.
    type Fixed;

    /// The value's list, oldest entry first.
    ghost entries: { Self → List Self.Entry };

    /// The number of the caller who made an entry, or none.
    ghost caller: { Self.Entry → Option ℕ };

    /// The value's fixed part. The lock gives back values of the part that it was made with.
    ghost fixed: { Self → Self.Fixed };

    /// How many entries the list has.
    fn len(&self) -> u64
        ensures { result ≡ length (entries self.now) };
}
