//! What contracts see of a book's value.
ghost use Rattle.std.specs.Prelude.{ℕ, List};

/// A value that carries its own history. Contracts see the list of its entries, and beside it a
/// fixed part, plain data that no turn changes, which says who owns an entry.
pub trait Entries {
    type Entry;

    type Fixed;

    /// The entries, the oldest first.
    ghost entries: { Self → List Self.Entry };

    ghost fixed: { Self → Self.Fixed };

    /// The number of the seat that owns the entry.
    ghost owner: { Self.Fixed → Self.Entry → ℕ };
}
