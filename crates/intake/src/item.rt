//! What may stand in a line.
ghost use Rattle.std.specs.Prelude.{List};

/// A value that may be pushed into a line that has such a key. What it then has to be, the type says: in contracts alone.
pub trait Item<K> {
    /// Of the line's key, of all that was ever pushed before, and of the new value.
    ghost follows: { K → List Self → Self → Type 0 };
}
