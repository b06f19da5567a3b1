//! What can lie in the sixteen words of a version.

/// A value that is kept in the sixteen words of a version. Contracts know it by its words.
pub trait Versioned {
    ghost use Rattle.std.specs.Prelude.{ℕ, List, ◌≡◌};

    /// Which values come back as they were: just these may be put.
    ghost fits: { Self → Type 0 };

    /// The sixteen words of a value.
    ghost text: { Self → List ℕ };

    /// What sixteen words are read as, also where no value has them.
    ghost value: { List ℕ → Self };

    /// The words of the value.
    fn encode(&self) -> [u64; 16]
        ensures { result ≡ text self.now };

    /// The value that has these words. The words of version 0 are zeros: so long as nothing was put, they are read.
    fn decode(words: &[u64; 16]) -> Self
        ensures { result ≡ value words.now };

    /// A value is read from its words as it was.
    ghost round_trip: { (x : Self) → fits x → value (text x) ≡ x };
}
