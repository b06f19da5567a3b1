//! The need of a domain.
ghost use Rattle.std.specs.Prelude.{ℕ};

use crate::number::Number;

/// Where the engine learns which grace period is asked for.
pub trait Needs {
    /// What one load of the need does: what was there before, the number that is found, and what is there then.
    ghost loads: { Self → ℕ → Self → Type 0 };

    /// Loads the need once: the greatest number that is asked for, 0 if there is none.
    fn root_need(&mut self) -> Number
        ensures { loads self.old result self.new };
}
