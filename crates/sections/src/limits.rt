//! How much a domain may hold.
ghost use Rattle.std.specs.Prelude.{◌≡◌, ◌↔◌, IsTrue};
ghost use Rattle.sections.specs.Limits.{AreInRange, least_limits};

use thiserror::Error;

/// How many processors a domain may have, at most. With [`Limits::MOST_SECTIONS`] on each of them no more than 2^60
/// sections of one index are ever begun, and no more of them end.
pub const MOST_PROCESSORS: usize = 256;

/// The limits of a domain. Each is checked when the domain is made.
#[derive(Clone, Copy, Debug, PartialEq, Eq)]
pub struct Limits {
    /// How many sections of one index a processor may ever begin: 1 to 2^52.
    pub sections: u64,
    /// How many grace periods there may ever be: 1 to 2^59 - 1.
    pub periods: u64,
    /// How many cells of versions the domain has: 0 to 4.
    pub cells: u64,
    /// How many slots each cell has: 2 to 8.
    pub slots: u64,
}

impl Limits {
    /// The most sections of one index that a processor may ever begin, 2^52.
    pub const MOST_SECTIONS: u64 = 4_503_599_627_370_496;
    /// The most grace periods of a domain, 2^59 - 1.
    pub const MOST_PERIODS: u64 = 576_460_752_303_423_487;

    /// Whether each of the limits is in its range.
    pub const fn are_in_range(&self) -> bool
        ensures { IsTrue result ↔ AreInRange self.now }
    {
        1 <= self.sections
            && self.sections <= Limits::MOST_SECTIONS
            && 1 <= self.periods
            && self.periods <= Limits::MOST_PERIODS
            && self.cells <= 4
            && 2 <= self.slots
            && self.slots <= 8
    }
}

impl Default for Limits {
    /// The limits of the smallest domain: no cells, and as many sections and grace periods as a domain may have, which take no
    /// memory.
    fn default() -> Limits
        ensures limits { result ≡ least_limits }
        ensures range { AreInRange result }
    {
        Limits {
            sections: Limits::MOST_SECTIONS,
            periods: Limits::MOST_PERIODS,
            cells: 0,
            slots: 2,
        }
    }
}

/// Why a domain was not made. Nothing is left of it.
#[derive(Clone, Copy, Debug, Error, PartialEq, Eq)]
pub enum MakeError {
    /// A domain has from 1 to `MOST_PROCESSORS` processors.
    #[error("a domain has from 1 to 256 processors: ask for so many")]
    Processors = 1,
    /// One of the limits is out of its range.
    #[error("a limit is out of its range: begin with `Limits::default()`")]
    Limits = 2,
    /// An allocation was refused.
    #[error("out of memory: free some, and call again")]
    Memory = 3,
}
