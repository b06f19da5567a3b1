//! What the engine's seat tells of its domain, without a step.
ghost use Rattle.std.specs.Prelude.{◌≡◌, ◌+◌, ◌*◌, ◌^◌, ◌<◌, ◌≤◌};
ghost use Rattle.sections.specs.Words.{number_word};
ghost use Rattle.sections.specs.EngineCalls.{IsSeenByEngine};

use super::EngineSeat;
use sseq::Number;
use std::alloc::Allocator;

impl<A: Allocator> EngineSeat<A> {
    /// How many processors the domain has: one at least.
    pub fn processors(&self) -> u16
        ensures count { result ≡ self.now.processors }
        ensures some { 1 ≤ result }
        ensures history { IsSeenByEngine self.now }
    {
        self.processors
    }

    /// How many grace periods there may ever be.
    pub fn periods(&self) -> u64
        ensures value { result ≡ self.now.periods }
        ensures small { result < 2 ^ 59 }
    {
        self.periods
    }

    /// The number of the domain, which this seat alone changes: at most four times as much as there may be periods, so
    /// that [`snap`](sseq::snap) may be asked of it.
    pub fn number(&self) -> Number
        ensures value { result ≡ number_word self.now.changes }
        ensures most { result ≤ 4 * self.now.periods }
        ensures small { result + 4 ≤ 2 ^ 61 }
    {
        self.number
    }
}
