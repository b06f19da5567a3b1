//! Counters of sections as loads found them, and the processors on which they differ.
ghost use Rattle.std.specs.Prelude.{◌≡◌};
ghost use Rattle.glance.specs.Glances.{pair_at};

use std::alloc::{Allocator, Global};
use std::fmt;

/// The two counters of one index on one processor, as two loads found them.
#[derive(Clone, Copy, Debug, PartialEq, Eq)]
pub struct Pair {
    /// How many sections of the index were begun on the processor.
    pub locks: u64,
    /// How many have ended there, wherever they were begun.
    pub unlocks: u64,
}

/// The locks less the unlocks: `+3`, `0`, or `-3` where more sections ended than were begun, held ones from elsewhere.
impl fmt::Display for Pair {
    fn fmt<W: fmt::Write>(&self, f: &mut fmt::Formatter<W>) -> fmt::Result {
        if self.locks > self.unlocks {
            write!(f, "+{}", self.locks - self.unlocks)
        } else if self.locks < self.unlocks {
            write!(f, "-{}", self.unlocks - self.locks)
        } else {
            f.write_str("0")
        }
    }
}

/// The four counters of a processor.
#[derive(Clone, Copy, Debug, PartialEq, Eq)]
pub struct Counts {
    /// Those of index 0.
    pub zero: Pair,
    /// Those of index 1.
    pub one: Pair,
}

/// The index 0 counters and those of index 1: `-3 +3`.
impl fmt::Display for Counts {
    fn fmt<W: fmt::Write>(&self, f: &mut fmt::Formatter<W>) -> fmt::Result {
        write!(f, "{} {}", self.zero, self.one)
    }
}

/// The counters of one index on all processors, in the order of the processors.
#[derive(Drop)]
pub struct Counters<A: Allocator = Global> {
    /// How many sections of the index have ended on each, wherever they were begun.
    pub unlocks: Vec<u64, A>,
    /// How many sections of the index were begun on each.
    pub locks: Vec<u64, A>,
    /// The sum of the unlocks, at most 2^60.
    pub ended: u64,
    /// The sum of the locks, at most 2^60, and no less than that of the unlocks.
    pub begun: u64,
}

impl<A: Allocator> Counters<A> {
    /// The two counters of a processor. None where the domain has no such processor.
    pub fn pair(&self, processor: u16) -> Option<Pair>
        ensures { result ≡ pair_at self.now processor }
    {
        self.columns().pair(processor)
    }

    /// The two sums.
    pub fn sums(&self) -> Pair
        ensures locks { result.locks ≡ self.now.begun }
        ensures unlocks { result.unlocks ≡ self.now.ended }
    {
        self.columns().sums()
    }
}

/// A processor whose counters of an index differ.
#[derive(Clone, Copy, Debug, PartialEq, Eq)]
pub struct Holder {
    /// Its number, from 0.
    pub processor: u16,
    /// What was found there.
    pub pair: Pair,
}

/// `processor 2: +1`.
impl fmt::Display for Holder {
    fn fmt<W: fmt::Write>(&self, f: &mut fmt::Formatter<W>) -> fmt::Result {
        write!(f, "processor {}: {}", self.processor, self.pair)
    }
}
