//! Where a grace period stands between two steps.
use sseq::{Index, Number};

/// Where the engine stands, and what it knows there. The number tells which of the two scans it is.
#[derive(Clone, Copy, Debug, PartialEq, Eq)]
pub(crate) enum Place {
    /// No grace period runs.
    Idle,
    /// None runs, and this number was found to be asked for: the next step starts one.
    Wanted(Number),
    /// In a scan, the unlock counter of this processor comes next. Those before it add up to `ended`.
    Unlocks {
        processor: u16,
        ended: u64,
    },
    /// In a scan, the lock counter of this processor comes next. Those before it add up to `begun`, and all unlock
    /// counters to `ended`.
    Locks {
        processor: u16,
        ended: u64,
        begun: u64,
    },
    /// The scan has passed.
    Passed,
    /// The index word was flipped, to this index, and the number does not say so yet.
    Flipped(Index),
}

impl Place {
    /// Before the first load of a scan.
    pub(crate) const SCAN: Place = Place::Unlocks {
        processor: 0,
        ended: 0,
    };
}
