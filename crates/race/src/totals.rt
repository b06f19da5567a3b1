//! What a race came to.
use domain::Totals;

/// What the workers of a race counted themselves, and what their domain told in the end.
#[derive(Clone, Copy, Debug, PartialEq, Eq)]
pub struct RaceTotals {
    /// How many leases were made.
    pub opened: u64,
    /// How many leases were released.
    pub closed: u64,
    /// How many callbacks were queued.
    pub queued: u64,
    /// How many callbacks were run, and their batches finished.
    pub finished: u64,
    /// How many versions of the table were installed.
    pub versions: u64,
    /// What the domain told when it was taken down; `None` where it was in use.
    pub domain: Option<Totals>,
}
