//! What the workers of a race have in common.
ghost use Rattle.std.specs.Prelude.{◌≡◌, ◌%◌};

use crate::line::StartLine;
use desk::Desk;
use domain::Domain;
use plugs::{Lease, TableView};

/// How many keys there are, which is as many as a table has rows. Each round has the next one.
const KEYS: u64 = 15;

/// What all workers share.
pub struct Course {
    pub domain: Domain<()>,
    /// Where readers hand over their leases.
    pub desk: Desk<Lease>,
    pub view: TableView,
    /// How many rounds each worker makes.
    pub rounds: u64,
    /// Where readers stand until the last one does.
    pub line: StartLine,
}

/// The key of a round.
pub fn key_of(round: u64) -> u32
    ensures { result ≡ round % 15 }
{
    (round % KEYS) as u32
}
