//! What a run came to.
ghost use Rattle.std.specs.Prelude.{◌≡◌, IsTrue};
ghost use Rattle.std.specs.Process.{exit_status};
ghost use Rattle.soak.specs.Outcomes.{IsExact};

use crate::counts::Counts;
use crate::signs::WORKERS;
use domain::{InUse, Totals};
use std::fmt;
use std::process::ExitCode;

/// The status of a run that came out as it should.
const RIGHT: u8 = 0;

/// The status of one that did not.
const WRONG: u8 = 1;

/// What the threads counted, and what the domain told when it was taken down.
#[derive(Clone, Copy, Debug)]
pub struct Outcome {
    /// The sum over all threads.
    pub counts: Counts,
    /// The domain's own totals; or why it could not be taken down.
    pub totals: Result<Totals, InUse>,
}

impl Outcome {
    /// Whether the threads counted just what the domain tells, all workers were at it at once, all that was opened was
    /// closed, all that was queued was run, and nothing went wrong.
    pub fn is_exact(&self) -> bool
        ensures { IsTrue result → IsExact self.now }
    {
        let Ok(totals) = self.totals else {
            return false;
        };
        let counts = self.counts;
        counts.met == WORKERS as u64
            && totals.opened == counts.opened
            && totals.closed == counts.closed
            && totals.queued == u128::from(counts.queued)
            && totals.finished == u128::from(counts.run)
            && counts.opened == counts.closed
            && counts.queued == counts.run
            && counts.left == 0
            && counts.refused == 0
            && counts.misplaced == 0
            && counts.early == 0
            && counts.stale == 0
            && counts.torn == 0
            && counts.lost == 0
            && counts.devices == counts.back
            && counts.used == counts.counted
    }

    /// The status that the program ends with.
    pub fn status(&self) -> ExitCode
        ensures { exit_status result ≡ 0 → IsExact self.now }
    {
        ExitCode::from(if self.is_exact() { RIGHT } else { WRONG })
    }
}

impl fmt::Display for Outcome {
    fn fmt<W: fmt::Write>(&self, f: &mut fmt::Formatter<W>) -> fmt::Result {
        writeln!(f, "{}", self.counts)?;
        match self.totals {
            Err(cause) => write!(f, "totals: none, the domain is in use: {cause:?}"),
            Ok(_) if self.is_exact() => write!(f, "totals: exact"),
            Ok(totals) => write!(f, "totals: others, {totals:?}"),
        }
    }
}
