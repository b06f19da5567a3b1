//! Adding up what rounds came to.
ghost use Rattle.std.specs.Prelude.{◌≡◌, ℕ, ◌+◌, ◌↔◌, true, false, Ok, Err};
ghost use Rattle.scan.specs.declared.progress.Progress.TheVariants as progress;
ghost use Rattle.scan.specs.declared.refusals.AdvanceRefusal.TheVariants as advance;
ghost use Rattle.driver.specs.Counts.{IsCount, periods_in, rests};

use super::{Came, Served};
use domain::{AdvanceRefusal, Progress};

/// How many grace periods ended by a round.
fn ended(answer: Result<Progress, AdvanceRefusal>) -> u64
    ensures { result ≡ periods_in answer }
{
    match answer {
        Ok(Progress::Ended(_)) => 1,
        _ => 0,
    }
}

impl Served {
    /// Nothing yet.
    pub fn nothing() -> Served
        ensures periods { result.periods ≡ 0 }
        ensures jobs { result.jobs ≡ 0 }
    {
        Served {
            periods: 0,
            jobs: 0,
        }
    }

    /// This, and what one more round came to.
    pub fn and(self, came: &Came) -> Served
        ensures periods { (n : ℕ) → IsCount self.periods n → IsCount result.periods (n + periods_in came.now.answer) }
        ensures jobs { (n : ℕ) → IsCount self.jobs n → IsCount result.jobs (n + came.now.jobs) }
    {
        let Came { answer, jobs, .. } = *came;
        Served {
            periods: self.periods.saturating_add(ended(answer)),
            jobs: self.jobs.saturating_add(jobs as u64),
        }
    }
}

impl Came {
    /// Whether the round was in vain: a grace period is asked for that may not start, and no job was run.
    pub fn is_end(&self) -> bool
        ensures { result ≡ true ↔ (self.now.jobs ≡ 0) × (self.now.answer ≡ Err advance.Exhausted) }
    {
        self.jobs == 0 && self.answer == Err(AdvanceRefusal::Exhausted)
    }

    /// Whether there was nothing to do: no job was ready, and the engine rests, waits for a section or works elsewhere.
    pub fn is_rest(&self) -> bool
        ensures { result ≡ true ↔ (self.now.jobs ≡ 0) × (rests self.now.answer ≡ true) }
    {
        self.jobs == 0
            && matches!(
                self.answer,
                Ok(Progress::Idle | Progress::Waiting(_)) | Err(_)
            )
    }

    /// Whether nothing is asked for, and no job waits: the engine rests, and each list told that nothing was ready.
    pub fn is_idle(&self) -> bool
        ensures { result ≡ true ↔ (self.now.jobs ≡ 0) × (self.now.refused ≡ false) × (self.now.answer ≡ Ok progress.Idle) }
    {
        self.jobs == 0 && !self.refused && matches!(self.answer, Ok(Progress::Idle))
    }
}
