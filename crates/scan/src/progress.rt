//! What a call of the engine answers.
use sseq::{Index, Number};
use thiserror::Error;

/// How far the engine is to go in one turn.
#[derive(Clone, Copy, Debug, PartialEq, Eq)]
pub enum Pace {
    /// One atomic step.
    Step,
    /// To the next answer, which is never `Progress::Step`: one part of `srcu_advance_state`.
    Answer,
    /// From answer to answer, until it has ended a period, waits for a section, or has nothing to do, as one `process_srcu`
    /// does: a whole period, where nobody reads and no scan was half done.
    Period,
}

/// How far the engine has come.
#[derive(Clone, Copy, Debug, PartialEq, Eq)]
pub enum Progress {
    /// No grace period runs, and none is asked for.
    Idle,
    /// A grace period started, and this is the number from then on.
    Started(Number),
    /// The first scan had passed, and the current index was flipped to this one. The second scan may begin.
    Flipped(Index),
    /// The second scan had passed, and the grace period ended. This is the number from then on.
    Ended(Number),
    /// A scan of this index did not pass. The next step begins it anew.
    Waiting(Index),
    /// One step was made, and there is more to do before there is another answer.
    Step,
}

/// A grace period is asked for, but as many have ended as `Limits.periods` allows. Only the need was loaded.
#[derive(Clone, Copy, Debug, Error, PartialEq, Eq)]
#[error("no more grace periods may start: make a new domain")]
pub struct PeriodsExhausted;

/// Why the engine started no grace period. Nothing was done.
#[derive(Clone, Copy, Debug, Error, PartialEq, Eq)]
pub enum NotStarted {
    /// A grace period runs.
    #[error("a grace period runs: drive it to its end before")]
    Running = 1,
    /// As many have ended as `Limits.periods` allows.
    #[error("no more grace periods may start: make a new domain")]
    Exhausted = 2,
}
