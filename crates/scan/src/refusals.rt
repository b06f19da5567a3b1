//! Why the engine was not driven on, or started no grace period.
use crate::progress::{NotStarted, PeriodsExhausted};
use thiserror::Error;

/// Another call has the engine. Nothing was done but the one swap that found its place empty.
#[derive(Clone, Copy, Debug, Error, PartialEq, Eq)]
#[error("another call has the engine: call again")]
pub struct Busy;

/// Why the engine has no answer to a step, or to steps in a row.
#[derive(Clone, Copy, Debug, Error, PartialEq, Eq)]
pub enum AdvanceRefusal {
    /// Another call has the engine. Nothing was done but the one swap that found its place empty.
    #[error("another call has the engine: call again")]
    Busy = 1,
    /// A grace period is asked for, but as many have ended as `Limits.periods` allows. Of the engine just the need was
    /// loaded.
    #[error("no more grace periods may start: make a new domain")]
    Exhausted = 2,
}

impl From<PeriodsExhausted> for AdvanceRefusal {
    ghost use Rattle.std.specs.Prelude.{◌≡◌};
    ghost use Rattle.scan.specs.declared.refusals.AdvanceRefusal.TheVariants.{Exhausted};

    ghost from_gives = { λ _ refusal. refusal ≡ Exhausted };

    fn from(_refusal: PeriodsExhausted) -> AdvanceRefusal {
        AdvanceRefusal::Exhausted
    }
}

/// Why no grace period was started from the engine's place.
#[derive(Clone, Copy, Debug, Error, PartialEq, Eq)]
pub enum StartRefusal {
    /// Another call has the engine. Nothing was done but the one swap that found its place empty.
    #[error("another call has the engine: call again")]
    Busy = 1,
    /// A grace period runs.
    #[error("a grace period runs: drive it to its end before")]
    Running = 2,
    /// As many have ended as `Limits.periods` allows.
    #[error("no more grace periods may start: make a new domain")]
    Exhausted = 3,
}

impl From<NotStarted> for StartRefusal {
    ghost use Rattle.std.specs.Prelude.{◌≡◌};
    ghost use Rattle.scan.specs.Refusals.{refusal_of};

    ghost from_gives = { λ why refusal. refusal ≡ refusal_of why };

    /// Why the engine started none.
    fn from(refusal: NotStarted) -> StartRefusal {
        match refusal {
            NotStarted::Running => StartRefusal::Running,
            NotStarted::Exhausted => StartRefusal::Exhausted,
        }
    }
}
