//! A limit of time.
use std::time::{Clock, Duration, Instant};
use thiserror::Error;

/// The time was over. Nothing was given up: what was waited for may be polled on.
#[derive(Clone, Copy, Debug, Error, PartialEq, Eq)]
#[error("the time is over: find who holds it up, and wait again")]
pub struct TimedOut;

/// Until when a call may wait. No contract speaks of the clock.
#[derive(Clone, Copy)]
pub(crate) struct Limit {
    /// None where the clock could not be read: then the time is over at once.
    start: Option<Instant>,
    length: Duration,
}

impl Limit {
    /// So long from now on.
    pub(crate) fn new<R: Clock>(rt: &R, length: Duration) -> Limit {
        Limit {
            start: Instant::now(rt).ok(),
            length,
        }
    }

    /// Whether the time is over, also where the clock can't be read.
    pub(crate) fn is_over<R: Clock>(&self, rt: &R) -> bool {
        let Some(start) = self.start else {
            return true;
        };
        match start.elapsed(rt) {
            Ok(elapsed) => elapsed >= self.length,
            Err(_) => true,
        }
    }
}
