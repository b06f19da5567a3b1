//! What a driver counts.
use domain::{AdvanceRefusal, Progress};

pub mod adding;

/// What a driver came to.
#[derive(Clone, Copy, Debug, PartialEq, Eq)]
pub struct Served {
    /// How many grace periods ended by a turn of its own.
    pub periods: u64,
    /// How many jobs it ran.
    pub jobs: u64,
}

/// What a round of a driver came to.
#[derive(Clone, Copy)]
pub struct Came {
    /// What the engine answered.
    pub answer: Result<Progress, AdvanceRefusal>,
    /// How many jobs were run.
    pub jobs: usize,
    /// In how many batches they came.
    pub batches: usize,
    /// Whether a list gave out nothing since its batch is out, or there was no memory.
    pub refused: bool,
}

/// What looks at lists came to.
#[derive(Clone, Copy)]
pub struct Looked {
    /// How many jobs were run.
    pub jobs: usize,
    /// In how many batches they came.
    pub batches: usize,
    /// Whether a list gave out nothing since its batch is out, or there was no memory.
    pub refused: bool,
}
