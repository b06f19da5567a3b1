//! How a run ends.
use thiserror::Error;

/// Why a run ended before its input was at an end, or before all of its replies were written.
#[derive(Clone, Copy, Debug, PartialEq, Eq, Error)]
pub enum RunError {
    /// The reader failed. The replies of all whole lines before are written, and what stands behind the last
    /// line feed is not run.
    #[error("reading failed")]
    Read = 1,
    /// The writer failed, or took no byte. The replies of some first lines are written, and of the next one's
    /// not all.
    #[error("writing failed")]
    Write = 2,
    /// There was no memory for a line. The replies of the lines before it are written, and no part of its own.
    #[error("out of memory")]
    Memory = 3,
}

/// How a run ended that read all of its input and wrote all of its replies.
#[derive(Clone, Copy, Debug, PartialEq, Eq)]
pub struct Outcome {
    /// Whether a line was faulty.
    pub faulty: bool,
}
