//! Why a call was refused.
use std::alloc::AllocError;
use thiserror::Error;

/// There was not enough memory.
pub type Memory = AllocError;

/// Why a job was not queued. It comes back, and the processor's counts are as before.
#[derive(Clone, Copy, Debug, Error, PartialEq, Eq)]
pub enum CallRefusal {
    /// As many calls were queued on this processor as may ever be, 2^54. No step was made.
    #[error("no more jobs may be queued on this processor: queue on another one")]
    Exhausted = 1,
    /// An allocation was refused. A cookie was noted, which nobody has.
    #[error("out of memory: free some, and call again")]
    Memory = 2,
}

/// Why nothing was taken. The seat that was lent has made a load.
#[derive(Clone, Copy, Debug, Error, PartialEq, Eq)]
pub enum TakeRefusal {
    /// A batch of this processor is out. Nothing else has changed.
    #[error("a batch of this processor is out: finish it, and call again")]
    Invoking = 1,
    /// There was no memory for a call that had come in. It and those behind it have still to be moved to the list; nothing
    /// is lost.
    #[error("out of memory: free some, and call again")]
    Memory = 2,
}
