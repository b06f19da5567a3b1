//! What is told of a job that was queued.

/// A job was queued.
#[derive(Clone, Copy, Debug, PartialEq, Eq)]
pub struct Queued {
    /// Its number among all jobs that were ever queued on its processor, from 0.
    pub k: u64,
    /// The number of its cookie, at most 2^61. The job is ready once this cookie is done.
    pub cookie: u64,
}
