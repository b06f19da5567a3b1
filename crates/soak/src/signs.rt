//! What the threads tell each other beside the domain.
use std::sync::atomic::Ordering::SeqCst;
use std::sync::atomic::{AtomicBool, AtomicU64};

/// How many threads read, queue and wait. Each has a processor. Two more threads have the last ones: one drives, and one
/// puts versions.
pub const WORKERS: usize = 7;

/// For how many versions the ages are kept: more than there are slots, so none is forgotten while somebody reads it.
pub const AGES: usize = 16;

/// Words that all threads share.
#[derive(Default, Drop)]
pub struct Signs {
    /// How many workers have come.
    here: AtomicU64,
    /// Whether one of them has waited in vain for the others.
    alone: AtomicBool,
    /// How many jobs of each worker's processor were run.
    run: [AtomicU64; WORKERS],
    /// 1 from when the workers are to come to an end.
    ending: AtomicU64,
    /// How old the last versions are, each at its number modulo [`AGES`]: 0 until it is replaced, 1 from then on, and 2 behind
    /// the next grace period.
    ages: [AtomicU64; AGES],
}

impl Signs {
    /// One more worker has come.
    pub fn come(&self) {
        self.here.fetch_add(1, SeqCst);
    }

    /// Whether all workers have come.
    pub fn are_all_here(&self) -> bool {
        self.here.load(SeqCst) == WORKERS as u64
    }

    /// Tells that a worker has waited in vain for the others.
    pub fn set_alone(&self) {
        self.alone.store(true, SeqCst);
    }

    /// Whether a worker has waited in vain for the others.
    pub fn is_alone(&self) -> bool {
        self.alone.load(SeqCst)
    }

    /// Has the workers come to an end.
    pub fn end(&self) {
        self.ending.store(1, SeqCst);
    }

    /// Whether the workers are to come to an end.
    pub fn is_ending(&self) -> bool {
        self.ending.load(SeqCst) != 0
    }

    /// So many jobs of this processor were run.
    pub fn set_run(&self, processor: u16, run: u64) {
        self.run[processor as usize % WORKERS].store(run, SeqCst);
    }

    /// How many jobs of this processor were run.
    pub fn run_of(&self, processor: u16) -> u64 {
        self.run[processor as usize % WORKERS].load(SeqCst)
    }

    /// A version is so old now.
    pub fn set_age(&self, version: u64, age: u64) {
        self.ages[version as usize % AGES].store(age, SeqCst);
    }

    /// How old a version is.
    pub fn age_of(&self, version: u64) -> u64 {
        self.ages[version as usize % AGES].load(SeqCst)
    }
}
