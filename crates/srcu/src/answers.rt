//! Answers with names.
ghost use Rattle.std.specs.Prelude.{◌≡◌, ◌∷◌, [], length, slice_index};
ghost use Rattle.srcu.specs.Answers.{pair_of};

use shelf::NoSlot;
use thiserror::Error;

/// How many jobs of a processor wait for what. What a batch has out isn't counted.
#[derive(Clone, Copy, Debug, PartialEq, Eq)]
pub struct Lens {
    /// These are ready to be taken.
    pub done: usize,
    /// These wait for the number `first`.
    pub wait: usize,
    /// These wait for the number `second`.
    pub next_ready: usize,
    /// These have no number yet.
    pub next: usize,
    /// 0 where none waits for it.
    pub first: u64,
    pub second: u64,
}

impl Lens {
    pub(crate) fn new(counts: [usize; 4], numbers: [u64; 2]) -> Lens
        ensures { pair_of result ≡ (counts, numbers) }
    {
        let [done, wait, next_ready, next] = counts;
        let [first, second] = numbers;
        Lens {
            done,
            wait,
            next_ready,
            next,
            first,
            second,
        }
    }
}

/// What the handlers of a chain gave.
#[derive(Clone, Copy, Debug, PartialEq, Eq)]
pub struct Called {
    /// The last result: [`DONE`](crate::DONE) where no handler was called.
    pub last: u32,
    /// How many handlers were called.
    pub handlers: u64,
}

/// The ids of a chain's handlers in the order in which they are called, with 0 in the places after them.
#[derive(Clone, Copy, Debug, PartialEq, Eq)]
pub struct Ids {
    pub ids: [u64; 15],
    pub count: usize,
}

/// Why [`Worker::replace_box`](crate::Worker::replace_box) put nothing.
#[derive(Clone, Copy, Debug, Error, PartialEq, Eq)]
pub enum BoxRefusal {
    /// There was no memory for the box. No step was made.
    #[error("out of memory: free some, and call again")]
    Memory,
    /// No slot is free: each holds the current version, or one that a section may still read. Or the cell has had 2^54
    /// versions.
    #[error("{}", NoSlot)]
    NoSlot,
}
