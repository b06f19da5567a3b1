//! What the threads share.
use srcu::{Boxes, HeldBox, Live, Mailbox, Refusal, Stop};
use std::alloc::{AllocError, Global};
use std::sync::atomic::AtomicU64;
use std::sync::atomic::Ordering::SeqCst;

/// What comes of a call.
pub type Try<T> = Result<T, Refusal>;

/// A job is the number of a configuration that was replaced.
pub type Worker<'a> = srcu::Worker<'a, u64>;

pub type Team<'a> = srcu::Team<'a, u64>;

/// The limits that are in force.
#[derive(Drop)]
pub struct Config {
    pub number: u64,
    /// One request of so many passes.
    pub every: u64,
    /// The requests of these clients always pass.
    pub friends: Vec<u64>,
}

impl Config {
    /// The configuration of this number.
    pub fn new(alloc: Global, number: u64) -> Result<Config, AllocError> {
        Ok(Config {
            number,
            every: 2 + number % 5,
            friends: vec![in alloc; number; 3]?,
        })
    }

    /// Whether the request of this number passes.
    pub fn lets(&self, request: u64) -> bool {
        self.friends.contains(&(request % 100)) || request.is_multiple_of(self.every)
    }
}

/// What a thread reads the configuration with.
pub type Reader = Boxes<Config>;

/// An open section with the configuration that it found.
pub type Pin = HeldBox<Config>;

/// The sign that ends the driver, the configuration, the section that a limiter has left, and what the threads count.
pub struct Shared {
    pub stop: Stop<u64>,
    pub config: Live<Config>,
    pub pins: Mailbox<Pin, Reader>,
    pub counts: Counts,
}

/// What the threads count.
#[derive(Default, Drop)]
pub struct Counts {
    /// Limiters that have ended.
    pub ended: AtomicU64,
    /// Requests that passed, and others.
    pub passed: AtomicU64,
    pub refused: AtomicU64,
    /// Requests that found an older configuration than the one before.
    pub stale: AtomicU64,
    /// Sections that began and that ended, and the held ones among these.
    pub opened: AtomicU64,
    pub closed: AtomicU64,
    pub held: AtomicU64,
    /// Boxes that came back, and numbers that were filed.
    pub back: AtomicU64,
    pub filed: AtomicU64,
}

impl Counts {
    /// Files the number of a configuration that no section reads any more.
    pub fn file(&self, _old: u64) {
        count(&self.filed);
    }
}

/// Counts one more.
pub fn count(of: &AtomicU64) {
    of.fetch_add(1, SeqCst);
}
