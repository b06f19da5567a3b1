//! A configuration that is replaced while it is read, and what is done once nobody reads the old one.
ghost use Rattle.std.specs.Prelude.{◌≡◌};

use srcu::Versioned;
use std::sync::atomic::Ordering::SeqCst;
use std::sync::atomic::{AtomicBool, AtomicU64};
use std::thread::sleep;
use std::time::{Clock, Duration};

/// The configuration: its number, twice. A reader that saw half of a change would find two numbers.
#[derive(Clone, Copy, Debug, PartialEq, Eq)]
pub struct Config {
    pub number: u64,
    pub again: u64,
}

impl Config {
    pub fn new(number: u64) -> Config
        ensures { result ≡ record { number = number; again = number } }
    {
        Config {
            number,
            again: number,
        }
    }

    /// Whether it is of one piece.
    pub fn is_whole(&self) -> bool {
        self.number == self.again
    }
}

/// It lies in the first two of a version's sixteen words.
impl Versioned for Config {
    ghost use Rattle.std.specs.Prelude.{◌∷◌, replicate, slice_index_or, refl};

    ghost fits = { λ _. Unit {0} };

    ghost text = { λ c. c.number ∷ c.again ∷ replicate 14 0 };

    ghost value = { λ words. record { number = slice_index_or words 0 0; again = slice_index_or words 1 0 } };

    ghost round_trip = { λ _ _. refl };

    fn encode(&self) -> [u64; 16] {
        let mut words = [0; 16];
        words[0] = self.number;
        words[1] = self.again;
        words
    }

    fn decode(words: &[u64; 16]) -> Config {
        Config {
            number: words[0],
            again: words[1],
        }
    }
}

/// A configuration that was replaced. Something is to be done once nobody reads it any more.
#[derive(Drop)]
pub struct Old {
    pub number: u64,
}

/// What was replaced and is read by nobody.
#[derive(Drop)]
pub struct Archive {
    count: AtomicU64,
    last: AtomicU64,
}

impl Archive {
    pub fn new() -> Archive {
        Archive {
            count: AtomicU64::new(0),
            last: AtomicU64::new(0),
        }
    }

    /// Nobody reads this one any more.
    pub fn file(&self, old: Old) {
        self.last.store(old.number, SeqCst);
        self.count.fetch_add(1, SeqCst);
    }

    /// How many lie there.
    pub fn count(&self) -> u64 {
        self.count.load(SeqCst)
    }

    /// How many lie there, and the number of the last one.
    pub fn told(&self) -> (u64, u64) {
        (self.count(), self.last.load(SeqCst))
    }
}

/// How often a thread looks, a millisecond apart, before it gives up.
pub const LOOKS: u32 = 10_000;

/// By which a reader tells that it has found its version, so that an updater replaces just that one.
#[derive(Drop)]
pub struct Sign {
    given: AtomicBool,
}

impl Sign {
    pub fn new() -> Sign {
        Sign {
            given: AtomicBool::new(false),
        }
    }

    pub fn give(&self) {
        self.given.store(true, SeqCst);
    }

    /// Waits until it is given, or has been looked for often enough.
    pub fn wait<R: Clock>(&self, rt: &R) {
        for _ in 0..LOOKS {
            if self.given.load(SeqCst) {
                break;
            }
            sleep(rt, Duration::from_millis(1));
        }
    }
}
