//! Pauses of a thread that waits for others.
ghost use Rattle.std.specs.Prelude.{◌≤◌, IfSome};
ghost use Rattle.std.specs.Duration.{as_nanos};

use std::sync::Wait;
use std::sync::atomic::AtomicU64;
use std::thread::yield_now;
use std::time::Duration;

/// How many pauses only let other threads run, before the first sleep: together about as long as a grace period takes.
const YIELDS: u32 = 16;

/// How many pauses only let other threads run after a sleep. A reader that sleeps in its section often wakes by the same tick
/// of the clock as the waiting thread, and ends the section just after that thread's look. So it looks once more before it
/// sleeps again.
const YIELDS_AWAKE: u32 = 1;

/// The shortest sleep, in microseconds. The kernel makes each one some 55 microseconds longer, so a shorter one gains nothing.
const SHORTEST: u64 = 10;

/// The longest one, in microseconds: a millisecond, so a thread never looks more than that late.
const LONGEST: u64 = 1_000;

/// A sleep is so many times shorter than all sleeps before it together. So a section that was open for long is found closed
/// after a small part of that, and a thread that waits for long looks rarely. A larger share costs more processor time, and
/// brings little: most of a short sleep is what the kernel adds.
const SHARE: u64 = 128;

/// The pauses of a thread that waits: it lets others run, and later it sleeps, ever longer.
#[derive(Clone, Copy)]
pub struct Pause {
    yields: u32,
    /// How long the sleeps were together, in microseconds.
    slept: u64,
}

impl Pause {
    /// The first pause is still to come.
    pub fn new() -> Pause {
        Pause {
            yields: YIELDS,
            slept: 0,
        }
    }

    /// The next pause is as the first one: there was something to do.
    pub fn reset(&mut self) {
        *self = Pause::new();
    }

    /// How long the next pause sleeps: a millisecond at most. None if it only lets other threads run.
    pub fn next(&mut self) -> Option<Duration>
        ensures { IfSome result (λ length. as_nanos length ≤ 1_000_000) }
    {
        if self.yields > 0 {
            self.yields -= 1;
            return None;
        }
        let length = (self.slept / SHARE).max(SHORTEST).min(LONGEST);
        self.slept = self.slept.saturating_add(length);
        self.yields = YIELDS_AWAKE;
        Some(Duration::from_micros(length))
    }

    /// Lets other threads run; later it sleeps where no thread wakes it.
    pub fn pause<R: Wait>(&mut self, rt: &R) {
        match self.next() {
            // The word is fresh, so no other thread can wake this one: the sleep lasts its time.
            Some(length) => AtomicU64::new(0).park_timeout(rt, 0, length),
            None => yield_now(),
        }
    }
}
