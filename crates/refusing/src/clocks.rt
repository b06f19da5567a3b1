//! A clock that tests set, and a watch that tells sleep from work.
use std::io;
use std::io::ErrorKind;
use std::sync::Wait;
use std::sync::atomic::AtomicU64;
use std::sync::atomic::Ordering::SeqCst;
use std::time::{Clock, CpuClock, Duration};

/// A machine whose clock goes on by a millisecond at each look, however long that takes.
#[derive(Drop)]
pub struct Ticks<'a, R> {
    /// The machine below it, which waits.
    pub rt: &'a R,
    /// How often the clock was looked at.
    pub looks: AtomicU64,
    /// How many looks there are until the clock can't be read.
    pub most: u64,
}

impl<'a, R> Ticks<'a, R> {
    pub fn new(rt: &'a R, most: u64) -> Ticks<'a, R> {
        Ticks {
            rt,
            looks: AtomicU64::new(0),
            most,
        }
    }
}

impl<R: Wait> Wait for Ticks<'_, R> {}

impl<R> Clock for Ticks<'_, R> {
    fn monotonic(&self) -> io::Result<Duration> {
        let look = self.looks.fetch_add(1, SeqCst);
        if look < self.most {
            Ok(Duration::from_millis(look))
        } else {
            Err(ErrorKind::Unsupported.into())
        }
    }

    fn since_1970(&self) -> io::Result<Duration> {
        self.monotonic()
    }
}

/// When a thread began to wait: by the clock, and by its own processor time.
#[derive(Clone, Copy)]
pub struct Watch {
    clock: Duration,
    own: Duration,
}

/// A time, or none where a clock can't be read.
fn or_none(time: io::Result<Duration>) -> Duration {
    time.unwrap_or(Duration::from_millis(0))
}

impl Watch {
    pub fn start<R: Clock + CpuClock>(rt: &R) -> Watch {
        Watch {
            clock: or_none(rt.monotonic()),
            own: or_none(rt.thread_cpu_time()),
        }
    }

    /// How long it was since then, and how much of that the thread was at work.
    fn since<R: Clock + CpuClock>(&self, rt: &R) -> (Duration, Duration) {
        let now = Watch::start(rt);
        (
            now.clock.saturating_sub(self.clock),
            now.own.saturating_sub(self.own),
        )
    }

    /// Whether that was a tenth of a second ago, and the thread slept for most of it.
    pub fn has_slept<R: Clock + CpuClock>(&self, rt: &R) -> bool {
        let (all, own) = self.since(rt);
        all >= Duration::from_millis(100) && own.saturating_mul(2) < all
    }

    /// Whether that was so many milliseconds ago at least, and so many at most.
    pub fn took<R: Clock + CpuClock>(&self, rt: &R, least: u64, most: u64) -> bool {
        let (all, _own) = self.since(rt);
        Duration::from_millis(least) <= all && all <= Duration::from_millis(most)
    }
}
