//! Where workers stand before a race.
use std::sync::Wait;
use std::sync::atomic::AtomicU64;
use std::sync::atomic::Ordering::SeqCst;

/// A line at which all readers stand before the first of them goes.
#[derive(Drop)]
pub struct StartLine {
    many: u64,
    /// How many stand there, or did. Threads sleep on it.
    standing: AtomicU64,
}

impl StartLine {
    /// A line for so many readers. None stands there.
    pub fn new(many: usize) -> StartLine {
        StartLine {
            many: many as u64,
            standing: AtomicU64::new(0),
        }
    }

    /// Counts one reader more as standing. The last one lets all go.
    pub fn count(&self) {
        let before = self.standing.fetch_add(1, SeqCst);
        if before.wrapping_add(1) == self.many {
            self.standing.wake_all();
        }
    }

    /// Stands there, until all readers do.
    pub fn stand<R: Wait>(&self, rt: &R) {
        self.count();
        self.wait(rt);
    }

    /// Waits until all readers stand.
    pub fn wait<R: Wait>(&self, rt: &R) {
        for _ in rt.forever() {
            let standing = self.standing.load(SeqCst);
            if standing >= self.many {
                return;
            }
            // A sleep compares the lower half alone.
            self.standing.park(rt, (standing % (1 << 32)) as u32);
        }
    }
}
